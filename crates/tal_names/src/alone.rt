ghost use Rattle.std.specs.Prelude.{◌≡◌, option_map, slice_get, length};
ghost use Rattle.std.specs.Option.{option_copied, option_and_then};
ghost use Rattle.tal_names.specs.Places.{factor_of_product, factor_of_sum, factor_of_neg, factor_of_both};
ghost use Rattle.tal_names.specs.Places.{factor_of_expr, name_of_factor, name_of_expr, name_of_argument, front_of_sum};
ghost use Rattle.tal_names.specs.Places.{front_of_neg, front_of_expr, front_name_of_factor, front_name_of_argument};
ghost use Rattle.tal_names.specs.Places.{atom_of_factor, arguments_of, constant_of_factor, constant_of_expr};
ghost use Rattle.tal_names.specs.Places.{constant_of};
ghost use Rattle.tal_syntax.specs.Seen.{seen_atom, seen_constant, seen_factor, seen_product, seen_sum, seen_neg};
ghost use Rattle.tal_syntax.specs.Seen.{seen_both, seen_expr, seen_argument, seen_arguments};

use crate::scope::Named;
use tal_syntax::{
    Argument, Arguments, Atom, Both, Compared, Constant, Expr, Factor, Index, Neg, Product, Sum,
};

/// The factor that a product is alone.
#[tactic(auto, using(crate::proofs::Opens::opens))]
fn factor_of_product(product: &Product) -> Option<&Factor>
    ensures { option_map seen_factor (option_copied result) ≡ factor_of_product (seen_product product.now) }
{
    match product.more.as_slice().split_first() {
        None => Some(&product.first),
        Some(_) => None,
    }
}

/// The factor that a sum is alone.
#[tactic(auto, using(crate::proofs::Opens::opens))]
fn factor_of_sum(sum: &Sum) -> Option<&Factor>
    ensures { option_map seen_factor (option_copied result) ≡ factor_of_sum (seen_sum sum.now) }
{
    match sum.more.as_slice().split_first() {
        None => factor_of_product(&sum.first),
        Some(_) => None,
    }
}

/// The factor that a relation is alone.
fn factor_of_neg(neg: &Neg) -> Option<&Factor>
    ensures { option_map seen_factor (option_copied result) ≡ factor_of_neg (seen_neg neg.now) }
{
    match neg {
        Neg::Not(_, _) => None,
        Neg::Relation(sum, compared) => match compared {
            Compared::Alone => factor_of_sum(sum),
            Compared::With(_, _) => None,
        },
    }
}

/// The factor that a chain of AND is alone.
#[tactic(auto, using(crate::proofs::Opens::opens))]
fn factor_of_both(both: &Both) -> Option<&Factor>
    ensures { option_map seen_factor (option_copied result) ≡ factor_of_both (seen_both both.now) }
{
    match both.more.as_slice().split_first() {
        None => factor_of_neg(&both.first),
        Some(_) => None,
    }
}

/// The factor that an expression is alone, without any operator.
#[tactic(auto, using(crate::proofs::Opens::opens))]
fn factor_of_expr(expr: &Expr) -> Option<&Factor>
    ensures { option_map seen_factor (option_copied result) ≡ factor_of_expr (seen_expr expr.now) }
{
    match expr.more.as_slice().split_first() {
        None => factor_of_both(&expr.first),
        Some(_) => None,
    }
}

/// The name that a factor is alone.
fn name_of_factor(factor: &Factor) -> Option<Named>
    ensures { result ≡ name_of_factor (seen_factor factor.now) }
{
    match factor {
        Factor::Minus(_, _) => None,
        Factor::Number(_, _) => None,
        Factor::Spot(spot) => match &spot.index {
            Index::Simple => Some(Named {
                at: spot.at,
                name: spot.name,
            }),
            Index::Element(_, _, _) => None,
        },
        Factor::Parens(_, _, _) => None,
    }
}

/// The factor with which a sum begins.
#[tactic(auto, using(crate::proofs::Opens::opens))]
fn front_of_sum(sum: &Sum) -> &Factor
    ensures { seen_factor result.now ≡ front_of_sum (seen_sum sum.now) }
{
    &sum.first.first
}

/// The factor with which a relation begins.
fn front_of_neg(neg: &Neg) -> Option<&Factor>
    ensures { option_map seen_factor (option_copied result) ≡ front_of_neg (seen_neg neg.now) }
{
    match neg {
        Neg::Not(_, _) => None,
        Neg::Relation(sum, _) => Some(front_of_sum(sum)),
    }
}

/// The factor with which an expression begins.
#[tactic(auto, using(crate::proofs::Opens::opens))]
fn front_of_expr(expr: &Expr) -> Option<&Factor>
    ensures { option_map seen_factor (option_copied result) ≡ front_of_expr (seen_expr expr.now) }
{
    front_of_neg(&expr.first.first)
}

/// The name with which a factor begins.
fn front_name_of_factor(factor: &Factor) -> Option<Named>
    ensures { result ≡ front_name_of_factor (seen_factor factor.now) }
{
    match factor {
        Factor::Minus(_, _) => None,
        Factor::Number(_, _) => None,
        Factor::Spot(spot) => Some(Named {
            at: spot.at,
            name: spot.name,
        }),
        Factor::Parens(_, _, _) => None,
    }
}

/// The name with which an expression begins.
fn front_name_of_expr(expr: &Expr) -> Option<Named>
    ensures { result ≡ option_and_then front_name_of_factor (front_of_expr (seen_expr expr.now)) }
{
    match front_of_expr(expr) {
        None => None,
        Some(factor) => front_name_of_factor(factor),
    }
}

/// The name with which an argument begins, where its first token is one.
pub fn front_name_of_argument(argument: &Argument) -> Option<Named>
    ensures { result ≡ front_name_of_argument (seen_argument argument.now) }
{
    match argument {
        Argument::Value(value) => front_name_of_expr(value),
        Argument::Receive(_) => None,
        Argument::Process(_, _) => None,
        Argument::Quoted(_) => None,
    }
}

/// The name that an expression is alone.
pub fn name_of_expr(expr: &Expr) -> Option<Named>
    ensures { result ≡ name_of_expr (seen_expr expr.now) }
{
    match factor_of_expr(expr) {
        None => None,
        Some(factor) => name_of_factor(factor),
    }
}

/// The name that an argument is alone.
pub fn name_of_argument(argument: &Argument) -> Option<Named>
    ensures { result ≡ name_of_argument (seen_argument argument.now) }
{
    match argument {
        Argument::Value(expr) => name_of_expr(expr),
        Argument::Receive(_) => None,
        Argument::Process(_, _) => None,
        Argument::Quoted(_) => None,
    }
}

/// The number or name that a factor is alone.
fn atom_of_factor(factor: &Factor) -> Option<Atom>
    ensures { option_map seen_atom result ≡ atom_of_factor (seen_factor factor.now) }
{
    match factor {
        Factor::Minus(_, _) => None,
        Factor::Number(at, value) => Some(Atom::Number(*at, *value)),
        Factor::Spot(spot) => match &spot.index {
            Index::Simple => Some(Atom::Name(spot.at, spot.name)),
            Index::Element(_, _, _) => None,
        },
        Factor::Parens(_, _, _) => None,
    }
}

/// The constant that a factor is by its form.
fn constant_of_factor(factor: &Factor) -> Option<Constant>
    ensures { option_map seen_constant result ≡ constant_of_factor (seen_factor factor.now) }
{
    match factor {
        Factor::Minus(sign, inner) => match atom_of_factor(inner.get()) {
            None => None,
            Some(atom) => Some(Constant::Negative(*sign, atom)),
        },
        _ => match atom_of_factor(factor) {
            None => None,
            Some(atom) => Some(Constant::Positive(atom)),
        },
    }
}

/// The constant that an expression is by its form.
fn constant_of_expr(expr: &Expr) -> Option<Constant>
    ensures { option_map seen_constant result ≡ constant_of_expr (seen_expr expr.now) }
{
    match factor_of_expr(expr) {
        None => None,
        Some(factor) => constant_of_factor(factor),
    }
}

/// The constant that an argument is by its form.
pub fn constant_of(argument: &Argument) -> Option<Constant>
    ensures { option_map seen_constant result ≡ constant_of (seen_argument argument.now) }
{
    match argument {
        Argument::Value(expr) => constant_of_expr(expr),
        Argument::Receive(_) => None,
        Argument::Process(_, _) => None,
        Argument::Quoted(_) => None,
    }
}

/// The argument at a place, counted from 0.
pub fn argument(arguments: &Arguments, place: usize) -> Option<&Argument>
    ensures { option_map seen_argument (option_copied result)
        ≡ slice_get (arguments_of (seen_arguments arguments.now)) place }
{
    match arguments {
        Arguments::Absent => None,
        Arguments::Listed(list) => {
            if place == 0 {
                return Some(&list.first);
            }
            match list.more.get(place - 1) {
                None => None,
                Some(next) => Some(&next.argument),
            }
        }
    }
}

/// How many arguments there are.
pub fn argument_count(arguments: &Arguments) -> usize
    ensures { result ≡ length (arguments_of (seen_arguments arguments.now)) }
{
    match arguments {
        Arguments::Absent => 0,
        Arguments::Listed(list) => list.more.as_slice().len() + 1,
    }
}
