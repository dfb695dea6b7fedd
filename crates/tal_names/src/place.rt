ghost use Rattle.std.specs.Prelude.{◌≡◌};
ghost use Rattle.tal_names.specs.Places.{first_of_spot, first_of_factor, first_of_product, first_of_sum, first_of_neg};
ghost use Rattle.tal_names.specs.Places.{first_of_both, first_of_expr, first_of_argument};
ghost use Rattle.tal_syntax.specs.Seen.{seen_spot, seen_factor, seen_product, seen_sum, seen_neg, seen_both, seen_expr};
ghost use Rattle.tal_syntax.specs.Seen.{seen_argument};

use tal_syntax::{Argument, At, Both, Expr, Factor, Neg, Product, Sum};

/// The first token of a factor.
pub fn at_of_factor(factor: &Factor) -> At
    ensures { result ≡ first_of_factor (seen_factor factor.now) }
{
    match factor {
        Factor::Minus(at, _) => *at,
        Factor::Number(at, _) => *at,
        Factor::Spot(spot) => spot.at,
        Factor::Parens(start, _, _) => *start,
    }
}

/// The first token of a product.
#[tactic(auto, using(crate::proofs::Opens::opens))]
pub fn at_of_product(product: &Product) -> At
    ensures { result ≡ first_of_product (seen_product product.now) }
{
    at_of_factor(&product.first)
}

/// The first token of a sum.
#[tactic(auto, using(crate::proofs::Opens::opens))]
pub fn at_of_sum(sum: &Sum) -> At
    ensures { result ≡ first_of_sum (seen_sum sum.now) }
{
    at_of_product(&sum.first)
}

/// The first token of a relation or of its NOT.
pub fn at_of_neg(neg: &Neg) -> At
    ensures { result ≡ first_of_neg (seen_neg neg.now) }
{
    match neg {
        Neg::Not(at, _) => *at,
        Neg::Relation(sum, _) => at_of_sum(sum),
    }
}

/// The first token of a chain of AND.
#[tactic(auto, using(crate::proofs::Opens::opens))]
pub fn at_of_both(both: &Both) -> At
    ensures { result ≡ first_of_both (seen_both both.now) }
{
    at_of_neg(&both.first)
}

/// The first token of an expression.
#[tactic(auto, using(crate::proofs::Opens::opens))]
pub fn at_of_expr(expr: &Expr) -> At
    ensures { result ≡ first_of_expr (seen_expr expr.now) }
{
    at_of_both(&expr.first)
}

/// The first token of an argument.
pub fn at_of_argument(argument: &Argument) -> At
    ensures { result ≡ first_of_argument (seen_argument argument.now) }
{
    match argument {
        Argument::Value(value) => at_of_expr(value),
        Argument::Receive(at) => *at,
        Argument::Process(at, _) => *at,
        Argument::Quoted(at) => *at,
    }
}
