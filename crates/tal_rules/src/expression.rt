ghost use Rattle.std.specs.Prelude.{◌≡◌};
ghost use Rattle.tal_rules.specs.Expressions.{misplaced, ors_misplaced, wanted_by_ors, ands_misplaced, wanted_by_ands};
ghost use Rattle.tal_rules.specs.Expressions.{relation_misplaced, wanted_by_relation, wanted_by_terms};
ghost use Rattle.tal_rules.specs.Expressions.{wanted_by_factors, need_by_index, expr_faults, both_faults, neg_faults};
ghost use Rattle.tal_rules.specs.Expressions.{compared_faults, sum_faults, product_faults, factor_faults, spot_faults};
ghost use Rattle.tal_rules.specs.Expressions.{index_faults, value_faults};
ghost use Rattle.tal_names.specs.Faults.{least};
ghost use Rattle.tal_syntax.specs.Seen.{seen_spot, seen_index, seen_factor, seen_factors, seen_product, seen_terms};
ghost use Rattle.tal_syntax.specs.Seen.{seen_sum, seen_compared, seen_neg, seen_ands, seen_both, seen_ors, seen_expr};

use tal_names::fault::{Rule, RuleFault};
use tal_names::least::with_fault;
use tal_names::lookup::judge_name;
use tal_names::meaning::{Need, Wanted};
use tal_names::place::{at_of_expr, at_of_factor, at_of_product, at_of_sum};
use tal_names::scope::Scope;
use tal_syntax::{
    At, Both, Compared, Expr, Factor, Index, Neg, NextBoth, NextFactor, NextNeg, Product, Spot,
    Sum, Term,
};

/// A condition stands there.
fn misplaced(wanted: Wanted, so_far: Option<RuleFault>) -> Option<RuleFault>
    ensures { result ≡ least so_far (misplaced wanted) }
{
    match wanted {
        Wanted::Condition => so_far,
        Wanted::Value(at) => with_fault(so_far, at, Rule::WrongKind),
    }
}

fn judge_ors(wanted: Wanted, more: &[NextBoth], so_far: Option<RuleFault>) -> Option<RuleFault>
    ensures { result ≡ least so_far (ors_misplaced wanted (seen_ors more.now)) }
{
    match more.split_first() {
        None => so_far,
        Some(_) => misplaced(wanted, so_far),
    }
}

fn wanted_by_ors(wanted: Wanted, more: &[NextBoth]) -> Wanted
    ensures { result ≡ wanted_by_ors wanted (seen_ors more.now) }
{
    match more.split_first() {
        None => wanted,
        Some(_) => Wanted::Condition,
    }
}

fn judge_ands(wanted: Wanted, more: &[NextNeg], so_far: Option<RuleFault>) -> Option<RuleFault>
    ensures { result ≡ least so_far (ands_misplaced wanted (seen_ands more.now)) }
{
    match more.split_first() {
        None => so_far,
        Some(_) => misplaced(wanted, so_far),
    }
}

fn wanted_by_ands(wanted: Wanted, more: &[NextNeg]) -> Wanted
    ensures { result ≡ wanted_by_ands wanted (seen_ands more.now) }
{
    match more.split_first() {
        None => wanted,
        Some(_) => Wanted::Condition,
    }
}

fn judge_relation(
    wanted: Wanted,
    compared: &Compared,
    so_far: Option<RuleFault>,
) -> Option<RuleFault>
    ensures { result ≡ least so_far (relation_misplaced wanted (seen_compared compared.now)) }
{
    match compared {
        Compared::Alone => so_far,
        Compared::With(_, _) => misplaced(wanted, so_far),
    }
}

fn wanted_by_relation(wanted: Wanted, at: At, compared: &Compared) -> Wanted
    ensures { result ≡ wanted_by_relation wanted at (seen_compared compared.now) }
{
    match compared {
        Compared::Alone => wanted,
        Compared::With(_, _) => Wanted::Value(at),
    }
}

fn wanted_by_terms(wanted: Wanted, at: At, more: &[Term]) -> Wanted
    ensures { result ≡ wanted_by_terms wanted at (seen_terms more.now) }
{
    match more.split_first() {
        None => wanted,
        Some(_) => Wanted::Value(at),
    }
}

fn wanted_by_factors(wanted: Wanted, at: At, more: &[NextFactor]) -> Wanted
    ensures { result ≡ wanted_by_factors wanted at (seen_factors more.now) }
{
    match more.split_first() {
        None => wanted,
        Some(_) => Wanted::Value(at),
    }
}

fn need_by_index(need: Need, index: &Index) -> Need
    ensures { result ≡ need_by_index need (seen_index index.now) }
{
    match index {
        Index::Simple => need,
        Index::Element(_, _, _) => Need::Array,
    }
}

/// Judges an expression.
#[cycle(judge)]
pub fn judge_expr(
    expr: &Expr,
    scope: &Scope,
    wanted: Wanted,
    so_far: Option<RuleFault>,
) -> Option<RuleFault>
    ensures { result ≡ least so_far (expr_faults scope.now wanted (seen_expr expr.now)) }
{
    let more = expr.more.as_slice();
    let so_far = judge_ors(wanted, more, so_far);
    let mut so_far = judge_both(&expr.first, scope, wanted_by_ors(wanted, more), so_far);
    for next in more {
        so_far = judge_both(&next.both, scope, Wanted::Condition, so_far);
    }
    so_far
}

#[cycle(judge)]
fn judge_both(
    both: &Both,
    scope: &Scope,
    wanted: Wanted,
    so_far: Option<RuleFault>,
) -> Option<RuleFault>
    ensures { result ≡ least so_far (both_faults scope.now wanted (seen_both both.now)) }
{
    let more = both.more.as_slice();
    let so_far = judge_ands(wanted, more, so_far);
    let mut so_far = judge_neg(&both.first, scope, wanted_by_ands(wanted, more), so_far);
    for next in more {
        so_far = judge_neg(&next.neg, scope, Wanted::Condition, so_far);
    }
    so_far
}

#[cycle(judge)]
#[tactic(auto, using(crate::proofs::Parts::parts))]
fn judge_neg(
    neg: &Neg,
    scope: &Scope,
    wanted: Wanted,
    so_far: Option<RuleFault>,
) -> Option<RuleFault>
    ensures { result ≡ least so_far (neg_faults scope.now wanted (seen_neg neg.now)) }
{
    match neg {
        Neg::Not(_, inner) => {
            let so_far = misplaced(wanted, so_far);
            judge_neg(inner.get(), scope, Wanted::Condition, so_far)
        }
        Neg::Relation(sum, compared) => {
            let so_far = judge_relation(wanted, compared, so_far);
            let wanted = wanted_by_relation(wanted, at_of_sum(sum), compared);
            let so_far = judge_sum(sum, scope, wanted, so_far);
            judge_compared(compared, scope, so_far)
        }
    }
}

#[cycle(judge)]
fn judge_compared(
    compared: &Compared,
    scope: &Scope,
    so_far: Option<RuleFault>,
) -> Option<RuleFault>
    ensures { result ≡ least so_far (compared_faults scope.now (seen_compared compared.now)) }
{
    match compared {
        Compared::Alone => so_far,
        Compared::With(_, sum) => judge_sum(sum, scope, Wanted::Value(at_of_sum(sum)), so_far),
    }
}

#[cycle(judge)]
fn judge_sum(
    sum: &Sum,
    scope: &Scope,
    wanted: Wanted,
    so_far: Option<RuleFault>,
) -> Option<RuleFault>
    ensures { result ≡ least so_far (sum_faults scope.now wanted (seen_sum sum.now)) }
{
    let more = sum.more.as_slice();
    let wanted = wanted_by_terms(wanted, at_of_product(&sum.first), more);
    let mut so_far = judge_product(&sum.first, scope, wanted, so_far);
    for term in more {
        let at = at_of_product(&term.product);
        so_far = judge_product(&term.product, scope, Wanted::Value(at), so_far);
    }
    so_far
}

#[cycle(judge)]
fn judge_product(
    product: &Product,
    scope: &Scope,
    wanted: Wanted,
    so_far: Option<RuleFault>,
) -> Option<RuleFault>
    ensures { result ≡ least so_far (product_faults scope.now wanted (seen_product product.now)) }
{
    let more = product.more.as_slice();
    let wanted = wanted_by_factors(wanted, at_of_factor(&product.first), more);
    let mut so_far = judge_factor(&product.first, scope, wanted, so_far);
    for next in more {
        let at = at_of_factor(&next.factor);
        so_far = judge_factor(&next.factor, scope, Wanted::Value(at), so_far);
    }
    so_far
}

#[cycle(judge)]
fn judge_factor(
    factor: &Factor,
    scope: &Scope,
    wanted: Wanted,
    so_far: Option<RuleFault>,
) -> Option<RuleFault>
    ensures { result ≡ least so_far (factor_faults scope.now wanted (seen_factor factor.now)) }
{
    match factor {
        Factor::Minus(_, inner) => {
            let inner = inner.get();
            judge_factor(inner, scope, Wanted::Value(at_of_factor(inner)), so_far)
        }
        Factor::Number(_, _) => so_far,
        Factor::Spot(spot) => judge_spot(spot, scope, Need::Readable, so_far),
        Factor::Parens(_, inner, _) => judge_expr(inner.get(), scope, wanted, so_far),
    }
}

/// Judges a name, which without an index has to be what is needed, and its index.
#[cycle(judge)]
pub fn judge_spot(
    spot: &Spot,
    scope: &Scope,
    need: Need,
    so_far: Option<RuleFault>,
) -> Option<RuleFault>
    ensures { result ≡ least so_far (spot_faults scope.now need (seen_spot spot.now)) }
{
    let need = need_by_index(need, &spot.index);
    let so_far = judge_name(scope, need, spot.at, spot.name, so_far);
    judge_index(&spot.index, scope, so_far)
}

#[cycle(judge)]
fn judge_index(index: &Index, scope: &Scope, so_far: Option<RuleFault>) -> Option<RuleFault>
    ensures { result ≡ least so_far (index_faults scope.now (seen_index index.now)) }
{
    match index {
        Index::Simple => so_far,
        Index::Element(_, inner, _) => {
            let inner = inner.get();
            judge_expr(inner, scope, Wanted::Value(at_of_expr(inner)), so_far)
        }
    }
}

/// Judges an expression in the place of a value.
pub fn judge_value(expr: &Expr, scope: &Scope, so_far: Option<RuleFault>) -> Option<RuleFault>
    ensures { result ≡ least so_far (value_faults scope.now (seen_expr expr.now)) }
{
    judge_expr(expr, scope, Wanted::Value(at_of_expr(expr)), so_far)
}
