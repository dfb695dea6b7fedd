ghost use Rattle.std.specs.Prelude.{◌≡◌};
ghost use Rattle.tal_names.specs.Faults.{rule_number, which_of, is_before, earlier, least, fault_at, if_so, answer_of};

use crate::fault::{Rule, RuleFault};
use tal_syntax::{At, TalFault};

/// The number by which one of two faults at a place goes before the other.
fn rule_number(rule: Rule) -> u8
    ensures { result ≡ rule_number rule }
{
    match rule {
        Rule::Unknown => 6,
        Rule::Twice => 7,
        Rule::WrongKind => 8,
        Rule::NotBefore => 9,
        Rule::Prologue => 10,
        Rule::Limit(_) => 11,
        Rule::NoMain => 12,
    }
}

/// The number by which one of two limits at a place goes before the other.
fn which_of(rule: Rule) -> u8
    ensures { result ≡ which_of rule }
{
    match rule {
        Rule::Limit(limit) => limit.number(),
        Rule::Unknown
        | Rule::Twice
        | Rule::WrongKind
        | Rule::NotBefore
        | Rule::Prologue
        | Rule::NoMain => 0,
    }
}

/// Whether a fault goes before another.
fn is_before(fault: RuleFault, other: RuleFault) -> bool
    ensures { result ≡ is_before fault other }
{
    let place = fault.place;
    let other_place = other.place;
    if place.line != other_place.line {
        return place.line < other_place.line;
    }
    if place.column != other_place.column {
        return place.column < other_place.column;
    }
    let number = rule_number(fault.rule);
    let other_number = rule_number(other.rule);
    if number != other_number {
        return number < other_number;
    }
    which_of(fault.rule) < which_of(other.rule)
}

/// The one of a fault so far and another that goes before.
fn earlier(so_far: Option<RuleFault>, fault: RuleFault) -> Option<RuleFault>
    ensures { result ≡ earlier so_far fault }
{
    match so_far {
        None => Some(fault),
        Some(before) => {
            if is_before(fault, before) {
                Some(fault)
            } else {
                Some(before)
            }
        }
    }
}

/// The least of a fault so far and one at a token.
pub fn with_fault(so_far: Option<RuleFault>, at: At, rule: Rule) -> Option<RuleFault>
    ensures { result ≡ least so_far (fault_at at rule) }
{
    earlier(
        so_far,
        RuleFault {
            place: at.place,
            rule,
        },
    )
}

/// The least of a fault so far and, where the condition holds, one at a token.
pub fn with_fault_if(
    so_far: Option<RuleFault>,
    holds: bool,
    at: At,
    rule: Rule,
) -> Option<RuleFault>
    ensures { result ≡ least so_far (if_so holds (fault_at at rule)) }
{
    if holds {
        with_fault(so_far, at, rule)
    } else {
        so_far
    }
}

/// The fault as it is answered.
pub fn answer_of(fault: RuleFault) -> TalFault
    ensures { result ≡ answer_of fault }
{
    let place = fault.place;
    match fault.rule {
        Rule::Unknown => TalFault::Unknown(place),
        Rule::Twice => TalFault::Twice(place),
        Rule::WrongKind => TalFault::WrongKind(place),
        Rule::NotBefore => TalFault::NotBefore(place),
        Rule::Prologue => TalFault::Prologue(place),
        Rule::Limit(limit) => TalFault::Limit(limit, place),
        Rule::NoMain => TalFault::NoMain(place),
    }
}
