ghost use Rattle.std.specs.Prelude.{◌≡◌, IfOk};
ghost use Rattle.tal_builder.specs.Outcome.{Tells};
ghost use Rattle.tal_builder.specs.Parse.{argument_at, further_at, listed_at, arguments_at, call_at, answer_at};
ghost use Rattle.tal_builder.specs.Parse.{return_at, values_at, value_list_at, value_list_in, right_at, assign_at};
ghost use Rattle.tal_syntax.specs.Grammar as g;
ghost use Rattle.tal_syntax.specs.Seen.{seen_argument, seen_further, seen_arguments, seen_statement, seen_answer};
ghost use Rattle.tal_syntax.specs.Seen.{seen_values, seen_expr, seen_spot};

use crate::expression::{expr, spot};
use crate::first::{called_first, is_value, name_first, string_first};
use crate::plain_token::{PlainToken, expect, optional};
use crate::stop::BuildFault;
use gd_words::{Boxed, Ident, List, NoMemory};
use std::alloc::Global;
use tal_syntax::{
    Answer, Argument, ArgumentList, Arguments, Assign, AssignCall, Call, Expr, NextArgument,
    NextValue, Return, Spot, Statement,
};
use tal_tokens::{At, Token};

/// The values of a call on a right side, and where its parenthesis closes.
#[derive(Drop)]
struct ValueList {
    first: Boxed<Expr>,
    more: List<NextValue>,
    close: At,
}

/// `expr | string`
fn argument(alloc: Global, room: u8, tokens: &[Token]) -> Result<(Argument, &[Token]), BuildFault>
    ensures { Tells (λ r. (seen_argument r.0, r.1.now)) result (argument_at room tokens.now) }
{
    match string_first(tokens) {
        Some(found) => Ok(found),
        None => {
            let (value, rest) = expr(alloc, room, tokens)?;
            Ok((Argument::Value(value.into_inner()), rest))
        }
    }
}

/// `{ "," argument }`
fn more_arguments(
    alloc: Global,
    room: u8,
    tokens: &[Token],
) -> Result<(List<NextArgument>, &[Token]), BuildFault>
    ensures { Tells (λ r. (seen_further r.0, r.1.now)) result (further_at room tokens.now) }
{
    let mut all = List::new(alloc);
    let mut rest = tokens;
    for _turn in 0..tokens.len() {
        let Some((comma, after)) = optional(PlainToken::Comma, rest) else {
            return Ok((all, rest));
        };
        let (argument, after) = argument(alloc, room, after)?;
        all.push(NextArgument { comma, argument })?;
        rest = after;
    }
    Ok((all, rest))
}

/// `argument { "," argument } ")"`, after `(`
fn listed(
    alloc: Global,
    room: u8,
    start: At,
    tokens: &[Token],
) -> Result<(Arguments, &[Token]), BuildFault>
    ensures { Tells (λ r. (seen_arguments r.0, r.1.now)) result (listed_at room start tokens.now) }
{
    let (first, after) = argument(alloc, room, tokens)?;
    let (more, after) = more_arguments(alloc, room, after)?;
    let (close, rest) = expect(PlainToken::Close, after)?;
    let list = ArgumentList {
        start,
        first,
        more,
        close,
    };
    Ok((Arguments::Listed(list), rest))
}

/// `[ "(" argument { "," argument } ")" ]`, which opens a level
fn arguments(alloc: Global, room: u8, tokens: &[Token]) -> Result<(Arguments, &[Token]), BuildFault>
    ensures { Tells (λ r. (seen_arguments r.0, r.1.now)) result (arguments_at room tokens.now) }
{
    let Some((start, after)) = optional(PlainToken::Open, tokens) else {
        return Ok((Arguments::Absent, tokens));
    };
    if room == 0 {
        return Err(BuildFault::NoSyntax);
    }
    listed(alloc, room - 1, start, after)
}

/// `name arguments`, after CALL
#[inline(never)]
pub fn call(
    alloc: Global,
    room: u8,
    head: At,
    tokens: &[Token],
) -> Result<(Boxed<Statement>, &[Token]), BuildFault>
    ensures { Tells (λ r. (seen_statement r.0, r.1.now)) result (call_at room head tokens.now) }
{
    let Some((named, after)) = name_first(tokens) else {
        return Err(BuildFault::NoSyntax);
    };
    let (arguments, rest) = arguments(alloc, room, after)?;
    let call = Call {
        head,
        at: named.at,
        name: named.name,
        arguments,
    };
    let call = Boxed::new(alloc, call)?;
    let statement = Boxed::new(alloc, Statement::Call(call))?;
    Ok((statement, rest))
}

/// `[ expr ]`
fn answer(alloc: Global, room: u8, tokens: &[Token]) -> Result<(Answer, &[Token]), BuildFault>
    ensures { Tells (λ r. (seen_answer r.0, r.1.now)) result (answer_at room tokens.now) }
{
    if is_value(tokens) {
        let (value, rest) = expr(alloc, room, tokens)?;
        Ok((Answer::Value(value.into_inner()), rest))
    } else {
        Ok((Answer::Absent, tokens))
    }
}

/// `answer`, after RETURN
#[inline(never)]
pub fn return_of(
    alloc: Global,
    room: u8,
    head: At,
    tokens: &[Token],
) -> Result<(Boxed<Statement>, &[Token]), BuildFault>
    ensures { Tells (λ r. (seen_statement r.0, r.1.now)) result (return_at room head tokens.now) }
{
    let (answer, rest) = answer(alloc, room, tokens)?;
    let back = Boxed::new(alloc, Return { head, answer })?;
    let statement = Boxed::new(alloc, Statement::Return(back))?;
    Ok((statement, rest))
}

/// `{ "," expr }`
fn more_values(
    alloc: Global,
    room: u8,
    tokens: &[Token],
) -> Result<(List<NextValue>, &[Token]), BuildFault>
    ensures { Tells (λ r. (seen_values r.0, r.1.now)) result (values_at room tokens.now) }
{
    let mut all = List::new(alloc);
    let mut rest = tokens;
    for _turn in 0..tokens.len() {
        let Some((comma, after)) = optional(PlainToken::Comma, rest) else {
            return Ok((all, rest));
        };
        let (value, after) = expr(alloc, room, after)?;
        let value = value.into_inner();
        all.push(NextValue { comma, value })?;
        rest = after;
    }
    Ok((all, rest))
}

/// `expr { "," expr } ")"`, after `(`
fn value_list(
    alloc: Global,
    room: u8,
    tokens: &[Token],
) -> Result<(ValueList, &[Token]), BuildFault>
    ensures { Tells (λ r. ((seen_expr r.0.first, seen_values r.0.more, r.0.close), r.1.now)) result
        (value_list_at room tokens.now) }
{
    let (first, after) = expr(alloc, room, tokens)?;
    let (more, after) = more_values(alloc, room, after)?;
    let (close, rest) = expect(PlainToken::Close, after)?;
    Ok((ValueList { first, more, close }, rest))
}

/// The same where the parenthesis opens the first of so many levels.
fn value_list_within(
    alloc: Global,
    room: u8,
    tokens: &[Token],
) -> Result<(ValueList, &[Token]), BuildFault>
    ensures { Tells (λ r. ((seen_expr r.0.first, seen_values r.0.more, r.0.close), r.1.now)) result
        (value_list_in room tokens.now) }
{
    if room == 0 {
        return Err(BuildFault::NoSyntax);
    }
    value_list(alloc, room - 1, tokens)
}

/// `spot ":=" expr`
#[inline(never)]
fn assign_of(
    alloc: Global,
    target: Boxed<Spot>,
    at: At,
    value: Boxed<Expr>,
) -> Result<Boxed<Statement>, NoMemory>
    ensures { IfOk result (λ s. seen_statement s ≡ g.assign (seen_spot target) at (seen_expr value)) }
{
    let target = target.into_inner();
    let value = value.into_inner();
    let assign = Boxed::new(alloc, Assign { target, at, value })?;
    let statement = Boxed::new(alloc, Statement::Assign(assign))?;
    Ok(statement)
}

/// `spot ":=" name "(" expr { "," expr } ")"`
#[inline(never)]
fn assign_call_of(
    alloc: Global,
    target: Boxed<Spot>,
    at: At,
    name_at: At,
    name: Ident,
    start: At,
    values: ValueList,
) -> Result<Boxed<Statement>, NoMemory>
    ensures { IfOk result (λ s. seen_statement s
        ≡ g.assign_call (seen_spot target) at name_at name start (seen_expr values.first) (seen_values values.more)
        values.close) }
{
    let target = target.into_inner();
    let ValueList { first, more, close } = values;
    let first = first.into_inner();
    let assign = AssignCall {
        target,
        at,
        name_at,
        name,
        start,
        first,
        more,
        close,
    };
    let assign = Boxed::new(alloc, assign)?;
    let statement = Boxed::new(alloc, Statement::AssignCall(assign))?;
    Ok(statement)
}

/// What stands behind `:=`: a call where a name stands directly before `(`, or else an expression.
fn right_side(
    alloc: Global,
    room: u8,
    target: Boxed<Spot>,
    at: At,
    tokens: &[Token],
) -> Result<(Boxed<Statement>, &[Token]), BuildFault>
    ensures { Tells (λ r. (seen_statement r.0, r.1.now)) result (right_at room (seen_spot target) at tokens.now) }
{
    let Some((name_at, name, start, after)) = called_first(tokens) else {
        let (value, rest) = expr(alloc, room, tokens)?;
        let statement = assign_of(alloc, target, at, value)?;
        return Ok((statement, rest));
    };
    let (values, rest) = value_list_within(alloc, room, after)?;
    let statement = assign_call_of(alloc, target, at, name_at, name, start, values)?;
    Ok((statement, rest))
}

/// `spot ":=" expr | spot ":=" name "(" expr { "," expr } ")"`
#[inline(never)]
pub fn assignment(
    alloc: Global,
    room: u8,
    tokens: &[Token],
) -> Result<(Boxed<Statement>, &[Token]), BuildFault>
    ensures { Tells (λ r. (seen_statement r.0, r.1.now)) result (assign_at room tokens.now) }
{
    let (target, after) = spot(alloc, room, tokens)?;
    let (at, after) = expect(PlainToken::Assign, after)?;
    right_side(alloc, room, target, at, after)
}
