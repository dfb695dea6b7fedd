ghost use Rattle.std.specs.Prelude.{◌≡◌};
ghost use Rattle.tal_builder.specs.Outcome.{Gives, Tells};
ghost use Rattle.tal_builder.specs.Parse.{row_at, block_by, otherwise_by, if_by, while_by, for_by, do_by};
ghost use Rattle.tal_builder.specs.Parse.{begun_by, step_at, statement_at};
ghost use Rattle.tal_syntax.specs.Seen.{seen_step, seen_statement, seen_otherwise, seen_row};

use crate::expression::expr;
use crate::first::{direction, is_begun, name_first};
use crate::globals::constant;
use crate::plain_token::{PlainToken, expect, optional};
use crate::simple::{assignment, call, return_of};
use crate::statement_parts::{
    add_statement, block_of, do_of, for_head_of, for_of, if_of, nothing_of, test_of, until_of,
    while_of,
};
use crate::stop::BuildFault;
use gd_words::{Boxed, List};
use std::alloc::Global;
use tal_syntax::{Next, Otherwise, Statement, Step};
use tal_tokens::{At, Token};

/// A statement in which so many levels may be opened, its own among them.
#[cycle(statement)]
pub fn statement(
    alloc: Global,
    room: u8,
    tokens: &[Token],
) -> Result<(Boxed<Statement>, &[Token]), BuildFault>
    ensures { Tells (λ r. (seen_statement r.0, r.1.now)) result (statement_at room tokens.now) }
{
    if !is_begun(tokens) {
        let statement = nothing_of(alloc)?;
        return Ok((statement, tokens));
    }
    if room == 0 {
        return Err(BuildFault::NoSyntax);
    }
    begun(alloc, room - 1, tokens)
}

/// `{ ";" statement }`
#[cycle(statement)]
pub fn row(alloc: Global, room: u8, tokens: &[Token]) -> Result<(List<Next>, &[Token]), BuildFault>
    ensures { Tells (λ r. (seen_row r.0, r.1.now)) result (row_at room tokens.now) }
{
    let mut all = List::new(alloc);
    let mut rest = tokens;
    for _turn in 0..tokens.len() {
        let Some((semicolon, after)) = optional(PlainToken::Semicolon, rest) else {
            return Ok((all, rest));
        };
        let (statement, after) = statement(alloc, room, after)?;
        add_statement(&mut all, semicolon, statement)?;
        rest = after;
    }
    Ok((all, rest))
}

/// A statement that isn't empty, in which so many levels may be opened.
#[cycle(statement)]
fn begun(
    alloc: Global,
    room: u8,
    tokens: &[Token],
) -> Result<(Boxed<Statement>, &[Token]), BuildFault>
    ensures { Tells (λ r. (seen_statement r.0, r.1.now)) result (begun_by (statement_at room) room tokens.now) }
{
    let Some((first, rest)) = tokens.split_first() else {
        return assignment(alloc, room, tokens);
    };
    match *first {
        Token::Begin(at) => block(alloc, room, at, rest),
        Token::If(at) => if_then(alloc, room, at, rest),
        Token::While(at) => while_loop(alloc, room, at, rest),
        Token::For(at) => for_loop(alloc, room, at, rest),
        Token::Do(at) => do_loop(alloc, room, at, rest),
        Token::Call(at) => call(alloc, room, at, rest),
        Token::Return(at) => return_of(alloc, room, at, rest),
        _ => assignment(alloc, room, tokens),
    }
}

/// `statement { ";" statement } END`, after BEGIN
#[cycle(statement)]
fn block(
    alloc: Global,
    room: u8,
    begin: At,
    tokens: &[Token],
) -> Result<(Boxed<Statement>, &[Token]), BuildFault>
    ensures { Tells (λ r. (seen_statement r.0, r.1.now)) result (block_by (statement_at room) begin tokens.now) }
{
    let (first, after) = statement(alloc, room, tokens)?;
    let (more, after) = row(alloc, room, after)?;
    let (end, rest) = expect(PlainToken::End, after)?;
    let statement = block_of(alloc, begin, first, more, end)?;
    Ok((statement, rest))
}

/// `[ ELSE statement ]`
#[cycle(statement)]
fn otherwise(alloc: Global, room: u8, tokens: &[Token]) -> Result<(Otherwise, &[Token]), BuildFault>
    ensures { Tells (λ r. (seen_otherwise r.0, r.1.now)) result (otherwise_by (statement_at room) tokens.now) }
{
    let Some((at, after)) = optional(PlainToken::Else, tokens) else {
        return Ok((Otherwise::Absent, tokens));
    };
    let (inner, rest) = statement(alloc, room, after)?;
    Ok((Otherwise::Else(at, inner), rest))
}

/// `expr THEN statement [ ELSE statement ]`, after IF
#[cycle(statement)]
fn if_then(
    alloc: Global,
    room: u8,
    head: At,
    tokens: &[Token],
) -> Result<(Boxed<Statement>, &[Token]), BuildFault>
    ensures { Tells (λ r. (seen_statement r.0, r.1.now)) result (if_by (statement_at room) room head tokens.now) }
{
    let (test, after) = expr(alloc, room, tokens)?;
    let (end, after) = expect(PlainToken::Then, after)?;
    let (inner, after) = statement(alloc, room, after)?;
    let (otherwise, rest) = otherwise(alloc, room, after)?;
    let test = test_of(alloc, head, test, end)?;
    let statement = if_of(alloc, test, inner, otherwise)?;
    Ok((statement, rest))
}

/// `expr DO statement`, after WHILE
#[cycle(statement)]
fn while_loop(
    alloc: Global,
    room: u8,
    head: At,
    tokens: &[Token],
) -> Result<(Boxed<Statement>, &[Token]), BuildFault>
    ensures { Tells (λ r. (seen_statement r.0, r.1.now)) result (while_by (statement_at room) room head tokens.now) }
{
    let (test, after) = expr(alloc, room, tokens)?;
    let (end, after) = expect(PlainToken::Do, after)?;
    let (inner, rest) = statement(alloc, room, after)?;
    let test = test_of(alloc, head, test, end)?;
    let statement = while_of(alloc, test, inner)?;
    Ok((statement, rest))
}

/// `[ BY constant ]`
fn step(tokens: &[Token]) -> Option<(Step, &[Token])>
    ensures { Gives (λ r. (seen_step r.0, r.1.now)) result (step_at tokens.now) }
{
    let Some((at, after)) = optional(PlainToken::By, tokens) else {
        return Some((Step::One, tokens));
    };
    let Some((constant, rest)) = constant(after) else {
        return None;
    };
    Some((Step::By(at, constant), rest))
}

/// `name ":=" expr ( TO | DOWNTO ) expr [ BY constant ] DO statement`, after FOR
#[cycle(statement)]
fn for_loop(
    alloc: Global,
    room: u8,
    head: At,
    tokens: &[Token],
) -> Result<(Boxed<Statement>, &[Token]), BuildFault>
    ensures { Tells (λ r. (seen_statement r.0, r.1.now)) result (for_by (statement_at room) room head tokens.now) }
{
    let Some((named, after)) = name_first(tokens) else {
        return Err(BuildFault::NoSyntax);
    };
    let (set_at, after) = expect(PlainToken::Assign, after)?;
    let (from, after) = expr(alloc, room, after)?;
    let (direction, after) = direction(after)?;
    let (to, after) = expr(alloc, room, after)?;
    let Some((step, after)) = step(after) else {
        return Err(BuildFault::NoSyntax);
    };
    let (do_at, after) = expect(PlainToken::Do, after)?;
    let (inner, rest) = statement(alloc, room, after)?;
    let counted = for_head_of(alloc, head, named, set_at, from, direction, to, step, do_at)?;
    let statement = for_of(alloc, counted, inner)?;
    Ok((statement, rest))
}

/// `statement UNTIL expr`, after DO
#[cycle(statement)]
fn do_loop(
    alloc: Global,
    room: u8,
    head: At,
    tokens: &[Token],
) -> Result<(Boxed<Statement>, &[Token]), BuildFault>
    ensures { Tells (λ r. (seen_statement r.0, r.1.now)) result (do_by (statement_at room) room head tokens.now) }
{
    let (inner, after) = statement(alloc, room, tokens)?;
    let (at, after) = expect(PlainToken::Until, after)?;
    let (test, rest) = expr(alloc, room, after)?;
    let until = until_of(alloc, head, at, test)?;
    let statement = do_of(alloc, inner, until)?;
    Ok((statement, rest))
}
