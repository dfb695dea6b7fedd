ghost use Rattle.std.specs.Prelude.{◌≡◌};
ghost use Rattle.tal_builder.specs.Outcome.{Gives, Tells};
ghost use Rattle.tal_builder.specs.Parse.{atom_at, constant_at, bounds_at, item_at, items_at, literal_at, literals_at};
ghost use Rattle.tal_builder.specs.Parse.{int_line_at, literal_line_at, line_at, lines_at};
ghost use Rattle.tal_syntax.specs.Seen.{seen_atom, seen_constant, seen_bounds, seen_item, seen_items, seen_literal};
ghost use Rattle.tal_syntax.specs.Seen.{seen_literals, seen_globals, seen_lines};

use crate::first::{is_line, name_first};
use crate::plain_token::{PlainToken, expect, optional};
use crate::stop::BuildFault;
use gd_words::List;
use std::alloc::Global;
use tal_syntax::{
    Atom, Bounds, Constant, Globals, IntLine, Item, Literal, LiteralLine, NextItem, NextLiteral,
};
use tal_tokens::{At, Token};

/// `number | name`
fn atom(tokens: &[Token]) -> Option<(Atom, &[Token])>
    ensures { Gives (λ r. (seen_atom r.0, r.1.now)) result (atom_at tokens.now) }
{
    match tokens {
        [Token::Number(at, value), rest @ ..] => Some((Atom::Number(*at, *value), rest)),
        [Token::Name(at, name), rest @ ..] => Some((Atom::Name(*at, *name), rest)),
        _ => None,
    }
}

/// `[ "-" ] atom`
pub fn constant(tokens: &[Token]) -> Option<(Constant, &[Token])>
    ensures { Gives (λ r. (seen_constant r.0, r.1.now)) result (constant_at tokens.now) }
{
    match optional(PlainToken::Minus, tokens) {
        Some((sign, after)) => match atom(after) {
            Some((atom, rest)) => Some((Constant::Negative(sign, atom), rest)),
            None => None,
        },
        None => match atom(tokens) {
            Some((atom, rest)) => Some((Constant::Positive(atom), rest)),
            None => None,
        },
    }
}

/// `[ "[" constant ":" constant "]" ]`
fn bounds(tokens: &[Token]) -> Option<(Bounds, &[Token])>
    ensures { Gives (λ r. (seen_bounds r.0, r.1.now)) result (bounds_at tokens.now) }
{
    let Some((start, after)) = optional(PlainToken::OpenIndex, tokens) else {
        return Some((Bounds::Simple, tokens));
    };
    let Some((low, after)) = constant(after) else {
        return None;
    };
    let Some((colon, after)) = optional(PlainToken::Colon, after) else {
        return None;
    };
    let Some((high, after)) = constant(after) else {
        return None;
    };
    let Some((close, rest)) = optional(PlainToken::CloseIndex, after) else {
        return None;
    };
    Some((Bounds::Array(start, low, colon, high, close), rest))
}

/// `name bounds`
fn item(tokens: &[Token]) -> Option<(Item, &[Token])>
    ensures { Gives (λ r. (seen_item r.0, r.1.now)) result (item_at tokens.now) }
{
    let Some((named, after)) = name_first(tokens) else {
        return None;
    };
    let Some((bounds, rest)) = bounds(after) else {
        return None;
    };
    Some((
        Item {
            at: named.at,
            name: named.name,
            bounds,
        },
        rest,
    ))
}

/// `{ "," item }`
fn more_items(alloc: Global, tokens: &[Token]) -> Result<(List<NextItem>, &[Token]), BuildFault>
    ensures { Tells (λ r. (seen_items r.0, r.1.now)) result (items_at tokens.now) }
{
    let mut all = List::new(alloc);
    let mut rest = tokens;
    for _turn in 0..tokens.len() {
        let Some((comma, after)) = optional(PlainToken::Comma, rest) else {
            return Ok((all, rest));
        };
        let Some((item, after)) = item(after) else {
            return Err(BuildFault::NoSyntax);
        };
        all.push(NextItem { comma, item })?;
        rest = after;
    }
    Ok((all, rest))
}

/// `name "=" constant`
fn literal(tokens: &[Token]) -> Option<(Literal, &[Token])>
    ensures { Gives (λ r. (seen_literal r.0, r.1.now)) result (literal_at tokens.now) }
{
    let Some((named, after)) = name_first(tokens) else {
        return None;
    };
    let Some((equal, after)) = optional(PlainToken::Equal, after) else {
        return None;
    };
    let Some((constant, rest)) = constant(after) else {
        return None;
    };
    let literal = Literal {
        at: named.at,
        name: named.name,
        equal,
        constant,
    };
    Some((literal, rest))
}

/// `{ "," literal }`
fn more_literals(
    alloc: Global,
    tokens: &[Token],
) -> Result<(List<NextLiteral>, &[Token]), BuildFault>
    ensures { Tells (λ r. (seen_literals r.0, r.1.now)) result (literals_at tokens.now) }
{
    let mut all = List::new(alloc);
    let mut rest = tokens;
    for _turn in 0..tokens.len() {
        let Some((comma, after)) = optional(PlainToken::Comma, rest) else {
            return Ok((all, rest));
        };
        let Some((literal, after)) = literal(after) else {
            return Err(BuildFault::NoSyntax);
        };
        all.push(NextLiteral { comma, literal })?;
        rest = after;
    }
    Ok((all, rest))
}

/// `item { "," item } ";"`, after INT
fn int_line(alloc: Global, int: At, tokens: &[Token]) -> Result<(Globals, &[Token]), BuildFault>
    ensures { Tells (λ r. (seen_globals r.0, r.1.now)) result (int_line_at int tokens.now) }
{
    let Some((first, after)) = item(tokens) else {
        return Err(BuildFault::NoSyntax);
    };
    let (more, after) = more_items(alloc, after)?;
    let (end, rest) = expect(PlainToken::Semicolon, after)?;
    let line = IntLine {
        int,
        first,
        more,
        end,
    };
    Ok((Globals::Int(line), rest))
}

/// `literal { "," literal } ";"`, after LITERAL
fn literal_line(
    alloc: Global,
    word: At,
    tokens: &[Token],
) -> Result<(Globals, &[Token]), BuildFault>
    ensures { Tells (λ r. (seen_globals r.0, r.1.now)) result (literal_line_at word tokens.now) }
{
    let Some((first, after)) = literal(tokens) else {
        return Err(BuildFault::NoSyntax);
    };
    let (more, after) = more_literals(alloc, after)?;
    let (end, rest) = expect(PlainToken::Semicolon, after)?;
    let line = LiteralLine {
        word,
        first,
        more,
        end,
    };
    Ok((Globals::Literal(line), rest))
}

/// `INT item { "," item } ";" | LITERAL literal { "," literal } ";"`
fn line(alloc: Global, tokens: &[Token]) -> Result<(Globals, &[Token]), BuildFault>
    ensures { Tells (λ r. (seen_globals r.0, r.1.now)) result (line_at tokens.now) }
{
    match optional(PlainToken::Int, tokens) {
        Some((int, after)) => int_line(alloc, int, after),
        None => {
            let (word, after) = expect(PlainToken::Literal, tokens)?;
            literal_line(alloc, word, after)
        }
    }
}

/// `{ line }`
pub fn globals(alloc: Global, tokens: &[Token]) -> Result<(List<Globals>, &[Token]), BuildFault>
    ensures { Tells (λ r. (seen_lines r.0, r.1.now)) result (lines_at tokens.now) }
{
    let mut all = List::new(alloc);
    let mut rest = tokens;
    for _turn in 0..tokens.len() {
        if !is_line(rest) {
            return Ok((all, rest));
        }
        let (line, after) = line(alloc, rest)?;
        all.push(line)?;
        rest = after;
    }
    Ok((all, rest))
}
