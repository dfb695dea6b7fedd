ghost use Rattle.std.specs.Prelude.{◌≡◌, Some};
ghost use Rattle.tal_builder.specs.Outcome.{Tells};
ghost use Rattle.tal_builder.specs.Parse.{names_at, parameters_at, local_at, locals_at, gives_at, main_at, heading_at};
ghost use Rattle.tal_syntax.specs.Seen.{seen_names, seen_parameters, seen_local, seen_locals, seen_gives, seen_main};
ghost use Rattle.tal_syntax.specs.Seen.{seen_heading};

use crate::first::{is_local, name_first};
use crate::plain_token::{PlainToken, expect, optional};
use crate::stop::BuildFault;
use gd_words::List;
use std::alloc::Global;
use tal_syntax::{Gives, Heading, Local, Main, NextName, ParameterList, Parameters};
use tal_tokens::Token;

/// `{ "," name }`
fn more_names(alloc: Global, tokens: &[Token]) -> Result<(List<NextName>, &[Token]), BuildFault>
    ensures { Tells (λ r. (seen_names r.0, r.1.now)) result (names_at tokens.now) }
{
    let mut all = List::new(alloc);
    let mut rest = tokens;
    for _turn in 0..tokens.len() {
        let Some((comma, after)) = optional(PlainToken::Comma, rest) else {
            return Ok((all, rest));
        };
        let Some((named, after)) = name_first(after) else {
            return Err(BuildFault::NoSyntax);
        };
        all.push(NextName {
            comma,
            at: named.at,
            name: named.name,
        })?;
        rest = after;
    }
    Ok((all, rest))
}

/// `[ "(" name { "," name } ")" ]`
fn parameters(alloc: Global, tokens: &[Token]) -> Result<(Parameters, &[Token]), BuildFault>
    ensures { Tells (λ r. (seen_parameters r.0, r.1.now)) result (parameters_at tokens.now) }
{
    let Some((start, after)) = optional(PlainToken::Open, tokens) else {
        return Ok((Parameters::Absent, tokens));
    };
    let Some((named, after)) = name_first(after) else {
        return Err(BuildFault::NoSyntax);
    };
    let (more, after) = more_names(alloc, after)?;
    let (close, rest) = expect(PlainToken::Close, after)?;
    let list = ParameterList {
        start,
        at: named.at,
        name: named.name,
        more,
        close,
    };
    Ok((Parameters::Listed(list), rest))
}

/// `INT name { "," name } ";"`
fn local(alloc: Global, tokens: &[Token]) -> Result<(Local, &[Token]), BuildFault>
    ensures { Tells (λ r. (seen_local r.0, r.1.now)) result (local_at tokens.now) }
{
    let (int, after) = expect(PlainToken::Int, tokens)?;
    let Some((named, after)) = name_first(after) else {
        return Err(BuildFault::NoSyntax);
    };
    let (more, after) = more_names(alloc, after)?;
    let (end, rest) = expect(PlainToken::Semicolon, after)?;
    let local = Local {
        int,
        at: named.at,
        name: named.name,
        more,
        end,
    };
    Ok((local, rest))
}

/// `{ local }`
pub fn locals(alloc: Global, tokens: &[Token]) -> Result<(List<Local>, &[Token]), BuildFault>
    ensures { Tells (λ r. (seen_locals r.0, r.1.now)) result (locals_at tokens.now) }
{
    let mut all = List::new(alloc);
    let mut rest = tokens;
    for _turn in 0..tokens.len() {
        if !is_local(rest) {
            return Ok((all, rest));
        }
        let (local, after) = local(alloc, rest)?;
        all.push(local)?;
        rest = after;
    }
    Ok((all, rest))
}

/// `[ INT ]`
fn gives(tokens: &[Token]) -> (Gives, &[Token])
    ensures { gives_at tokens.now ≡ Some (seen_gives result.0, result.1.now) }
{
    match optional(PlainToken::Int, tokens) {
        Some((int, rest)) => (Gives::Int(int), rest),
        None => (Gives::Nothing, tokens),
    }
}

/// `[ MAIN ]`
fn main(tokens: &[Token]) -> (Main, &[Token])
    ensures { main_at tokens.now ≡ Some (seen_main result.0, result.1.now) }
{
    match optional(PlainToken::Main, tokens) {
        Some((word, rest)) => (Main::Word(word), rest),
        None => (Main::Absent, tokens),
    }
}

/// `gives PROC name parameters main ";"`
pub fn heading(alloc: Global, tokens: &[Token]) -> Result<(Heading, &[Token]), BuildFault>
    ensures { Tells (λ r. (seen_heading r.0, r.1.now)) result (heading_at tokens.now) }
{
    let (gives, after) = gives(tokens);
    let (proc_at, after) = expect(PlainToken::Proc, after)?;
    let Some((named, after)) = name_first(after) else {
        return Err(BuildFault::NoSyntax);
    };
    let (parameters, after) = parameters(alloc, after)?;
    let (main, after) = main(after);
    let (end, rest) = expect(PlainToken::Semicolon, after)?;
    let heading = Heading {
        gives,
        proc_at,
        at: named.at,
        name: named.name,
        parameters,
        main,
        end,
    };
    Ok((heading, rest))
}
