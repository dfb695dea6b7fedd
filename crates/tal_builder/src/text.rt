ghost use Rattle.std.specs.Prelude.{◌≡◌, List};
ghost use Rattle.tal_builder.specs.Built.{IsSyntax, Built};
ghost use Rattle.tal_builder.specs.Outcome.{Tells};
ghost use Rattle.tal_builder.specs.Parse.{procedure_at, procedures_at, text_at};
ghost use Rattle.tal_syntax.specs.Grammar as g;
ghost use Rattle.tal_syntax.specs.Seen.{seen_procedure, seen_procedures, seen_text};

use crate::first::is_heading;
use crate::globals::globals;
use crate::heading::{heading, locals};
use crate::plain_token::{PlainToken, expect};
use crate::statement::{row, statement};
use crate::stop::BuildFault;
use gd_words::List as Items;
use gd_words::limits::MOST_LEVELS;
use std::alloc::Global;
use tal_syntax::{Procedure, Text};
use tal_tokens::Token;

/// `heading { local } BEGIN { local } statement { ";" statement } END ";"`
fn procedure(alloc: Global, tokens: &[Token]) -> Result<(Procedure, &[Token]), BuildFault>
    ensures { Tells (λ r. (seen_procedure r.0, r.1.now)) result (procedure_at tokens.now) }
{
    let (heading, after) = heading(alloc, tokens)?;
    let (outer, after) = locals(alloc, after)?;
    let (begin, after) = expect(PlainToken::Begin, after)?;
    let (inner, after) = locals(alloc, after)?;
    let (first, after) = statement(alloc, MOST_LEVELS as u8, after)?;
    let first = first.into_inner();
    let (more, after) = row(alloc, MOST_LEVELS as u8, after)?;
    let (end, after) = expect(PlainToken::End, after)?;
    let (last, rest) = expect(PlainToken::Semicolon, after)?;
    let procedure = Procedure {
        heading,
        outer,
        begin,
        inner,
        first,
        more,
        end,
        last,
    };
    Ok((procedure, rest))
}

/// `{ procedure }`
fn procedures(alloc: Global, tokens: &[Token]) -> Result<(Items<Procedure>, &[Token]), BuildFault>
    ensures { Tells (λ r. (seen_procedures r.0, r.1.now)) result (procedures_at tokens.now) }
{
    let mut all = Items::new(alloc);
    let mut rest = tokens;
    for _turn in 0..tokens.len() {
        if !is_heading(rest) {
            return Ok((all, rest));
        }
        let (procedure, after) = procedure(alloc, rest)?;
        all.push(procedure)?;
        rest = after;
    }
    Ok((all, rest))
}

/// The syntax of a whole text.
fn whole(alloc: Global, tokens: &[Token]) -> Result<Text, BuildFault>
    ensures { Tells seen_text result (text_at tokens.now) }
{
    let (globals, after) = globals(alloc, tokens)?;
    let (procedures, after) = procedures(alloc, after)?;
    let (finish, rest) = expect(PlainToken::Finish, after)?;
    if rest.is_empty() {
        Ok(Text {
            globals,
            procedures,
            finish,
        })
    } else {
        Err(BuildFault::NoSyntax)
    }
}

/// The syntax of the tokens of a whole text.
pub fn build(alloc: Global, tokens: &[Token]) -> Result<Text, BuildFault>
    ensures { Built tokens.now result }
{
    whole(alloc, tokens)
}

/// The law of the grammar: tokens have at most one syntax.
pub fn tokens_have_one_syntax()
    ensures { (ks : List Token) (t u : g.Text) → IsSyntax ks t → IsSyntax ks u → t ≡ u }
{}
