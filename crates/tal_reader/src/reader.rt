ghost use Rattle.std.specs.Prelude.{◌≡◌, ◌<◌, ℕ, List, length};
ghost use Rattle.tal_builder.specs.tal_syntax.specs.Expected.{IsWithin};
ghost use Rattle.tal_reader.specs.Reads.{Reads, IsRead, IsRefused, IsJudged};
ghost use Rattle.tal_tree.specs.declared.fault.TalFault.{TalFault as Fault};
ghost use Rattle.tal_tree.specs.declared.program.Program.{Program as Tree};
ghost use Rattle.tal_tree.specs.gd_words.specs.declared.limits.TheConstants.{MOST_LEVELS};

use crate::place::place_of;
use std::alloc::Global;
use tal_builder::{BuildFault, build};
use tal_meaning::tree;
use tal_recogniser::{Judgement, judge};
use tal_tokens::{Token, tokens};
use tal_tree::{Program, ProgramLimit, TalFault};

/// The program that a text reads as, or the fault for which it is refused.
pub fn read_program(alloc: Global, text: &[u8]) -> Result<Program, TalFault>
    requires { length text.now < 4294967295 }
    ensures { IsRead text.now result }
{
    let cut = tokens(alloc, text)?;
    let list = cut.list.as_slice();
    match judge(alloc, list)? {
        Judgement::Fine => program_of(alloc, list),
        Judgement::Unfinished => match cut.fault {
            Some(fault) => Err(fault),
            None => unreachable!(),
        },
        Judgement::Unexpected(k) => Err(TalFault::Expected(place_of(&list[k]))),
        Judgement::TooDeep(k) => Err(TalFault::Limit(ProgramLimit::Levels, place_of(&list[k]))),
    }
}

/// The program of tokens that have a syntax, or the least of its faults.
fn program_of(alloc: Global, tokens: &[Token]) -> Result<Program, TalFault>
    requires { IsWithin MOST_LEVELS tokens.now }
    ensures { IsJudged tokens.now result }
{
    match build(alloc, tokens) {
        Ok(syntax) => tree(alloc, &syntax),
        Err(BuildFault::NoMemory(memory)) => Err(TalFault::NoMemory(memory)),
        Err(BuildFault::NoSyntax) => unreachable!(),
    }
}

/// The law of reading: a text reads as at most one program.
pub fn a_text_reads_as_one_program()
    ensures { (text : List ℕ) (p q : Tree) → Reads text p → Reads text q → p ≡ q }
{}

/// The law of refusing: a text is refused for at most one fault.
pub fn a_text_is_refused_for_one_fault()
    ensures { (text : List ℕ) (f h : Fault) → IsRefused text f → IsRefused text h → f ≡ h }
{}

/// What is refused reads as no program.
pub fn what_is_refused_reads_as_none()
    ensures { (text : List ℕ) (f : Fault) (p : Tree) → IsRefused text f → Reads text p → ⊥ }
{}
