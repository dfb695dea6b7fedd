ghost use Rattle.std.specs.Prelude.{IfOk};
ghost use Rattle.loading_laws.specs.tal_interp.specs.Sound.{IsLoadable};
ghost use Rattle.tal_tree.specs.Limits.{IsWithinLimits};
ghost use Rattle.tal_tree.specs.Ordered.{IsOrdered};
ghost use Rattle.tal_tree.specs.Regular.{IsRegular};

use crate::turns::{BANK_AFTER_TURNS, BANK_UP_TO_TURNS};
use loading_laws::read_program;
use std::alloc::Global;
use std::test::Fail;
use tal_tree::Program;

/// The program of a text; no text of tests is longer than a million bytes.
pub fn program_of(alloc: Global, text: &[u8]) -> Result<Program, Fail>
    ensures ordered { IfOk result IsOrdered }
    ensures limits { IfOk result IsWithinLimits }
    ensures regular { IfOk result IsRegular }
    ensures loadable { IfOk result IsLoadable }
{
    if text.len() > 1_000_000 {
        return Err(Fail::from("a longer text"));
    }
    let program = read_program(alloc, text)?;
    Ok(program)
}

/// The program of the bank with such a turn.
pub fn bank_with(alloc: Global, turn: &[u8]) -> Result<Program, Fail>
    ensures ordered { IfOk result IsOrdered }
    ensures limits { IfOk result IsWithinLimits }
    ensures regular { IfOk result IsRegular }
    ensures loadable { IfOk result IsLoadable }
{
    let mut text = Vec::from_slice(alloc, BANK_UP_TO_TURNS)?;
    text.extend_from_slice(turn)?;
    text.extend_from_slice(BANK_AFTER_TURNS)?;
    let program = program_of(alloc, text.as_slice())?;
    Ok(program)
}
