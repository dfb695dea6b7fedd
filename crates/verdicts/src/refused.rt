ghost use Rattle.std.specs.Prelude.{◌≡◌, ◌≤◌, length, IfOk, MatchOption};
ghost use Rattle.gd_words.specs.declared.limits.TheConstants.{MOST_PROCESSES};
ghost use Rattle.verdicts.specs.Causes.{IsAcceptedKind, IsCauseOf};
ghost use Rattle.verdicts.specs.Judgeable.{AreJudgeable, IsJudgeable, IsJudgeableKind};
ghost use Rattle.verdicts.specs.Refused.{AreAccepted, IsFirstRefused};

use discipline::{RefusalFault, check};
use gd_words::{List, NoMemory};
use statement_lines::lines_of;
use std::alloc::Global;
use tal_tree::{Kind, ProcessSpec, Program};

/// The process at a place in the deck whose program is refused, and why; and the lines of the program's statements in
/// the order of their numbers, from 1.
#[derive(Drop)]
pub struct RefusedProgram {
    pub process: u8,
    pub refusal: RefusalFault,
    pub lines: List<u32>,
}

/// Why a program is refused, and the lines of its statements.
#[derive(Drop)]
pub struct Cause {
    pub refusal: RefusalFault,
    pub lines: List<u32>,
}

/// The first process whose program is refused; none where all programs are accepted.
pub fn first_refused(
    alloc: Global,
    processes: &[ProcessSpec],
) -> Result<Option<RefusedProgram>, NoMemory>
    requires few { length processes.now ≤ MOST_PROCESSES }
    requires judgeable { AreJudgeable processes.now }
    ensures { IfOk result (λ found. MatchOption found (AreAccepted processes.now)
        (λ refused. IsFirstRefused processes.now refused)) }
{
    for (place, spec) in processes.iter().enumerate() {
        match cause_of(alloc, &spec.what)? {
            None => {}
            Some(Cause { refusal, lines }) => {
                let process = place as u8;
                return Ok(Some(RefusedProgram {
                    process,
                    refusal,
                    lines,
                }));
            }
        }
    }
    Ok(None)
}

fn cause_of(alloc: Global, what: &Kind) -> Result<Option<Cause>, NoMemory>
    requires { IsJudgeableKind what.now }
    ensures { IfOk result (λ found. MatchOption found (IsAcceptedKind what.now) (λ cause. IsCauseOf what.now cause)) }
{
    match what {
        Kind::Disc { .. } => Ok(None),
        Kind::Pair(program) => cause_of_program(alloc, program),
    }
}

fn cause_of_program(alloc: Global, program: &Program) -> Result<Option<Cause>, NoMemory>
    requires { IsJudgeable program.now }
    ensures { IfOk result (λ found. MatchOption found (IsAcceptedKind (Kind.Pair program.now))
        (λ cause. IsCauseOf (Kind.Pair program.now) cause)) }
{
    match check(alloc, program) {
        Ok(()) => Ok(None),
        Err(RefusalFault::NoMemory(memory)) => Err(memory),
        Err(refusal) => {
            let lines = lines_of(alloc, program)?;
            Ok(Some(Cause { refusal, lines }))
        }
    }
}
