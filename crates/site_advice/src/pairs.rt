ghost use Rattle.std.specs.Prelude.{◌≤◌, length, IfOk};
ghost use Rattle.gd_words.specs.declared.limits.TheConstants.{MOST_PROCESSES};
ghost use Rattle.verdicts.specs.Judgeable.{AreJudgeable, IsJudgeable, IsJudgeableKind};
ghost use Rattle.site_advice.specs.Pushed.{IsCause, IsPushed};
ghost use Rattle.site_advice.specs.SiteAdvised.{IsSiteAdvice, IsUnadvised};

use advice_search::{Advice, AdviseFault, RefusalFault, advise};
use gd_words::{List, NoMemory};
use statement_lines::lines_of;
use std::alloc::Global;
use tal_tree::{Kind, ProcessSpec, Program};
use verdicts::RefusedProgram;
use verdicts::refused::Cause;

/// The pair at a place in the deck, and the advice for its program.
#[derive(Drop)]
pub struct PairAdvice {
    pub process: u8,
    pub advice: Advice,
}

/// What comes of asking for advice for the programs of a site.
#[derive(Drop)]
pub enum SiteAdvice {
    /// The advice for each pair, in deck order.
    Given(List<PairAdvice>),
    /// The first program for which there is none.
    Refused(RefusedProgram),
}

/// The advice for the programs of all pairs, or the first program for which there is none.
pub fn advise_all(alloc: Global, processes: &[ProcessSpec]) -> Result<SiteAdvice, NoMemory>
    requires few { length processes.now ≤ MOST_PROCESSES }
    requires judgeable { AreJudgeable processes.now }
    ensures { IfOk result (λ advised. IsSiteAdvice processes.now advised) }
{
    let mut pairs = List::new(alloc);
    for (place, spec) in processes.iter().enumerate() {
        let process = place as u8;
        match push_advice(alloc, process, &spec.what, &mut pairs)? {
            None => {}
            Some(Cause { refusal, lines }) => {
                return Ok(SiteAdvice::Refused(RefusedProgram {
                    process,
                    refusal,
                    lines,
                }));
            }
        }
    }
    Ok(SiteAdvice::Given(pairs))
}

/// Puts the advice for a process's program behind others; a disc has none. Gives why there is none for a program.
fn push_advice(
    alloc: Global,
    process: u8,
    what: &Kind,
    pairs: &mut List<PairAdvice>,
) -> Result<Option<Cause>, NoMemory>
    requires { IsJudgeableKind what.now }
    ensures { IfOk result (λ found. IsPushed process what.now pairs.old pairs.new found) }
{
    match what {
        Kind::Disc { .. } => Ok(None),
        Kind::Pair(program) => push_program(alloc, process, program, pairs),
    }
}

fn push_program(
    alloc: Global,
    process: u8,
    program: &Program,
    pairs: &mut List<PairAdvice>,
) -> Result<Option<Cause>, NoMemory>
    requires { IsJudgeable program.now }
    ensures { IfOk result (λ found. IsPushed process (Kind.Pair program.now) pairs.old pairs.new found) }
{
    match advise(alloc, program) {
        Ok(advice) => {
            pairs.push(PairAdvice { process, advice })?;
            Ok(None)
        }
        Err(AdviseFault::TooDeep) => cause_of(alloc, program, RefusalFault::TooDeep),
        Err(AdviseFault::TooLarge(size)) => {
            cause_of(alloc, program, RefusalFault::TooLarge(size))
        }
        Err(AdviseFault::Unmendable { reason, path }) => {
            cause_of(alloc, program, RefusalFault::Broken { reason, path })
        }
        Err(AdviseFault::NoMemory(memory)) => Err(memory),
    }
}

fn cause_of(
    alloc: Global,
    program: &Program,
    refusal: RefusalFault,
) -> Result<Option<Cause>, NoMemory>
    requires { IsUnadvised program.now refusal }
    ensures { IfOk result (λ found. IsCause (Kind.Pair program.now) found) }
{
    let lines = lines_of(alloc, program)?;
    Ok(Some(Cause { refusal, lines }))
}
