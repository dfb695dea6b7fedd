ghost use Rattle.std.specs.Prelude.{◌≡◌, IfOk};
ghost use Rattle.verdicts.specs.Judgeable.{AreJudgeable, IsJudgeable, IsJudgeableKind};
ghost use Rattle.pair_findings.specs.Findings.{AreFindings, IsFinding, IsFindingOf, IsJudged, IsRemedy, deeds_for};
ghost use Rattle.pair_findings.specs.Findings.{path_of};

use crate::finding::{Finding, PairFinding, Remedy};
use crate::notes::since_checkpoint;
use advice_search::{AdviseFault, advise};
use gd_words::{List, NoMemory};
use path_semantics::RefusalFault;
use statement_dues::{Deed, checkpoints_of, deeds_of};
use statement_lines::lines_of;
use std::alloc::Global;
use tal_tree::{Kind, ProcessSpec, Program};
use verdicts::check;

/// What is found of each process, in deck order.
pub fn findings_of(alloc: Global, processes: &[ProcessSpec]) -> Result<List<Finding>, NoMemory>
    requires { AreJudgeable processes.now }
    ensures { IfOk result (λ findings. AreFindings processes.now findings) }
{
    let mut findings = List::new(alloc);
    for spec in processes {
        let finding = finding_of(alloc, &spec.what)?;
        findings.push(finding)?;
    }
    Ok(findings)
}

fn finding_of(alloc: Global, what: &Kind) -> Result<Finding, NoMemory>
    requires { IsJudgeableKind what.now }
    ensures { IfOk result (λ finding. IsFindingOf what.now finding) }
{
    match what {
        Kind::Disc { .. } => Ok(Finding::Disc),
        Kind::Pair(program) => {
            let found = pair_finding_of(alloc, program)?;
            Ok(Finding::Pair(found))
        }
    }
}

fn pair_finding_of(alloc: Global, program: &Program) -> Result<PairFinding, NoMemory>
    requires { IsJudgeable program.now }
    ensures { IfOk result (λ found. IsFinding program.now found) }
{
    let refusal = refusal_of(alloc, program)?;
    let remedy = remedy_of(alloc, program)?;
    let lines = lines_of(alloc, program)?;
    let deeds = deeds_for(alloc, program, &refusal)?;
    let since = since_checkpoint(deeds.as_slice(), path_of(&refusal));
    let checkpoints = checkpoints_of(alloc, program)?;
    Ok(PairFinding {
        refusal,
        remedy,
        lines,
        deeds,
        since,
        checkpoints,
    })
}

/// The cause for which a program is refused, if it is.
fn refusal_of(alloc: Global, program: &Program) -> Result<Option<RefusalFault>, NoMemory>
    requires { IsJudgeable program.now }
    ensures { IfOk result (λ refusal. IsJudged program.now refusal) }
{
    match check(alloc, program) {
        Ok(()) => Ok(None),
        Err(RefusalFault::NoMemory(memory)) => Err(memory),
        Err(refusal) => Ok(Some(refusal)),
    }
}

fn remedy_of(alloc: Global, program: &Program) -> Result<Remedy, NoMemory>
    requires { IsJudgeable program.now }
    ensures { IfOk result (λ remedy. IsRemedy program.now remedy) }
{
    match advise(alloc, program) {
        Ok(advice) => Ok(Remedy::Lists(advice)),
        Err(AdviseFault::TooDeep) => Ok(Remedy::OutOfBounds),
        Err(AdviseFault::TooLarge(_)) => Ok(Remedy::OutOfBounds),
        Err(AdviseFault::Unmendable { reason, path }) => Ok(Remedy::Unmendable { reason, path }),
        Err(AdviseFault::NoMemory(memory)) => Err(memory),
    }
}

/// What the statements do for the reason of the cause.
fn deeds_for(
    alloc: Global,
    program: &Program,
    refusal: &Option<RefusalFault>,
) -> Result<List<Deed>, NoMemory>
    ensures { IfOk result (λ deeds. deeds ≡ deeds_for program.now refusal.now) }
{
    match refusal {
        Some(RefusalFault::Broken { reason, path: _ }) => {
            let deeds = deeds_of(alloc, program, *reason)?;
            Ok(deeds)
        }
        _ => Ok(List::new(alloc)),
    }
}

/// The path that breaks; none where the cause has none.
pub fn path_of(refusal: &Option<RefusalFault>) -> &[u16]
    ensures { result.now ≡ path_of refusal.now }
{
    match refusal {
        Some(RefusalFault::Broken { reason: _, path }) => path.as_slice(),
        _ => &[],
    }
}
