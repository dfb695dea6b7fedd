ghost use Rattle.std.specs.Prelude.{◌≡◌, ◌≤◌, length, IfOk};
ghost use Rattle.explain_why.specs.Judged.{IsJudgedDeck, are_refused, is_refused, judged_text};
ghost use Rattle.finding_text.specs.verdicts.specs.Judgeable.{AreJudgeable};
ghost use Rattle.gd_words.specs.declared.limits.TheConstants.{MOST_DECK_BYTES};

use finding_text::{Finding, findings_of, put_pairs};
use gd_words::{List, NoMemory};
use std::alloc::Global;
use tal_tree::ProcessSpec;
use text_pieces::put;

/// What is told of a deck that can be read, and whether a program of it is refused.
#[derive(Drop)]
pub struct JudgedDeck {
    pub refused: bool,
    pub told: List<u8>,
}

/// What is told of the programs of a deck, and whether any is refused.
pub fn judged_deck(
    alloc: Global,
    bytes: &[u8],
    processes: &[ProcessSpec],
) -> Result<JudgedDeck, NoMemory>
    requires judgeable { AreJudgeable processes.now }
    requires few { length bytes.now ≤ MOST_DECK_BYTES }
    ensures { IfOk result (λ judged. IsJudgedDeck bytes.now processes.now judged) }
{
    let findings = findings_of(alloc, processes)?;
    let told = judged_text(alloc, bytes, processes, findings.as_slice())?;
    Ok(JudgedDeck {
        refused: are_refused(findings.as_slice()),
        told,
    })
}

fn judged_text(
    alloc: Global,
    bytes: &[u8],
    processes: &[ProcessSpec],
    findings: &[Finding],
) -> Result<List<u8>, NoMemory>
    requires { length bytes.now ≤ MOST_DECK_BYTES }
    ensures { IfOk result (λ text. text ≡ judged_text bytes.now processes.now findings.now) }
{
    let mut text = List::new(alloc);
    put(&mut text, b"the deck can be read\n")?;
    put_pairs(alloc, &mut text, bytes, processes, findings)?;
    Ok(text)
}

fn are_refused(findings: &[Finding]) -> bool
    ensures { result ≡ are_refused findings.now }
{
    findings.iter().any(|finding| is_refused(finding))
}

fn is_refused(finding: &Finding) -> bool
    ensures { result ≡ is_refused finding.now }
{
    match finding {
        Finding::Disc => false,
        Finding::Pair(found) => found.refusal.is_some(),
    }
}
