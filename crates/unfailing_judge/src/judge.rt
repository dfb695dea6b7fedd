//! What goes wrong, judged by unfailing processes.
ghost use Rattle.std.specs.Prelude.{◌≡◌, ◌≤◌, ◌<◌, IfOk, length};
ghost use Rattle.plain_machine.specs.Standing.{IsPlayable};
ghost use Rattle.unfailing_judge.specs.Replays.{IsJudgedBy, NoneGoesIn};
ghost use Rattle.unfailing_judge.specs.Sound.{IsJudged};

use crate::beside::{apart, blocked};
use crate::settle::{Settled, settle};
use crate::wrong::{Stuck, Wrong};
use gd_words::NoMemory;
use std::alloc::Global;
use tal_tree::{Act, Shown, Site};

/// What goes wrong in what a run kept and showed, which ended idle or not; none if unfailing processes do and show
/// the same.
pub fn wrong_in(
    alloc: Global,
    site: &Site,
    acts: &[Act],
    shown: &[Shown],
    idle: bool,
) -> Result<Option<Wrong>, NoMemory>
    requires playable { IsPlayable site.now }
    requires few { length acts.now < 4294967295 }
    ensures { IfOk result (λ found. IsJudged site.now acts.now shown.now idle found) }
{
    let settled = settle(alloc, site, acts, shown)?;
    Ok(wrong_after(shown, idle, &settled))
}

/// What goes wrong once all acts went that can.
fn wrong_after(shown: &[Shown], idle: bool, settled: &Settled<'_>) -> Option<Wrong>
    requires few { settled.now.replay.made < 4294967295 }
    requires none { NoneGoesIn shown.now settled.now.left.items settled.now.replay }
    requires within { settled.now.replay.agreed ≤ length shown.now }
    ensures { IsJudgedBy shown.now settled.now.left.items settled.now.replay idle result }
{
    let replay = &settled.replay;
    let left = settled.left.as_slice();
    if let Some(instead) = blocked(left, replay) {
        return Some(Wrong::Differs(apart(shown, replay, Some(instead))));
    }
    let lacks = replay.agreed() < shown.len();
    if let Some(act) = left.first() {
        let apart = if lacks {
            Some(apart(shown, replay, None))
        } else {
            None
        };
        return Some(Wrong::Stuck(Stuck {
            made: replay.made(),
            act: *act,
            apart,
        }));
    }
    if lacks {
        return Some(Wrong::Differs(apart(shown, replay, None)));
    }
    if !idle || replay.none_left() {
        return None;
    }
    Some(Wrong::Left)
}
