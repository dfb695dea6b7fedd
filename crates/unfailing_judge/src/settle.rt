//! Acts that are made in an order in which they are possible and show what the run showed. What a program did is kept
//! late where its take is held for long, so other acts may be kept before those that they need.
ghost use Rattle.std.specs.Prelude.{◌≡◌, ◌+◌, ◌<◌, IfOk, length};
ghost use Rattle.plain_machine.specs.Standing.{IsPlayable};
ghost use Rattle.unfailing_judge.specs.Replays.{GoesFirst, GoesInTurn, IsCarriedOn, IsSettledOf, NoneGoesIn};

use crate::replay::Replay;
use crate::turns::has_actor;
use gd_words::NoMemory;
use std::alloc::Global;
use tal_tree::{Act, Shown, Site};

/// A machine on which acts were made, and the acts that are left, of which none can go.
#[derive(Drop)]
pub(crate) struct Settled<'a> {
    pub(crate) replay: Replay<'a>,
    pub(crate) left: Vec<Act>,
}

/// Makes acts as they come. If one can't go, it waits until an act behind it went.
pub(crate) fn settle<'a>(
    alloc: Global,
    site: &'a Site,
    acts: &[Act],
    shown: &[Shown],
) -> Result<Settled<'a>, NoMemory>
    requires playable { IsPlayable site.now }
    requires few { length acts.now < 4294967295 }
    ensures settled { IfOk result
        (λ settled. IsSettledOf site.now acts.now shown.now settled.left.items settled.replay) }
    ensures all { IfOk result (λ settled. settled.replay.made + length settled.left.items ≡ length acts.now) }
{
    let mut replay = Replay::start(alloc, site)?;
    let mut left = Vec::new(alloc);
    for act in acts {
        if goes(shown, left.as_slice(), *act, &mut replay) {
            go_on(shown, &mut left, &mut replay);
        } else {
            left.push(*act)?;
        }
    }
    Ok(Settled { replay, left })
}

/// Makes the first of the acts that can go, until none can.
fn go_on(shown: &[Shown], left: &mut Vec<Act>, replay: &mut Replay<'_>)
    requires { replay.old.made + length left.old.items < 4294967295 }
    ensures carried { IsCarriedOn shown.now left.old.items left.new.items replay.old replay.new }
    ensures none { NoneGoesIn shown.now left.new.items replay.new }
    ensures all { replay.new.made + length left.new.items ≡ replay.old.made + length left.old.items }
{
    'acts: while let Some(place) = first(shown, left.as_slice(), replay) {
        left.remove(place);
    }
}

/// Makes the first of these acts that can go, and answers its place.
fn first(shown: &[Shown], acts: &[Act], replay: &mut Replay<'_>) -> Option<usize>
    requires { replay.old.made < 4294967295 }
    ensures { GoesFirst shown.now acts.now replay.old replay.new result }
{
    for (place, act) in acts.iter().enumerate() {
        if goes(shown, &acts[..place], *act, replay) {
            return Some(place);
        }
    }
    None
}

/// Makes an act if none of those before it is of its process or terminal, and it can go. Answers whether it did.
fn goes(shown: &[Shown], before: &[Act], act: Act, replay: &mut Replay<'_>) -> bool
    requires { replay.old.made < 4294967295 }
    ensures { GoesInTurn shown.now before.now act replay.old replay.new result }
{
    if has_actor(before, act) {
        return false;
    }
    replay.go(shown, act)
}
