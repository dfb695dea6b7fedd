//! What the acts that are left would show, and what the run showed in its place.
ghost use Rattle.std.specs.Prelude.{◌≡◌, ◌≤◌, ◌<◌, drop, length, slice_get};
ghost use Rattle.std.specs.Option.{option_copied};
ghost use Rattle.unfailing_judge.specs.Replays.{IsBlocked, NoneIsQuiet};
ghost use Rattle.unfailing_judge.specs.Sound.{IsApart};

use crate::replay::Replay;
use crate::turns::has_actor;
use crate::wrong::Apart;
use tal_tree::{Act, Shown};

/// What the first of these acts shows that has its turn and is possible, if all those that show nothing were made.
pub(crate) fn blocked(left: &[Act], replay: &Replay<'_>) -> Option<Shown>
    requires few { replay.now.made < 4294967295 }
    requires none { NoneIsQuiet left.now replay.now }
    ensures { IsBlocked left.now replay.now result }
{
    for (place, act) in left.iter().enumerate() {
        if !has_actor(&left[..place], *act) {
            let shown = replay.shows(*act);
            if shown.is_some() {
                return shown;
            }
        }
    }
    None
}

/// What the run showed next, where this would be shown.
pub(crate) fn apart(shown: &[Shown], replay: &Replay<'_>, instead: Option<Shown>) -> Apart
    requires { replay.now.agreed ≤ length shown.now }
    ensures { IsApart shown.now (drop replay.now.agreed shown.now) instead result }
{
    let before = replay.agreed();
    Apart {
        before,
        shown: copy_if(shown.get(before)),
        due: instead,
    }
}

fn copy_if(shown: Option<&Shown>) -> Option<Shown>
    ensures { result ≡ option_copied shown.entry }
{
    match shown {
        None => None,
        Some(shown) => Some(copy(shown)),
    }
}

fn copy(shown: &Shown) -> Shown
    ensures { result ≡ shown.now }
{
    match shown {
        Shown::Write {
            process,
            sector,
            words,
        } => Shown::Write {
            process: *process,
            sector: *sector,
            words: *words,
        },
        Shown::Reply {
            terminal,
            number,
            words,
        } => Shown::Reply {
            terminal: *terminal,
            number: *number,
            words: words.copy(),
        },
    }
}
