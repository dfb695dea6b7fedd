ghost use Rattle.std.specs.Prelude.{◌≡◌, ◌<◌, ◌↔◌, IfOk, IsTrue};
ghost use Rattle.plain_semantics.specs.Machine.{IsPossible, IsNoneLeft, shown_by};
ghost use Rattle.plain_machine.specs.Lines.{lines_played, run_of};
ghost use Rattle.plain_machine.specs.Rounds.{run_start};
ghost use Rattle.plain_machine.specs.Standing.{IsPlayable};
ghost use Rattle.plain_machine.specs.Writes.{lines_acts};

use crate::ran::Ran;
use crate::wires::Wires;
use gd_words::{List, NoMemory};
use schedule::Line;
use std::alloc::Global;
use tal_tree::{Act, Shown, Site};

/// The acts of a schedule, what they show, and whether no act is possible after them.
#[derive(Drop)]
pub struct Played {
    pub acts: List<Act>,
    pub shown: List<Shown>,
    pub idle: bool,
}

/// Plays the lines of a schedule on a machine of single unfailing processes of its own. `run` makes one Take or Step of
/// its process, and `enter` one Enter of its terminal. A round is, in this order, Enter of each terminal, one Take or
/// Step of each process, and Print of each terminal. Each is made where it is possible; a Take takes the waiting opener
/// of the lowest place. The lines of other events make nothing. The lines ask for no more acts than numbers of 32 bits.
pub fn play_lines(alloc: Global, site: &Site, lines: &[Line]) -> Result<Played, NoMemory>
    requires playable { IsPlayable site.now }
    requires room { lines_acts site.now lines.now < 4294967296 }
    ensures acts { IfOk result (λ played. played.acts ≡ (run_of site.now lines.now).acts) }
    ensures possible { IfOk result (λ played. IsPossible site.now played.acts) }
    ensures shown { IfOk result (λ played. played.shown ≡ shown_by site.now played.acts) }
    ensures idle { IfOk result (λ played. IsTrue played.idle ↔ IsNoneLeft site.now played.acts) }
{
    let wires = Wires::new(alloc, site)?;
    let ran = ran_of(alloc, site, &wires, lines)?;
    let idle = ran.is_still(&wires);
    let (acts, shown) = ran.into_lists();
    Ok(Played { acts, shown, idle })
}

fn ran_of(alloc: Global, site: &Site, wires: &Wires<'_>, lines: &[Line]) -> Result<Ran, NoMemory>
    requires wires { wires.now ≡ site.now }
    requires playable { IsPlayable site.now }
    requires room { lines_acts site.now lines.now < 4294967296 }
    ensures { IfOk result (λ ran. ran ≡ run_of site.now lines.now) }
{
    let mut ran = Ran::start(alloc, site)?;
    for line in lines {
        ran.play(wires, *line)?;
    }
    Ok(ran)
}
