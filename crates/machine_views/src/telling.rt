ghost use Rattle.std.specs.Prelude.{◌≡◌, IfOk};
ghost use Rattle.machine_views.specs.Views.{view_of};

use crate::copies::copies;
use crate::nodes::{down, reloads, terminals};
use crate::sectors::sectors;
use crate::views::View;
use gd_words::NoMemory;
use site_machine::{Machine, stopped_processors};
use std::alloc::Global;

/// What the machine tells of itself. Of one that once wanted memory it tells the state in which that left it.
pub fn view(alloc: Global, machine: &Machine) -> Result<View, NoMemory>
    ensures { IfOk result (λ view. view ≡ view_of machine.now.state.world) }
{
    let processes = machine.processes();
    let stopped = stopped_processors(alloc, machine)?;
    let reloads = reloads(alloc, machine)?;
    let down = down(alloc, machine.downs())?;
    let copies = copies(alloc, processes)?;
    let terminals = terminals(alloc, machine.terminals())?;
    let sectors = sectors(alloc, processes)?;
    Ok(View {
        stopped,
        reloads,
        down,
        copies,
        terminals,
        sectors,
    })
}
