ghost use Rattle.std.specs.Prelude.{◌≡◌, IfOk};
ghost use Rattle.site_machine.specs.Stopped.{stopped_from};

use crate::machine::Machine;
use gd_words::{List, NoMemory};
use std::alloc::Global;

/// The numbers of the processors that have stopped, rising.
pub fn stopped_processors(alloc: Global, machine: &Machine) -> Result<List<u8>, NoMemory>
    ensures { IfOk result (λ processors. processors ≡ stopped_from 0 machine.now.state.world.stopped) }
{
    let stopped = machine.stopped();
    let mut processors = List::new(alloc);
    for processor in 0..machine.processors() {
        if stopped[usize::from(processor)] {
            processors.push(processor)?;
        }
    }
    Ok(processors)
}
