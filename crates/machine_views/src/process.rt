ghost use Rattle.std.specs.Prelude.{◌≡◌, IfOk};
ghost use Rattle.site_machine.specs.processes.specs.Seen.{state_of};
ghost use Rattle.machine_views.specs.Views.{image_of_everything};

use checkpoint_image::Behaviour;
use gd_words::{List, NoMemory};
use site_machine::Process;
use std::alloc::Global;

/// The image of a process with everything that it may list.
pub fn image_of_everything(alloc: Global, process: &Process) -> Result<List<i16>, NoMemory>
    ensures { IfOk result (λ words. words ≡ image_of_everything (state_of process.now)) }
{
    let words = process.image(alloc, process.everything())?;
    Ok(words)
}
