use checkpoint_image::Behaviour;
use gd_words::{List, NoMemory};
use std::alloc::Global;
use tal_interp::TalProcess;

/// The words of a process's image with all that it may name at a checkpoint.
pub fn image_of(alloc: Global, process: &TalProcess) -> Result<List<i16>, NoMemory> {
    process.image(alloc, process.everything())
}
