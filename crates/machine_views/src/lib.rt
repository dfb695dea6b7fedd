//! What a machine of copies tells of itself: `View`, plain data, and `view`, which takes it from the machine over
//! packets.
//!
//! Below stand `site_machine`, `process_copies` and `node_copies`, which lend their parts, `checkpoint_image` and
//! `process_images` with the image of everything, and `world_semantics` with the world of copies. The layer above uses
//! that the view of a machine is exactly `view_of` of its world (`specs/Views.antt`), the image of everything of one
//! process, and the laws of `laws.rt` on what a view says.
#![tactic(auto)]

mod copies;
pub mod guards;
pub mod laws;
mod nodes;
pub mod process;
mod sectors;
pub mod telling;
pub mod views;

pub use laws::{marks_are_told, stopped_processors_are_told};
pub use process::image_of_everything;
pub use site_machine::{CopyShare, Machine, Process, ProcessCopies, set_of};
pub use telling::view;
pub use views::{
    Awaited, CopyView, DownView, SectorView, TerminalView, View, acting_of, is_acting,
};
