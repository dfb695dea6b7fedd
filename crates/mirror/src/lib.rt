//! The drives of a mirrored disc: each write goes to each drive that works, so that one may fail, and a new one is
//! filled while writes go on.
//!
//! Below stands `gd_words` with the words of a sector. The layer above uses that what `Drives` reads and writes is one
//! content, which no failing, reviving or copying changes, and that `drive` lends a drive which itself holds it: all of
//! it while it works, and what stands below its next sector while it is revived.
#![tactic(auto)]

pub mod drive;
pub mod drives;
mod half;
pub mod memory_drive;
pub mod state;
pub mod stored;

pub use drive::Drive;
pub use drives::Drives;
pub use gd_words::{NoMemory, Sector};
pub use memory_drive::MemoryDrive;
pub use state::{DriveState, Failing};
pub use stored::Stored;
