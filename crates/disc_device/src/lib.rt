//! The device of a disc: its sectors, each with its words and the number of the write that put them, so that a write
//! that is made again changes nothing. They stand on one drive or, mirrored, on two.
//!
//! Below stands `mirror` with the drives. The layer above uses that `Disc` reads and writes as `specs/Sectors.antt`
//! says, whatever becomes of a drive, how that changes how the drives stand, and the laws of writing in `laws`.
#![tactic(auto)]

pub mod disc;
pub mod laws;

pub use disc::Disc;
pub use laws::{a_number_writes_once, another_number_writes_again, other_sectors_stay};
pub use mirror::{DriveState, Failing, Stored};
