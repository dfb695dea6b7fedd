//! A process of the world of copies, in code: its two copies, each in its node, and which of them does what.
//!
//! Below stand `node_copies` with one copy and the records of what happened, `disc_device` with sectors, and `sendings`
//! with messages. The layer above uses that each call makes of the process and the records what the world of copies
//! computes for one process: the step where it runs (`world_semantics`), that of a message that comes
//! (`computed_changes`), and what its definitions say of stops, marks and reloads. What may raise numbers requires that
//! they have successors (`HasRoom` of `message_wires`). A request that comes in must name an opener that is there.
#![tactic(auto)]

mod asking_again;
pub mod copies;
mod handing;
pub mod marking;
pub mod reloading;
mod running;
pub mod sent;
mod starting;
mod telling;
mod turning;
mod two;

pub use copies::ProcessCopies;
pub use disc_device::{Disc, DriveState};
pub use node_copies::{
    Address, ChangeMessage, CopyControl, CopyShare, Downs, Effect, Message, NodeCopy, Process,
    Records, Sending, StepOutcome, TERMINAL_NODE, Waiting, copy_request, is_running,
};
pub use reloading::BlankCopies;
pub use schedule::DriveEvent;
pub use sent::SentCheckpoints;
pub use starting::address_of;
