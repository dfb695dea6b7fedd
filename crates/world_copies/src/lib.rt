//! The world of copies in code: a site with both copies of each of its processes, its terminals, which processors have
//! stopped, how often each was loaded again, which node has marked which, and what happened.
//!
//! Below stand `process_copies` with what one process does, `node_copies` with the records of what happened, `sendings`
//! with messages, and `computed_changes` with what each change makes of a world. The layer above uses that
//! `WorldCopies::boot` is the world at the beginning, that each call is the change that it names, and that the call
//! tells what the change sends. Nothing is on wires here, so a machine is this and its wires. Calls that raise numbers
//! require that each has a successor, and a request that is handed over names an opener that is there
//! (`specs/Room.antt`).
#![tactic(auto)]

mod asking_again;
mod closing;
pub mod copies;
mod counts;
mod entering;
mod handing;
mod idle;
mod marking;
mod printing;
mod processors;
mod reloading;
mod routing;
mod running;
mod starting;
mod stopping;
mod telling_again;
pub mod terminal;
mod turning;

pub use copies::WorldCopies;
pub use process_copies::{
    CopyControl, CopyShare, Disc, Downs, DriveState, Message, NodeCopy, Process, ProcessCopies,
    Sending, StepOutcome, TERMINAL_NODE, Waiting, copy_request,
};
pub use terminal::Terminal;
pub use world_semantics::{Role, Which};
