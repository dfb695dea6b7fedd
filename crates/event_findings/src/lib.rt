//! What an event of a run did, found by the machine before it and after it: what became of the packet that it names,
//! the statement that a process made and what that set, checkpoints, takeovers, stops, marks, entries, how a drive
//! stands, what a tick finds out about the processors, and which messages were sent.
//!
//! Below stand `machine_views` with the view of the machine, `link_control` with what waits at the ends of channels,
//! `trace_lines` with what is told of an event, and `image_places` and `global_changes`, which read a program's image.
//! The layer above notes the machine before an event by `note`, and takes what it did from `findings`, which is `told`
//! of `specs/Told.antt` for each event that is played.
#![tactic(auto)]

mod acts;
mod changes;
mod drives;
mod handed_over;
pub mod laws;
mod messages;
pub mod noting;
mod packets;
mod sends;
mod sets;
mod steps;
pub mod telling;
mod watches;

pub use laws::what_is_found_is_told;
pub use noting::{HandedOver, Holding, Noted, Queued, Ticking, note};
pub use telling::{findings, shown_since};
