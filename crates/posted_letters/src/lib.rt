//! The wires of the machine over whole messages, in code: letters that were posted, the packets of them on the bus, and
//! the letters that are owed until they were handed over.
//!
//! Below stand `message_wires`, whose `specs/Wires.antt` says what each call makes of the wires, and `sendings` with
//! letters. The layer above uses that `PostedLetters` is the `Wires` of that definition and that each of its calls is
//! the change that it names.
#![tactic(auto)]

mod bus;
mod owed;
pub mod posted;
pub mod sent;

pub use posted::PostedLetters;
pub use sendings::{Letter, Message, Sending};
pub use sent::Sent;
