//! One copy of a process in its node, with all that is its own, and what it does where it acts, where something comes
//! to it and where it takes over; and the records of what happened, which it writes.
//!
//! Below stand `process_control` with one copy by itself, `file_calls` with the requests that wait, `kept_acts` with a
//! copy's share of the kept acts, `disc_device` with sectors, and `sendings` with messages. The layer above uses that
//! each call makes of the copy, the device and the records what the world's own definitions say of an act
//! (`specs/Acting.antt`) and of what comes to a copy (`specs/Receiving.antt`), and that a copy tells truly whether it
//! can act.
#![tactic(auto)]

mod acting;
pub mod address;
mod device;
pub mod downs;
pub mod one;
mod receiving;
pub mod recording;
pub mod records;
pub mod sending;
mod settling;
pub mod shown;
mod starting;
pub mod step;
mod telling;

pub use address::Address;
pub use downs::Downs;
pub use file_calls::{Arrival, Waiting};
pub use kept_acts::CopyShare;
pub use message_wires::{ChangeMessage, Effect};
pub use one::NodeCopy;
pub use process_control::{Asking, CopyControl};
pub use processes::Process;
pub use records::Records;
pub use sendings::{Message, Sending, TERMINAL_NODE, copy_request, is_running};
pub use step::StepOutcome;
