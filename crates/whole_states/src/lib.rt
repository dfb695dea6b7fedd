//! The states that a process may be in, as definitions, and the laws that its steps come to no others.
//!
//! Below stands `process_semantics` with the states and steps of processes. The layer above uses `IsWholeProcess` of
//! `specs/Processes.antt`, that the beginning and every step are whole (`states_stay_whole`), and what follows at each
//! point: what is in hand, when a reply is awaited, and that what is asked and listed is there. No code runs here.
#![tactic(auto)]

pub mod laws;

pub use laws::{hands_are_known, only_asking_awaits, states_stay_whole, what_is_named_is_there};
pub use process_semantics::{
    Asked, DeviceCall, List, MOST_DEPTH, MOST_FILES, MOST_MESSAGE_WORDS, NoMemory, OpenerSpec,
    Point, Sector, Words,
};
