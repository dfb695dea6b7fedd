//! What a process is and does: the state of a program and of a disc, the point at which it stands, and its step there.
//! The definitions of programs are `specs/State.antt`, `specs/Points.antt`, `specs/Steps.antt` and `specs/Calls.antt`,
//! that of discs is `specs/Disc.antt`, and their sum `specs/Process.antt`. `specs/Rests.antt` says what remains from
//! each number of a body on, `specs/Remains.antt` what may remain in a procedure, which `what_remains_is_told` says is
//! told by a number, and `specs/Image.antt` what the words of a checkpoint are and restore.
//!
//! Below stand `gd_words`, `tal_tree` with the trees and `tal_values` with their values. The layer above speaks of
//! `ProcessState`, its steps and its images. `DiscState` and `Point` are data alone; for what runs programs here are
//! the parts that take no step themselves: what a count names, and the words of globals.
#![tactic(auto)]

mod asked;
pub mod counts;
pub mod disc;
pub mod entry;
pub mod globals;
pub mod laws;
pub mod point;
mod variable;

pub use asked::Asked;
pub use disc::DiscState;
pub use entry::{Entry, body_before, entry_number};
pub use laws::what_remains_is_told;
pub use point::Point;
pub use tal_values::{
    Cell, DeviceCall, FileUse, Kind, List, MOST_DEPTH, MOST_FILES, MOST_MESSAGE_WORDS,
    MOST_PROCESSES, MOST_REQUESTS, MOST_TERMINALS, Memory, Name, NoMemory, OpenerSpec, ProcessSpec,
    Sector, Site, Target, TerminalSpec, Who, Words,
};
pub use variable::variable_cell;
