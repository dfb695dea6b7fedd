//! What is left at the end of a run, by the view of its machine: for each terminal the request that has no reply, for
//! each process where it stands, at which line, and for whom it waits; and which processes wait for each other.
//!
//! Below stand `machine_views` with the view, `plain_semantics` with what files are opened to, `program_ends` with the
//! line of what comes next, and `wait_rings`. The layer above uses `left_of`, whose answer is what is left (`IsLeft` of
//! `specs/Left.antt`), and the law that there is one such answer.
#![tactic(auto)]

pub mod finding;
mod findings;
pub mod laws;
mod places;
mod servers;

pub use finding::{Left, ProcessLeft, Stand, TerminalLeft};
pub use findings::left_of;
pub use laws::what_is_left_is_one;
pub use machine_views::view;
