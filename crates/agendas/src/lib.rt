//! Where a schedule stands, which event is its next one, and what it means that a schedule was played, on whatever
//! machine (`specs/Agendas.antt`). No code runs here.
//!
//! Below stand `player` with the events of one line, and `tal_tree` with sites. The layer above says what its machine
//! counts, and what an event makes of it.
#![tactic(auto)]

pub mod laws;

pub use laws::{
    a_stop_comes_before_its_event, an_event_of_a_line_comes, an_event_that_was_held_back_comes,
};
