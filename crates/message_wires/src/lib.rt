//! The wires of the machine over whole messages, and what each event makes of a state: a packet on the bus is a whole
//! letter, and a letter is owed until it is handed over. It says what the machine plays, and what it means that each
//! number of a state has a successor in its range (`specs/HasRoom.antt`). No code runs here.
//!
//! Below stand `computed_changes` with the changes of the world, `letters` with routes and what a mark sends again, and
//! `machine_states`. The layer above shows that its machine `Settles` what `play`, of `specs/Play.antt`, says; laws
//! above show that what is played are runs of the world.
#![tactic(auto)]

pub mod examples;

pub use computed_changes::{ChangeMessage, ImageMessage, Opener, files_of};
pub use machine_states::Effect;
