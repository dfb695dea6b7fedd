//! Guards of what is played: a site begins with nothing sent or kept, an answer tells what was done, a stop leaves no
//! process out, nothing is marked before it stops, no processor stops in a world that isn't whole, a loss pays nothing,
//! a takeover goes on from the last checkpoint, a reload forgets what is owed and makes what was sent old, an event of
//! a drive changes drives alone and never breaks the last one, a state is idle where nothing is left, and what was held
//! is kept at the end. A wrong definition is refused here, and so is every machine whose event settles another one.
//!
//! Below stand `message_wires`, `machine_states`, `computed_changes` and `world_semantics`, whose definitions are
//! guarded; nothing stands above.
#![tactic(auto)]

pub mod beginnings;
pub mod closing;
pub mod drives;
pub mod idle;
pub mod machines;
pub mod owed;
pub mod packets;
pub mod reloads;
pub mod ticks;
