//! The lines of a trace: what is told of an event of a run, as data and as text for people, one line an event.
//!
//! Below stand `schedule` with the events, `tal_tree` with the site that names processes and terminals, and
//! `text_pieces`, by whose pieces texts are put together. The layers above find out what an event did, and use
//! `put_event`, whose text is `event_line` of `specs/EventLine.antt`.
#![tactic(auto)]

mod act_words;
mod checkpoint_words;
pub mod event_line;
pub mod finding;
pub mod finding_words;
mod message_names;
mod names;
mod packet_fates;
pub mod places;
mod set_words;
pub mod shown_words;
mod statements;

pub use event_line::{EventTold, put_event, put_event_name};
pub use finding::{ActName, Fate, Finding, MessageName, PacketSight, PacketSort, WhyIgnored};
pub use finding_words::put_found;
pub use places::Places;
pub use shown_words::put_showing;
