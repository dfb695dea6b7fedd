//! Processes as a machine of copies sees them: `Behaviour`, the one interface to programs and discs; and what a
//! checkpoint carries: the words of an image, the files that it names with their numbers, and the receive table, and
//! the words in which it goes.
//!
//! Below stand `gd_words` with requests and replies, `process_semantics` with the states of processes, their steps and
//! images, `whole_states`, which says what may be listed, and `process_images` with all that may. The layers above use
//! the types; of `Behaviour`, that each call is the step of its definition; of `specs/Receive.antt` how a request that
//! comes stands to a receive table, what taking and answering change in one, and which requests wait; and that a
//! checkpoint has its words and words at most one checkpoint (`to_words`, `from_words`). A layout with the same parts
//! puts and reads these by `putting` and `reading`.
#![tactic(auto)]

pub mod behaviour;
pub mod layout;
pub mod message;
pub mod putting;
pub mod reading;
pub mod receive;

pub use behaviour::{Behaviour, Listed};
pub use layout::{from_words, to_words, words_tell_their_message};
pub use message::{FileNumber, Image, ImageMessage, TakenMessage};
pub use process_images::{List, MOST_DEPTH, MOST_FILES, NoMemory, OpenerSpec, Words};
pub use receive::{OpenerBlock, ReceiveBlock, RequestStanding};
