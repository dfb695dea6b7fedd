//! What a process remembers so that no request is done twice: `Receive`, the receive table with the replies that it
//! keeps to its openers, and `Asker`, the number of the next request on each file of a process that asks. And what
//! changed from a receive table to a later one, so that a checkpoint need not carry the whole table.
//!
//! Below stand `checkpoint_image`, whose definitions say how a number stands to a receive table and what taking and
//! answering change in one, and `circular_buffer`, which keeps the latest replies. The layer above uses that each call
//! of `Receive` does what those definitions say, that `put_block` takes a table exactly where it fits, and `put_change`
//! a change (`specs/Changes.antt`), and that only `new`, `block` and `change_between` take memory.
#![tactic(auto)]

pub mod asker;
pub mod change;
mod changing;
mod opener;
pub mod receive;
pub mod since;

pub use asker::Asker;
pub use change::{OpenerChange, ReceiveChange};
pub use checkpoint_image::putting::{
    put_count, put_counted, put_files, put_long, put_place, put_replies,
};
pub use checkpoint_image::reading::{
    ReadingFault, contents_in, count_in, heading_in, many_replies, pair_in, place_in,
};
pub use checkpoint_image::{FileNumber, ImageMessage, List, MOST_DEPTH, NoMemory};
pub use receive::Receive;
pub use since::change_between;
