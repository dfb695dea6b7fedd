//! The messages between nodes, in code: each as its words, and the message that words tell.
//!
//! Below stand `message_layout`, which says what words a message has and which message words tell, `checkpoint_image`
//! and `change_layout` with the words of checkpoints, and `alive_regroup` with sets of processors. The layers above use
//! that each kind of message is written in its words, and that `read` gives the message that words tell, or none.
#![tactic(auto)]

pub mod masks;
pub mod message;
pub mod reading;
mod unread;
pub mod writing;

pub use masks::set_of;
pub use message::NodeMessage;
pub use reading::read;
pub use writing::{
    change_words, checkpoint_words, down_words, reply_words, report_words, request_words,
    taken_words,
};
