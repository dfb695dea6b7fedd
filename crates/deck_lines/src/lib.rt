//! What a line of a deck says, by itself: a text cut into lines and a line into words, numbers, and the forms of all
//! lines.
//!
//! Below stands `gd_words` with names and words. The layer above uses that `next_line` and `next_word` cut a text as
//! `specs/Lines.antt` says, and that `saying_of` tells what a line says (`specs/SayingOf.antt`); where the line may
//! stand is not asked here.
#![tactic(auto)]

pub mod event_saying;
pub mod lines;
pub mod numbers;
pub mod saying;

pub use event_saying::{EventKeyword, EventSaying, PacketPlace};
pub use lines::{next_line, next_word, one_word, split_before, two_words};
pub use numbers::written_number;
pub use saying::{Placing, Saying, saying_of};
