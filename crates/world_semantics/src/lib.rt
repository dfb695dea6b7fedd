//! The world of copies: each process as two copies in two processors, the messages that were ever sent between them,
//! the processors that stopped, and what may change in it. It says what the machines do, and has no packets, channels
//! or ticks.
//!
//! Below stand `process_semantics` with the states and steps of processes, `checkpoint_image` with checkpoints and
//! receive tables, `plain_semantics` with acts and openers, `disc_device` with the sectors of discs, and `schedule`
//! with the events of a run. The layer above shows that one event of its machine `Follows` here, and uses the laws of
//! this crate's public functions over whole runs.
#![tactic(auto)]

pub mod examples;
pub mod laws;
pub mod message_laws;
pub mod role;
pub mod which;

pub use checkpoint_image::{ImageMessage, NoMemory, OpenerBlock, ReceiveBlock, TakenMessage};
pub use examples::{
    a_disc_finds_its_write_done, a_lost_take_is_replaced, a_repeated_request_is_answered_once,
    a_request_can_wait_ahead, an_adder_is_taken_over, an_adder_is_taken_over_twice,
};
pub use laws::{
    a_run_has_one_outcome, a_run_is_computed, copies_go_with_their_processor, hands_agree,
    marked_have_stopped, marks_name_one_processor, messages_stay, nothing_comes_to_a_stopped_node,
    numbers_never_fall, one_copy_acts, only_a_reload_starts_a_processor, positions_are_kept,
    shown_and_kept_stay, what_comes_was_sent, what_is_sent_stays,
};
pub use message_laws::{
    a_copy_has_sent_what_it_has, a_receiving_copy_keeps_up, a_takeover_begins_an_era,
    a_terminal_awaits_one_reply, a_terminal_enters_its_next_request,
    checkpoints_are_applied_in_order, one_request_of_an_opener_waits,
    only_a_kept_reply_is_sent_again, only_a_sent_checkpoint_is_acknowledged,
    only_the_awaited_reply_is_got, only_the_awaited_reply_is_printed, what_was_taken_does_not_wait,
};
pub use plain_semantics::{Opener, Point, files_of};
pub use role::Role;
pub use which::Which;
