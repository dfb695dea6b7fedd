//! The machine of single unfailing processes, told by what its processes have done: a ledger has the deeds of each
//! process and the words that each terminal entered and printed, and says which acts are possible and what stands in
//! each slot.
//!
//! Below stand `process_histories` with the deeds of one process and `plain_semantics` with the machine. The layer
//! above uses `AreBooked` and `AreHeld` of `specs/Booking.antt`, that booked acts are possible and show what is booked
//! (`booked_acts_are_possible`), and what keeps held acts so until they are kept. No code runs here.
#![tactic(auto)]

pub mod guards;
pub mod laws;

pub use laws::{
    a_deed_is_an_act, an_act_is_a_deed, booked_acts_are_possible, booked_words_are_short,
    deeds_count_acts, entries_keep_their_numbers, held_acts_can_be_kept_later, lists_make_one_slot,
    others_leave_a_process_alone,
};
