//! How a change of the world of copies changes the open links of the node at which it is made: a request that is sent
//! is linked, a reply ends the links of its request, and a request that waits keeps its link until it is taken or
//! outdone. No code runs here.
//!
//! Below stand `node_needs` with the links that a node has open, and `letter_laws` and `served_requests` with what is
//! known of runs. That a change leaves the links of all other nodes is `needs_laws`. Whoever asks a machine for the
//! links of a node reads here why they change as LINK, READLINK and WRITELINK say.
#![tactic(auto)]

pub mod guards;
pub mod laws;

pub use laws::{
    a_mark_ends_the_links_of_what_is_dropped, a_processor_begins_without_links,
    a_reply_ends_the_links_of_its_request, a_request_that_comes_leaves_the_links_of_others,
    a_request_that_is_sent_is_linked, a_request_that_waits_has_one_link,
    a_request_that_waits_keeps_its_link_as_it_is_taken, a_stop_ends_all_links_of_its_processor,
};
