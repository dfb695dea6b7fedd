//! Tests of single copies of processes. Played from scripts one copy acts, asks, answers and sends checkpoints, the
//! other applies what is its next one and fits, whole or as what changed, and takes over; a copy sends everything to a
//! blank one, which watches then; and the largest process goes out in a checkpoint, through its words, and in. Of the
//! requests that wait at a copy: which one waits of an opener, which come again, which is taken next, what a takeover
//! settles, and which reply is the awaited one. Of the kept acts: what a copy's acts add to them, what is held and kept
//! with a checkpoint, and what a takeover does anew.
//!
//! Below stand the crates that are tested; nothing stands above.
#![tactic(auto)]

#[cfg(test)]
mod adders;
#[cfg(test)]
mod arrivals;
#[cfg(test)]
mod choices;
#[cfg(test)]
mod large;
#[cfg(test)]
mod renewals;
#[cfg(test)]
mod replies;
#[cfg(test)]
mod scripts;
#[cfg(test)]
mod sharing;
#[cfg(test)]
mod starting;
#[cfg(test)]
mod steps;
#[cfg(test)]
mod table;
#[cfg(test)]
mod takeovers;
#[cfg(test)]
mod worded;
