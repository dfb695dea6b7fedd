//! Tests of checkpoints, of what a process remembers in them, and of discs: the words of checkpoints both ways, whole
//! and as what changed, and words that no checkpoint has; receive tables, and what changed in one put into an earlier
//! copy of it; the numbers of a process that asks; a disc that goes on in the other copy; its sectors; and drives of
//! which one fails and a new one is filled. What tables fit, and how a number stands, is guarded in `request_guards`.
//!
//! Below stand the crates that are tested; nothing stands above.
#![tactic(auto)]

#[cfg(test)]
mod asking;
#[cfg(test)]
mod change_words;
#[cfg(test)]
mod changes;
#[cfg(test)]
mod disc;
#[cfg(test)]
mod layout;
#[cfg(test)]
mod mirrored;
#[cfg(test)]
mod receiving;
#[cfg(test)]
mod sectors;
