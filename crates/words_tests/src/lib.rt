//! Tests of the values below and of the ends of input and output: what grows, what is spelled, the words at the ends of
//! their range, logs and what owners share, and reads and writes that fail.
//!
//! Below stand the crates that are tested; nothing stands above.
#![tactic(auto)]

#[cfg(test)]
mod ends;
#[cfg(test)]
mod happenings;
#[cfg(test)]
mod words;
