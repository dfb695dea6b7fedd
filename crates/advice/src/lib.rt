//! Advice: what the CHECKPOINTs of a program have to name, and how many replies have to be kept for its files, so that
//! it keeps the checkpoint discipline. Here stand the answer's data and the definitions that say which answer is right.
//!
//! Below stand `path_semantics` with paths and what is due along them, and `discipline` with the order of reasons and
//! the verdict. The layer above uses `IsAdvised` of `specs/Answer.antt`, which is what a call gives, and `IsAdvice` of
//! `specs/Advice.antt`.
#![tactic(auto)]

pub mod answer;

pub use answer::{Advice, AdviseFault, Advised};
pub use discipline::{Aim, Flow, FlowFault, Numbers, Search, Visit, may_break_at};
