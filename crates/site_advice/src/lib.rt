//! The advice for the programs of a site: that for each pair, in deck order, or the first program that nothing mends.
//!
//! Below stand `advice_search`, which advises one program, `statement_lines`, which tells where its statements stand,
//! and `verdicts` with what is told of a refusal. The layer above uses `advise_all`, whose answer is `IsSiteAdvice` of
//! `specs/SiteAdvised.antt`.
#![tactic(auto)]

pub mod pairs;

pub use advice_search::{Advised, Reason, RefusalFault};
pub use pairs::{PairAdvice, SiteAdvice, advise_all};
pub use verdicts::RefusedProgram;
