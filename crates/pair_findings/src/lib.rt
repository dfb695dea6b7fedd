//! What is found of the programs of a site's pairs: whether each is accepted, or the cause for which it is refused and
//! which statements lead to it, and what mends it.
//!
//! Below stand `discipline` with the verdict, `advice_search` with the advice, `statement_dues` with what statements
//! make due and what CHECKPOINTs name, and `statement_lines`. The layer above uses `findings_of`, whose clause is
//! `AreFindings` of `specs/Findings.antt`.
#![tactic(auto)]

pub mod finding;
pub mod findings;
pub mod notes;

pub use advice_search::{Advice, Advised};
pub use finding::{Finding, PairFinding, Remedy};
pub use findings::findings_of;
pub use notes::{has_note, since_checkpoint};
pub use statement_dues::NamedCheckpoint;
