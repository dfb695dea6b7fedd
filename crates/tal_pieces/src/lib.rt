//! The text of a program, as a definition: the pieces that it is printed as, and how they are spelled and laid out; and
//! why that text reads back.
//!
//! Below stand `tal_tree` for the trees, `tal_names` with the names of the system's calls, `tal_reader`, which says
//! what it is that a text reads as a program, and `tal_faultless`, whose lemmas on texts without faults are used in the
//! proofs. The layer above writes `spelled (printed program)` and relies on the law `a_printed_program_reads_back`.
#![tactic(auto)]

pub mod ending;
pub mod laws;
pub mod piece;
pub mod rank;

pub use ending::Ending;
pub use laws::{a_printed_program_reads_back, a_text_is_cut_into_its_pieces};
pub use piece::{Keyword, Piece, Symbol, system_name};
pub use rank::{TestRank, ValueRank};
