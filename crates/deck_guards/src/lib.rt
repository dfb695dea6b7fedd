//! Guards of the grammar of decks: what texts spell at telling points, and which spell no deck. A wrong grammar is
//! refused here.
//!
//! Below stands `deck_grammar`, whose relation is guarded; nothing stands above.
#![tactic(auto)]

pub mod limits;
pub mod names;
pub mod order;
