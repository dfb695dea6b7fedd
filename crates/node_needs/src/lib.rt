//! What the links of a node are for in a world of copies, as definitions (`needs_at`), and the values that they have in
//! worked runs. No code runs here.
//!
//! Below stand `world_semantics` with the world, `letters` with the requests that are awaited, and `standing_links`
//! with what it means that links stand for such needs. The layer above, which has the links of a node, keeps them so.
#![tactic(auto)]

pub mod examples;
