//! Why a change of the world of copies changes what the links of its own node are for, and not those of any other one.
//! No code runs here.
//!
//! Below stand `node_needs` with what links are for, `computed_changes` with the changes, and `packet_places` with what
//! stays away from a node. The layer above, which has the links of all nodes, uses that it has to see after those of
//! one node alone.
#![tactic(auto)]

pub mod laws;
