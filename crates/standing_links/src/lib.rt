//! Which links have to be open at a node, told by the requests that wait, are in hand and are awaited there; and what
//! each call on the links of a node has to do with that. No code runs here.
//!
//! Below stands `node_links` with the table of links. The layer above, which has the copies of a node and its links,
//! uses that each of its changes keeps the links as they have to be (`StandFor`), if the right link is opened or ended.
#![tactic(auto)]

pub mod laws;
