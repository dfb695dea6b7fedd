//! The message system of a node: its open links, and the processor to which the requests of each process go.
//!
//! Below stand `slab`, which keeps the links under numbers, and `tal_tree`, which has the sites. The layers above use
//! that each call of `Links` opens, changes or ends one link and leaves all others, that `listen` and `link_of` name
//! the oldest link, that `down` turns the routes to one processor away from it, and that `set` sets that of one
//! process.
#![tactic(auto)]

pub mod link;
pub mod links;
pub mod routes;

pub use link::{Link, LinkFault, Side};
pub use links::Links;
pub use routes::{Route, Routes};
