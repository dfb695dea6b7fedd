//! Tests of what carries messages: the words of packets, messages cut and joined, a full bus, and a channel whose
//! packets are lost, repeated and late; a requester's link from the request to its end, the oldest of a server's links,
//! a table in which numbers are used again, and routes away from a processor that is down.
//!
//! Below stand the crates that are tested; nothing stands above.
#![tactic(auto)]

#[cfg(test)]
mod channels;
#[cfg(test)]
mod links;
#[cfg(test)]
mod packets;
#[cfg(test)]
mod pieces;
#[cfg(test)]
mod routes;
