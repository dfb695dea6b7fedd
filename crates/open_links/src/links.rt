use gd_words::{List, Request};
use std::marker::Model;

/// The open links of a node. A server's link is open for each request that waits there, not read yet, and for each that
/// a copy which acts there has in hand, read and not answered. A requester's link is open for each request whose reply
/// a copy that acts there awaits, or a terminal.
#[derive(Drop)]
pub struct NodeLinks {
    pub waiting: List<Request>,
    pub in_hand: List<RequestName>,
    pub awaited: List<Request>,
}

impl Model for NodeLinks {
    ghost use Rattle.node_needs.specs.standing_links.specs.Needs.{Needs};

    ghost Value = { Needs };

    ghost view = { λ links. record {
      waiting = links.waiting;
      in_hand = links.in_hand;
      awaited = links.awaited;
    } };
}

/// A request by its process, its opener's place and its number: the words of one in hand are its process's.
#[derive(Clone, Copy, PartialEq, Eq)]
pub struct RequestName {
    pub process: u8,
    pub opener: u16,
    pub number: u32,
}

impl Model for RequestName {
    ghost use Rattle.node_needs.specs.standing_links.specs.Needs.{Name};

    ghost Value = { Name };

    ghost view = { λ name. record { process = name.process; opener = name.opener; number = name.number } };

    ghost inverse = { λ name. record { process = name.process; opener = name.opener; number = name.number } };
}
