use process_images::{List, Words};

/// How the number of a request stands to what its process has taken from that opener.
#[derive(Drop)]
pub enum RequestStanding {
    /// It is the one after the last that was taken.
    Next,
    /// It is in hand.
    InHand,
    /// It was answered, and this reply is kept.
    Kept(Words),
    /// It was taken, isn't in hand, and no reply to it is kept.
    Old,
    /// It is a later one than the next.
    Ahead,
}

/// What a process remembers of one opener: the number last taken from it, and the replies that are kept, the oldest
/// first.
#[derive(Drop)]
pub struct OpenerBlock {
    pub taken: u32,
    pub kept: List<Words>,
}

/// A receive table: a block for each opener, and the place of the opener whose request is in hand.
#[derive(Drop)]
pub struct ReceiveBlock {
    pub openers: List<OpenerBlock>,
    pub in_hand: Option<u16>,
}
