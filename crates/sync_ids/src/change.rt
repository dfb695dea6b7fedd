use checkpoint_image::{List, Words};

/// What changed of one opener: its place, the number last taken from it now, and the replies that are kept now and
/// were not kept then, the oldest first.
#[derive(Drop)]
pub struct OpenerChange {
    pub opener: u16,
    pub taken: u32,
    pub added: List<Words>,
}

/// What changed in a receive table: of which openers, with rising places, and the place of the opener whose request is
/// in hand now.
#[derive(Drop)]
pub struct ReceiveChange {
    pub changes: List<OpenerChange>,
    pub in_hand: Option<u16>,
}
