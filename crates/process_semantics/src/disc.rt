use crate::point::Point;
use tal_values::Words;

/// The state of a disc, as the definitions of its steps speak of it: its point, which is Take, Checkpoint, Device or
/// Answer, the words of the request in hand, those of its reply once the device has acted, and the number of its last
/// write.
#[derive(Drop)]
pub struct DiscState {
    pub label: Point,
    pub request: Option<Words>,
    pub reply: Option<Words>,
    pub last_write: u32,
}
