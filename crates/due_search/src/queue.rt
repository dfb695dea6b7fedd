ghost use Rattle.std.specs.Prelude.{◌≡◌};
ghost use Rattle.due_search.specs.Search.{first_visit, place_in_seen};

use gd_words::limits::MOST_DEPTH;

/// So many amounts may be due at a node: 0 to the greatest depth.
pub(crate) const AMOUNTS: usize = MOST_DEPTH as usize + 1;

/// A node to which a search comes, with how much is due there, cut at the most that is counted: the place in the queue
/// of the visit from which it comes, and its steps from the start.
#[derive(Clone, Copy)]
pub struct Visit {
    pub node: u16,
    pub due: u8,
    pub from: u16,
    pub steps: u16,
}

impl Visit {
    /// The visit with which a search begins.
    pub(crate) fn first() -> Visit
        ensures { result ≡ first_visit }
    {
        Visit {
            node: 0,
            due: 0,
            from: 0,
            steps: 0,
        }
    }

    /// Its place in what is seen, in which each node has one for each amount.
    pub(crate) fn place_in_seen(&self) -> usize
        ensures { result ≡ place_in_seen self.now }
    {
        usize::from(self.node) * AMOUNTS + usize::from(self.due)
    }
}
