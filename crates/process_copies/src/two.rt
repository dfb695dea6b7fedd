ghost use Rattle.std.specs.Prelude.{◌≡◌};
ghost use Rattle.std.specs.Borrow.{sem};
ghost use Rattle.process_copies.specs.Lending.{LendsCopy, one_of};

use node_copies::NodeCopy;
use world_semantics::Which;

/// The two copies of a process.
#[derive(Drop)]
pub struct TwoCopies {
    pub first: NodeCopy,
    pub second: NodeCopy,
}

impl TwoCopies {
    /// One of them.
    pub fn of(&self, which: Which) -> &NodeCopy
        ensures { result.now ≡ one_of which self.now }
    {
        match which {
            Which::First => &self.first,
            Which::Second => &self.second,
        }
    }

    /// One of them, lent for writing.
    pub fn of_mut(&mut self, which: Which) -> &mut NodeCopy
        ensures* writes_back { sem 𝓛 (LendsCopy self.entry which result) }
        ensures value { result.now ≡ one_of which self.old }
    {
        match which {
            Which::First => &mut self.first,
            Which::Second => &mut self.second,
        }
    }
}
