ghost use Rattle.std.specs.Prelude.{◌≡◌};
ghost use Rattle.std.specs.List.{list_all};
ghost use Rattle.node.specs.packet_wires.specs.Idle.{all_quiet, is_idle, is_quiet};
ghost use Rattle.node.specs.packet_wires.specs.Nodes.{all_nodes};

use crate::whole::MachineParts;
use gd_words::limits::MOST_NODES;

impl MachineParts {
    /// Whether nothing is left to do.
    pub(crate) fn is_idle(&self) -> bool
        ensures { result ≡ is_idle self.now }
    {
        self.world.none_enters()
            && self.world.none_runs()
            && self.world.none_awaits_taking()
            && self.all_quiet()
            && self.world.all_marked()
    }

    /// Whether no channel between nodes that run holds anything.
    fn all_quiet(&self) -> bool
        ensures { result ≡ all_quiet self.now.world.stopped self.now.wires.nodes }
    {
        for from in 0..MOST_NODES {
            if !self.is_quiet_from(from) {
                return false;
            }
        }
        true
    }

    /// Whether no channel from a node to one that runs holds anything.
    fn is_quiet_from(&self, from: u8) -> bool
        ensures { result ≡ list_all (is_quiet self.now.world.stopped self.now.wires.nodes from) all_nodes }
    {
        for to in 0..MOST_NODES {
            if !self.is_quiet(from, to) {
                return false;
            }
        }
        true
    }

    /// Whether the channel from a node to another holds nothing, where both run.
    fn is_quiet(&self, from: u8, to: u8) -> bool
        ensures { result ≡ is_quiet self.now.world.stopped self.now.wires.nodes from to }
    {
        !(self.world.is_running(from) && self.world.is_running(to))
            || self.wires.holds_nothing(from, to)
    }
}
