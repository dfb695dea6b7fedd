ghost use Rattle.std.specs.Prelude.{◌≡◌, map, not};
ghost use Rattle.std.specs.List.{list_any};
ghost use Rattle.process_copies.specs.computed_changes.specs.Stopped.{stopped_world};
ghost use Rattle.process_copies.specs.message_wires.specs.Play.{some_has_stopped};
ghost use Rattle.world_semantics.specs.Rules.{stopped_pair};
ghost use Rattle.world_semantics.specs.World.{is_pair_of, is_whole};
ghost use Rattle.world_copies.specs.Changes.{changed};
ghost use Rattle.world_copies.specs.Seen.{pairs_in};

use crate::copies::WorldCopies;
use process_copies::ProcessCopies;

impl WorldCopies {
    /// Whether the world is whole: no processor has stopped, and each process has a copy that acts and one that
    /// watches.
    pub fn is_whole(&self) -> bool
        ensures { result ≡ is_whole self.now.world }
    {
        !self.stopped.some_has_stopped() && are_pairs(self.processes.as_slice())
    }

    /// Whether any processor has stopped.
    pub fn some_has_stopped(&self) -> bool
        ensures { result ≡ some_has_stopped self.now.world.stopped }
    {
        self.stopped.some_has_stopped()
    }

    /// A processor stops.
    pub fn stop(&mut self, processor: u8)
        ensures { self.new ≡ record self.old { world = stopped_world processor self.old.world } }
    {
        self.stopped.stop(processor);
        stop_all(self.processes.as_mut_slice(), processor);
    }
}

fn stop_all(processes: &mut [ProcessCopies], processor: u8)
    ensures { processes.new ≡ map (changed (stopped_pair processor)) processes.old }
{
    for number in 0..processes.len() {
        processes[number].stop(processor);
    }
}

fn are_pairs(processes: &[ProcessCopies]) -> bool
    ensures { result ≡ not (list_any (λ pair. not (is_pair_of pair.first.role pair.second.role))
        (pairs_in processes.now)) }
{
    for process in processes {
        if !process.is_pair() {
            return false;
        }
    }
    true
}
