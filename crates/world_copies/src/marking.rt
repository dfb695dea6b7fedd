ghost use Rattle.std.specs.Prelude.{◌≡◌, ◌∷◌, ◌++◌, if◌then◌else◌, IfOk, OnOk, Some, None, map};
ghost use Rattle.std.specs.List.{flat_map};
ghost use Rattle.tal_tree.specs.declared.site.Site.{Site};
ghost use Rattle.process_copies.specs.computed_changes.specs.Stopped.{down_done, world_at_down, may_mark};
ghost use Rattle.process_copies.specs.letters.specs.Again.{sent_again};
ghost use Rattle.world_semantics.specs.Rules.{pair_at_down, told_at_down};
ghost use Rattle.world_copies.specs.Changes.{changed};
ghost use Rattle.world_copies.specs.Room.{AllWatchersHaveRoom};
ghost use Rattle.world_copies.specs.Seen.{ArePlaced, pairs_in};

use crate::copies::WorldCopies;
use gd_words::{List, NoMemory};
use process_copies::{ProcessCopies, Sending};

impl WorldCopies {
    /// Whether a processor has stopped, and a node that runs hasn't marked it.
    pub fn is_to_mark(&self, node: u8, processor: u8) -> bool
        ensures { down_done node processor self.now.world
            ≡ (if result then Some (world_at_down node processor self.now.world) else None) }
    {
        let place = usize::from(processor);
        if place >= self.stopped.len() {
            return false;
        }
        if !self.stopped.as_slice()[place] {
            return false;
        }
        self.may_mark(node, processor)
    }

    fn may_mark(&self, node: u8, processor: u8) -> bool
        ensures { result ≡ may_mark node processor self.now.world }
    {
        self.is_running(node) && !self.downs.has(node, processor)
    }

    /// A node marks a processor that has stopped. The answer is what takes over tells again, and what the node sends
    /// again.
    pub fn mark(&mut self, node: u8, processor: u8) -> Result<List<Sending>, NoMemory>
        requires { AllWatchersHaveRoom self.old.world.processes }
        ensures told { IfOk result (λ sendings. sendings ≡ (world_at_down node processor self.old.world).sendings
            ++ sent_again self.old.site self.old.world
            (world_at_down node processor self.old.world).world node processor) }
        ensures state { OnOk result (self.new ≡ record self.old
            { world = (world_at_down node processor self.old.world).world }) }
    {
        let mut sendings = List::new(self.alloc);
        self.mark_processes(node, processor, &mut sendings)?;
        self.send_again(node, processor, &mut sendings)?;
        self.add_mark(node, processor)?;
        Ok(sendings)
    }

    /// Makes each copy on the node take over whose other copy was on the processor. What they send again is added to
    /// `told`.
    fn mark_processes(
        &mut self,
        node: u8,
        processor: u8,
        told: &mut List<Sending>,
    ) -> Result<(), NoMemory>
        requires { AllWatchersHaveRoom self.old.world.processes }
        ensures state { OnOk result (self.new
            ≡ record self.old {
              world = record self.old.world
                  { processes = map (pair_at_down node processor) self.old.world.processes };
            }) }
        ensures told { OnOk result (told.new ≡ told.old
            ++ flat_map (told_at_down node processor) self.old.world.processes) }
    {
        mark_all(self.processes.as_mut_slice(), node, processor, told)?;
        Ok(())
    }

    fn add_mark(&mut self, node: u8, processor: u8) -> Result<(), NoMemory>
        ensures { OnOk result (self.new ≡ record self.old {
          world = record self.old.world { downs = record { node = node; down = processor } ∷ self.old.world.downs };
        }) }
    {
        self.downs.add(node, processor)?;
        Ok(())
    }
}

fn mark_all(
    processes: &mut [ProcessCopies],
    node: u8,
    processor: u8,
    told: &mut List<Sending>,
) -> Result<(), NoMemory>
    requires { AllWatchersHaveRoom (pairs_in processes.old) }
    ensures processes { OnOk result (processes.new ≡ map (changed (pair_at_down node processor)) processes.old) }
    ensures told { OnOk result (told.new ≡ told.old
        ++ flat_map (told_at_down node processor) (pairs_in processes.old)) }
    ensures placed { (site : Site) → ArePlaced site processes.old → ArePlaced site processes.new }
{
    for number in 0..processes.len() {
        processes[number].mark(node, processor, told)?;
    }
    Ok(())
}
