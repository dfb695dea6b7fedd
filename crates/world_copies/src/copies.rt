ghost use Rattle.std.specs.Prelude.{◌≡◌, length, reverse, slice_get};
ghost use Rattle.std.specs.Option.{option_copied};
ghost use Rattle.process_copies.specs.computed_changes.specs.Changed.{checkpoint_before};
ghost use Rattle.process_copies.specs.node_copies.specs.ShownCounts.{replies_in, writes_in};
ghost use Rattle.world_semantics.specs.Kept.{acts_of};
ghost use Rattle.world_semantics.specs.World.{has_marked, is_running};
ghost use Rattle.world_copies.specs.Seen.{ArePlaced, drives_in, pairs_in};

use crate::counts::ReloadCounts;
use crate::processors::Processors;
use crate::terminal::Terminal;
use gd_words::List;
use logs::Shared;
use process_copies::{Address, Downs, ProcessCopies, Records, is_running};
use std::alloc::Global;
use std::marker::Model;
use tal_tree::{Act, Shown, Site};
use world_semantics::ImageMessage;

/// The world of copies: its site, where its terminals stand, which processors have stopped, how often each was loaded
/// again, which node has marked which, the processes, the terminals, and what happened.
#[derive(Drop)]
pub struct WorldCopies {
    pub(crate) alloc: Global,
    pub(crate) site: Shared<Site>,
    pub(crate) places: List<Option<Address>>,
    pub(crate) stopped: Processors,
    pub(crate) reloads: ReloadCounts,
    pub(crate) downs: Downs,
    pub(crate) processes: Vec<ProcessCopies>,
    pub(crate) terminals: Vec<Terminal>,
    pub(crate) records: Records,
}

impl Model for WorldCopies {
    ghost use Rattle.std.specs.Prelude.{◌≡◌, length};
    ghost use Rattle.std.specs.Coded.{codes};
    ghost use Rattle.tal_tree.specs.contracts.statement.Statement as statement;
    ghost use Rattle.process_copies.specs.Starting.{IsStartable};
    ghost use Rattle.world_copies.specs.SiteWorld.{SiteWorld};
    ghost use Rattle.world_copies.specs.Seen.{ArePlaced, drives_in, pairs_in, terminal_row};

    ghost Value = { SiteWorld };

    ghost coded = { Prim.hlevel (codes, statement.the_row.coded) };

    ghost view = { λ m. record {
      site = m.site;
      world = record {
        stopped = m.stopped;
        reloads = m.reloads;
        downs = m.downs;
        requests = m.records.requests;
        replies = m.records.replies;
        processes = pairs_in m.processes.items;
        terminals = m.terminals.items;
        shown = m.records.shown;
        kept = m.records.kept;
      };
      drives = drives_in m.processes.items;
    } };

    ghost invariant = { λ m. ArePlaced m.site m.processes.items
        × (length m.processes.items ≡ length m.site.processes)
        × ((m.places ≡ terminal_row m.site 0 m.site.terminals) × IsStartable m.site) };
}

impl WorldCopies {
    /// The site.
    pub fn site(&self) -> &Site
        ensures { result.now ≡ self.now.site }
    {
        self.site.get()
    }

    /// Which processors have stopped.
    pub fn stopped(&self) -> &[bool]
        ensures { result.now ≡ self.now.world.stopped }
    {
        self.stopped.as_slice()
    }

    /// How many processors there are.
    pub fn processors(&self) -> u8
        ensures { result ≡ length self.now.world.stopped }
    {
        self.stopped.count()
    }

    /// Whether a processor has stopped; none where it isn't there.
    pub fn stopped_at(&self, processor: u8) -> Option<bool>
        ensures { result ≡ slice_get self.now.world.stopped processor }
    {
        self.stopped.as_slice().get(usize::from(processor)).copied()
    }

    /// How often each processor was loaded again.
    pub fn reloads(&self) -> &[u8]
        ensures { result.now ≡ self.now.world.reloads }
    {
        self.reloads.as_slice()
    }

    /// Whether a node runs.
    pub fn is_running(&self, node: u8) -> bool
        ensures { result ≡ is_running self.now.world.stopped node }
    {
        is_running(self.stopped.as_slice(), node)
    }

    /// Which node has marked which processor.
    pub fn downs(&self) -> &Downs
        ensures { result.now ≡ self.now.world.downs }
    {
        &self.downs
    }

    /// Whether a node has marked a processor.
    pub fn has_marked(&self, node: u8, processor: u8) -> bool
        ensures { result ≡ has_marked self.now.world.downs node processor }
    {
        self.downs.has(node, processor)
    }

    /// The processes in their places, both copies of each.
    pub fn processes(&self) -> &[ProcessCopies]
        ensures processes { pairs_in result.now ≡ self.now.world.processes }
        ensures drives { drives_in result.now ≡ self.now.drives }
        ensures placed { ArePlaced self.now.site result.now }
    {
        self.processes.as_slice()
    }

    /// The checkpoint that a process sent before its last one.
    pub fn checkpoint_before(&self, process: u8) -> Option<&ImageMessage>
        ensures { option_copied result ≡ checkpoint_before self.now.world process }
    {
        let place = usize::from(process);
        if place >= self.processes.len() {
            return None;
        }
        self.processes[place].checkpoint_before()
    }

    pub(crate) fn process_count(&self) -> usize
        ensures { result ≡ length self.now.world.processes }
    {
        self.processes.len()
    }

    pub fn terminals(&self) -> &[Terminal]
        ensures { result.now ≡ self.now.world.terminals }
    {
        self.terminals.as_slice()
    }

    /// The acts that are kept, in order.
    pub fn acts(&self) -> &[Act]
        ensures { result.now ≡ acts_of self.now.world }
    {
        self.records.acts()
    }

    /// What was shown, in order.
    pub fn shown(&self) -> &[Shown]
        ensures { result.now ≡ reverse self.now.world.shown }
    {
        self.records.shown()
    }

    /// How many writes were shown.
    pub fn writes(&self) -> u32
        ensures { result ≡ writes_in self.now.world.shown }
    {
        self.records.writes()
    }

    /// How many replies were shown.
    pub fn replies(&self) -> u32
        ensures { result ≡ replies_in self.now.world.shown }
    {
        self.records.replies()
    }
}
