ghost use Rattle.std.specs.Prelude.{◌≡◌, ◌==◌, length, slice_get, is_some};
ghost use Rattle.world_semantics.specs.World.{is_running};
ghost use Rattle.world_semantics.specs.Running.{run_done};
ghost use Rattle.process_copies.specs.computed_changes.specs.Entered.{enter_done, enter_where};
ghost use Rattle.process_copies.specs.message_wires.specs.Idle.{all_from, all_marked, has_marked_all, has_marked_if};
ghost use Rattle.process_copies.specs.message_wires.specs.Idle.{none_enters, none_runs};
ghost use Rattle.process_copies.specs.message_wires.specs.Idle.{none_awaits_taking};
ghost use Rattle.world_copies.specs.Seen.{pairs_in};

use crate::copies::WorldCopies;
use crate::terminal::Terminal;
use process_copies::{ProcessCopies, TERMINAL_NODE};

impl WorldCopies {
    /// Whether no terminal can enter.
    pub fn none_enters(&self) -> bool
        ensures { result ≡ none_enters self.now.site self.now.world }
    {
        for terminal in 0..self.terminal_count() {
            if self.can_enter(terminal) {
                return false;
            }
        }
        true
    }

    fn terminal_count(&self) -> usize
        ensures { result ≡ length self.now.world.terminals }
    {
        self.terminals.len()
    }

    fn can_enter(&self, number: usize) -> bool
        ensures { result ≡ is_some (enter_done self.now.site number self.now.world) }
    {
        if number >= self.terminals.len() {
            return false;
        }
        self.can_enter_as(number, self.terminals[number])
    }

    #[tactic(auto, using(crate::proofs::Lookups::enters))]
    fn can_enter_as(&self, number: usize, terminal: Terminal) -> bool
        ensures { result ≡ is_some (enter_where self.now.site number terminal self.now.world
            (terminal.entered == terminal.printed)) }
    {
        if terminal.entered() != terminal.printed() {
            return false;
        }
        self.terminal_opener(number).is_some()
            && self.request_after(number, terminal.entered()).is_some()
    }

    /// Whether no process can run.
    pub fn none_runs(&self) -> bool
        ensures { result ≡ none_runs self.now.site self.now.world }
    {
        for number in 0..self.process_count() {
            if self.can_run(number) {
                return false;
            }
        }
        true
    }

    fn can_run(&self, number: usize) -> bool
        ensures { result ≡ is_some (run_done self.now.site number self.now.world) }
    {
        if number >= self.processes.len() {
            return false;
        }
        self.processes[number].can_run(&self.downs)
    }

    /// Whether no copy that acts waits at a checkpoint.
    pub fn none_awaits_taking(&self) -> bool
        ensures { result ≡ none_awaits_taking self.now.world.processes }
    {
        none_awaits_taking(self.processes.as_slice())
    }

    /// Whether each node that runs has marked each processor that has stopped.
    pub fn all_marked(&self) -> bool
        ensures { result ≡ all_marked self.now.world }
    {
        self.processors_marked() && self.has_marked_all(usize::from(TERMINAL_NODE))
    }

    /// Whether each processor that runs has.
    fn processors_marked(&self) -> bool
        ensures { result ≡ all_from (λ node. has_marked_all self.now.world node) 0 (length self.now.world.stopped) }
    {
        for node in 0..self.processor_count() {
            if !self.has_marked_all(node) {
                return false;
            }
        }
        true
    }

    fn processor_count(&self) -> usize
        ensures { result ≡ length self.now.world.stopped }
    {
        self.stopped.len()
    }

    fn has_marked_all(&self, node: usize) -> bool
        ensures { result ≡ has_marked_all self.now.world node }
    {
        !runs(self.stopped.as_slice(), node) || self.has_marked_stopped(node)
    }

    fn has_marked_stopped(&self, node: usize) -> bool
        ensures { result ≡ all_from (λ processor.
            has_marked_if self.now.world node processor (slice_get self.now.world.stopped processor)) 0
            (length self.now.world.stopped) }
    {
        for processor in 0..self.processor_count() {
            if !self.has_marked_if(node, processor) {
                return false;
            }
        }
        true
    }

    fn has_marked_if(&self, node: usize, processor: usize) -> bool
        ensures { result ≡ has_marked_if self.now.world node processor (slice_get self.now.world.stopped processor) }
    {
        if processor >= self.stopped.len() {
            return true;
        }
        !self.stopped.as_slice()[processor] || self.downs.has_at(node, processor)
    }
}

fn none_awaits_taking(processes: &[ProcessCopies]) -> bool
    ensures { result ≡ none_awaits_taking (pairs_in processes.now) }
{
    for process in processes {
        if process.awaits_taking() {
            return false;
        }
    }
    true
}

/// Whether the node of this number runs.
fn runs(stopped: &[bool], node: usize) -> bool
    ensures { result ≡ is_running stopped.now node }
{
    if node < stopped.len() {
        !stopped[node]
    } else {
        node == usize::from(TERMINAL_NODE)
    }
}
