ghost use Rattle.std.specs.Prelude.{◌≡◌, ◌≤◌, ◌<◌, ◌+◌, ◌*◌, ℕ, length, reverse, slice_get, Some, IfOk, OnOk};
ghost use Rattle.flow_paths.specs.process_semantics.specs.Rests.{entry_number};
ghost use Rattle.flow_paths.specs.process_semantics.specs.SeenEntries.{entry_of};
ghost use Rattle.due_search.specs.declared.queue.Visit.{Visit};
ghost use Rattle.due_search.specs.Ends.{AreNumbered, HasFound, HasStopped};
ghost use Rattle.due_search.specs.Search.{first_visit, place_in_seen, ends_with, HasRoom, IsSeenOnce, IsClear, Comes};
ghost use Rattle.due_search.specs.Search.{ComesBy};
ghost use Rattle.due_search.specs.Search.{visit_after, back, IsTrail, IsSearched, Advances};
ghost use Rattle.gd_words.specs.declared.limits.TheConstants.{MOST_DEPTH, MOST_STATEMENTS, MOST_WRITTEN_OUT};

use crate::queue::{AMOUNTS, Visit};
use flow_paths::{Edge, Entry, Flow, Goal, Reason, entry_number};
use gd_words::{List, NoMemory};
use reason_dues::{after_entry, cut_changed, may_break_at};
use std::alloc::Global;

/// A search by levels: the visits in the order in which they come, and for each node and each amount due whether such a
/// visit has come.
#[derive(Drop)]
pub struct Search {
    queue: Vec<Visit>,
    seen: Vec<bool>,
}

/// What is searched: a reason, up to how much of it is counted, at most 4, and whether the search ends where as much is
/// due at an entry that may break for it.
#[derive(Clone, Copy)]
pub struct Aim {
    pub reason: Reason,
    pub most: u8,
    pub ends: bool,
}

impl Aim {
    /// Whether a search ends at an entry where so much is due.
    fn ends_at(self, entry: Entry<'_>, due: u8) -> bool
        ensures { result ≡ ends_with self (entry_of entry.entry) due }
    {
        if self.ends && self.most <= due {
            may_break_at(self.reason, entry)
        } else {
            false
        }
    }
}

impl Search {
    /// Room to search so many nodes.
    pub fn new(alloc: Global, count: u16) -> Result<Search, NoMemory>
        ensures clear { IfOk result (λ search. IsClear search.seen.items) }
        ensures room { IfOk result (λ search. length search.seen.items ≡ count * (MOST_DEPTH + 1)) }
    {
        let seen = vec![in alloc; false; usize::from(count) * AMOUNTS]?;
        let queue = Vec::new(alloc);
        Ok(Search { queue, seen })
    }

    /// Searches a graph: visits each node with each amount that is due there at the end of some walk from the first
    /// node, until a visit ends the search. Gives the numbers of a shortest path to such a visit, its own last; none if
    /// none ends it.
    pub fn run(
        &mut self,
        alloc: Global,
        flow: &Flow<'_>,
        aim: Aim,
    ) -> Result<Option<List<u16>>, NoMemory>
        requires few { aim.most ≤ MOST_DEPTH }
        requires numbers { AreNumbered flow.now }
        requires clear { IsClear self.old.seen.items }
        requires room { length self.old.seen.items ≡ length flow.now * (MOST_DEPTH + 1) }
        ensures found { IfOk result (λ found. HasFound flow.now aim self.new.queue.items found) }
        ensures clear { IfOk result (λ _. IsClear self.new.seen.items) }
        ensures room { length self.new.seen.items ≡ length self.old.seen.items }
    {
        match self.explore(flow, aim)? {
            None => {
                self.clear();
                Ok(None)
            }
            Some(place) => {
                let path = self.path_to(alloc, flow, place)?;
                self.clear();
                Ok(Some(path))
            }
        }
    }

    /// The visits of the last search, in the order in which they came.
    pub fn visits(&self) -> &[Visit]
        ensures { result.now ≡ self.now.queue.items }
    {
        self.queue.as_slice()
    }

    /// Visits what walks lead to, until a visit ends the search: its place among the visits; none if none ends it.
    fn explore(&mut self, flow: &Flow<'_>, aim: Aim) -> Result<Option<usize>, NoMemory>
        requires few { aim.most ≤ MOST_DEPTH }
        requires clear { IsClear self.old.seen.items }
        requires room { length self.old.seen.items ≡ length flow.now * (MOST_DEPTH + 1) }
        ensures stopped { IfOk result (λ stopped. HasStopped flow.now aim self.new.queue.items stopped) }
        ensures once { IfOk result (λ _. IsSeenOnce self.new.seen.items self.new.queue.items) }
        ensures room { length self.new.seen.items ≡ length self.old.seen.items }
    {
        self.queue.clear();
        if flow.len() == 0 {
            return Ok(None);
        }
        self.come(Visit::first())?;
        let mut head = 0;
        while head < self.queue.len() {
            if self.advance(flow, aim, head)? {
                return Ok(Some(head));
            }
            head += 1;
        }
        Ok(None)
    }

    /// Goes on from the visit at a place, unless it ends the search.
    fn advance(&mut self, flow: &Flow<'_>, aim: Aim, head: usize) -> Result<bool, NoMemory>
        requires size { length flow.now ≤ MOST_WRITTEN_OUT }
        requires few { aim.most ≤ MOST_DEPTH }
        requires head { head < length self.old.queue.items }
        requires searched { IsSearched flow.now aim self.old.queue.items head }
        requires once { IsSeenOnce self.old.seen.items self.old.queue.items }
        requires room { length self.old.seen.items ≡ length flow.now * (MOST_DEPTH + 1) }
        ensures advances { IfOk result (λ ends.
            Advances flow.now aim self.old.queue.items self.new.queue.items head ends) }
        ensures once { IfOk result (λ _. IsSeenOnce self.new.seen.items self.new.queue.items) }
        ensures room { length self.new.seen.items ≡ length self.old.seen.items }
    {
        let visit = self.queue[head];
        let node = flow.node(visit.node);
        let entry = node.entry();
        if aim.ends_at(entry, visit.due) {
            return Ok(true);
        }
        let after = after_entry(aim.reason, entry, visit.due);
        let from = head as u16;
        self.follow(aim, after, from, visit, node.first())?;
        if let Some(edge) = node.second() {
            self.follow(aim, after, from, visit, edge)?;
        }
        Ok(false)
    }

    /// Comes to the node to which an edge leads, if it leads to one.
    fn follow(
        &mut self,
        aim: Aim,
        after: u8,
        from: u16,
        visit: Visit,
        edge: &Edge,
    ) -> Result<(), NoMemory>
        requires most { aim.most ≤ MOST_DEPTH }
        requires steps { visit.steps < 65535 }
        requires goal { HasRoom edge.now.goal (length self.old.seen.items) }
        requires once { IsSeenOnce self.old.seen.items self.old.queue.items }
        ensures comes { OnOk result (ComesBy self.old.queue.items self.new.queue.items edge.now.goal
            (visit_after aim.reason aim.most after edge.now.targets from visit)) }
        ensures once { OnOk result (IsSeenOnce self.new.seen.items self.new.queue.items) }
        ensures room { length self.new.seen.items ≡ length self.old.seen.items }
    {
        match edge.goal {
            Goal::At(node) => {
                let due = cut_changed(aim.reason, aim.most, edge.targets.as_slice(), after);
                let steps = visit.steps + 1;
                self.come(Visit {
                    node,
                    due,
                    from,
                    steps,
                })?;
                Ok(())
            }
            Goal::Left => Ok(()),
            Goal::Ended => Ok(()),
        }
    }

    /// Puts a visit behind the others, unless one to the same node with as much due has come.
    fn come(&mut self, visit: Visit) -> Result<(), NoMemory>
        requires room { place_in_seen visit < length self.old.seen.items }
        requires due { visit.due ≤ MOST_DEPTH }
        requires once { IsSeenOnce self.old.seen.items self.old.queue.items }
        ensures comes { OnOk result (Comes self.old.queue.items self.new.queue.items visit) }
        ensures once { OnOk result (IsSeenOnce self.new.seen.items self.new.queue.items) }
        ensures room { length self.new.seen.items ≡ length self.old.seen.items }
    {
        let place = visit.place_in_seen();
        if self.seen[place] {
            return Ok(());
        }
        self.seen[place] = true;
        self.queue.push(visit)?;
        Ok(())
    }

    /// Nothing is seen any more.
    fn clear(&mut self)
        requires once { IsSeenOnce self.old.seen.items self.old.queue.items }
        ensures clear { IsClear self.new.seen.items }
        ensures visits { self.new.queue.items ≡ self.old.queue.items }
        ensures room { length self.new.seen.items ≡ length self.old.seen.items }
    {
        let visits = self.queue.as_slice();
        let seen = self.seen.as_mut_slice();
        for visit in visits {
            seen[visit.place_in_seen()] = false;
        }
    }

    /// The numbers of the statements on the way to a visit, its own last.
    fn path_to(&self, alloc: Global, flow: &Flow<'_>, place: usize) -> Result<List<u16>, NoMemory>
        requires place { place < length self.now.queue.items }
        requires trail { IsTrail flow.now self.now.queue.items }
        ensures { IfOk result (λ path. (visit : Visit) → slice_get self.now.queue.items place ≡ Some visit
            → path ≡ reverse (back flow.now self.now.queue.items (visit.steps + 1) place)) }
    {
        let count = usize::from(self.queue[place].steps) + 1;
        let mut at = place;
        let mut numbers = Vec::new(alloc);
        for _ in 0..count {
            let visit = self.queue[at];
            numbers.push(number(flow.node(visit.node).entry()))?;
            at = usize::from(visit.from);
        }
        numbers.reverse();
        Ok(List::from_vec(numbers))
    }
}

/// The number of an entry.
fn number(entry: Entry<'_>) -> u16
    requires { entry_number (entry_of entry) ≤ MOST_STATEMENTS }
    ensures { result ≡ entry_number (entry_of entry.entry) }
{
    entry_number(entry) as u16
}
