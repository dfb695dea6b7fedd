ghost use Rattle.std.specs.Prelude.{◌≡◌, ◌<◌, ℕ, length, slice_get, Some, IfOk, IfSome};
ghost use Rattle.std.specs.Bool.{OnTrue};
ghost use Rattle.std.specs.Option.{option_copied};
ghost use Rattle.due_search.specs.flow_paths.specs.Graph.{IsWithin};
ghost use Rattle.due_search.specs.flow_paths.specs.declared.graph.Goal.TheVariants.{At};
ghost use Rattle.discipline.specs.Suspects.{Reaches, IsSettled, AreSettled, AreFoundBefore, HaveNodes, AreSuspects};

use due_search::{Edge, Flow, Goal, Node, Reasons};
use gd_words::NoMemory;
use std::alloc::Global;

/// How often sets are spread over a graph at most. Once suffices without loops, and twice with loops, however deep they
/// stand in one another; but each call that a RETURN leaves out of a loop may take one more, and at most 15 are in
/// progress.
const MOST_ROUNDS: u32 = 32;

/// For each node the reasons of which something may be due there.
#[derive(Drop)]
struct Sets {
    sets: Vec<Reasons>,
}

/// The reasons for which a program with this graph may break, found at all nodes at once: for no other it does. Where
/// that takes too many rounds these are all.
pub(crate) fn suspects(alloc: Global, flow: &Flow<'_>) -> Result<Reasons, NoMemory>
    ensures suspects { IfOk result (λ suspects. AreSuspects flow.now suspects) }
    ensures some { IfOk result (λ suspects. HaveNodes flow.now suspects) }
{
    if flow.len() == 0 {
        return Ok(Reasons::none());
    }
    let mut sets = Sets::none(alloc, flow.len())?;
    for _ in 0..MOST_ROUNDS {
        sets.spread(flow);
        if sets.are_settled(flow) {
            return Ok(sets.suspects(flow));
        }
    }
    Ok(Reasons::all())
}

impl Sets {
    /// Nothing is due at so many nodes.
    fn none(alloc: Global, count: u16) -> Result<Sets, NoMemory>
        ensures { IfOk result (λ sets. length sets.sets.items ≡ count) }
    {
        let sets = vec![in alloc; Reasons::none(); usize::from(count)]?;
        Ok(Sets { sets })
    }

    /// Spreads along each edge what may be due, node by node. What comes back to a node before is spread on from there
    /// at once: where a loop ends, it leaves that loop and all others that end with it.
    fn spread(&mut self, flow: &Flow<'_>)
        requires { length self.old.sets.items ≡ length flow.now }
        ensures { length self.new.sets.items ≡ length self.old.sets.items }
    {
        for k in 0..flow.len() {
            let mut place = k;
            while let Some(back) = self.spread_from(flow, place) {
                place = back;
            }
        }
    }

    /// Spreads along the edges of a node what may be due there; and the node before it, if any, at which more may be
    /// due now.
    #[inline(always)]
    fn spread_from(&mut self, flow: &Flow<'_>, k: u16) -> Option<u16>
        requires count { length self.old.sets.items ≡ length flow.now }
        requires there { k < length flow.now }
        ensures count { length self.new.sets.items ≡ length self.old.sets.items }
        ensures back { IfSome result (λ back. back < k) }
    {
        let node = flow.node(k);
        let after = self.sets[usize::from(k)].after(node.entry());
        let back = self.spread_along(k, after, node.first());
        match node.second() {
            None => back,
            Some(edge) => match self.spread_along(k, after, edge) {
                None => back,
                Some(further) => Some(further),
            },
        }
    }

    /// Spreads along an edge of a node what may be due after it; and where it leads, if to a node before at which more
    /// may be due now.
    #[inline(always)]
    fn spread_along(&mut self, k: u16, after: Reasons, edge: &Edge) -> Option<u16>
        requires { (j : ℕ) → edge.now.goal ≡ At j → j < length self.old.sets.items }
        ensures count { length self.new.sets.items ≡ length self.old.sets.items }
        ensures back { IfSome result (λ back. back < k) }
    {
        match edge.goal {
            Goal::At(goal) => {
                let due = after.after_change(edge.targets.as_slice());
                let there = &mut self.sets[usize::from(goal)];
                let is_more = goal < k && !due.are_among(*there);
                *there = due.or(*there);
                if is_more { Some(goal) } else { None }
            }
            _ => None,
        }
    }

    /// Whether nothing is left to spread.
    fn are_settled(&self, flow: &Flow<'_>) -> bool
        requires { length self.now.sets.items ≡ length flow.now }
        ensures { OnTrue result (AreSettled flow.now self.now.sets.items) }
    {
        for k in 0..flow.len() {
            if !self.is_settled(self.sets[usize::from(k)], flow.node(k)) {
                return false;
            }
        }
        true
    }

    fn is_settled(&self, here: Reasons, node: &Node<'_>) -> bool
        requires { IsWithin (length self.now.sets.items) node.now }
        ensures { OnTrue result (IsSettled self.now.sets.items here node.now) }
    {
        let after = here.after(node.entry());
        if !self.reaches(after, node.first()) {
            return false;
        }
        match node.second() {
            None => true,
            Some(edge) => self.reaches(after, edge),
        }
    }

    fn reaches(&self, after: Reasons, edge: &Edge) -> bool
        requires { (k : ℕ) → edge.now.goal ≡ At k → k < length self.now.sets.items }
        ensures { OnTrue result (Reaches self.now.sets.items after edge.now) }
    {
        match edge.goal {
            Goal::At(k) => after
                .after_change(edge.targets.as_slice())
                .are_among(self.sets[usize::from(k)]),
            _ => true,
        }
    }

    /// The reasons for which an entry may break at a node where something may be due.
    fn suspects(&self, flow: &Flow<'_>) -> Reasons
        requires count { length self.now.sets.items ≡ length flow.now }
        requires settled { AreSettled flow.now self.now.sets.items }
        ensures { AreSuspects flow.now result }
    {
        let mut found = Reasons::none();
        for k in 0..flow.len() {
            let due = self.sets[usize::from(k)];
            found = Reasons::broken_by(flow.node(k).entry()).and(due).or(found);
        }
        found
    }
}
