ghost use Rattle.std.specs.Prelude.{◌≡◌, ◌<◌, ◌≤◌, ◌+◌, ℕ, [], IfOk};
ghost use Rattle.std.specs.Option.{option_copied};
ghost use Rattle.path_semantics.specs.process_semantics.specs.SeenEntries.{entry_of};
ghost use Rattle.path_semantics.specs.Dues.{global_of_spot};
ghost use Rattle.flow_paths.specs.Graph.{IsWithin};
ghost use Rattle.flow_paths.specs.Layout.{to_node, leaving, ending, with_targets, moved, one_way, two_ways};
ghost use Rattle.flow_paths.specs.Layout.{caller_from, moved_node};
ghost use Rattle.flow_paths.specs.declared.graph.Goal.TheVariants.{At};
ghost use Rattle.gd_words.specs.declared.limits.TheConstants.{MOST_WRITTEN_OUT};

use gd_words::{List, NoMemory};
use path_semantics::Entry;
use std::alloc::Global;
use std::marker::Model;
use tal_tree::Spot;

/// Where an edge leads.
#[derive(Clone, Copy, PartialEq, Eq)]
pub enum Goal {
    /// To a node, by its place in the graph.
    At(u16),
    /// Out of the main procedure, and so to the program's end.
    Left,
    /// To the program's end, by STOP.
    Ended,
}

/// An edge: where it leads, and the globals to which the calls that it leaves give their values.
#[derive(Drop)]
pub struct Edge {
    pub goal: Goal,
    pub targets: List<u16>,
}

impl Edge {
    /// An edge that leaves no call.
    fn plain(alloc: Global, goal: Goal) -> Edge
        ensures { result ≡ record { goal = goal; targets = [] } }
    {
        Edge {
            goal,
            targets: List::new(alloc),
        }
    }

    /// To a node.
    pub(crate) fn to_node(alloc: Global, k: u16) -> Edge
        ensures { result ≡ to_node k }
    {
        Edge::plain(alloc, Goal::At(k))
    }

    /// Out of the procedure.
    pub(crate) fn leaving(alloc: Global) -> Edge
        ensures { result ≡ leaving }
    {
        Edge::plain(alloc, Goal::Left)
    }

    /// To the program's end.
    pub(crate) fn ending(alloc: Global) -> Edge
        ensures { result ≡ ending }
    {
        Edge::plain(alloc, Goal::Ended)
    }

    /// The same edge once more.
    pub(crate) fn copy(&self, alloc: Global) -> Result<Edge, NoMemory>
        ensures { IfOk result (λ edge. edge ≡ self.now) }
    {
        let mut edge = Edge::plain(alloc, self.goal);
        edge.targets.extend_from_slice(self.targets.as_slice())?;
        Ok(edge)
    }

    /// The same edge, where it leaves a call of this target before the others.
    pub(crate) fn with_target(&self, alloc: Global, to: &Spot) -> Result<Edge, NoMemory>
        ensures { IfOk result (λ edge. edge ≡ with_targets (global_of_spot to.now) self.now) }
    {
        let mut edge = Edge::plain(alloc, self.goal);
        match to {
            Spot::Local(_) => {}
            Spot::Simple(item) => edge.targets.push(*item)?,
            Spot::Element { item, index: _ } => edge.targets.push(*item)?,
        }
        edge.targets.extend_from_slice(self.targets.as_slice())?;
        Ok(edge)
    }

    /// The edge in a procedure whose nodes begin at a number, where it goes on so behind the call.
    fn moved(&self, alloc: Global, base: u16, after: &Edge) -> Result<Edge, NoMemory>
        requires base { base ≤ MOST_WRITTEN_OUT }
        requires within { (k : ℕ) → self.now.goal ≡ At k → k < MOST_WRITTEN_OUT }
        ensures { IfOk result (λ edge. edge ≡ moved base after.now self.now) }
    {
        let mut edge = self.copy(alloc)?;
        match self.goal {
            Goal::At(k) => edge.goal = Goal::At(base + k),
            Goal::Left => {
                edge.goal = after.goal;
                edge.targets.extend_from_slice(after.targets.as_slice())?;
            }
            Goal::Ended => {}
        }
        Ok(edge)
    }
}

/// A node: an entry as it stands in the calls in progress above it, and the one or two edges on which the program goes
/// on.
#[derive(Drop)]
pub struct Node<'a> {
    entry: Entry<'a>,
    caller: Option<u16>,
    first: Edge,
    second: Option<Edge>,
}

impl<'a> Model for Node<'a> {
    ghost use Rattle.std.specs.Coded.{codes};
    ghost use Rattle.tal_tree.specs.contracts.statement.Statement as statement;
    ghost use Rattle.path_semantics.specs.process_semantics.specs.SeenEntries.{entry_of};
    ghost use Rattle.flow_paths.specs.Graph as graph;

    ghost Value = { graph.Node };

    ghost coded = { Prim.hlevel (codes, statement.the_row.coded) };

    ghost view = { λ node. record {
      entry = entry_of node.entry;
      caller = node.caller;
      first = node.first;
      second = node.second;
    } };
}

impl<'a> Node<'a> {
    /// A node of the procedure at hand with one edge.
    pub(crate) fn one_way(entry: Entry<'a>, edge: Edge) -> Node<'a>
        ensures { result ≡ one_way (entry_of entry.entry) edge }
    {
        Node {
            entry,
            caller: None,
            first: edge,
            second: None,
        }
    }

    /// A node of the procedure at hand with two edges.
    pub(crate) fn two_ways(entry: Entry<'a>, first: Edge, second: Edge) -> Node<'a>
        ensures { result ≡ two_ways (entry_of entry.entry) first second }
    {
        Node {
            entry,
            caller: None,
            first,
            second: Some(second),
        }
    }

    /// The node in the procedure that the call at a node calls, where it goes on so behind the call.
    pub(crate) fn moved(&self, alloc: Global, call: u16, after: &Edge) -> Result<Node<'a>, NoMemory>
        requires call { call < MOST_WRITTEN_OUT }
        requires within { IsWithin MOST_WRITTEN_OUT self.now }
        ensures { IfOk result (λ node. node ≡ moved_node call after.now self.now) }
    {
        let caller = match self.caller {
            None => call,
            Some(k) => call + 1 + k,
        };
        let first = self.first.moved(alloc, call + 1, after)?;
        let second = match &self.second {
            None => None,
            Some(edge) => Some(edge.moved(alloc, call + 1, after)?),
        };
        Ok(Node {
            entry: self.entry,
            caller: Some(caller),
            first,
            second,
        })
    }

    /// What is done here.
    pub fn entry(&self) -> Entry<'a>
        ensures { entry_of result ≡ self.now.entry }
    {
        self.entry
    }

    /// The node of the call whose procedure runs, none in the main procedure.
    pub fn caller(&self) -> Option<u16>
        ensures { result ≡ self.now.caller }
    {
        self.caller
    }

    /// The first edge: of a test that holds, and otherwise the only one.
    pub fn first(&self) -> &Edge
        ensures { result.now ≡ self.now.first }
    {
        &self.first
    }

    /// The edge of a test that doesn't hold.
    pub fn second(&self) -> Option<&Edge>
        ensures { option_copied result ≡ self.now.second }
    {
        self.second.as_ref()
    }
}
