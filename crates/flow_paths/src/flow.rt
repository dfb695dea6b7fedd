ghost use Rattle.std.specs.Prelude.{◌≡◌, ◌<◌, ◌≤◌, map, length, slice_get, Some, IfOk};
ghost use Rattle.tal_tree.specs.Limits.{IsWithinLimits};
ghost use Rattle.tal_tree.specs.Ordered.{IsOrdered};
ghost use Rattle.path_semantics.specs.Bounds.{sizes as program_sizes, size_of, told};
ghost use Rattle.flow_paths.specs.Built.{IsBuilt};
ghost use Rattle.flow_paths.specs.Flow.{IsFlow};
ghost use Rattle.flow_paths.specs.Graph.{AreClosed, IsWithin};
ghost use Rattle.gd_words.specs.declared.limits.TheConstants.{MOST_WRITTEN_OUT};

use crate::fault::FlowFault;
use crate::graph::Node;
use crate::layout::Graphs;
use crate::size::{size_at, sizes};
use gd_words::NoMemory;
use gd_words::limits::{MOST_CALLS, MOST_WRITTEN_OUT};
use path_semantics::call_depth;
use std::alloc::Global;
use std::marker::Model;
use tal_tree::Program;

/// The graph of a program, in the order of the text: behind each call stand the nodes of its procedure.
#[derive(Drop)]
pub struct Flow<'a> {
    nodes: Vec<Node<'a>>,
}

impl<'a> Model for Flow<'a> {
    ghost use Rattle.std.specs.Prelude.{◌≤◌, length, List as Items};
    ghost use Rattle.std.specs.Coded.{codes};
    ghost use Rattle.tal_tree.specs.contracts.statement.Statement as statement;
    ghost use Rattle.flow_paths.specs.Graph as graph;
    ghost use Rattle.gd_words.specs.declared.limits.TheConstants.{MOST_WRITTEN_OUT};

    ghost Value = { Items graph.Node };

    ghost coded = { Prim.hlevel (codes, statement.the_row.coded) };

    ghost view = { λ flow. flow.nodes.items };

    ghost invariant = { λ flow. (length flow.nodes.items ≤ MOST_WRITTEN_OUT) × graph.AreClosed flow.nodes.items };
}

impl<'a> Flow<'a> {
    /// The graph of a program, unless its calls go too deep or it is too large. Each procedure before the main one is
    /// laid out once, but for those that are too large themselves: the program calls none of them.
    pub fn of(alloc: Global, program: &'a Program) -> Result<Flow<'a>, FlowFault>
        requires ordered { IsOrdered program.now }
        requires limits { IsWithinLimits program.now }
        ensures { IsBuilt program.now result }
    {
        if call_depth(program) > MOST_CALLS {
            return Err(FlowFault::TooDeep);
        }
        let sizes = sizes(program);
        let size = size_at(sizes.as_slice(), program.main);
        if size > MOST_WRITTEN_OUT {
            return Err(FlowFault::TooLarge(size));
        }
        Ok(Flow::lay_out(alloc, program, sizes.as_slice())?)
    }

    /// The graph of a program that isn't too large, from the sizes of its procedures.
    fn lay_out(alloc: Global, program: &'a Program, sizes: &[u32]) -> Result<Flow<'a>, NoMemory>
        requires ordered { IsOrdered program.now }
        requires limits { IsWithinLimits program.now }
        requires sizes { sizes.now ≡ map told (program_sizes program.now) }
        requires few { size_of program.now ≤ MOST_WRITTEN_OUT }
        ensures { IfOk result (λ flow. IsFlow program.now flow) }
    {
        let mut graphs = Graphs::new(alloc);
        let procedures = program.procedures.as_slice();
        for k in 0..program.main {
            let graph = if size_at(sizes, k) > MOST_WRITTEN_OUT {
                Flow::from_nodes(Vec::new(alloc))
            } else {
                graphs.graph(procedures[usize::from(k)].body.as_slice())?
            };
            graphs.push(graph)?;
        }
        let main = &procedures[usize::from(program.main)];
        graphs.graph(main.body.as_slice())
    }

    /// The graph of these nodes.
    pub(crate) fn from_nodes(nodes: Vec<Node<'a>>) -> Flow<'a>
        requires few { length nodes.items ≤ MOST_WRITTEN_OUT }
        requires closed { AreClosed nodes.items }
        ensures { result ≡ nodes.entry.items }
    {
        Flow { nodes }
    }

    /// How many nodes there are.
    pub fn len(&self) -> u16
        ensures count { result ≡ length self.now }
        ensures few { result ≤ MOST_WRITTEN_OUT }
    {
        self.nodes.len() as u16
    }

    /// The node of a number, counted from 0. Its edges and its caller are nodes that are there.
    pub fn node(&self, k: u16) -> &Node<'a>
        requires { k < length self.now }
        ensures node { slice_get self.now k ≡ Some result.now }
        ensures within { IsWithin (length self.now) result.now }
    {
        &self.nodes[usize::from(k)]
    }

    /// All nodes.
    pub(crate) fn nodes(&self) -> &[Node<'a>]
        ensures nodes { result.now ≡ self.now }
        ensures few { length self.now ≤ MOST_WRITTEN_OUT }
        ensures closed { AreClosed self.now }
    {
        self.nodes.as_slice()
    }
}
