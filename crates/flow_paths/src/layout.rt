ghost use Rattle.std.specs.Prelude.{◌≡◌, ◌+◌, ◌<◌, ◌≤◌, ℕ, ℤ, Bool, [], ◌∷◌, ◌++◌, length, IfOk, OnOk};
ghost use Rattle.tal_tree.specs.Rows.{rows};
ghost use Rattle.tal_tree.specs.declared.expression.Cond.{Cond};
ghost use Rattle.tal_tree.specs.declared.expression.Expr.{Expr};
ghost use Rattle.tal_tree.specs.declared.expression.Variable.{Variable};
ghost use Rattle.tal_tree.specs.declared.statement.What.{If, While, For, DoUntil};
ghost use Rattle.path_semantics.specs.process_semantics.specs.State.{Run};
ghost use Rattle.flow_paths.specs.Graph.{AreClosed};
ghost use Rattle.flow_paths.specs.Layout.{size_in, size_row, leaving, start_at, one_way, lay_call, lay_in, lay_row};
ghost use Rattle.flow_paths.specs.Layout.{graph_at, graph_sizes};
ghost use Rattle.gd_words.specs.declared.limits.TheConstants.{MOST_PROCEDURES, MOST_WRITTEN_OUT};

use crate::flow::Flow;
use crate::graph::{Edge, Node};
use crate::size::{PROCEDURES, size_of, size_of_all};
use arrayvec::ArrayVec;
use gd_words::NoMemory;
use path_semantics::Entry;
use std::alloc::Global;
use std::marker::Model;
use tal_tree::{Statement, What};

/// The graphs of the procedures that stand before one, and how many nodes each has.
#[derive(Drop)]
pub(crate) struct Graphs<'a> {
    alloc: Global,
    sizes: ArrayVec<u32, PROCEDURES>,
    graphs: Vec<Flow<'a>>,
}

impl<'a> Model for Graphs<'a> {
    ghost use Rattle.std.specs.Prelude.{◌≡◌, length, map, List as Items};
    ghost use Rattle.std.specs.Coded.{codes};
    ghost use Rattle.tal_tree.specs.contracts.statement.Statement as statement;
    ghost use Rattle.flow_paths.specs.Graph as graph;

    ghost Value = { Items (Items graph.Node) };

    ghost coded = { Prim.hlevel (codes, statement.the_row.coded) };

    ghost view = { λ known. known.graphs.items };

    ghost invariant = { λ known. known.sizes.items ≡ map length known.graphs.items };
}

impl<'a> Graphs<'a> {
    /// No graph yet.
    pub(crate) fn new(alloc: Global) -> Graphs<'a>
        ensures { result ≡ [] }
    {
        Graphs {
            alloc,
            sizes: ArrayVec::new(),
            graphs: Vec::new(alloc),
        }
    }

    /// Adds the graph of the next procedure.
    pub(crate) fn push(&mut self, graph: Flow<'a>) -> Result<(), NoMemory>
        requires room { length self.old < MOST_PROCEDURES }
        ensures { OnOk result (self.new ≡ self.old ++ graph.entry ∷ []) }
    {
        let size = u32::from(graph.len());
        self.graphs.push(graph)?;
        self.sizes.push(size);
        Ok(())
    }

    /// The graph of the procedure that has this body.
    pub(crate) fn graph(&self, body: &'a [Statement]) -> Result<Flow<'a>, NoMemory>
        requires room { size_row (graph_sizes self.now) (rows body.now) ≤ MOST_WRITTEN_OUT }
        requires few { length (lay_row (graph_at self.now) (rows body.now) 0 leaving) ≤ MOST_WRITTEN_OUT }
        requires closed { AreClosed (lay_row (graph_at self.now) (rows body.now) 0 leaving) }
        ensures { IfOk result (λ graph. graph ≡ lay_row (graph_at self.now) (rows body.now) 0 leaving) }
    {
        let mut nodes = Vec::new(self.alloc);
        self.lay_all(body, 0, &Edge::leaving(self.alloc), &mut nodes)?;
        Ok(Flow::from_nodes(nodes))
    }

    fn size_of_all(&self, statements: &[Statement]) -> u16
        requires few { size_row (graph_sizes self.now) (rows statements.now) ≤ MOST_WRITTEN_OUT }
        ensures { result ≡ size_row (graph_sizes self.now) (rows statements.now) }
    {
        size_of_all(self.sizes.as_slice(), statements) as u16
    }

    fn size_of(&self, statement: &Statement) -> u16
        requires few { size_in (graph_sizes self.now) statement.now.what ≤ MOST_WRITTEN_OUT }
        ensures { result ≡ size_in (graph_sizes self.now) statement.now.what }
    {
        size_of(self.sizes.as_slice(), statement) as u16
    }

    /// Lays out statements whose nodes begin at a number. Behind the last it goes on so.
    #[cycle(lay)]
    fn lay_all(
        &self,
        statements: &'a [Statement],
        at: u16,
        after: &Edge,
        nodes: &mut Vec<Node<'a>>,
    ) -> Result<(), NoMemory>
        requires room { at + size_row (graph_sizes self.now) (rows statements.now) ≤ MOST_WRITTEN_OUT }
        ensures { OnOk result (nodes.new.items ≡ nodes.old.items
            ++ lay_row (graph_at self.now) (rows statements.now) at after.now) }
    {
        let mut next = at;
        let mut left = statements.len();
        for statement in statements {
            left -= 1;
            let end = next + self.size_of(statement);
            let on = start(self.alloc, left, end, after)?;
            self.lay(statement, next, &on, nodes)?;
            next = end;
        }
        Ok(())
    }

    /// Lays out a statement whose nodes begin at a number. Behind it it goes on so.
    #[cycle(lay)]
    fn lay(
        &self,
        statement: &'a Statement,
        at: u16,
        after: &Edge,
        nodes: &mut Vec<Node<'a>>,
    ) -> Result<(), NoMemory>
        requires room { at + size_in (graph_sizes self.now) statement.now.what ≤ MOST_WRITTEN_OUT }
        ensures { OnOk result (nodes.new.items ≡ nodes.old.items
            ++ lay_in (graph_at self.now) statement.now.what statement.now at after.now) }
    {
        match &statement.what {
            What::If { test: _, yes, no } => {
                self.lay_if(statement, yes.as_slice(), no.as_slice(), at, after, nodes)
            }
            What::While { test: _, body } => {
                self.lay_while(statement, body.as_slice(), at, after, nodes)
            }
            What::For {
                variable: _,
                from: _,
                to: _,
                down: _,
                step: _,
                body,
                last: _,
            } => self.lay_for(statement, body.as_slice(), at, after, nodes),
            What::DoUntil { body, test: _ } => {
                self.lay_do(statement, body.as_slice(), at, after, nodes)
            }
            What::AssignCall {
                to,
                procedure,
                arguments: _,
            } => {
                let on = after.with_target(self.alloc, to)?;
                self.lay_call(statement, *procedure, at, &on, nodes)
            }
            What::Call {
                procedure,
                arguments: _,
            } => self.lay_call(statement, *procedure, at, after, nodes),
            What::Return(_) => push_one(nodes, statement, Edge::leaving(self.alloc)),
            What::Stop => push_one(nodes, statement, Edge::ending(self.alloc)),
            _ => push_one(nodes, statement, after.copy(self.alloc)?),
        }
    }

    #[cycle(lay)]
    fn lay_if(
        &self,
        statement: &'a Statement,
        yes: &'a [Statement],
        no: &'a [Statement],
        at: u16,
        after: &Edge,
        nodes: &mut Vec<Node<'a>>,
    ) -> Result<(), NoMemory>
        requires room { at + 1 + size_row (graph_sizes self.now) (rows yes.now)
            + size_row (graph_sizes self.now) (rows no.now) ≤ MOST_WRITTEN_OUT }
        ensures { OnOk result ((test : Cond) → nodes.new.items
            ≡ nodes.old.items ++ lay_in (graph_at self.now) (If test yes.now no.now) statement.now at after.now) }
    {
        let middle = at + 1 + self.size_of_all(yes);
        let first = start(self.alloc, yes.len(), at + 1, after)?;
        let second = start(self.alloc, no.len(), middle, after)?;
        nodes.push(Node::two_ways(Entry::Run(statement), first, second))?;
        self.lay_all(yes, at + 1, after, nodes)?;
        self.lay_all(no, middle, after, nodes)
    }

    #[cycle(lay)]
    fn lay_while(
        &self,
        statement: &'a Statement,
        body: &'a [Statement],
        at: u16,
        after: &Edge,
        nodes: &mut Vec<Node<'a>>,
    ) -> Result<(), NoMemory>
        requires room { at + 1 + size_row (graph_sizes self.now) (rows body.now) ≤ MOST_WRITTEN_OUT }
        ensures { OnOk result ((test : Cond) → nodes.new.items
            ≡ nodes.old.items ++ lay_in (graph_at self.now) (While test body.now) statement.now at after.now) }
    {
        let again = Edge::to_node(self.alloc, at);
        let first = start(self.alloc, body.len(), at + 1, &again)?;
        let second = after.copy(self.alloc)?;
        nodes.push(Node::two_ways(Entry::Run(statement), first, second))?;
        self.lay_all(body, at + 1, &again, nodes)
    }

    #[cycle(lay)]
    fn lay_for(
        &self,
        statement: &'a Statement,
        body: &'a [Statement],
        at: u16,
        after: &Edge,
        nodes: &mut Vec<Node<'a>>,
    ) -> Result<(), NoMemory>
        requires room { at + 3 + size_row (graph_sizes self.now) (rows body.now) ≤ MOST_WRITTEN_OUT }
        ensures { OnOk result ((variable : Variable) (from to : Expr) (down : Bool) (step : ℤ) (last : ℕ)
            → nodes.new.items ≡ nodes.old.items ++ lay_in (graph_at self.now)
            (For variable from to down step body.now last) statement.now at after.now) }
    {
        let count = at + 2 + self.size_of_all(body);
        let counts = Edge::to_node(self.alloc, count);
        let first = start(self.alloc, body.len(), at + 2, &counts)?;
        let second = after.copy(self.alloc)?;
        push_one(nodes, statement, Edge::to_node(self.alloc, at + 1))?;
        nodes.push(Node::two_ways(Entry::Test(statement), first, second))?;
        self.lay_all(body, at + 2, &counts, nodes)?;
        let tests = Edge::to_node(self.alloc, at + 1);
        nodes.push(Node::one_way(Entry::Last(statement), tests))?;
        Ok(())
    }

    #[cycle(lay)]
    fn lay_do(
        &self,
        statement: &'a Statement,
        body: &'a [Statement],
        at: u16,
        after: &Edge,
        nodes: &mut Vec<Node<'a>>,
    ) -> Result<(), NoMemory>
        requires room { at + 1 + size_row (graph_sizes self.now) (rows body.now) ≤ MOST_WRITTEN_OUT }
        ensures { OnOk result ((test : Cond) → nodes.new.items
            ≡ nodes.old.items ++ lay_in (graph_at self.now) (DoUntil body.now test) statement.now at after.now) }
    {
        let tests = at + self.size_of_all(body);
        let again = Edge::to_node(self.alloc, tests);
        let first = after.copy(self.alloc)?;
        let second = start(self.alloc, body.len(), at, &again)?;
        self.lay_all(body, at, &again, nodes)?;
        nodes.push(Node::two_ways(Entry::Run(statement), first, second))?;
        Ok(())
    }

    fn lay_call(
        &self,
        statement: &'a Statement,
        procedure: u16,
        at: u16,
        after: &Edge,
        nodes: &mut Vec<Node<'a>>,
    ) -> Result<(), NoMemory>
        requires room { at + 1 + graph_sizes self.now procedure ≤ MOST_WRITTEN_OUT }
        ensures { OnOk result (nodes.new.items ≡ nodes.old.items
            ++ lay_call (graph_at self.now procedure) statement.now at after.now) }
    {
        let Some(graph) = self.graphs.get(usize::from(procedure)) else {
            return push_one(nodes, statement, after.copy(self.alloc)?);
        };
        let called = graph.nodes();
        lay_called(self.alloc, statement, called, at, after, nodes)
    }
}

/// Lays out a call and the nodes of its procedure.
fn lay_called<'a>(
    alloc: Global,
    statement: &'a Statement,
    called: &[Node<'a>],
    at: u16,
    after: &Edge,
    nodes: &mut Vec<Node<'a>>,
) -> Result<(), NoMemory>
    requires room { at + 1 + length called.now ≤ MOST_WRITTEN_OUT }
    requires closed { AreClosed called.now }
    ensures { OnOk result (nodes.new.items ≡ nodes.old.items ++ lay_call called.now statement.now at after.now) }
{
    let first = start(alloc, called.len(), at + 1, after)?;
    push_one(nodes, statement, first)?;
    for node in called {
        nodes.push(node.moved(alloc, at, after)?)?;
    }
    Ok(())
}

/// The edge to the node at `at`, where `count` statements or nodes begin. If there are none, it is the edge `after`.
fn start(alloc: Global, count: usize, at: u16, after: &Edge) -> Result<Edge, NoMemory>
    ensures { IfOk result (λ edge. edge ≡ start_at count at after.now) }
{
    if count == 0 {
        return after.copy(alloc);
    }
    Ok(Edge::to_node(alloc, at))
}

/// Adds the node of a statement with one edge.
fn push_one<'a>(
    nodes: &mut Vec<Node<'a>>,
    statement: &'a Statement,
    edge: Edge,
) -> Result<(), NoMemory>
    ensures { OnOk result (nodes.new.items ≡ nodes.old.items ++ one_way (Run statement.now) edge ∷ []) }
{
    nodes.push(Node::one_way(Entry::Run(statement), edge))?;
    Ok(())
}
