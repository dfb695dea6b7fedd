ghost use Rattle.std.specs.Prelude.{◌≡◌, ◌≤◌, [], length, slice_get, None, IfOk, IfSome, IfNone};
ghost use Rattle.checkpoint_image.specs.process_images.specs.Images.{asking_from, listable_from};
ghost use Rattle.process_semantics.specs.Rests.{next_number};
ghost use Rattle.tal_tree.specs.Limits.{IsWithinLimits};
ghost use Rattle.tal_tree.specs.Ordered.{IsNumbered};
ghost use Rattle.tal_tree.specs.Regular.{IsRegular};
ghost use Rattle.tal_code.specs.Waiting.{WaitsBelow};
ghost use Rattle.tal_table.specs.Places.{places, rest_at};
ghost use Rattle.tal_table.specs.Tables.{Tells, Heads, told_in, told_if};
ghost use Rattle.gd_words.specs.declared.limits.TheConstants.{MOST_PROCEDURES, MOST_STATEMENTS};

use crate::everything::everything;
use crate::load::{copied_items, headings_of, nodes_of};
use crate::node::{Heading, Node};
use checkpoint_image::Listed;
use gd_words::{List, NoMemory};
use std::alloc::Global;
use std::marker::Model;
use std::snapshot::Snapshot;
use tal_tree::{Item, Program};

/// The table of a program: a node for each of its numbers, the first for 0, at which nothing remains, and a heading for
/// each of its procedures.
#[derive(Drop)]
pub struct Table {
    program: Snapshot<Program>,
    main: u16,
    items: List<Item>,
    headings: Vec<Heading>,
    nodes: Vec<Node>,
    everything: Listed,
}

impl Model for Table {
    ghost use Rattle.std.specs.Prelude.{◌≡◌};
    ghost use Rattle.std.specs.Coded.{codes};
    ghost use Rattle.tal_tree.specs.contracts.statement.Statement as statement;
    ghost use Rattle.tal_tree.specs.declared.program.Program.{Program};
    ghost use Rattle.checkpoint_image.specs.process_images.specs.Images.{asking_from, listable_from};
    ghost use Rattle.tal_table.specs.Tables.{IsTable};

    ghost Value = { Program };

    ghost coded = { Prim.hlevel (codes, statement.the_row.coded) };

    ghost view = { λ table. table.program.value };

    ghost invariant = { λ table. (table.main ≡ table.program.value.main) × ((table.items ≡ table.program.value.items)
        × (IsTable table.program.value table.nodes.items table.headings.items
        × ((table.everything.items ≡ listable_from 0 table.program.value.items)
        × (table.everything.files ≡ asking_from 0 table.program.value.files)))) };
}

impl Table {
    /// The table of a program that is numbered in the order of its text, keeps its limits, is regular, and has room for
    /// the code of what it computes, as what is read has.
    pub fn load(alloc: Global, program: &Program) -> Result<Table, NoMemory>
        requires numbered { IsNumbered program.now }
        requires limits { IsWithinLimits program.now }
        requires regular { IsRegular program.now }
        requires waiting { WaitsBelow 80 program.now }
        ensures { IfOk result (λ table. table ≡ program.now) }
    {
        let procedures = program.procedures.as_slice();
        let items = copied_items(alloc, program.items.as_slice())?;
        let headings = headings_of(alloc, procedures)?;
        let nodes = nodes_of(alloc, procedures)?;
        let everything = everything(alloc, program.items.as_slice(), program.files.as_slice())?;
        Ok(Table {
            program: Snapshot::of(program),
            main: program.main,
            items,
            headings,
            nodes,
            everything,
        })
    }

    /// The number of MAIN.
    pub fn main(&self) -> u16
        ensures { result ≡ self.now.main }
    {
        self.main
    }

    /// The items of the program.
    pub fn items(&self) -> &[Item]
        ensures { result.now ≡ self.now.items }
    {
        self.items.as_slice()
    }

    /// All that the program may name at a checkpoint.
    pub fn everything(&self) -> &Listed
        ensures items { result.now.items ≡ listable_from 0 self.now.items }
        ensures files { result.now.files ≡ asking_from 0 self.now.files }
    {
        &self.everything
    }

    /// How many procedures the program has.
    pub fn procedure_count(&self) -> usize
        ensures count { result ≡ length self.now.procedures }
        ensures few { result ≤ MOST_PROCEDURES }
    {
        self.headings.len()
    }

    /// The node of a number.
    pub fn node(&self, number: u16) -> Option<&Node>
        ensures some { IfSome result (λ node. Tells self.now (rest_at (places self.now) number) node.now) }
        ensures none { IfNone result (rest_at (places self.now) number ≡ []) }
    {
        self.nodes.as_slice().get(usize::from(number))
    }

    /// The heading of a procedure.
    pub fn heading(&self, procedure: u16) -> Option<Heading>
        ensures some { IfSome result (λ heading. Heads self.now procedure heading) }
        ensures none { IfNone result (slice_get self.now.procedures procedure ≡ None) }
    {
        self.headings
            .as_slice()
            .get(usize::from(procedure))
            .copied()
    }

    /// The number that comes next in what remains at a number: 0 where nothing does.
    pub fn next_number(&self, number: u16) -> u16
        ensures next { result ≡ next_number (rest_at (places self.now) number) }
        ensures few { result ≤ MOST_STATEMENTS }
    {
        if usize::from(number) < self.nodes.len() {
            number
        } else {
            0
        }
    }

    /// Whether a number tells what remains in a procedure: it is 0, or one of the procedure's.
    pub fn is_in(&self, procedure: u16, number: u16) -> bool
        ensures { told_in self.now procedure number ≡ told_if result (rest_at (places self.now) number) }
    {
        if usize::from(procedure) >= self.headings.len() {
            return false;
        }
        number == 0 || self.is_own(procedure, number)
    }

    fn is_own(&self, procedure: u16, number: u16) -> bool
        requires { 1 ≤ number }
        ensures { told_in self.now procedure number ≡ told_if result (rest_at (places self.now) number) }
    {
        match self.nodes.as_slice().get(usize::from(number)) {
            None => false,
            Some(node) => node.procedure == procedure,
        }
    }
}
