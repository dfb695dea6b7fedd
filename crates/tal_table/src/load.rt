ghost use Rattle.std.specs.List.{All};
ghost use Rattle.std.specs.Prelude.{◌≡◌, ◌≤◌, ℕ, length, map, slice_get, Some, IfOk};
ghost use Rattle.tal_tree.specs.Ordered.{numbers_in_all};
ghost use Rattle.tal_tree.specs.Statements.{all_of};
ghost use Rattle.tal_tree.specs.declared.program.Procedure.{Procedure};
ghost use Rattle.tal_table.specs.Loads as loads;
ghost use Rattle.gd_words.specs.declared.limits.TheConstants.{MOST_LOCALS, MOST_PROCEDURES};

use crate::fill::{begins, put_list};
use crate::node::{Heading, Node, Work};
use gd_words::{List, NoMemory};
use std::alloc::Global;
use tal_tree::{Item, Procedure};

pub(crate) fn copied_items(alloc: Global, items: &[Item]) -> Result<List<Item>, NoMemory>
    ensures { IfOk result (λ all. all ≡ items.now) }
{
    let mut all = List::new(alloc);
    for item in items {
        all.push(Item {
            name: item.name,
            shape: item.shape,
        })?;
    }
    Ok(all)
}

/// A heading for each procedure.
pub(crate) fn headings_of(alloc: Global, procedures: &[Procedure]) -> Result<Vec<Heading>, NoMemory>
    requires { All (λ procedure. length procedure.locals ≤ MOST_LOCALS) procedures.now }
    ensures { IfOk result (λ headings. headings.items ≡ map loads.heading_of procedures.now) }
{
    let mut headings = Vec::new(alloc);
    for procedure in procedures {
        headings.push(heading_of(procedure))?;
    }
    Ok(headings)
}

fn heading_of(procedure: &Procedure) -> Heading
    requires { length procedure.now.locals ≤ MOST_LOCALS }
    ensures { result ≡ loads.heading_of procedure.now }
{
    Heading {
        first: begins(procedure.body.as_slice(), 0),
        locals: procedure.locals.len() as u8,
    }
}

/// The nodes of procedures, behind that for 0.
pub(crate) fn nodes_of(alloc: Global, procedures: &[Procedure]) -> Result<Vec<Node>, NoMemory>
    requires few { length procedures.now ≤ MOST_PROCEDURES }
    requires small { loads.AreSmall (numbers_in_all procedures.now) }
    requires waiting { (k : ℕ) (procedure : Procedure) → slice_get procedures.now k ≡ Some procedure
        → loads.FewWait (all_of procedure.body) }
    ensures { IfOk result (λ nodes. loads.Fills procedures.now procedures.now nodes.items) }
{
    let mut nodes = Vec::new(alloc);
    nodes.push(Node {
        procedure: 0,
        work: Work::Return(None),
        after: 0,
    })?;
    for (number, procedure) in procedures.iter().enumerate() {
        let body = procedure.body.as_slice();
        put_list(alloc, &mut nodes, number as u16, body, 0)?;
    }
    Ok(nodes)
}
