ghost use Rattle.std.specs.Prelude.{◌≡◌, ◌<◌, ◌++◌, [], ◌∷◌, OnOk};
ghost use Rattle.tal_tree.specs.Statements.{all_in, all_of, numbers_of};
ghost use Rattle.tal_tree.specs.declared.statement.What.{out-What};
ghost use Rattle.process_semantics.specs.Rests.{rests};
ghost use Rattle.tal_code.specs.Waiting.{waiting_at};
ghost use Rattle.tal_table.specs.Loads.{AreSmall, FewWait, Puts, numbers_at, rests_at};
ghost use Rattle.tal_table.specs.Loads as loads;

use crate::node::{Node, Work};
use crate::works::{from_work, last_work, leaf_work, limit_work, test_work};
use gd_words::NoMemory;
use std::alloc::Global;
use tal_tree::{Statement, What};

/// Puts the nodes of statements behind others. The entry of number `after` comes after the statements.
#[cycle(put)]
pub(crate) fn put_list(
    alloc: Global,
    nodes: &mut Vec<Node>,
    procedure: u16,
    statements: &[Statement],
    after: u16,
) -> Result<(), NoMemory>
    requires small { AreSmall (numbers_of statements.now) }
    requires few { FewWait (all_of statements.now) }
    ensures { OnOk result (Puts nodes.old.items nodes.new.items procedure (rests statements.now) after) }
{
    for (k, statement) in statements.iter().enumerate() {
        let (_, others) = statements.split_at(k + 1);
        let next = begins(others, after);
        put_statement(alloc, nodes, procedure, statement, next)?;
    }
    Ok(())
}

/// The number that comes next where statements stand before an entry of number `after`.
#[cycle(begin)]
pub(crate) fn begins(statements: &[Statement], after: u16) -> u16
    ensures { result ≡ loads.begins statements.now after }
{
    match statements {
        [] => after,
        [first, ..] => first_number(first),
    }
}

/// The number of the first entry of a statement: that of a DO's body, else its own.
#[cycle(begin)]
fn first_number(statement: &Statement) -> u16
    ensures { result ≡ loads.first_number statement.now }
{
    match &statement.what {
        What::DoUntil { body, test: _ } => begins(body.as_slice(), statement.number),
        What::Assign { .. }
        | What::AssignCall { .. }
        | What::If { .. }
        | What::While { .. }
        | What::For { .. }
        | What::Call { .. }
        | What::Return(_)
        | What::ReadUpdate { .. }
        | What::Reply { .. }
        | What::WriteRead { .. }
        | What::Checkpoint { .. }
        | What::CheckMonitor
        | What::Open(_)
        | What::Stop => statement.number,
    }
}

#[cycle(put)]
fn put_statement(
    alloc: Global,
    nodes: &mut Vec<Node>,
    procedure: u16,
    statement: &Statement,
    after: u16,
) -> Result<(), NoMemory>
    requires small { AreSmall (numbers_at statement.now) }
    requires few { FewWait (all_in statement.now) }
    ensures { OnOk result (Puts nodes.old.items nodes.new.items procedure (rests_at statement.now) after) }
{
    match &statement.what {
        What::If { .. } => put_if(alloc, nodes, procedure, statement, after),
        What::While { .. } => put_while(alloc, nodes, procedure, statement, after),
        What::For { .. } => put_for(alloc, nodes, procedure, statement, after),
        What::DoUntil { .. } => put_do(alloc, nodes, procedure, statement, after),
        What::Assign { .. }
        | What::AssignCall { .. }
        | What::Call { .. }
        | What::Return(_)
        | What::ReadUpdate { .. }
        | What::Reply { .. }
        | What::WriteRead { .. }
        | What::Checkpoint { .. }
        | What::CheckMonitor
        | What::Open(_)
        | What::Stop => put_leaf(alloc, nodes, procedure, statement, after),
    }
}

fn push(nodes: &mut Vec<Node>, procedure: u16, work: Work, after: u16) -> Result<(), NoMemory>
    ensures { OnOk result (nodes.new.items ≡ nodes.old.items
        ++ record { procedure = procedure; work = work; after = after } ∷ []) }
{
    nodes.push(Node {
        procedure,
        work,
        after,
    })?;
    Ok(())
}

fn put_leaf(
    alloc: Global,
    nodes: &mut Vec<Node>,
    procedure: u16,
    statement: &Statement,
    after: u16,
) -> Result<(), NoMemory>
    requires kind { loads.IsAlone (out-What statement.now.what) }
    requires few { waiting_at (out-What statement.now.what) < 80 }
    ensures { OnOk result (Puts nodes.old.items nodes.new.items procedure (rests_at statement.now) after) }
{
    let work = leaf_work(alloc, statement, after)?;
    push(nodes, procedure, work, after)
}

#[cycle(put)]
fn put_if(
    alloc: Global,
    nodes: &mut Vec<Node>,
    procedure: u16,
    statement: &Statement,
    after: u16,
) -> Result<(), NoMemory>
    requires kind { loads.IsIf (out-What statement.now.what) }
    requires small { AreSmall (numbers_at statement.now) }
    requires few { FewWait (all_in statement.now) }
    ensures { OnOk result (Puts nodes.old.items nodes.new.items procedure (rests_at statement.now) after) }
{
    let What::If { test, yes, no } = &statement.what else {
        unreachable!()
    };
    let (yes, no) = (yes.as_slice(), no.as_slice());
    let work = test_work(alloc, test, begins(yes, after), begins(no, after))?;
    push(nodes, procedure, work, after)?;
    put_list(alloc, nodes, procedure, yes, after)?;
    put_list(alloc, nodes, procedure, no, after)
}

#[cycle(put)]
fn put_while(
    alloc: Global,
    nodes: &mut Vec<Node>,
    procedure: u16,
    statement: &Statement,
    after: u16,
) -> Result<(), NoMemory>
    requires kind { loads.IsWhile (out-What statement.now.what) }
    requires small { AreSmall (numbers_at statement.now) }
    requires few { FewWait (all_in statement.now) }
    ensures { OnOk result (Puts nodes.old.items nodes.new.items procedure (rests_at statement.now) after) }
{
    let What::While { test, body } = &statement.what else {
        unreachable!()
    };
    let body = body.as_slice();
    let work = test_work(alloc, test, begins(body, statement.number), after)?;
    push(nodes, procedure, work, after)?;
    put_list(alloc, nodes, procedure, body, statement.number)
}

/// A FOR's first assignment leads to its test, the test into the body, and the last assignment to the test again.
#[cycle(put)]
fn put_for(
    alloc: Global,
    nodes: &mut Vec<Node>,
    procedure: u16,
    statement: &Statement,
    after: u16,
) -> Result<(), NoMemory>
    requires kind { loads.IsFor (out-What statement.now.what) }
    requires small { AreSmall (numbers_at statement.now) }
    requires few { FewWait (all_in statement.now) }
    ensures { OnOk result (Puts nodes.old.items nodes.new.items procedure (rests_at statement.now) after) }
{
    let What::For {
        variable,
        from,
        to,
        down,
        step,
        body,
        last,
    } = &statement.what
    else {
        unreachable!()
    };
    let (variable, down, body, last) = (*variable, *down, body.as_slice(), *last);
    let test = statement.number + 1;
    let start = from_work(alloc, variable, from, test)?;
    push(nodes, procedure, start, after)?;
    let limit = limit_work(alloc, variable, down, to, begins(body, last), after)?;
    push(nodes, procedure, limit, after)?;
    put_list(alloc, nodes, procedure, body, last)?;
    let again = last_work(alloc, variable, down, *step, test)?;
    push(nodes, procedure, again, test)
}

/// A DO's body leads to its test, and the test into the body again.
#[cycle(put)]
fn put_do(
    alloc: Global,
    nodes: &mut Vec<Node>,
    procedure: u16,
    statement: &Statement,
    after: u16,
) -> Result<(), NoMemory>
    requires kind { loads.IsDo (out-What statement.now.what) }
    requires small { AreSmall (numbers_at statement.now) }
    requires few { FewWait (all_in statement.now) }
    ensures { OnOk result (Puts nodes.old.items nodes.new.items procedure (rests_at statement.now) after) }
{
    let What::DoUntil { body, test } = &statement.what else {
        unreachable!()
    };
    let body = body.as_slice();
    put_list(alloc, nodes, procedure, body, statement.number)?;
    let work = test_work(alloc, test, after, begins(body, statement.number))?;
    push(nodes, procedure, work, after)
}
