ghost use Rattle.std.specs.Prelude.{◌≡◌, ◌<◌, Some, None, IfOk};
ghost use Rattle.tal_tree.specs.declared.expression.Cond.TheVariants as cond;
ghost use Rattle.tal_tree.specs.declared.expression.Expr.TheVariants as expr;
ghost use Rattle.tal_tree.specs.declared.statement.What.{out-What};
ghost use Rattle.process_semantics.specs.Steps.{bound_by};
ghost use Rattle.program_deeds.specs.Deed.{counts_by};
ghost use Rattle.process_semantics.specs.tal_values.specs.Spots.{spot_of};
ghost use Rattle.tal_code.specs.Waiting.{waiting_of, waiting_of_spot, waiting_for, waiting_of_test, waiting_of_all};
ghost use Rattle.tal_code.specs.Waiting.{waiting_of_answer, waiting_at};
ghost use Rattle.tal_table.specs.Loads.{IsAlone, IsLeaf};
ghost use Rattle.tal_table.specs.declared.node.Work.TheVariants as work;

use crate::node::Work;
use checkpoint_image::Listed;
use gd_words::{List, NoMemory};
use std::alloc::Global;
use tal_code::{Code, code_of, limit_code_of, next_code_of, spot_code_of, test_code_of};
use tal_tree::{Cond, Expr, Op, Rel, Spot, Statement, Variable, What};

/// The work of a statement in which no others stand, before the entry of a number.
pub(crate) fn leaf_work(alloc: Global, statement: &Statement, after: u16) -> Result<Work, NoMemory>
    requires kind { IsAlone (out-What statement.now.what) }
    requires few { waiting_at (out-What statement.now.what) < 80 }
    ensures { IfOk result (λ made. IsLeaf statement.now after made) }
{
    match &statement.what {
        What::Assign { to, value } => assign_work(alloc, to, value, after),
        What::AssignCall {
            to,
            procedure,
            arguments,
        } => call_to_work(alloc, to, *procedure, arguments.as_slice()),
        What::Call {
            procedure,
            arguments,
        } => call_work(alloc, *procedure, arguments.as_slice()),
        What::Return(value) => return_work(alloc, value),
        What::ReadUpdate { buffer, most, got } => read_work(alloc, *buffer, most, *got),
        What::Reply { buffer, count } => reply_work(alloc, *buffer, count),
        What::WriteRead {
            file,
            buffer,
            send,
            room,
            got,
        } => write_work(alloc, *file, *buffer, send, room, *got),
        What::Checkpoint { items, files } => {
            checkpoint_work(alloc, items.as_slice(), files.as_slice())
        }
        What::CheckMonitor | What::Open(_) => Ok(Work::Pass),
        What::Stop => Ok(Work::Stop),
        What::If { .. } | What::While { .. } | What::For { .. } | What::DoUntil { .. } => {
            unreachable!()
        }
    }
}

fn assign_work(alloc: Global, to: &Spot, value: &Expr, next: u16) -> Result<Work, NoMemory>
    requires spot { waiting_of_spot to.now < 80 }
    requires value { waiting_of value.now < 80 }
    ensures { IfOk result (λ made. made ≡ work.Assign to.now value.now next) }
{
    let to = spot_code_of(alloc, to)?;
    let value = code_of(alloc, value)?;
    Ok(Work::Assign { to, value, next })
}

fn call_to_work(
    alloc: Global,
    to: &Spot,
    procedure: u16,
    arguments: &[Expr],
) -> Result<Work, NoMemory>
    requires spot { waiting_of_spot to.now < 80 }
    requires arguments { waiting_of_all arguments.now < 80 }
    ensures { IfOk result (λ made. made ≡ work.Call procedure arguments.now (Some to.now)) }
{
    let arguments = codes_of(alloc, arguments)?;
    let to = spot_code_of(alloc, to)?;
    Ok(Work::Call {
        procedure,
        arguments,
        to: Some(to),
    })
}

fn call_work(alloc: Global, procedure: u16, arguments: &[Expr]) -> Result<Work, NoMemory>
    requires { waiting_of_all arguments.now < 80 }
    ensures { IfOk result (λ made. made ≡ work.Call procedure arguments.now None) }
{
    let arguments = codes_of(alloc, arguments)?;
    Ok(Work::Call {
        procedure,
        arguments,
        to: None,
    })
}

fn return_work(alloc: Global, value: &Option<Expr>) -> Result<Work, NoMemory>
    requires { waiting_of_answer value.now < 80 }
    ensures { IfOk result (λ made. made ≡ work.Return value.now) }
{
    match value {
        None => Ok(Work::Return(None)),
        Some(value) => {
            let code = code_of(alloc, value)?;
            Ok(Work::Return(Some(code)))
        }
    }
}

fn read_work(alloc: Global, buffer: u16, most: &Expr, got: Variable) -> Result<Work, NoMemory>
    requires { waiting_of most.now < 80 }
    ensures { IfOk result (λ made. made ≡ work.ReadUpdate buffer most.now got) }
{
    let most = code_of(alloc, most)?;
    Ok(Work::ReadUpdate { buffer, most, got })
}

fn reply_work(alloc: Global, buffer: u16, count: &Expr) -> Result<Work, NoMemory>
    requires { waiting_of count.now < 80 }
    ensures { IfOk result (λ made. made ≡ work.Reply buffer count.now) }
{
    let count = code_of(alloc, count)?;
    Ok(Work::Reply { buffer, count })
}

fn write_work(
    alloc: Global,
    file: u8,
    buffer: u16,
    send: &Expr,
    room: &Expr,
    got: Variable,
) -> Result<Work, NoMemory>
    requires send { waiting_of send.now < 80 }
    requires room { waiting_of room.now < 80 }
    ensures { IfOk result (λ made. made ≡ work.WriteRead file buffer send.now room.now got) }
{
    let send = code_of(alloc, send)?;
    let room = code_of(alloc, room)?;
    Ok(Work::WriteRead {
        file,
        buffer,
        send,
        room,
        got,
    })
}

fn checkpoint_work(alloc: Global, items: &[u16], files: &[u8]) -> Result<Work, NoMemory>
    ensures { IfOk result (λ made. made ≡ work.Checkpoint (record { items = items.now; files = files.now })) }
{
    let items = copy_of(alloc, items)?;
    let files = copy_of(alloc, files)?;
    Ok(Work::Checkpoint(Listed { items, files }))
}

fn copy_of<T: Copy>(alloc: Global, items: &[T]) -> Result<List<T>, NoMemory>
    ensures { IfOk result (λ all. all ≡ items.now) }
{
    let mut all = List::new(alloc);
    all.extend_from_slice(items)?;
    Ok(all)
}

fn codes_of(alloc: Global, arguments: &[Expr]) -> Result<List<Code>, NoMemory>
    requires { waiting_of_all arguments.now < 80 }
    ensures { IfOk result (λ codes. codes ≡ arguments.now) }
{
    let mut codes = List::new(alloc);
    for argument in arguments {
        let code = code_of(alloc, argument)?;
        codes.push(code)?;
    }
    Ok(codes)
}

/// The work of an IF, a WHILE or a DO, with the numbers that come next where the test is true and where it is false.
pub(crate) fn test_work(alloc: Global, test: &Cond, yes: u16, no: u16) -> Result<Work, NoMemory>
    requires { waiting_of_test test.now < 80 }
    ensures { IfOk result (λ made. made ≡ work.Test test.now yes no) }
{
    let test = test_code_of(alloc, test)?;
    Ok(Work::Test { test, yes, no })
}

/// The first assignment of a FOR, before its test.
pub(crate) fn from_work(
    alloc: Global,
    variable: Variable,
    from: &Expr,
    test: u16,
) -> Result<Work, NoMemory>
    requires { waiting_of from.now < 80 }
    ensures { IfOk result (λ made. made ≡ work.Assign (spot_of variable) from.now test) }
{
    let spot = spot(variable);
    assign_work(alloc, &spot, from, test)
}

/// The test of a FOR.
pub(crate) fn limit_work(
    alloc: Global,
    variable: Variable,
    down: bool,
    to: &Expr,
    yes: u16,
    no: u16,
) -> Result<Work, NoMemory>
    requires { waiting_for to.now < 80 }
    ensures { IfOk result (λ made. made
        ≡ work.Test (cond.Compare (bound_by down) (expr.Read (spot_of variable)) to.now) yes no) }
{
    let test = limit_code_of(alloc, variable, bound(down), to)?;
    Ok(Work::Test { test, yes, no })
}

/// The last assignment of a FOR, before its test.
pub(crate) fn last_work(
    alloc: Global,
    variable: Variable,
    down: bool,
    step: i16,
    test: u16,
) -> Result<Work, NoMemory>
    ensures { IfOk result (λ made. made ≡ work.Assign (spot_of variable)
        (expr.Two (counts_by down) (expr.Read (spot_of variable)) (expr.Number step)) test) }
{
    let spot = spot(variable);
    let to = spot_code_of(alloc, &spot)?;
    let value = next_code_of(alloc, variable, operator(down), step)?;
    Ok(Work::Assign {
        to,
        value,
        next: test,
    })
}

/// How the variable of a FOR that counts up or down stands to its limit as long as it goes round.
fn bound(down: bool) -> Rel
    ensures { result ≡ bound_by down }
{
    if down { Rel::AtLeast } else { Rel::AtMost }
}

/// By which operator a FOR counts up or down.
fn operator(down: bool) -> Op
    ensures { result ≡ counts_by down }
{
    if down { Op::Sub } else { Op::Add }
}

fn spot(variable: Variable) -> Spot
    ensures { result ≡ spot_of variable }
{
    match variable {
        Variable::Local(place) => Spot::Local(place),
        Variable::Simple(item) => Spot::Simple(item),
    }
}
