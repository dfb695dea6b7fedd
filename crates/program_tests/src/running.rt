ghost use Rattle.std.specs.Prelude.{◌≤◌, ◌+◌, max, IfOk};
ghost use Rattle.tal_code.specs.Waiting.{waiting_of, waiting_of_test};

use gd_words::{Boxed, Ident, List, NoMemory};
use std::alloc::Global;
use std::test::Fail;
use tal_code::{
    cell, code_of, limit_code_of, next_code_of, spot_code_of, test_code_of, truth, value,
};
use tal_tree::{Cond, Expr, Item, Op, Rel, Shape, Spot, Variable};
use tal_values::{Cell, Memory};

fn nothing() -> Memory<'static> {
    Memory {
        items: &[],
        globals: &[],
        locals: &[],
    }
}

fn two(alloc: Global, op: Op, left: Expr, right: Expr) -> Result<Expr, NoMemory>
    ensures { IfOk result (λ expr. waiting_of expr ≤ max (waiting_of left) (waiting_of right + 1)) }
{
    let left = Boxed::new(alloc, left)?;
    let right = Boxed::new(alloc, right)?;
    Ok(Expr::Two { op, left, right })
}

/// `1 / 0`
fn trap(alloc: Global) -> Result<Expr, NoMemory>
    ensures { IfOk result (λ expr. waiting_of expr ≤ 1) }
{
    let trap = two(alloc, Op::Div, Expr::Number(1), Expr::Number(0))?;
    Ok(trap)
}

fn minus(alloc: Global, inner: Expr) -> Result<Expr, NoMemory>
    ensures { IfOk result (λ expr. waiting_of expr ≤ waiting_of inner) }
{
    let inner = Boxed::new(alloc, inner)?;
    Ok(Expr::Minus(inner))
}

/// The local at a place.
fn local(alloc: Global, place: u8) -> Result<Expr, NoMemory>
    ensures { IfOk result (λ expr. waiting_of expr ≤ 0) }
{
    let spot = Boxed::new(alloc, Spot::Local(place))?;
    Ok(Expr::Read(spot))
}

/// Both sides, joined by AND.
fn both(alloc: Global, left: Cond, right: Cond) -> Result<Cond, NoMemory>
    ensures { IfOk result (λ cond. waiting_of_test cond ≤ max (waiting_of_test left) (waiting_of_test right + 1)) }
{
    let left = Boxed::new(alloc, left)?;
    let right = Boxed::new(alloc, right)?;
    Ok(Cond::And(left, right))
}

/// Both sides, joined by OR.
fn either(alloc: Global, left: Cond, right: Cond) -> Result<Cond, NoMemory>
    ensures { IfOk result (λ cond. waiting_of_test cond ≤ max (waiting_of_test left) (waiting_of_test right + 1)) }
{
    let left = Boxed::new(alloc, left)?;
    let right = Boxed::new(alloc, right)?;
    Ok(Cond::Or(left, right))
}

#[test]
fn code_gives_the_value_of_its_expression(rt: HostRuntime) -> Result<(), Fail> {
    let alloc = rt.alloc();
    let left = two(alloc, Op::Sub, Expr::Number(5), Expr::Number(3))?;
    let right = two(alloc, Op::Mul, Expr::Number(2), Expr::Number(-4))?;
    let expr = two(alloc, Op::Mul, left, right)?;
    let code = code_of(alloc, &expr)?;
    assert!(rt; value(nothing(), &code) == Some(-16));
    let trap = trap(alloc)?;
    let code = code_of(alloc, &trap)?;
    assert!(rt; value(nothing(), &code).is_none());
    Ok(())
}

#[test]
fn a_trap_that_nobody_looks_at_is_none(rt: HostRuntime) -> Result<(), Fail> {
    let alloc = rt.alloc();
    let right = trap(alloc)?;
    let cond = both(alloc, Cond::Truth(Expr::Number(0)), Cond::Truth(right))?;
    let code = test_code_of(alloc, &cond)?;
    assert!(rt; truth(nothing(), &code) == Some(false));
    let right = trap(alloc)?;
    let cond = either(alloc, Cond::Truth(Expr::Number(0)), Cond::Truth(right))?;
    let code = test_code_of(alloc, &cond)?;
    assert!(rt; truth(nothing(), &code).is_none());
    Ok(())
}

#[test]
fn spots_and_variables_have_code(rt: HostRuntime) -> Result<(), Fail> {
    let alloc = rt.alloc();
    let name = Ident::read(b"A").ok_or("no identifier")?;
    let items = [Item {
        name,
        shape: Shape::Array { low: -1, high: 1 },
    }];
    let globals = [List::from_vec(vec![in alloc; 10, 20, 30]?)];
    let memory = Memory {
        items: &items,
        globals: &globals,
        locals: &[1, 32_767],
    };
    let index = local(alloc, 0)?;
    let spot = spot_code_of(alloc, &Spot::Element { item: 0, index })?;
    assert!(rt; cell(memory, &spot) == Some(Cell::Global { item: 0, offset: 2 }));
    let index = Expr::Number(2);
    let spot = spot_code_of(alloc, &Spot::Element { item: 0, index })?;
    assert!(rt; cell(memory, &spot).is_none());
    let limit = limit_code_of(alloc, Variable::Local(0), Rel::AtMost, &Expr::Number(1))?;
    assert!(rt; truth(memory, &limit) == Some(true));
    let next = next_code_of(alloc, Variable::Local(1), Op::Add, 1)?;
    assert!(rt; value(memory, &next) == Some(-32_768));
    Ok(())
}

/// `0 + 1 * 1 + 1 * 1` and so on, with 150,000 products.
fn long_sum(alloc: Global) -> Result<Expr, NoMemory>
    ensures { IfOk result (λ expr. waiting_of expr ≤ 2) }
{
    let mut sum = Expr::Number(0);
    for _ in 0..150_000 {
        let right = two(alloc, Op::Mul, Expr::Number(1), Expr::Number(1))?;
        sum = two(alloc, Op::Add, sum, right)?;
    }
    Ok(sum)
}

#[test]
fn long_chains_need_no_stack(rt: HostRuntime) -> Result<(), Fail> {
    let alloc = rt.alloc();
    let sum = long_sum(alloc)?;
    let code = code_of(alloc, &sum)?;
    assert!(rt; value(nothing(), &code) == Some(18_928));
    Ok(())
}

/// `1 - -(1 - -(1 - -1))` and so on, in which so many left sides wait for right sides that are no numbers.
fn nested(alloc: Global, depth: usize) -> Result<Expr, NoMemory>
    ensures { IfOk result (λ expr. waiting_of expr ≤ depth) }
{
    let mut expr = Expr::Number(1);
    for _ in 0..depth {
        let right = minus(alloc, expr)?;
        expr = two(alloc, Op::Sub, Expr::Number(1), right)?;
    }
    Ok(expr)
}

#[test]
fn seventy_nine_left_sides_wait_for_their_right_ones(rt: HostRuntime) -> Result<(), Fail> {
    let alloc = rt.alloc();
    let expr = nested(alloc, 79)?;
    let code = code_of(alloc, &expr)?;
    assert!(rt; value(nothing(), &code) == Some(80));
    Ok(())
}
