use gd_words::{Boxed, NoMemory};
use std::alloc::Global;
use std::test::Fail;
use tal_tree::{Cond, Expr, Op};
use tal_values::{Memory, truth, value};

const LENGTH: u32 = 300_000;

fn nothing() -> Memory<'static> {
    Memory {
        items: &[],
        globals: &[],
        locals: &[],
    }
}

/// A sum with 1 more.
fn sum(alloc: Global, left: Expr) -> Result<Expr, NoMemory> {
    let op = Op::Add;
    let left = Boxed::new(alloc, left)?;
    let right = Boxed::new(alloc, Expr::Number(1))?;
    Ok(Expr::Two { op, left, right })
}

/// The value of 0 with 1 added again and again.
fn value_of_chain(alloc: Global) -> Result<Option<i16>, NoMemory> {
    let mut chain = Expr::Number(0);
    for _ in 0..LENGTH {
        chain = sum(alloc, chain)?;
    }
    value(alloc, nothing(), &chain)
}

/// A test that holds where another holds.
fn both(alloc: Global, left: Cond) -> Result<Cond, NoMemory> {
    let left = Boxed::new(alloc, left)?;
    let right = Boxed::new(alloc, Cond::Truth(Expr::Number(1)))?;
    Ok(Cond::And(left, right))
}

/// The truth of tests that all hold.
fn truth_of_chain(alloc: Global) -> Result<Option<bool>, NoMemory> {
    let mut chain = Cond::Truth(Expr::Number(1));
    for _ in 0..LENGTH {
        chain = both(alloc, chain)?;
    }
    truth(alloc, nothing(), &chain)
}

/// 300,000 is 4 * 65,536 and 37,856, which wraps to -27,680.
#[test]
fn long_chains_need_no_stack(rt: HostRuntime) -> Result<(), Fail> {
    assert!(rt; value_of_chain(rt.alloc())? == Some(-27_680));
    assert!(rt; truth_of_chain(rt.alloc())? == Some(true));
    Ok(())
}
