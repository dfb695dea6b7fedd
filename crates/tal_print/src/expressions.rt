ghost use Rattle.std.specs.Prelude.{◌≡◌, ◌<◌, ◌+◌, [], ◌∷◌, OnOk};
ghost use Rattle.std.specs.Option.{option_copied};
ghost use Rattle.tal_pieces.specs.Printed.Expressions.{and_needs, arguments, left_rank, more_values, op_symbol};
ghost use Rattle.tal_pieces.specs.Printed.Expressions.{or_needs, rel_symbol, right_rank, spot_pieces, test_pieces};
ghost use Rattle.tal_pieces.specs.Printed.Expressions.{value_needs, value_pieces};
ghost use Rattle.tal_pieces.specs.Printed.Names.{named};
ghost use Rattle.tal_print.specs.Work.{pieces_left, work_left};
ghost use Rattle.tal_pieces.specs.Weights.{spot_weight, test_weight, value_weight, values_weight};

use crate::names::item_name;
use crate::work::{Part, Work, WorkList};
use gd_words::{Ident, NoMemory};
use tal_pieces::{Keyword, Symbol, TestRank, ValueRank};
use tal_tree::{Cond, Expr, Op, Program, Rel, Spot};

fn op_symbol(op: Op) -> Symbol
    ensures { result ≡ op_symbol op }
{
    match op {
        Op::Add => Symbol::Plus,
        Op::Sub => Symbol::Minus,
        Op::Mul => Symbol::Star,
        Op::Div => Symbol::Slash,
    }
}

fn rel_symbol(rel: Rel) -> Symbol
    ensures { result ≡ rel_symbol rel }
{
    match rel {
        Rel::Equal => Symbol::Equal,
        Rel::Differs => Symbol::Differs,
        Rel::Less => Symbol::Less,
        Rel::AtMost => Symbol::AtMost,
        Rel::Greater => Symbol::Greater,
        Rel::AtLeast => Symbol::AtLeast,
    }
}

fn value_needs(rank: ValueRank, op: Op) -> bool
    ensures { result ≡ value_needs rank op }
{
    match rank {
        ValueRank::Sum => false,
        ValueRank::Product => match op {
            Op::Add => true,
            Op::Sub => true,
            Op::Mul => false,
            Op::Div => false,
        },
        ValueRank::Factor => true,
    }
}

fn left_rank(op: Op) -> ValueRank
    ensures { result ≡ left_rank op }
{
    match op {
        Op::Add => ValueRank::Sum,
        Op::Sub => ValueRank::Sum,
        Op::Mul => ValueRank::Product,
        Op::Div => ValueRank::Product,
    }
}

fn right_rank(op: Op) -> ValueRank
    ensures { result ≡ right_rank op }
{
    match op {
        Op::Add => ValueRank::Product,
        Op::Sub => ValueRank::Product,
        Op::Mul => ValueRank::Factor,
        Op::Div => ValueRank::Factor,
    }
}

fn or_needs(rank: TestRank) -> bool
    ensures { result ≡ or_needs rank }
{
    match rank {
        TestRank::Or => false,
        TestRank::And => true,
        TestRank::Not => true,
    }
}

fn and_needs(rank: TestRank) -> bool
    ensures { result ≡ and_needs rank }
{
    match rank {
        TestRank::Or => false,
        TestRank::And => false,
        TestRank::Not => true,
    }
}

#[tactic(auto, using(crate::proofs::Layers::layers))]
fn two<'a>(
    program: &'a Program,
    locals: &'a [Ident],
    rank: ValueRank,
    op: Op,
    left: &'a Expr,
    right: &'a Expr,
    list: &mut WorkList<'a>,
) -> Result<(), NoMemory>
    ensures pieces { OnOk result (pieces_left program.now locals.now list.new.works.items
        ≡ value_pieces program.now locals.now rank (Expr.Two op left.now right.now)
        (pieces_left program.now locals.now list.old.works.items)) }
    ensures less { OnOk result (work_left list.new.works.items
        < value_weight (Expr.Two op left.now right.now) + work_left list.old.works.items) }
{
    let before = Work::Part(Part::Value(left_rank(op), left));
    let between = Work::Sign(op_symbol(op));
    let after = Work::Part(Part::Value(right_rank(op), right));
    if value_needs(rank, op) {
        let open = Work::Sign(Symbol::Open);
        let close = Work::Sign(Symbol::Close);
        list.put(&[open, before, between, after, close])?;
    } else {
        list.put(&[before, between, after])?;
    }
    Ok(())
}

/// Takes a value apart.
#[tactic(auto, using(crate::proofs::Layers::layers))]
pub fn take_value<'a>(
    program: &'a Program,
    locals: &'a [Ident],
    rank: ValueRank,
    expr: &'a Expr,
    list: &mut WorkList<'a>,
) -> Result<(), NoMemory>
    ensures pieces { OnOk result (pieces_left program.now locals.now list.new.works.items
        ≡ value_pieces program.now locals.now rank expr.now (pieces_left program.now locals.now list.old.works.items)) }
    ensures less { OnOk result (work_left list.new.works.items
        < value_weight expr.now + work_left list.old.works.items) }
{
    match expr {
        Expr::Number(number) => list.put(&[Work::Number(*number)])?,
        Expr::Read(spot) => list.put(&[Work::Part(Part::Spot(spot.get()))])?,
        Expr::Minus(inner) => {
            let minus = Work::Sign(Symbol::Minus);
            let factor = Work::Part(Part::Value(ValueRank::Factor, inner.get()));
            list.put(&[minus, factor])?;
        }
        Expr::Two { op, left, right } => {
            two(program, locals, rank, *op, left.get(), right.get(), list)?;
        }
    }
    Ok(())
}

/// Takes a spot apart.
pub fn take_spot<'a>(
    program: &'a Program,
    locals: &'a [Ident],
    spot: &'a Spot,
    list: &mut WorkList<'a>,
) -> Result<(), NoMemory>
    ensures pieces { OnOk result (pieces_left program.now locals.now list.new.works.items
        ≡ spot_pieces program.now locals.now spot.now (pieces_left program.now locals.now list.old.works.items)) }
    ensures less { OnOk result (work_left list.new.works.items
        < spot_weight spot.now + work_left list.old.works.items) }
{
    match spot {
        Spot::Local(place) => list.put(&[Work::Name(locals.get(usize::from(*place)))])?,
        Spot::Simple(item) => list.put(&[Work::Name(item_name(program, *item))])?,
        Spot::Element { item, index } => {
            let name = Work::Name(item_name(program, *item));
            let open = Work::Sign(Symbol::OpenIndex);
            let close = Work::Sign(Symbol::CloseIndex);
            list.put(&[
                name,
                open,
                Work::Part(Part::Value(ValueRank::Sum, index)),
                close,
            ])?;
        }
    }
    Ok(())
}

#[tactic(auto, using(crate::proofs::Layers::layers))]
fn and<'a>(
    program: &'a Program,
    locals: &'a [Ident],
    rank: TestRank,
    left: &'a Cond,
    right: &'a Cond,
    list: &mut WorkList<'a>,
) -> Result<(), NoMemory>
    ensures pieces { OnOk result (pieces_left program.now locals.now list.new.works.items
        ≡ test_pieces program.now locals.now rank (Cond.And left.now right.now)
        (pieces_left program.now locals.now list.old.works.items)) }
    ensures less { OnOk result (work_left list.new.works.items
        < test_weight (Cond.And left.now right.now) + work_left list.old.works.items) }
{
    let before = Work::Part(Part::Test(TestRank::And, left));
    let between = Work::Word(Keyword::And);
    let after = Work::Part(Part::Test(TestRank::Not, right));
    if and_needs(rank) {
        let open = Work::Sign(Symbol::Open);
        let close = Work::Sign(Symbol::Close);
        list.put(&[open, before, between, after, close])?;
    } else {
        list.put(&[before, between, after])?;
    }
    Ok(())
}

#[tactic(auto, using(crate::proofs::Layers::layers))]
fn or<'a>(
    program: &'a Program,
    locals: &'a [Ident],
    rank: TestRank,
    left: &'a Cond,
    right: &'a Cond,
    list: &mut WorkList<'a>,
) -> Result<(), NoMemory>
    ensures pieces { OnOk result (pieces_left program.now locals.now list.new.works.items
        ≡ test_pieces program.now locals.now rank (Cond.Or left.now right.now)
        (pieces_left program.now locals.now list.old.works.items)) }
    ensures less { OnOk result (work_left list.new.works.items
        < test_weight (Cond.Or left.now right.now) + work_left list.old.works.items) }
{
    let before = Work::Part(Part::Test(TestRank::Or, left));
    let between = Work::Word(Keyword::Or);
    let after = Work::Part(Part::Test(TestRank::And, right));
    if or_needs(rank) {
        let open = Work::Sign(Symbol::Open);
        let close = Work::Sign(Symbol::Close);
        list.put(&[open, before, between, after, close])?;
    } else {
        list.put(&[before, between, after])?;
    }
    Ok(())
}

/// Takes a condition apart.
#[tactic(auto, using(crate::proofs::Layers::layers))]
pub fn take_test<'a>(
    program: &'a Program,
    locals: &'a [Ident],
    rank: TestRank,
    cond: &'a Cond,
    list: &mut WorkList<'a>,
) -> Result<(), NoMemory>
    ensures pieces { OnOk result (pieces_left program.now locals.now list.new.works.items
        ≡ test_pieces program.now locals.now rank cond.now (pieces_left program.now locals.now list.old.works.items)) }
    ensures less { OnOk result (work_left list.new.works.items
        < test_weight cond.now + work_left list.old.works.items) }
{
    match cond {
        Cond::Truth(expr) => list.put(&[Work::Part(Part::Value(ValueRank::Sum, expr))])?,
        Cond::Compare { rel, left, right } => {
            let before = Work::Part(Part::Value(ValueRank::Sum, left));
            let between = Work::Sign(rel_symbol(*rel));
            let after = Work::Part(Part::Value(ValueRank::Sum, right));
            list.put(&[before, between, after])?;
        }
        Cond::Not(inner) => {
            let word = Work::Word(Keyword::Not);
            let test = Work::Part(Part::Test(TestRank::Not, inner.get()));
            list.put(&[word, test])?;
        }
        Cond::And(left, right) => and(program, locals, rank, left.get(), right.get(), list)?,
        Cond::Or(left, right) => or(program, locals, rank, left.get(), right.get(), list)?,
    }
    Ok(())
}

/// Takes more values of a list apart.
pub fn take_values<'a>(
    program: &'a Program,
    locals: &'a [Ident],
    exprs: &'a [Expr],
    list: &mut WorkList<'a>,
) -> Result<(), NoMemory>
    ensures pieces { OnOk result (pieces_left program.now locals.now list.new.works.items
        ≡ more_values program.now locals.now exprs.now (pieces_left program.now locals.now list.old.works.items)) }
    ensures less { OnOk result (work_left list.new.works.items
        < values_weight exprs.now + work_left list.old.works.items) }
{
    if let [expr, rest @ ..] = exprs {
        let comma = Work::Sign(Symbol::Comma);
        let value = Work::Part(Part::Value(ValueRank::Sum, expr));
        list.put(&[comma, value, Work::Part(Part::Values(rest))])?;
    }
    Ok(())
}

/// Takes the values of a call apart.
pub fn take_arguments<'a>(
    program: &'a Program,
    locals: &'a [Ident],
    exprs: &'a [Expr],
    list: &mut WorkList<'a>,
) -> Result<(), NoMemory>
    ensures pieces { OnOk result (pieces_left program.now locals.now list.new.works.items
        ≡ arguments program.now locals.now exprs.now (pieces_left program.now locals.now list.old.works.items)) }
    ensures less { OnOk result (work_left list.new.works.items
        < (values_weight exprs.now + 4) + work_left list.old.works.items) }
{
    if let [expr, rest @ ..] = exprs {
        list.put(&[
            Work::Sign(Symbol::Open),
            Work::Part(Part::Value(ValueRank::Sum, expr)),
            Work::Part(Part::Values(rest)),
            Work::Sign(Symbol::Close),
        ])?;
    }
    Ok(())
}
