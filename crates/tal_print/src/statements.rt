ghost use Rattle.std.specs.Prelude.{◌≡◌, ◌<◌, ◌+◌, ℕ, [], ◌∷◌, length, true, OnOk, pos};
ghost use Rattle.std.specs.Option.{option_copied};
ghost use Rattle.tal_pieces.specs.Printed.Statements as printed;
ghost use Rattle.tal_pieces.specs.Printed.Statements.{body_pieces, inner_pieces, checkpoint_list, more_files};
ghost use Rattle.tal_pieces.specs.Printed.Statements.{more_items};
ghost use Rattle.tal_pieces.specs.Printed.Statements.{more_statements, step_pieces, what_pieces};
ghost use Rattle.tal_print.specs.Work.{pieces_left, returns_or_calls_the_system, work_left};
ghost use Rattle.tal_pieces.specs.Weights.{list_weight, statements_weight, what_weight};
ghost use Rattle.tal_tree.specs.declared.statement.What.{AssignCall, Call, If, While, For, DoUntil};

use crate::names::{file_name, item_name, procedure_name, variable_name};
use crate::system_calls::{take_open, take_read_update, take_reply, take_return, take_write_read};
use crate::work::{Part, Work, WorkList};
use gd_words::{Ident, List, NoMemory};
use tal_names::System;
use tal_pieces::{Keyword, Symbol, TestRank, ValueRank};
use tal_tree::{Cond, Expr, Program, Spot, Statement, Variable, What};

/// Takes statements in the place of one apart.
pub fn take_inner<'a>(
    program: &'a Program,
    locals: &'a [Ident],
    statements: &'a [Statement],
    list: &mut WorkList<'a>,
) -> Result<(), NoMemory>
    ensures pieces { OnOk result (pieces_left program.now locals.now list.new.works.items
        ≡ inner_pieces program.now locals.now statements.now
        (pieces_left program.now locals.now list.old.works.items)) }
    ensures less { OnOk result (work_left list.new.works.items
        < (statements_weight statements.now + 3) + work_left list.old.works.items) }
{
    match statements {
        [] => {}
        [only] => list.put(&[Work::Part(Part::What(&only.what))])?,
        [first, second, rest @ ..] => list.put(&[
            Work::Word(Keyword::Begin),
            Work::Part(Part::What(&first.what)),
            Work::Sign(Symbol::Semicolon),
            Work::Part(Part::What(&second.what)),
            Work::Part(Part::Statements(rest)),
            Work::Word(Keyword::End),
        ])?,
    }
    Ok(())
}

/// Takes the statements after one apart.
pub fn take_statements<'a>(
    program: &'a Program,
    locals: &'a [Ident],
    statements: &'a [Statement],
    list: &mut WorkList<'a>,
) -> Result<(), NoMemory>
    ensures pieces { OnOk result (pieces_left program.now locals.now list.new.works.items
        ≡ more_statements program.now locals.now statements.now
        (pieces_left program.now locals.now list.old.works.items)) }
    ensures less { OnOk result (work_left list.new.works.items
        < statements_weight statements.now + work_left list.old.works.items) }
{
    if let [first, rest @ ..] = statements {
        list.put(&[
            Work::Sign(Symbol::Semicolon),
            Work::Part(Part::What(&first.what)),
            Work::Part(Part::Statements(rest)),
        ])?;
    }
    Ok(())
}

/// Takes the statements of a procedure apart.
pub fn take_body<'a>(
    program: &'a Program,
    locals: &'a [Ident],
    statements: &'a [Statement],
    list: &mut WorkList<'a>,
) -> Result<(), NoMemory>
    ensures pieces { OnOk result (pieces_left program.now locals.now list.new.works.items
        ≡ body_pieces program.now locals.now statements.now (pieces_left program.now locals.now list.old.works.items)) }
    ensures less { OnOk result (work_left list.new.works.items
        < (statements_weight statements.now + 1) + work_left list.old.works.items) }
{
    if let [first, rest @ ..] = statements {
        list.put(&[
            Work::Part(Part::What(&first.what)),
            Work::Part(Part::Statements(rest)),
        ])?;
    }
    Ok(())
}

/// Takes more items of a CHECKPOINT apart.
pub fn take_kept<'a>(
    program: &'a Program,
    locals: &'a [Ident],
    items: &'a [u16],
    list: &mut WorkList<'a>,
) -> Result<(), NoMemory>
    ensures pieces { OnOk result (pieces_left program.now locals.now list.new.works.items
        ≡ more_items program.now items.now (pieces_left program.now locals.now list.old.works.items)) }
    ensures less { OnOk result (work_left list.new.works.items
        < list_weight items.now + work_left list.old.works.items) }
{
    if let [item, rest @ ..] = items {
        list.put(&[
            Work::Sign(Symbol::Comma),
            Work::Name(item_name(program, *item)),
            Work::Part(Part::Kept(rest)),
        ])?;
    }
    Ok(())
}

/// Takes more files of a CHECKPOINT apart.
pub fn take_files<'a>(
    program: &'a Program,
    locals: &'a [Ident],
    files: &'a [u8],
    list: &mut WorkList<'a>,
) -> Result<(), NoMemory>
    ensures pieces { OnOk result (pieces_left program.now locals.now list.new.works.items
        ≡ more_files program.now files.now (pieces_left program.now locals.now list.old.works.items)) }
    ensures less { OnOk result (work_left list.new.works.items
        < list_weight files.now + work_left list.old.works.items) }
{
    if let [file, rest @ ..] = files {
        list.put(&[
            Work::Sign(Symbol::Comma),
            Work::Name(file_name(program, *file)),
            Work::Part(Part::Files(rest)),
        ])?;
    }
    Ok(())
}

/// Takes the list of a CHECKPOINT apart.
pub fn take_checkpoint<'a>(
    program: &'a Program,
    locals: &'a [Ident],
    items: &'a [u16],
    files: &'a [u8],
    list: &mut WorkList<'a>,
) -> Result<(), NoMemory>
    ensures pieces { OnOk result (pieces_left program.now locals.now list.new.works.items
        ≡ checkpoint_list program.now items.now files.now (pieces_left program.now locals.now list.old.works.items)) }
    ensures less { OnOk result (work_left list.new.works.items
        < (list_weight items.now + list_weight files.now + 6) + work_left list.old.works.items) }
{
    match items {
        [item, more @ ..] => list.put(&[
            Work::Sign(Symbol::Open),
            Work::Name(item_name(program, *item)),
            Work::Part(Part::Kept(more)),
            Work::Part(Part::Files(files)),
            Work::Sign(Symbol::Close),
        ])?,
        [] => match files {
            [file, more @ ..] => list.put(&[
                Work::Sign(Symbol::Open),
                Work::Name(file_name(program, *file)),
                Work::Part(Part::Files(more)),
                Work::Sign(Symbol::Close),
            ])?,
            [] => {}
        },
    }
    Ok(())
}

/// Takes the assignment of a call's answer apart.
pub fn take_assign_call<'a>(
    program: &'a Program,
    locals: &'a [Ident],
    to: &'a Spot,
    procedure: u16,
    arguments: &'a List<Expr>,
    list: &mut WorkList<'a>,
) -> Result<(), NoMemory>
    ensures pieces { OnOk result (pieces_left program.now locals.now list.new.works.items
        ≡ what_pieces program.now locals.now (AssignCall to.now procedure arguments.now)
        (pieces_left program.now locals.now list.old.works.items)) }
    ensures less { OnOk result (work_left list.new.works.items
        < what_weight (AssignCall to.now procedure arguments.now) + work_left list.old.works.items) }
{
    list.put(&[
        Work::Part(Part::Spot(to)),
        Work::Sign(Symbol::Assign),
        Work::Name(procedure_name(program, procedure)),
        Work::Part(Part::Arguments(arguments.as_slice())),
    ])?;
    Ok(())
}

/// Takes a call of a procedure apart.
pub fn take_call<'a>(
    program: &'a Program,
    locals: &'a [Ident],
    procedure: u16,
    arguments: &'a List<Expr>,
    list: &mut WorkList<'a>,
) -> Result<(), NoMemory>
    ensures pieces { OnOk result (pieces_left program.now locals.now list.new.works.items
        ≡ what_pieces program.now locals.now (Call procedure arguments.now)
        (pieces_left program.now locals.now list.old.works.items)) }
    ensures less { OnOk result (work_left list.new.works.items
        < what_weight (Call procedure arguments.now) + work_left list.old.works.items) }
{
    list.put(&[
        Work::Word(Keyword::Call),
        Work::Name(procedure_name(program, procedure)),
        Work::Part(Part::Arguments(arguments.as_slice())),
    ])?;
    Ok(())
}

/// Takes an IF apart.
pub fn take_if<'a>(
    program: &'a Program,
    locals: &'a [Ident],
    test: &'a Cond,
    yes: &'a List<Statement>,
    no: &'a List<Statement>,
    list: &mut WorkList<'a>,
) -> Result<(), NoMemory>
    ensures pieces { OnOk result (pieces_left program.now locals.now list.new.works.items
        ≡ what_pieces program.now locals.now (If test.now yes.now no.now)
        (pieces_left program.now locals.now list.old.works.items)) }
    ensures less { OnOk result (work_left list.new.works.items
        < what_weight (If test.now yes.now no.now) + work_left list.old.works.items) }
{
    list.put(&[
        Work::Word(Keyword::If),
        Work::Part(Part::Test(TestRank::Or, test)),
        Work::Word(Keyword::Then),
        Work::Part(Part::Inner(yes.as_slice())),
        Work::Word(Keyword::Else),
        Work::Part(Part::Inner(no.as_slice())),
    ])?;
    Ok(())
}

/// Takes a WHILE apart.
pub fn take_while<'a>(
    program: &'a Program,
    locals: &'a [Ident],
    test: &'a Cond,
    body: &'a List<Statement>,
    list: &mut WorkList<'a>,
) -> Result<(), NoMemory>
    ensures pieces { OnOk result (pieces_left program.now locals.now list.new.works.items
        ≡ what_pieces program.now locals.now (While test.now body.now)
        (pieces_left program.now locals.now list.old.works.items)) }
    ensures less { OnOk result (work_left list.new.works.items
        < what_weight (While test.now body.now) + work_left list.old.works.items) }
{
    list.put(&[
        Work::Word(Keyword::While),
        Work::Part(Part::Test(TestRank::Or, test)),
        Work::Word(Keyword::Do),
        Work::Part(Part::Inner(body.as_slice())),
    ])?;
    Ok(())
}

/// Takes a FOR apart, whatever number its last statement has.
pub fn take_for<'a>(
    program: &'a Program,
    locals: &'a [Ident],
    variable: Variable,
    from: &'a Expr,
    to: &'a Expr,
    down: bool,
    step: i16,
    body: &'a List<Statement>,
    list: &mut WorkList<'a>,
) -> Result<(), NoMemory>
    ensures pieces { OnOk result ((last : ℕ)
        → pieces_left program.now locals.now list.new.works.items
        ≡ what_pieces program.now locals.now (For variable from.now to.now down step body.now last)
        (pieces_left program.now locals.now list.old.works.items)) }
    ensures less { OnOk result ((last : ℕ) → work_left list.new.works.items
        < what_weight (For variable from.now to.now down step body.now last) + work_left list.old.works.items) }
{
    list.put(&[
        Work::Word(Keyword::For),
        Work::Name(variable_name(program, locals, variable)),
        Work::Sign(Symbol::Assign),
        Work::Part(Part::Value(ValueRank::Sum, from)),
        Work::Word(direction_word(down)),
        Work::Part(Part::Value(ValueRank::Sum, to)),
        Work::Part(Part::Step(step)),
        Work::Word(Keyword::Do),
        Work::Part(Part::Inner(body.as_slice())),
    ])?;
    Ok(())
}

/// The word that says which way a FOR counts.
fn direction_word(down: bool) -> Keyword
    ensures { result ≡ printed.direction_word down }
{
    if down { Keyword::DownTo } else { Keyword::To }
}

/// Takes what a FOR counts by apart: 1 isn't written.
pub fn take_step<'a>(
    program: &'a Program,
    locals: &'a [Ident],
    step: i16,
    list: &mut WorkList<'a>,
) -> Result<(), NoMemory>
    ensures pieces { OnOk result (pieces_left program.now locals.now list.new.works.items
        ≡ step_pieces step (pieces_left program.now locals.now list.old.works.items)) }
    ensures less { OnOk result (work_left list.new.works.items < 3 + work_left list.old.works.items) }
{
    if step > 1 {
        list.put(&[Work::Word(Keyword::By), Work::Number(step)])?;
    }
    Ok(())
}

/// Takes a DO apart.
pub fn take_do<'a>(
    program: &'a Program,
    locals: &'a [Ident],
    body: &'a List<Statement>,
    test: &'a Cond,
    list: &mut WorkList<'a>,
) -> Result<(), NoMemory>
    ensures pieces { OnOk result (pieces_left program.now locals.now list.new.works.items
        ≡ what_pieces program.now locals.now (DoUntil body.now test.now)
        (pieces_left program.now locals.now list.old.works.items)) }
    ensures less { OnOk result (work_left list.new.works.items
        < what_weight (DoUntil body.now test.now) + work_left list.old.works.items) }
{
    list.put(&[
        Work::Word(Keyword::Do),
        Work::Part(Part::Inner(body.as_slice())),
        Work::Word(Keyword::Until),
        Work::Part(Part::Test(TestRank::Or, test)),
    ])?;
    Ok(())
}

/// Takes a RETURN or a call of the system apart.
pub fn take_return_or_system_call<'a>(
    program: &'a Program,
    locals: &'a [Ident],
    what: &'a What,
    list: &mut WorkList<'a>,
) -> Result<(), NoMemory>
    requires { returns_or_calls_the_system what.now ≡ true }
    ensures pieces { OnOk result (pieces_left program.now locals.now list.new.works.items
        ≡ what_pieces program.now locals.now what.now (pieces_left program.now locals.now list.old.works.items)) }
    ensures less { OnOk result (work_left list.new.works.items
        < what_weight what.now + work_left list.old.works.items) }
{
    match what {
        What::Return(given) => take_return(program, locals, given, list)?,
        What::ReadUpdate { buffer, most, got } => {
            take_read_update(program, locals, *buffer, most, *got, list)?;
        }
        What::Reply { buffer, count } => take_reply(program, locals, *buffer, count, list)?,
        What::WriteRead {
            file,
            buffer,
            send,
            room,
            got,
        } => take_write_read(program, locals, *file, *buffer, send, room, *got, list)?,
        What::Checkpoint { items, files } => list.put(&[
            Work::Word(Keyword::Call),
            Work::System(System::Checkpoint),
            Work::Part(Part::Checkpoint(items.as_slice(), files.as_slice())),
        ])?,
        What::CheckMonitor => list.put(&[
            Work::Word(Keyword::Call),
            Work::System(System::CheckMonitor),
        ])?,
        What::Open(file) => take_open(program, locals, *file, list)?,
        What::Stop => list.put(&[Work::Word(Keyword::Call), Work::System(System::Stop)])?,
        _ => {}
    }
    Ok(())
}

/// Takes a statement apart.
pub fn take_what<'a>(
    program: &'a Program,
    locals: &'a [Ident],
    what: &'a What,
    list: &mut WorkList<'a>,
) -> Result<(), NoMemory>
    ensures pieces { OnOk result (pieces_left program.now locals.now list.new.works.items
        ≡ what_pieces program.now locals.now what.now (pieces_left program.now locals.now list.old.works.items)) }
    ensures less { OnOk result (work_left list.new.works.items
        < what_weight what.now + work_left list.old.works.items) }
{
    match what {
        What::Assign { to, value } => list.put(&[
            Work::Part(Part::Spot(to)),
            Work::Sign(Symbol::Assign),
            Work::Part(Part::Value(ValueRank::Sum, value)),
        ])?,
        What::AssignCall {
            to,
            procedure,
            arguments,
        } => take_assign_call(program, locals, to, *procedure, arguments, list)?,
        What::If { test, yes, no } => take_if(program, locals, test, yes, no, list)?,
        What::While { test, body } => take_while(program, locals, test, body, list)?,
        What::For {
            variable,
            from,
            to,
            down,
            step,
            body,
            last: _,
        } => take_for(
            program, locals, *variable, from, to, *down, *step, body, list,
        )?,
        What::DoUntil { body, test } => take_do(program, locals, body, test, list)?,
        What::Call {
            procedure,
            arguments,
        } => take_call(program, locals, *procedure, arguments, list)?,
        _ => take_return_or_system_call(program, locals, what, list)?,
    }
    Ok(())
}
