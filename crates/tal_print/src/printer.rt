ghost use Rattle.std.specs.Prelude.{◌≡◌, ◌<◌, ◌+◌, ℕ, List as Items, [], IfOk, OnOk};
ghost use Rattle.tal_pieces.specs.Printed.Names.{target_piece};
ghost use Rattle.tal_pieces.specs.Printed.Procedures.{program_pieces};
ghost use Rattle.tal_pieces.specs.ReadsAgain.{ReadsAgain};
ghost use Rattle.tal_pieces.specs.Spelling.{lay, text_of_pieces};
ghost use Rattle.tal_print.specs.Work.{part_pieces, part_weight, pieces_left, work_left};
ghost use Rattle.tal_reader.specs.Reads.{Reads};

use crate::expressions::{take_arguments, take_spot, take_test, take_value, take_values};
use crate::page::Page;
use crate::procedures::{
    back, front, take_items, take_locals, take_main, take_names, take_parameters, take_procedures,
};
use crate::statements::{
    take_body, take_checkpoint, take_files, take_inner, take_kept, take_statements, take_step,
    take_what,
};
use crate::work::{Part, Work, WorkList};
use gd_words::{Ident, List, NoMemory};
use std::alloc::Global;
use tal_pieces::Piece;
use tal_tree::{Program, Target};

/// Puts in the place of a part what it consists of.
fn take<'a>(
    program: &'a Program,
    locals: &'a [Ident],
    part: Part<'a>,
    list: &mut WorkList<'a>,
) -> Result<(), NoMemory>
    ensures pieces { OnOk result (pieces_left program.now locals.now list.new.works.items
        ≡ part_pieces program.now locals.now part.entry (pieces_left program.now locals.now list.old.works.items)) }
    ensures less { OnOk result (work_left list.new.works.items
        < part_weight part.entry + work_left list.old.works.items) }
{
    match part {
        Part::Value(rank, expr) => take_value(program, locals, rank, expr, list)?,
        Part::Spot(spot) => take_spot(program, locals, spot, list)?,
        Part::Test(rank, cond) => take_test(program, locals, rank, cond, list)?,
        Part::Arguments(exprs) => take_arguments(program, locals, exprs, list)?,
        Part::Values(exprs) => take_values(program, locals, exprs, list)?,
        Part::What(what) => take_what(program, locals, what, list)?,
        Part::Step(step) => take_step(program, locals, step, list)?,
        Part::Inner(statements) => take_inner(program, locals, statements, list)?,
        Part::Statements(statements) => take_statements(program, locals, statements, list)?,
        Part::Body(statements) => take_body(program, locals, statements, list)?,
        Part::Checkpoint(items, files) => take_checkpoint(program, locals, items, files, list)?,
        Part::Kept(items) => take_kept(program, locals, items, list)?,
        Part::Files(files) => take_files(program, locals, files, list)?,
        Part::Parameters(names) => take_parameters(program, locals, names, list)?,
        Part::Names(names) => take_names(program, locals, names, list)?,
        Part::Locals(names) => take_locals(program, locals, names, list)?,
        Part::Items(items) => take_items(program, locals, items, list)?,
        Part::Procedures(procedures) => take_procedures(program, locals, procedures, list)?,
        Part::Main(procedures) => take_main(program, locals, procedures, list)?,
    }
    Ok(())
}

fn target_piece(target: &Target) -> Piece
    ensures { result ≡ target_piece target.now }
{
    match target {
        Target::Receive => Piece::Receive,
        Target::Process(name) => Piece::Process(*name),
    }
}

/// Does all that is to be done.
fn write_all<'a>(
    program: &'a Program,
    list: &mut WorkList<'a>,
    page: &mut Page,
) -> Result<(), NoMemory>
    ensures { OnOk result (page.new ≡ lay page.old (pieces_left program.now [] list.old.works.items)) }
{
    let mut locals: &'a [Ident] = &[];
    while let Some(work) = list.pop() {
        match work {
            Work::Word(word) => page.put(&Piece::Keyword(word))?,
            Work::Optional(wanted, word) => {
                if wanted {
                    page.put(&Piece::Keyword(word))?;
                }
            }
            Work::Sign(sign) => page.put(&Piece::Symbol(sign))?,
            Work::System(system) => page.put(&Piece::System(system))?,
            Work::Number(number) => page.put(&Piece::Number(number))?,
            Work::Target(target) => page.put(&target_piece(target))?,
            Work::Name(None) => {}
            Work::Name(Some(name)) => page.put(&Piece::Name(*name))?,
            Work::Enter(inner) => locals = inner,
            Work::Part(part) => take(program, locals, part, list)?,
        }
    }
    Ok(())
}

/// The pieces of a program, laid out.
fn lay_program(alloc: Global, program: &Program) -> Result<List<u8>, NoMemory>
    ensures { IfOk result (λ bytes. bytes ≡ text_of_pieces (program_pieces program.now)) }
{
    let procedures = program.procedures.as_slice();
    let main = usize::from(program.main);
    let mut list = WorkList::new(alloc);
    list.put(&[
        Work::Part(Part::Items(program.items.as_slice())),
        Work::Part(Part::Procedures(front(procedures, main))),
        Work::Part(Part::Main(back(procedures, main))),
    ])?;
    let mut page = Page::new(alloc);
    write_all(program, &mut list, &mut page)?;
    page.into_text()
}

/// The text of a program: one declaration a line, without comments and LITERALs. It reads back as the same program, but
/// for the lines of its statements.
pub fn print_program(alloc: Global, program: &Program) -> Result<List<u8>, NoMemory>
    ensures text { IfOk result (λ bytes. bytes ≡ text_of_pieces (program_pieces program.now)) }
    ensures again { IfOk result (λ bytes. (source : Items ℕ) → Reads source program.now
        → ReadsAgain bytes program.now) }
{
    lay_program(alloc, program)
}
