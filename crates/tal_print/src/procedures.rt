ghost use Rattle.std.specs.Prelude.{◌≡◌, ◌<◌, ◌+◌, [], ◌∷◌, drop, take, OnOk};
ghost use Rattle.std.specs.Option.{option_copied};
ghost use Rattle.tal_pieces.specs.Printed.Procedures.{items_pieces, locals_pieces, main_pieces, more_names};
ghost use Rattle.tal_pieces.specs.Printed.Procedures.{parameters_pieces, procedure_pieces, procedures_pieces};
ghost use Rattle.tal_print.specs.Work.{pieces_left, work_left};
ghost use Rattle.tal_pieces.specs.Weights.{items_weight, list_weight, procedure_weight, procedures_weight};

use crate::work::{Part, Work, WorkList};
use gd_words::{Ident, NoMemory};
use tal_pieces::{Keyword, Symbol};
use tal_tree::{Item, Procedure, Program, Shape};

/// The first of these, at most so many.
pub fn front<T>(items: &[T], count: usize) -> &[T]
    ensures { result.now ≡ take count items.now }
{
    if count < items.len() {
        let (front, _) = items.split_at(count);
        front
    } else {
        items
    }
}

/// What stands after so many of these.
pub fn back<T>(items: &[T], count: usize) -> &[T]
    ensures { result.now ≡ drop count items.now }
{
    if count < items.len() {
        let (_, back) = items.split_at(count);
        back
    } else {
        &[]
    }
}

/// Takes declarations of globals apart.
pub fn take_items<'a>(
    program: &'a Program,
    locals: &'a [Ident],
    items: &'a [Item],
    list: &mut WorkList<'a>,
) -> Result<(), NoMemory>
    ensures pieces { OnOk result (pieces_left program.now locals.now list.new.works.items
        ≡ items_pieces items.now (pieces_left program.now locals.now list.old.works.items)) }
    ensures less { OnOk result (work_left list.new.works.items
        < items_weight items.now + work_left list.old.works.items) }
{
    if let [item, rest @ ..] = items {
        match item.shape {
            Shape::Array { low, high } => list.put(&[
                Work::Word(Keyword::Int),
                Work::Name(Some(&item.name)),
                Work::Sign(Symbol::OpenIndex),
                Work::Number(low),
                Work::Sign(Symbol::Colon),
                Work::Number(high),
                Work::Sign(Symbol::CloseIndex),
                Work::Sign(Symbol::Semicolon),
                Work::Part(Part::Items(rest)),
            ])?,
            Shape::Simple | Shape::File(_) => list.put(&[
                Work::Word(Keyword::Int),
                Work::Name(Some(&item.name)),
                Work::Sign(Symbol::Semicolon),
                Work::Part(Part::Items(rest)),
            ])?,
        }
    }
    Ok(())
}

/// Takes more names of a list apart.
pub fn take_names<'a>(
    program: &'a Program,
    locals: &'a [Ident],
    names: &'a [Ident],
    list: &mut WorkList<'a>,
) -> Result<(), NoMemory>
    ensures pieces { OnOk result (pieces_left program.now locals.now list.new.works.items
        ≡ more_names names.now (pieces_left program.now locals.now list.old.works.items)) }
    ensures less { OnOk result (work_left list.new.works.items
        < list_weight names.now + work_left list.old.works.items) }
{
    if let [name, rest @ ..] = names {
        list.put(&[
            Work::Sign(Symbol::Comma),
            Work::Name(Some(name)),
            Work::Part(Part::Names(rest)),
        ])?;
    }
    Ok(())
}

/// Takes a list of parameters apart.
pub fn take_parameters<'a>(
    program: &'a Program,
    locals: &'a [Ident],
    names: &'a [Ident],
    list: &mut WorkList<'a>,
) -> Result<(), NoMemory>
    ensures pieces { OnOk result (pieces_left program.now locals.now list.new.works.items
        ≡ parameters_pieces names.now (pieces_left program.now locals.now list.old.works.items)) }
    ensures less { OnOk result (work_left list.new.works.items
        < (list_weight names.now + 4) + work_left list.old.works.items) }
{
    if let [name, rest @ ..] = names {
        list.put(&[
            Work::Sign(Symbol::Open),
            Work::Name(Some(name)),
            Work::Part(Part::Names(rest)),
            Work::Sign(Symbol::Close),
        ])?;
    }
    Ok(())
}

/// Takes declarations of locals apart.
pub fn take_locals<'a>(
    program: &'a Program,
    locals: &'a [Ident],
    names: &'a [Ident],
    list: &mut WorkList<'a>,
) -> Result<(), NoMemory>
    ensures pieces { OnOk result (pieces_left program.now locals.now list.new.works.items
        ≡ locals_pieces names.now (pieces_left program.now locals.now list.old.works.items)) }
    ensures less { OnOk result (work_left list.new.works.items
        < list_weight names.now + work_left list.old.works.items) }
{
    if let [name, rest @ ..] = names {
        list.put(&[
            Work::Word(Keyword::Int),
            Work::Name(Some(name)),
            Work::Sign(Symbol::Semicolon),
            Work::Part(Part::Locals(rest)),
        ])?;
    }
    Ok(())
}

#[tactic(auto, using(crate::proofs::Layers::fronts))]
fn take_procedure<'a>(
    program: &'a Program,
    locals: &'a [Ident],
    is_main: bool,
    procedure: &'a Procedure,
    rest: &'a [Procedure],
    list: &mut WorkList<'a>,
) -> Result<(), NoMemory>
    ensures pieces { OnOk result (pieces_left program.now locals.now list.new.works.items
        ≡ procedure_pieces program.now is_main procedure.now
        (procedures_pieces program.now rest.now (pieces_left program.now locals.now list.old.works.items))) }
    ensures less { OnOk result (work_left list.new.works.items
        < procedure_weight procedure.now + procedures_weight rest.now + work_left list.old.works.items) }
{
    let names = procedure.locals.as_slice();
    let parameters = usize::from(procedure.parameters);
    list.put(&[
        Work::Optional(procedure.gives, Keyword::Int),
        Work::Word(Keyword::Proc),
        Work::Name(Some(&procedure.name)),
        Work::Part(Part::Parameters(front(names, parameters))),
        Work::Optional(is_main, Keyword::Main),
        Work::Sign(Symbol::Semicolon),
        Work::Part(Part::Locals(front(names, parameters))),
        Work::Word(Keyword::Begin),
        Work::Part(Part::Locals(back(names, parameters))),
        Work::Enter(names),
        Work::Part(Part::Body(procedure.body.as_slice())),
        Work::Word(Keyword::End),
        Work::Sign(Symbol::Semicolon),
        Work::Enter(locals),
        Work::Part(Part::Procedures(rest)),
    ])?;
    Ok(())
}

/// Takes procedures apart of which none is the main one.
pub fn take_procedures<'a>(
    program: &'a Program,
    locals: &'a [Ident],
    procedures: &'a [Procedure],
    list: &mut WorkList<'a>,
) -> Result<(), NoMemory>
    ensures pieces { OnOk result (pieces_left program.now locals.now list.new.works.items
        ≡ procedures_pieces program.now procedures.now (pieces_left program.now locals.now list.old.works.items)) }
    ensures less { OnOk result (work_left list.new.works.items
        < procedures_weight procedures.now + work_left list.old.works.items) }
{
    if let [procedure, rest @ ..] = procedures {
        take_procedure(program, locals, false, procedure, rest, list)?;
    }
    Ok(())
}

/// Takes procedures apart of which the first is the main one.
pub fn take_main<'a>(
    program: &'a Program,
    locals: &'a [Ident],
    procedures: &'a [Procedure],
    list: &mut WorkList<'a>,
) -> Result<(), NoMemory>
    ensures pieces { OnOk result (pieces_left program.now locals.now list.new.works.items
        ≡ main_pieces program.now procedures.now (pieces_left program.now locals.now list.old.works.items)) }
    ensures less { OnOk result (work_left list.new.works.items
        < procedures_weight procedures.now + work_left list.old.works.items) }
{
    if let [procedure, rest @ ..] = procedures {
        take_procedure(program, locals, true, procedure, rest, list)?;
    }
    Ok(())
}
