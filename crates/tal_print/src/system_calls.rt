ghost use Rattle.std.specs.Prelude.{◌≡◌, ◌<◌, ◌+◌, [], ◌∷◌, slice_get, OnOk, pos};
ghost use Rattle.std.specs.Option.{option_copied};
ghost use Rattle.tal_pieces.specs.Printed.Statements.{open_pieces, read_update_pieces, reply_pieces, return_pieces};
ghost use Rattle.tal_pieces.specs.Printed.Statements.{write_read_pieces};
ghost use Rattle.tal_pieces.specs.declared.piece.Keyword.TheVariants as word;
ghost use Rattle.tal_pieces.specs.declared.piece.Piece.TheVariants as piece;
ghost use Rattle.tal_print.specs.Work.{pieces_left, work_left};
ghost use Rattle.tal_pieces.specs.Weights.{answer_weight, value_weight};

use crate::names::{file_name, item_name, receive_name, variable_name};
use crate::work::{Part, Work, WorkList};
use gd_words::{Ident, NoMemory};
use tal_names::System;
use tal_pieces::{Keyword, Symbol, ValueRank};
use tal_tree::{Expr, Program, Variable};

/// Takes a RETURN apart.
pub fn take_return<'a>(
    program: &'a Program,
    locals: &'a [Ident],
    given: &'a Option<Expr>,
    list: &mut WorkList<'a>,
) -> Result<(), NoMemory>
    ensures pieces { OnOk result (pieces_left program.now locals.now list.new.works.items
        ≡ piece.Keyword word.Return ∷ return_pieces program.now locals.now given.now
        (pieces_left program.now locals.now list.old.works.items)) }
    ensures less { OnOk result (work_left list.new.works.items
        < (answer_weight given.now + 2) + work_left list.old.works.items) }
{
    match given {
        None => list.put(&[Work::Word(Keyword::Return)])?,
        Some(value) => list.put(&[
            Work::Word(Keyword::Return),
            Work::Part(Part::Value(ValueRank::Sum, value)),
        ])?,
    }
    Ok(())
}

/// Takes a READUPDATE apart.
pub fn take_read_update<'a>(
    program: &'a Program,
    locals: &'a [Ident],
    buffer: u16,
    most: &'a Expr,
    got: Variable,
    list: &mut WorkList<'a>,
) -> Result<(), NoMemory>
    ensures pieces { OnOk result (pieces_left program.now locals.now list.new.works.items
        ≡ read_update_pieces program.now locals.now buffer most.now got
        (pieces_left program.now locals.now list.old.works.items)) }
    ensures less { OnOk result (work_left list.new.works.items
        < (value_weight most.now + 20) + work_left list.old.works.items) }
{
    list.put(&[
        Work::Word(Keyword::Call),
        Work::System(System::ReadUpdate),
        Work::Sign(Symbol::Open),
        Work::Name(receive_name(program)),
        Work::Sign(Symbol::Comma),
        Work::Name(item_name(program, buffer)),
        Work::Sign(Symbol::Comma),
        Work::Part(Part::Value(ValueRank::Sum, most)),
        Work::Sign(Symbol::Comma),
        Work::Name(variable_name(program, locals, got)),
        Work::Sign(Symbol::Close),
    ])?;
    Ok(())
}

/// Takes a REPLY apart.
pub fn take_reply<'a>(
    program: &'a Program,
    locals: &'a [Ident],
    buffer: u16,
    count: &'a Expr,
    list: &mut WorkList<'a>,
) -> Result<(), NoMemory>
    ensures pieces { OnOk result (pieces_left program.now locals.now list.new.works.items
        ≡ reply_pieces program.now locals.now buffer count.now
        (pieces_left program.now locals.now list.old.works.items)) }
    ensures less { OnOk result (work_left list.new.works.items
        < (value_weight count.now + 20) + work_left list.old.works.items) }
{
    list.put(&[
        Work::Word(Keyword::Call),
        Work::System(System::Reply),
        Work::Sign(Symbol::Open),
        Work::Name(item_name(program, buffer)),
        Work::Sign(Symbol::Comma),
        Work::Part(Part::Value(ValueRank::Sum, count)),
        Work::Sign(Symbol::Close),
    ])?;
    Ok(())
}

/// Takes a WRITEREAD apart.
pub fn take_write_read<'a>(
    program: &'a Program,
    locals: &'a [Ident],
    file: u8,
    buffer: u16,
    send: &'a Expr,
    room: &'a Expr,
    got: Variable,
    list: &mut WorkList<'a>,
) -> Result<(), NoMemory>
    ensures pieces { OnOk result (pieces_left program.now locals.now list.new.works.items
        ≡ write_read_pieces program.now locals.now file buffer send.now room.now got
        (pieces_left program.now locals.now list.old.works.items)) }
    ensures less { OnOk result (work_left list.new.works.items
        < (value_weight send.now + value_weight room.now + 20) + work_left list.old.works.items) }
{
    list.put(&[
        Work::Word(Keyword::Call),
        Work::System(System::WriteRead),
        Work::Sign(Symbol::Open),
        Work::Name(file_name(program, file)),
        Work::Sign(Symbol::Comma),
        Work::Name(item_name(program, buffer)),
        Work::Sign(Symbol::Comma),
        Work::Part(Part::Value(ValueRank::Sum, send)),
        Work::Sign(Symbol::Comma),
        Work::Part(Part::Value(ValueRank::Sum, room)),
        Work::Sign(Symbol::Comma),
        Work::Name(variable_name(program, locals, got)),
        Work::Sign(Symbol::Close),
    ])?;
    Ok(())
}

/// Takes an OPEN apart.
pub fn take_open<'a>(
    program: &'a Program,
    locals: &'a [Ident],
    file: u8,
    list: &mut WorkList<'a>,
) -> Result<(), NoMemory>
    ensures pieces { OnOk result (pieces_left program.now locals.now list.new.works.items
        ≡ open_pieces program.now (slice_get program.now.files file)
        (pieces_left program.now locals.now list.old.works.items)) }
    ensures less { OnOk result (work_left list.new.works.items < 20 + work_left list.old.works.items) }
{
    if let Some(opened) = program.files.get(usize::from(file)) {
        list.put(&[
            Work::Word(Keyword::Call),
            Work::System(System::Open),
            Work::Sign(Symbol::Open),
            Work::Target(&opened.target),
            Work::Sign(Symbol::Comma),
            Work::Name(item_name(program, opened.item)),
            Work::Sign(Symbol::Comma),
            Work::Number(i16::from(opened.depth)),
            Work::Sign(Symbol::Close),
        ])?;
    }
    Ok(())
}
