ghost use Rattle.std.specs.Prelude.{◌≡◌, [], ◌++◌, OnOk, IfOk, option_map};
ghost use Rattle.tal_names.specs.declared.system.System.TheVariants as system;
ghost use Rattle.std.specs.Option.{option_copied};
ghost use Rattle.tal_names.specs.Places.{name_of_argument, arguments_of, further_arguments};
ghost use Rattle.tal_meaning.specs.Calls.{value_of_argument, values_of_arguments, values_of, value_at, meaning_by};
ghost use Rattle.tal_meaning.specs.Calls.{meaning_at, item_by, variable_by, file_by, procedure_by, with_item};
ghost use Rattle.tal_meaning.specs.Calls.{with_process, items_named, files_named, system_what, call_what};
ghost use Rattle.tal_syntax.specs.Seen.{seen_argument, seen_further, seen_arguments, seen_values};

use crate::expression::value_of_expr;
use std::alloc::Global;
use tal_names::alone::{argument, name_of_argument};
use tal_names::lookup::meaning_of;
use tal_names::meaning::Meaning;
use tal_names::scope::{Named, Scope};
use tal_names::system::System;
use tal_rules::call::file_number;
use tal_syntax::{Argument, Arguments, NextArgument, NextValue};
use tal_tree::{Expr, Ident, List, NoMemory, Variable, What};

/// The value of an argument.
fn value_of_argument(alloc: Global, scope: &Scope, argument: &Argument) -> Result<Expr, NoMemory>
    ensures { IfOk result (λ e. e ≡ value_of_argument scope.now (seen_argument argument.now)) }
{
    match argument {
        Argument::Value(value) => value_of_expr(value, alloc, scope),
        Argument::Receive(_) => Ok(Expr::Number(0)),
        Argument::Process(_, _) => Ok(Expr::Number(0)),
        Argument::Quoted(_) => Ok(Expr::Number(0)),
    }
}

fn push_further(
    alloc: Global,
    scope: &Scope,
    values: &mut List<Expr>,
    more: &[NextArgument],
) -> Result<(), NoMemory>
    ensures { OnOk result (values.new ≡ values.old
        ++ values_of_arguments scope.now (further_arguments (seen_further more.now))) }
{
    for next in more {
        let value = value_of_argument(alloc, scope, &next.argument)?;
        values.push(value)?;
    }
    Ok(())
}

/// The values of the arguments of a procedure.
fn values_of_arguments(
    alloc: Global,
    scope: &Scope,
    arguments: &Arguments,
) -> Result<List<Expr>, NoMemory>
    ensures { IfOk result (λ v. v ≡ values_of_arguments scope.now (arguments_of (seen_arguments arguments.now))) }
{
    let mut values = List::new(alloc);
    match arguments {
        Arguments::Absent => Ok(values),
        Arguments::Listed(list) => {
            let first = value_of_argument(alloc, scope, &list.first)?;
            values.push(first)?;
            push_further(alloc, scope, &mut values, list.more.as_slice())?;
            Ok(values)
        }
    }
}

/// Puts the further values of a call on a right side after those before.
pub fn push_values(
    alloc: Global,
    scope: &Scope,
    values: &mut List<Expr>,
    more: &[NextValue],
) -> Result<(), NoMemory>
    ensures { OnOk result (values.new ≡ values.old ++ values_of scope.now (seen_values more.now)) }
{
    for next in more {
        let value = value_of_expr(&next.value, alloc, scope)?;
        values.push(value)?;
    }
    Ok(())
}

fn value_at(alloc: Global, scope: &Scope, argument: Option<&Argument>) -> Result<Expr, NoMemory>
    ensures { IfOk result (λ e. e ≡ value_at scope.now (option_map seen_argument (option_copied argument.entry))) }
{
    match argument {
        None => Ok(Expr::Number(0)),
        Some(argument) => value_of_argument(alloc, scope, argument),
    }
}

/// What a name that may be missing stands for.
fn meaning_by(scope: &Scope, named: Option<Named>) -> Option<Meaning>
    ensures { result ≡ meaning_by scope.now named }
{
    match named {
        None => None,
        Some(named) => meaning_of(scope, named.name),
    }
}

fn meaning_at(scope: &Scope, argument: Option<&Argument>) -> Option<Meaning>
    ensures { result ≡ meaning_at scope.now (option_map seen_argument (option_copied argument.entry)) }
{
    match argument {
        None => None,
        Some(argument) => meaning_by(scope, name_of_argument(argument)),
    }
}

fn item_by(found: Option<Meaning>) -> u16
    ensures { result ≡ item_by found }
{
    match found {
        Some(Meaning::Simple(item)) => item,
        Some(Meaning::Array(item)) => item,
        _ => 0,
    }
}

/// The variable that a name stands for.
pub fn variable_by(found: Option<Meaning>) -> Variable
    ensures { result ≡ variable_by found }
{
    match found {
        Some(Meaning::Local(number)) => Variable::Local(number),
        Some(Meaning::Simple(item)) => Variable::Simple(item),
        _ => Variable::Simple(0),
    }
}

fn file_by(found: Option<Meaning>) -> u8
    ensures { result ≡ file_by found }
{
    file_number(found).unwrap_or(0)
}

/// The procedure that a name stands for.
pub fn procedure_by(found: Option<Meaning>) -> u16
    ensures { result ≡ procedure_by found }
{
    match found {
        Some(
            Meaning::Procedure {
                number,
                gives: _,
                parameters: _,
            },
        ) => number,
        _ => 0,
    }
}

/// Puts what an argument of CHECKPOINT names after what those before name.
fn push_mention(
    scope: &Scope,
    items: &mut List<u16>,
    files: &mut List<u8>,
    argument: &Argument,
) -> Result<(), NoMemory>
    ensures items { OnOk result (items.new ≡ items.old
        ++ with_item (meaning_by scope.now (name_of_argument (seen_argument argument.now))) []) }
    ensures files { OnOk result (files.new ≡ files.old
        ++ with_process (meaning_by scope.now (name_of_argument (seen_argument argument.now))) []) }
{
    match meaning_by(scope, name_of_argument(argument)) {
        Some(Meaning::Simple(item)) => items.push(item),
        Some(Meaning::Array(item)) => items.push(item),
        Some(Meaning::ProcessFile { item: _, number }) => files.push(number),
        _ => Ok(()),
    }
}

fn push_mentions(
    scope: &Scope,
    items: &mut List<u16>,
    files: &mut List<u8>,
    more: &[NextArgument],
) -> Result<(), NoMemory>
    ensures items { OnOk result (items.new ≡ items.old
        ++ items_named scope.now (further_arguments (seen_further more.now))) }
    ensures files { OnOk result (files.new ≡ files.old
        ++ files_named scope.now (further_arguments (seen_further more.now))) }
{
    for next in more {
        push_mention(scope, items, files, &next.argument)?;
    }
    Ok(())
}

fn checkpoint(alloc: Global, scope: &Scope, arguments: &Arguments) -> Result<What, NoMemory>
    ensures { IfOk result (λ w. w ≡ system_what scope.now (arguments_of (seen_arguments arguments.now))
        system.Checkpoint) }
{
    let mut items = List::new(alloc);
    let mut files = List::new(alloc);
    match arguments {
        Arguments::Absent => Ok(What::Checkpoint { items, files }),
        Arguments::Listed(list) => {
            push_mention(scope, &mut items, &mut files, &list.first)?;
            push_mentions(scope, &mut items, &mut files, list.more.as_slice())?;
            Ok(What::Checkpoint { items, files })
        }
    }
}

/// What a call of the system stands for.
fn system_what(
    alloc: Global,
    scope: &Scope,
    arguments: &Arguments,
    system: System,
) -> Result<What, NoMemory>
    ensures { IfOk result (λ w. w ≡ system_what scope.now (arguments_of (seen_arguments arguments.now)) system) }
{
    match system {
        System::CheckMonitor => Ok(What::CheckMonitor),
        System::Checkpoint => checkpoint(alloc, scope, arguments),
        System::Open => Ok(What::Open(file_by(meaning_at(scope, argument(arguments, 1))))),
        System::ReadUpdate => read_update(alloc, scope, arguments),
        System::Reply => reply(alloc, scope, arguments),
        System::Stop => Ok(What::Stop),
        System::WriteRead => write_read(alloc, scope, arguments),
    }
}

fn read_update(alloc: Global, scope: &Scope, arguments: &Arguments) -> Result<What, NoMemory>
    ensures { IfOk result (λ w. w ≡ system_what scope.now (arguments_of (seen_arguments arguments.now))
        system.ReadUpdate) }
{
    let buffer = item_by(meaning_at(scope, argument(arguments, 1)));
    let most = value_at(alloc, scope, argument(arguments, 2))?;
    let got = variable_by(meaning_at(scope, argument(arguments, 3)));
    Ok(What::ReadUpdate { buffer, most, got })
}

fn reply(alloc: Global, scope: &Scope, arguments: &Arguments) -> Result<What, NoMemory>
    ensures { IfOk result (λ w. w ≡ system_what scope.now (arguments_of (seen_arguments arguments.now)) system.Reply) }
{
    let buffer = item_by(meaning_at(scope, argument(arguments, 0)));
    let count = value_at(alloc, scope, argument(arguments, 1))?;
    Ok(What::Reply { buffer, count })
}

fn write_read(alloc: Global, scope: &Scope, arguments: &Arguments) -> Result<What, NoMemory>
    ensures { IfOk result (λ w. w ≡ system_what scope.now (arguments_of (seen_arguments arguments.now))
        system.WriteRead) }
{
    let file = file_by(meaning_at(scope, argument(arguments, 0)));
    let buffer = item_by(meaning_at(scope, argument(arguments, 1)));
    let send = value_at(alloc, scope, argument(arguments, 2))?;
    let room = value_at(alloc, scope, argument(arguments, 3))?;
    let got = variable_by(meaning_at(scope, argument(arguments, 4)));
    Ok(What::WriteRead {
        file,
        buffer,
        send,
        room,
        got,
    })
}

/// What a CALL stands for.
pub fn call_what(
    alloc: Global,
    scope: &Scope,
    name: Ident,
    arguments: &Arguments,
    system: Option<System>,
) -> Result<What, NoMemory>
    ensures { IfOk result (λ w. w ≡ call_what scope.now name (arguments_of (seen_arguments arguments.now)) system) }
{
    match system {
        Some(system) => system_what(alloc, scope, arguments, system),
        None => {
            let arguments = values_of_arguments(alloc, scope, arguments)?;
            Ok(What::Call {
                procedure: procedure_by(meaning_of(scope, name)),
                arguments,
            })
        }
    }
}
