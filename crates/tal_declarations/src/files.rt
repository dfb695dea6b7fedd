ghost use Rattle.std.specs.Prelude.{◌≡◌, OnOk, IfOk, option_map};
ghost use Rattle.std.specs.Option.{option_copied};
ghost use Rattle.tal_declarations.specs.Files.{named_in, declared_before, is_receive, target_of, file_by, depth_of};
ghost use Rattle.tal_declarations.specs.Files.{with_file, simple_by, simple_global, depth_value, opened_as, opened_by};
ghost use Rattle.tal_declarations.specs.Files.{opened, call_files, statement_files, else_files, row_files};
ghost use Rattle.tal_names.specs.Places.{arguments_of};
ghost use Rattle.tal_names.specs.Systems.{system_of};
ghost use Rattle.tal_syntax.specs.Seen.{seen_atom, seen_argument, seen_arguments, seen_statement, seen_otherwise};
ghost use Rattle.tal_syntax.specs.Seen.{seen_row};

use crate::globals::{atom_of, constant_value};
use crate::table::Files;
use gd_words::limits::{MOST_DEPTH, MOST_FILES};
use gd_words::{Ident, NoMemory};
use tal_names::alone::{argument, argument_count, constant_of, name_of_argument};
use tal_names::lookup::meaning_of;
use tal_names::meaning::Meaning;
use tal_names::scope::Scope;
use tal_names::system::{System, system_of};
use tal_syntax::{Argument, Arguments, Atom, Next, Otherwise, Statement};
use tal_tree::{FileUse, Target};

/// What a found name means to the procedure of this number: a procedure that stands after it isn't known to it.
fn declared_before(number: u16, found: Option<Meaning>) -> Option<Meaning>
    ensures { result ≡ declared_before number found }
{
    match found {
        None => None,
        Some(meaning) => match meaning {
            Meaning::Procedure {
                number: other,
                gives,
                parameters,
            } => {
                if other <= number {
                    Some(Meaning::Procedure {
                        number: other,
                        gives,
                        parameters,
                    })
                } else {
                    None
                }
            }
            _ => Some(meaning),
        },
    }
}

/// What the name of a constant stands for in a body.
pub fn named_in(scope: &Scope, atom: &Atom) -> Option<Meaning>
    ensures { result ≡ named_in scope.now (seen_atom atom.now) }
{
    match atom {
        Atom::Number(_, _) => None,
        Atom::Name(_, name) => declared_before(scope.number, meaning_of(scope, *name)),
    }
}

/// Whether an argument is the string `$RECEIVE`.
pub fn is_receive(argument: &Argument) -> bool
    ensures { result ≡ is_receive (seen_argument argument.now) }
{
    match argument {
        Argument::Receive(_) => true,
        _ => false,
    }
}

/// What a string opens a file to.
fn target_of(argument: &Argument) -> Target
    ensures { result ≡ target_of (seen_argument argument.now) }
{
    match argument {
        Argument::Process(_, name) => Target::Process(*name),
        _ => Target::Receive,
    }
}

/// The variable of a file by its OPEN's string.
fn file_by(argument: &Argument, item: u16, number: u8) -> Meaning
    ensures { result ≡ file_by (seen_argument argument.now) item number }
{
    match argument {
        Argument::Receive(_) => Meaning::ReceiveFile { item, number },
        Argument::Process(_, _) => Meaning::ProcessFile { item, number },
        Argument::Quoted(_) => Meaning::StrayFile { item, number },
        Argument::Value(_) => Meaning::StrayFile { item, number },
    }
}

/// The value of an OPEN's depth.
pub fn depth_value(scope: &Scope, argument: &Argument) -> Option<i16>
    ensures { result ≡ depth_value scope.now (seen_argument argument.now) }
{
    match constant_of(argument) {
        None => None,
        Some(constant) => constant_value(&constant, named_in(scope, atom_of(&constant))),
    }
}

/// The depth of a file.
fn depth_of(value: Option<i16>) -> u8
    ensures { result ≡ depth_of value }
{
    match value {
        None => 1,
        Some(value) => {
            if 1 <= value && value <= i16::from(MOST_DEPTH) {
                value as u8
            } else {
                1
            }
        }
    }
}

/// Makes a name the variable of a file, where it isn't one.
fn add_file(
    files: &mut Files,
    name: Ident,
    item: u16,
    string: &Argument,
    depth: u8,
) -> Result<(), NoMemory>
    ensures { OnOk result (files.new ≡ with_file files.old name item (seen_argument string.now) depth) }
{
    if files.names.is_declared(name) {
        return Ok(());
    }
    let number = files.uses.len().min(MOST_FILES as usize) as u8;
    files.names.declare(name, file_by(string, item, number))?;
    files.uses.push(FileUse {
        item,
        target: target_of(string),
        depth,
    })?;
    Ok(())
}

/// The item of the simple global that a name is, where no local hides it.
fn simple_global(scope: &Scope, name: Ident) -> Option<u16>
    ensures { result ≡ simple_global scope.now name }
{
    if scope.locals.is_declared(name) {
        return None;
    }
    match scope.globals.meaning(name) {
        Some(Meaning::Simple(item)) => Some(item),
        _ => None,
    }
}

/// Makes the variable that an OPEN with three arguments names that of a file.
fn open(scope: &Scope, files: &mut Files, arguments: &Arguments) -> Result<(), NoMemory>
    ensures { OnOk result (files.new ≡ opened scope.now files.old (arguments_of (seen_arguments arguments.now))) }
{
    if argument_count(arguments) != 3 {
        return Ok(());
    }
    match argument(arguments, 0) {
        None => Ok(()),
        Some(string) => match argument(arguments, 1) {
            None => Ok(()),
            Some(variable) => match argument(arguments, 2) {
                None => Ok(()),
                Some(depth) => open_file(scope, files, string, variable, depth),
            },
        },
    }
}

/// Makes a variable that of a file, where it is a simple global.
fn open_file(
    scope: &Scope,
    files: &mut Files,
    string: &Argument,
    variable: &Argument,
    depth: &Argument,
) -> Result<(), NoMemory>
    ensures { OnOk result (files.new ≡ opened_by scope.now files.old (seen_argument string.now)
        (seen_argument variable.now) (seen_argument depth.now)) }
{
    match name_of_argument(variable) {
        None => Ok(()),
        Some(named) => open_named(scope, files, string, named.name, depth),
    }
}

fn open_named(
    scope: &Scope,
    files: &mut Files,
    string: &Argument,
    name: Ident,
    depth: &Argument,
) -> Result<(), NoMemory>
    ensures { OnOk result (files.new ≡ opened_as scope.now files.old (seen_argument string.now)
        (seen_argument depth.now) name (simple_global scope.now name)) }
{
    match simple_global(scope, name) {
        None => Ok(()),
        Some(item) => {
            let depth = depth_of(depth_value(scope, depth));
            add_file(files, name, item, string, depth)
        }
    }
}

/// Makes the variables that the OPENs of a statement name those of files.
#[cycle(files)]
pub fn statement_files(
    statement: &Statement,
    scope: &Scope,
    files: &mut Files,
) -> Result<(), NoMemory>
    ensures { OnOk result (files.new ≡ statement_files scope.now files.old (seen_statement statement.now)) }
{
    match statement {
        Statement::Nothing => Ok(()),
        Statement::Block(_, first, more, _) => {
            statement_files(first.get(), scope, files)?;
            row_files(more.as_slice(), scope, files)
        }
        Statement::If(_, body, otherwise) => {
            statement_files(body.get(), scope, files)?;
            else_files(otherwise, scope, files)
        }
        Statement::While(_, body) => statement_files(body.get(), scope, files),
        Statement::For(_, body) => statement_files(body.get(), scope, files),
        Statement::DoUntil(body, _) => statement_files(body.get(), scope, files),
        Statement::Call(call) => {
            let call = call.get();
            call_files(scope, files, call.name, &call.arguments)
        }
        Statement::Return(_) => Ok(()),
        Statement::Assign(_) => Ok(()),
        Statement::AssignCall(_) => Ok(()),
    }
}

#[cycle(files)]
fn else_files(otherwise: &Otherwise, scope: &Scope, files: &mut Files) -> Result<(), NoMemory>
    ensures { OnOk result (files.new ≡ else_files scope.now files.old (seen_otherwise otherwise.now)) }
{
    match otherwise {
        Otherwise::Absent => Ok(()),
        Otherwise::Else(_, body) => statement_files(body.get(), scope, files),
    }
}

/// Makes the variables that the OPENs of a row of statements name those of files.
#[cycle(files)]
pub fn row_files(more: &[Next], scope: &Scope, files: &mut Files) -> Result<(), NoMemory>
    ensures { OnOk result (files.new ≡ row_files scope.now files.old (seen_row more.now)) }
{
    for next in more {
        statement_files(&next.statement, scope, files)?;
    }
    Ok(())
}

/// Makes the variable that a call names that of a file, where it is an OPEN.
fn call_files(
    scope: &Scope,
    files: &mut Files,
    name: Ident,
    arguments: &Arguments,
) -> Result<(), NoMemory>
    ensures { OnOk result (files.new ≡ call_files scope.now files.old (arguments_of (seen_arguments arguments.now))
        (system_of name)) }
{
    match system_of(name) {
        Some(System::Open) => open(scope, files, arguments),
        _ => Ok(()),
    }
}
