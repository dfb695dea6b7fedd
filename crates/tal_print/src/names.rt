ghost use Rattle.std.specs.Prelude.{◌≡◌};
ghost use Rattle.std.specs.List.{position};
ghost use Rattle.std.specs.Option.{option_copied};
ghost use Rattle.tal_tree.specs.Targets.{receives};
ghost use Rattle.tal_pieces.specs.Printed.Names.{file_name, item_name, procedure_name, receive_name, variable_name};

use gd_words::Ident;
use tal_tree::{FileUse, Program, Target, Variable};

/// The name of an item.
pub fn item_name(program: &Program, item: u16) -> Option<&Ident>
    ensures { option_copied result ≡ item_name program.now item }
{
    let item = program.items.get(usize::from(item))?;
    Some(&item.name)
}

/// The name of a variable in a procedure with these locals.
pub fn variable_name<'a>(
    program: &'a Program,
    locals: &'a [Ident],
    variable: Variable,
) -> Option<&'a Ident>
    ensures { option_copied result ≡ variable_name program.now locals.now variable }
{
    match variable {
        Variable::Local(place) => locals.get(usize::from(place)),
        Variable::Simple(item) => item_name(program, item),
    }
}

/// The name of a procedure.
pub fn procedure_name(program: &Program, number: u16) -> Option<&Ident>
    ensures { option_copied result ≡ procedure_name program.now number }
{
    let procedure = program.procedures.get(usize::from(number))?;
    Some(&procedure.name)
}

fn opened_name(program: &Program, number: usize) -> Option<&Ident>
    ensures { option_copied result ≡ file_name program.now number }
{
    let opened = program.files.get(number)?;
    item_name(program, opened.item)
}

/// The name of a file's variable.
pub fn file_name(program: &Program, number: u8) -> Option<&Ident>
    ensures { option_copied result ≡ file_name program.now number }
{
    opened_name(program, usize::from(number))
}

fn receives(opened: &FileUse) -> bool
    ensures { result ≡ receives opened.now }
{
    match &opened.target {
        Target::Receive => true,
        Target::Process(_) => false,
    }
}

fn first_receiving(files: &[FileUse]) -> Option<usize>
    ensures { result ≡ position receives files.now }
{
    files.iter().position(|opened| receives(opened))
}

/// The name of the first variable that is opened to `$RECEIVE`.
pub fn receive_name(program: &Program) -> Option<&Ident>
    ensures { option_copied result ≡ receive_name program.now }
{
    let number = first_receiving(program.files.as_slice())?;
    opened_name(program, number)
}
