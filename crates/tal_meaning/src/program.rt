ghost use Rattle.std.specs.Prelude.{◌≡◌, [], ◌∷◌, ◌++◌, min, length, OnOk, IfOk};
ghost use Rattle.tal_rules.specs.tal_declarations.specs.Headings.{locals_of};
ghost use Rattle.tal_rules.specs.Texts.{body_after, after_procedure, first_progress};
ghost use Rattle.tal_syntax.specs.Seen.{seen_heading, seen_locals, seen_statement, seen_row, seen_procedure};
ghost use Rattle.tal_syntax.specs.Seen.{seen_procedures, seen_text};
ghost use Rattle.tal_meaning.specs.Judged.{Judged};
ghost use Rattle.tal_meaning.specs.Programs.{shape_by, items_with, texts_of, procedure_with, body_statements};
ghost use Rattle.tal_meaning.specs.Programs.{tree_of_procedure, trees_of, program_by};
ghost use Rattle.tal_tree.specs.gd_words.specs.declared.limits.TheConstants.{MOST_LOCALS};

use crate::statement::{push_row, push_statement};
use std::alloc::Global;
use tal_names::least::answer_of;
use tal_names::names::Names;
use tal_names::scope::{Named, Scope};
use tal_rules::call::file_number;
use tal_rules::text::{Tables, enter, entered, first_progress, judge_text, passed};
use tal_rules::walk::{Progress, Walk};
use tal_rules::{does_give, locals_of, parameters_of};
use tal_syntax::{Next, Statement, Text};
use tal_tree::{Ident, Item, List, MOST_LOCALS, NoMemory, Procedure, Program, Shape, TalFault};

/// The shape of an item, which is that of a file where an OPEN names it.
fn shape_by(declared: Shape, file: Option<u8>) -> Shape
    ensures { result ≡ shape_by declared file }
{
    match file {
        None => declared,
        Some(number) => Shape::File(number),
    }
}

/// The items of a program, of which some are the variables of files.
fn items_with(alloc: Global, files: &Names, items: &[Item]) -> Result<List<Item>, NoMemory>
    ensures { IfOk result (λ all. all ≡ items_with files.now items.now) }
{
    let mut all = List::new(alloc);
    for item in items {
        all.push(Item {
            name: item.name,
            shape: shape_by(item.shape, file_number(files.meaning(item.name))),
        })?;
    }
    Ok(all)
}

/// Puts the names alone after those before.
fn push_texts(all: &mut List<Ident>, names: &[Named]) -> Result<(), NoMemory>
    ensures { OnOk result (all.new ≡ all.old ++ texts_of names.now) }
{
    for named in names {
        all.push(named.name)?;
    }
    Ok(())
}

/// The names of parameters and then of the other locals.
#[tactic(auto, using(crate::proofs::Built::texts_append))]
fn texts_of(alloc: Global, parameters: &[Named], inner: &[Named]) -> Result<List<Ident>, NoMemory>
    ensures { IfOk result (λ all. all ≡ texts_of (parameters.now ++ inner.now)) }
{
    let mut all = List::new(alloc);
    push_texts(&mut all, parameters)?;
    push_texts(&mut all, inner)?;
    Ok(all)
}

/// How many parameters a procedure has; those past the limit play no part.
fn count_of(parameters: &[Named]) -> u8
    ensures { result ≡ min MOST_LOCALS (length parameters.now) }
{
    parameters.len().min(MOST_LOCALS) as u8
}

/// A procedure with the statements of its body.
fn procedure_with(
    alloc: Global,
    procedure: &tal_syntax::Procedure,
    body: List<tal_tree::Statement>,
) -> Result<Procedure, NoMemory>
    ensures { IfOk result (λ p. p ≡ procedure_with (seen_heading procedure.now.heading)
        (seen_locals procedure.now.inner) body) }
{
    let heading = &procedure.heading;
    let parameters = parameters_of(alloc, &heading.parameters)?;
    let inner = locals_of(alloc, procedure.inner.as_slice())?;
    let locals = texts_of(alloc, parameters.as_slice(), inner.as_slice())?;
    Ok(Procedure {
        name: heading.name,
        gives: does_give(heading.gives),
        parameters: count_of(parameters.as_slice()),
        locals,
        body,
    })
}

/// Puts the statements of a body after those before, and answers what stands before the next body.
fn push_body(
    alloc: Global,
    scope: &Scope,
    walk: Walk,
    first: &Statement,
    more: &[Next],
    all: &mut List<tal_tree::Statement>,
) -> Result<Walk, NoMemory>
    ensures walk { IfOk result (λ w. w ≡ body_after scope.now walk (seen_statement first.now) (seen_row more.now)) }
    ensures statements { OnOk result (all.new
        ≡ all.old ++ body_statements scope.now walk (seen_statement first.now) (seen_row more.now)) }
{
    let inside = push_statement(first, alloc, scope, walk, all)?;
    let next = push_row(more, alloc, scope, inside, all)?;
    Ok(next)
}

/// Puts a procedure after those before, and answers what stands before the next one.
fn push_procedure(
    alloc: Global,
    scope: &mut Scope,
    progress: Progress,
    procedure: &tal_syntax::Procedure,
    all: &mut List<Procedure>,
) -> Result<Progress, NoMemory>
    ensures progress { IfOk result (λ p. p ≡ after_procedure scope.old.globals scope.old.files progress
        (seen_procedure procedure.now)) }
    ensures procedures { OnOk result (all.new
        ≡ all.old ++ tree_of_procedure scope.old.globals scope.old.files progress (seen_procedure procedure.now) ∷ []) }
    ensures globals { OnOk result (scope.new.globals ≡ scope.old.globals) }
    ensures files { OnOk result (scope.new.files ≡ scope.old.files) }
{
    enter(alloc, scope, progress.count, procedure)?;
    let before = entered(progress, &procedure.heading);
    let mut body = List::new(alloc);
    let more = procedure.more.as_slice();
    let next = push_body(alloc, scope, before, &procedure.first, more, &mut body)?;
    let tree = procedure_with(alloc, procedure, body)?;
    all.push(tree)?;
    Ok(passed(progress, &procedure.heading, next))
}

/// The procedures of a program.
fn trees_of(
    alloc: Global,
    scope: &mut Scope,
    procedures: &[tal_syntax::Procedure],
) -> Result<List<Procedure>, NoMemory>
    ensures { IfOk result (λ all. all ≡ trees_of scope.old.globals scope.old.files first_progress
        (seen_procedures procedures.now)) }
{
    let mut all = List::new(alloc);
    let mut progress = first_progress();
    for procedure in procedures {
        progress = push_procedure(alloc, scope, progress, procedure, &mut all)?;
    }
    Ok(all)
}

/// The program that a judged text stands for.
fn program_of(
    alloc: Global,
    tables: Tables,
    procedures: &[tal_syntax::Procedure],
) -> Result<Program, NoMemory>
    ensures { IfOk result (λ p. p ≡ program_by tables.items tables.main tables.scope.globals
        (record { names = tables.scope.files; uses = tables.uses }) (seen_procedures procedures.now)) }
{
    let Tables {
        least: _,
        items,
        main,
        scope,
        uses,
    } = tables;
    let mut scope = scope;
    let items = items_with(alloc, &scope.files, items.as_slice())?;
    let procedures = trees_of(alloc, &mut scope, procedures)?;
    Ok(Program {
        items,
        files: uses,
        procedures,
        main: main.unwrap_or(0),
    })
}

/// The program of a text, or the least of the text's faults.
pub fn tree(alloc: Global, text: &Text) -> Result<Program, TalFault>
    ensures { Judged (seen_text text.now) result }
{
    let tables = match judge_text(alloc, text) {
        Ok(tables) => tables,
        Err(memory) => return Err(TalFault::NoMemory(memory)),
    };
    match tables.least {
        Some(fault) => Err(answer_of(fault)),
        None => match program_of(alloc, tables, text.procedures.as_slice()) {
            Ok(program) => Ok(program),
            Err(memory) => Err(TalFault::NoMemory(memory)),
        },
    }
}
