ghost use Rattle.std.specs.Prelude.{◌≡◌, [], ◌++◌, OnOk, IfOk, None};
ghost use Rattle.tal_names.specs.Faults.{least};
ghost use Rattle.tal_declarations.specs.Files.{row_files, statement_files};
ghost use Rattle.tal_declarations.specs.Globals.{with_lines, nothing_declared};
ghost use Rattle.tal_declarations.specs.Headings.{with_headings};
ghost use Rattle.tal_rules.specs.Texts.{locals_by, gives_by, scope_of, next_procedure, procedure_files, files_from};
ghost use Rattle.tal_rules.specs.Texts.{is_main_by, has_word_main, name_place, is_main, stage_at, walk_at_entry};
ghost use Rattle.tal_rules.specs.Texts.{lacks_monitor, heading_locals_faults, body_after, body_faults};
ghost use Rattle.tal_rules.specs.Texts.{procedure_faults, progress_after_procedure, after_procedure, procedures_faults};
ghost use Rattle.tal_rules.specs.Texts.{first_progress};
ghost use Rattle.tal_rules.specs.Texts.{headed_after, no_files, main_missing, files_by, bodies_faults, headed_text};
ghost use Rattle.tal_rules.specs.Texts.{faults};
ghost use Rattle.tal_syntax.specs.Seen.{seen_main, seen_heading, seen_locals, seen_statement, seen_row, seen_procedure};
ghost use Rattle.tal_syntax.specs.Seen.{seen_procedures, seen_lines, seen_text};

use crate::statement::{Judged, judge_row, judge_statement};
use crate::walk::{Progress, Stage, Walk};
use std::alloc::Global;
use tal_declarations::files::{row_files, statement_files};
use tal_declarations::globals::{declared_by, nothing_declared};
use tal_declarations::heading::{
    declare_locals, does_give, headed_by, judge_locals, locals_of, parameters_of,
};
use tal_declarations::table::{Declared, Files, Headed};
use tal_names::fault::{Rule, RuleFault};
use tal_names::least::with_fault_if;
use tal_names::names::Names;
use tal_names::scope::Scope;
use tal_syntax::{At, Heading, List, Local, Main, Next, NoMemory, Procedure, Statement, Text};
use tal_tree::{FileUse, Item, MOST_PROCEDURES};

/// The parameters and locals of a procedure.
fn locals_by(alloc: Global, heading: &Heading, inner: &[Local]) -> Result<Names, NoMemory>
    ensures { IfOk result (λ n. n ≡ locals_by (seen_heading heading.now) (seen_locals inner.now)) }
{
    let parameters = parameters_of(alloc, &heading.parameters)?;
    let inner = locals_of(alloc, inner)?;
    let mut names = Names::new(alloc);
    declare_locals(&mut names, parameters.as_slice())?;
    declare_locals(&mut names, inner.as_slice())?;
    Ok(names)
}

/// What the names of a procedure of a number stand for.
pub fn enter(
    alloc: Global,
    scope: &mut Scope,
    number: u16,
    procedure: &Procedure,
) -> Result<(), NoMemory>
    ensures { OnOk result (scope.new ≡ scope_of scope.old.globals scope.old.files number
        (seen_heading procedure.now.heading) (seen_locals procedure.now.inner)) }
{
    let locals = locals_by(alloc, &procedure.heading, procedure.inner.as_slice())?;
    scope.locals = locals;
    scope.number = number;
    scope.gives = does_give(procedure.heading.gives);
    Ok(())
}

fn next_procedure(count: u16) -> u16
    ensures { result ≡ next_procedure count }
{
    count.saturating_add(1).min(MOST_PROCEDURES)
}

/// Makes the variables that a procedure's OPENs name those of files.
fn procedure_files(
    alloc: Global,
    scope: &mut Scope,
    number: u16,
    files: &mut Files,
    procedure: &Procedure,
) -> Result<(), NoMemory>
    requires { scope.old.files ≡ [] }
    ensures files { OnOk result (files.new ≡ procedure_files scope.old.globals number files.old
        (seen_procedure procedure.now)) }
    ensures globals { OnOk result (scope.new.globals ≡ scope.old.globals) }
    ensures none { OnOk result (scope.new.files ≡ []) }
{
    enter(alloc, scope, number, procedure)?;
    statement_files(&procedure.first, scope, files)?;
    row_files(procedure.more.as_slice(), scope, files)?;
    Ok(())
}

/// The variables of files that the procedures open.
fn files_of(alloc: Global, scope: &mut Scope, procedures: &[Procedure]) -> Result<Files, NoMemory>
    requires { scope.old.files ≡ [] }
    ensures files { IfOk result (λ f. f ≡ files_from scope.old.globals 0 no_files (seen_procedures procedures.now)) }
    ensures globals { OnOk result (scope.new.globals ≡ scope.old.globals) }
{
    let mut files = Files {
        names: Names::new(alloc),
        uses: List::new(alloc),
    };
    let mut number = 0;
    for procedure in procedures {
        procedure_files(alloc, scope, number, &mut files, procedure)?;
        number = next_procedure(number);
    }
    Ok(files)
}

fn has_word_main(main: Main) -> bool
    ensures { result ≡ is_main_by (seen_main main) }
{
    match main {
        Main::Absent => false,
        Main::Word(_) => true,
    }
}

/// What stands before the first statement of a procedure.
pub fn entered(progress: Progress, heading: &Heading) -> Walk
    ensures { result ≡ walk_at_entry progress (seen_heading heading.now) }
{
    let main = has_word_main(heading.main) && !progress.has_main;
    let stage = if main { Stage::Start } else { Stage::Over };
    Walk {
        number: progress.walk.number,
        stage,
        files: progress.walk.files,
        receive: progress.walk.receive,
    }
}

fn lacks_monitor(stage: Stage) -> bool
    ensures { result ≡ lacks_monitor stage }
{
    match stage {
        Stage::Start => true,
        Stage::Opens => false,
        Stage::Over => false,
        Stage::Missed => true,
    }
}

/// Judges the parameters and locals of a procedure.
fn judge_heading_locals(
    alloc: Global,
    procedure: &Procedure,
    so_far: Option<RuleFault>,
) -> Result<Option<RuleFault>, NoMemory>
    ensures { IfOk result (λ o. o ≡ least so_far
        (heading_locals_faults (seen_heading procedure.now.heading) (seen_locals procedure.now.outer)
        (seen_locals procedure.now.inner))) }
{
    let parameters = parameters_of(alloc, &procedure.heading.parameters)?;
    let outer = locals_of(alloc, procedure.outer.as_slice())?;
    let inner = locals_of(alloc, procedure.inner.as_slice())?;
    judge_locals(
        alloc,
        parameters.as_slice(),
        outer.as_slice(),
        inner.as_slice(),
        so_far,
    )
}

/// Judges the statements of a procedure.
#[tactic(auto, using(crate::proofs::Parts::parts))]
fn judge_body(
    alloc: Global,
    scope: &Scope,
    walk: Walk,
    first: &Statement,
    more: &[Next],
    so_far: Option<RuleFault>,
) -> Result<Judged, NoMemory>
    ensures walk { IfOk result (λ j. j.walk
        ≡ body_after scope.now walk (seen_statement first.now) (seen_row more.now)) }
    ensures least { IfOk result (λ j. j.least
        ≡ least so_far (body_faults scope.now walk (seen_statement first.now) (seen_row more.now))) }
{
    let judged = judge_statement(first, alloc, scope, walk, so_far)?;
    judge_row(more, alloc, scope, judged.walk, judged.least)
}

/// What is known after a procedure, from what was known before it, its heading, and the walk as its statements leave
/// it.
pub fn passed(progress: Progress, heading: &Heading, walk: Walk) -> Progress
    ensures { result ≡ progress_after_procedure progress (seen_heading heading.now) walk }
{
    Progress {
        count: next_procedure(progress.count),
        has_main: progress.has_main || has_word_main(heading.main),
        walk,
    }
}

/// What stands before a procedure, and the least fault so far.
#[derive(Clone, Copy)]
pub struct Gone {
    pub progress: Progress,
    pub least: Option<RuleFault>,
}

/// Judges a procedure but for its heading.
#[tactic(auto, using(crate::proofs::Parts::parts))]
fn judge_procedure(
    alloc: Global,
    scope: &mut Scope,
    progress: Progress,
    procedure: &Procedure,
    so_far: Option<RuleFault>,
) -> Result<Gone, NoMemory>
    ensures progress { IfOk result (λ r. r.progress
        ≡ after_procedure scope.old.globals scope.old.files progress (seen_procedure procedure.now)) }
    ensures least { IfOk result (λ r. r.least
        ≡ least so_far (procedure_faults scope.old.globals scope.old.files progress (seen_procedure procedure.now))) }
    ensures globals { OnOk result (scope.new.globals ≡ scope.old.globals) }
    ensures files { OnOk result (scope.new.files ≡ scope.old.files) }
{
    let so_far = judge_heading_locals(alloc, procedure, so_far)?;
    enter(alloc, scope, progress.count, procedure)?;
    let heading = &procedure.heading;
    let walk = entered(progress, heading);
    let judged = judge_body(
        alloc,
        scope,
        walk,
        &procedure.first,
        procedure.more.as_slice(),
        so_far,
    )?;
    let lacks = lacks_monitor(judged.walk.stage);
    let least = with_fault_if(judged.least, lacks, heading.at, Rule::Prologue);
    Ok(Gone {
        progress: passed(progress, heading, judged.walk),
        least,
    })
}

/// What stands before the first procedure.
pub fn first_progress() -> Progress
    ensures { result ≡ first_progress }
{
    Progress {
        count: 0,
        has_main: false,
        walk: Walk {
            number: 1,
            stage: Stage::Over,
            files: 0,
            receive: false,
        },
    }
}

/// Judges the procedures but for their headings.
fn judge_procedures(
    alloc: Global,
    scope: &mut Scope,
    procedures: &[Procedure],
    so_far: Option<RuleFault>,
) -> Result<Option<RuleFault>, NoMemory>
    ensures least { IfOk result (λ o. o ≡ least so_far
        (procedures_faults scope.old.globals scope.old.files first_progress (seen_procedures procedures.now))) }
    ensures globals { OnOk result (scope.new.globals ≡ scope.old.globals) }
    ensures files { OnOk result (scope.new.files ≡ scope.old.files) }
{
    let mut gone = Gone {
        progress: first_progress(),
        least: so_far,
    };
    for procedure in procedures {
        gone = judge_procedure(alloc, scope, gone.progress, procedure, gone.least)?;
    }
    Ok(gone.least)
}

/// A text that is judged: its least fault, and what its names stand for.
#[derive(Drop)]
pub struct Tables {
    pub least: Option<RuleFault>,
    pub items: List<Item>,
    pub main: Option<u16>,
    pub scope: Scope,
    pub uses: List<FileUse>,
}

/// Judges whether some procedure is MAIN.
fn judge_missing(main: Option<u16>, finish: At, so_far: Option<RuleFault>) -> Option<RuleFault>
    ensures { result ≡ least so_far (main_missing main finish) }
{
    with_fault_if(so_far, main.is_none(), finish, Rule::NoMain)
}

/// Judges the procedures among the names that the globals and headings declare.
#[tactic(auto, using(crate::proofs::Parts::parts))]
fn judge_headed(
    alloc: Global,
    items: List<Item>,
    headed: Headed,
    text: &Text,
    so_far: Option<RuleFault>,
) -> Result<Tables, NoMemory>
    ensures least { IfOk result (λ t. t.least
        ≡ least so_far (bodies_faults headed (seen_procedures text.now.procedures)
        ++ main_missing headed.main text.now.finish)) }
    ensures items { IfOk result (λ t. t.items ≡ items) }
    ensures main { IfOk result (λ t. t.main ≡ headed.main) }
    ensures globals { IfOk result (λ t. t.scope.globals ≡ headed.names) }
    ensures files { IfOk result (λ t. t.scope.files ≡ (files_by headed (seen_procedures text.now.procedures)).names) }
    ensures uses { IfOk result (λ t. t.uses ≡ (files_by headed (seen_procedures text.now.procedures)).uses) }
{
    let Headed {
        names,
        count: _,
        main,
    } = headed;
    let mut scope = Scope {
        globals: names,
        files: Names::new(alloc),
        locals: Names::new(alloc),
        number: 0,
        gives: false,
    };
    let procedures = text.procedures.as_slice();
    let Files { names, uses } = files_of(alloc, &mut scope, procedures)?;
    scope.files = names;
    let so_far = judge_procedures(alloc, &mut scope, procedures, so_far)?;
    Ok(Tables {
        least: judge_missing(main, text.finish, so_far),
        items,
        main,
        scope,
        uses,
    })
}

/// Judges a text.
#[tactic(auto, using(crate::proofs::Parts::parts))]
pub fn judge_text(alloc: Global, text: &Text) -> Result<Tables, NoMemory>
    ensures least { IfOk result (λ t. t.least ≡ least None (faults (seen_text text.now))) }
    ensures items { IfOk result (λ t. t.items ≡ (with_lines nothing_declared (seen_lines text.now.globals)).items) }
    ensures main { IfOk result (λ t. t.main
        ≡ (headed_text (seen_lines text.now.globals) (seen_procedures text.now.procedures)).main) }
    ensures globals { IfOk result (λ t. t.scope.globals
        ≡ (headed_text (seen_lines text.now.globals) (seen_procedures text.now.procedures)).names) }
    ensures files { IfOk result (λ t. t.scope.files
        ≡ (files_by (headed_text (seen_lines text.now.globals) (seen_procedures text.now.procedures))
        (seen_procedures text.now.procedures)).names) }
    ensures uses { IfOk result (λ t. t.uses
        ≡ (files_by (headed_text (seen_lines text.now.globals) (seen_procedures text.now.procedures))
        (seen_procedures text.now.procedures)).uses) }
{
    let mut declared = nothing_declared(alloc);
    let so_far = declared_by(&mut declared, text.globals.as_slice())?;
    let Declared {
        names,
        items,
        words: _,
    } = declared;
    let mut headed = Headed {
        names,
        count: 0,
        main: None,
    };
    let so_far = headed_by(&mut headed, text.procedures.as_slice(), so_far)?;
    judge_headed(alloc, items, headed, text, so_far)
}
