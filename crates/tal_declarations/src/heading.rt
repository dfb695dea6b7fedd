ghost use Rattle.std.specs.Prelude.{◌≡◌, ◌++◌, OnOk, IfOk, None, length};
ghost use Rattle.tal_names.specs.Faults.{least};
ghost use Rattle.tal_declarations.specs.Headings.{names_of, parameters_of, local_names, locals_of, with_local};
ghost use Rattle.tal_declarations.specs.Headings.{with_locals, count_faults, parameter_faults, parameters_faults};
ghost use Rattle.tal_declarations.specs.Headings.{one_outer_faults, outer_faults, one_inner_faults, inner_faults};
ghost use Rattle.tal_declarations.specs.Headings.{locals_faults, does_give, main_faults, heading_faults, main_number};
ghost use Rattle.tal_declarations.specs.Headings.{with_procedure, with_heading, headings_faults, with_headings};
ghost use Rattle.tal_syntax.specs.Seen.{seen_names, seen_parameters, seen_local, seen_locals, seen_gives, seen_main};
ghost use Rattle.tal_syntax.specs.Seen.{seen_heading, seen_procedures};

use crate::globals::{is_taken, judge_taken};
use crate::table::Headed;
use gd_words::limits::{MOST_LOCALS, MOST_PROCEDURES};
use gd_words::{Ident, List, NoMemory};
use std::alloc::Global;
use tal_names::fault::{Rule, RuleFault};
use tal_names::least::{with_fault, with_fault_if};
use tal_names::meaning::Meaning;
use tal_names::names::Names;
use tal_names::scope::Named;
use tal_names::system::system_of;
use tal_syntax::{At, Gives, Heading, Local, Main, NextName, Parameters, Procedure};
use tal_tree::ProgramLimit;

/// Puts the names that are left of a list after those before.
fn push_names(all: &mut List<Named>, more: &[NextName]) -> Result<(), NoMemory>
    ensures { OnOk result (all.new ≡ all.old ++ names_of (seen_names more.now)) }
{
    for next in more {
        all.push(Named {
            at: next.at,
            name: next.name,
        })?;
    }
    Ok(())
}

/// The parameters of a procedure.
pub fn parameters_of(alloc: Global, parameters: &Parameters) -> Result<List<Named>, NoMemory>
    ensures { IfOk result (λ all. all ≡ parameters_of (seen_parameters parameters.now)) }
{
    let mut all = List::new(alloc);
    match parameters {
        Parameters::Absent => Ok(all),
        Parameters::Listed(list) => {
            all.push(Named {
                at: list.at,
                name: list.name,
            })?;
            push_names(&mut all, list.more.as_slice())?;
            Ok(all)
        }
    }
}

/// Puts the names of a line of locals after those before.
fn push_local(all: &mut List<Named>, local: &Local) -> Result<(), NoMemory>
    ensures { OnOk result (all.new ≡ all.old ++ local_names (seen_local local.now)) }
{
    all.push(Named {
        at: local.at,
        name: local.name,
    })?;
    push_names(all, local.more.as_slice())?;
    Ok(())
}

/// The names of lines of locals.
pub fn locals_of(alloc: Global, locals: &[Local]) -> Result<List<Named>, NoMemory>
    ensures { IfOk result (λ all. all ≡ locals_of (seen_locals locals.now)) }
{
    let mut all = List::new(alloc);
    for local in locals {
        push_local(&mut all, local)?;
    }
    Ok(all)
}

/// Declares a name as the next local.
fn declare_local(names: &mut Names, name: Ident) -> Result<(), NoMemory>
    ensures { OnOk result (names.new ≡ with_local names.old name) }
{
    let number = names.len().min(MOST_LOCALS) as u8;
    names.declare(name, Meaning::Local(number))?;
    Ok(())
}

/// Declares names as the next locals.
pub fn declare_locals(names: &mut Names, locals: &[Named]) -> Result<(), NoMemory>
    ensures { OnOk result (names.new ≡ with_locals names.old locals.now) }
{
    for local in locals {
        declare_local(names, local.name)?;
    }
    Ok(())
}

/// Judges whether a local after so many others is past the limit.
fn judge_count(before: &Names, at: At, so_far: Option<RuleFault>) -> Option<RuleFault>
    ensures { result ≡ least so_far (count_faults before.now at) }
{
    with_fault_if(
        so_far,
        before.len() >= MOST_LOCALS,
        at,
        Rule::Limit(ProgramLimit::Locals),
    )
}

/// Judges a parameter.
#[tactic(auto, using(crate::proofs::Parts::parts))]
fn judge_parameter(
    outer: &Names,
    before: &Names,
    named: &Named,
    so_far: Option<RuleFault>,
) -> Option<RuleFault>
    ensures { result ≡ least so_far (parameter_faults outer.now before.now named.now) }
{
    let so_far = judge_taken(before, named.at, named.name, so_far);
    let missing = !outer.is_declared(named.name);
    let so_far = with_fault_if(so_far, missing, named.at, Rule::Unknown);
    judge_count(before, named.at, so_far)
}

/// Judges a local before BEGIN.
#[tactic(auto, using(crate::proofs::Parts::parts))]
fn judge_outer(
    parameters: &Names,
    before: &Names,
    named: &Named,
    so_far: Option<RuleFault>,
) -> Option<RuleFault>
    ensures { result ≡ least so_far (one_outer_faults parameters.now before.now named.now) }
{
    let so_far = judge_taken(before, named.at, named.name, so_far);
    let missing = !parameters.is_declared(named.name);
    with_fault_if(so_far, missing, named.at, Rule::Unknown)
}

/// Judges a local after BEGIN.
#[tactic(auto, using(crate::proofs::Parts::parts))]
fn judge_inner(
    outer: &Names,
    before: &Names,
    named: &Named,
    so_far: Option<RuleFault>,
) -> Option<RuleFault>
    ensures { result ≡ least so_far (one_inner_faults outer.now before.now named.now) }
{
    let taken = is_taken(before, named.name) || outer.is_declared(named.name);
    let so_far = with_fault_if(so_far, taken, named.at, Rule::Twice);
    judge_count(before, named.at, so_far)
}

/// Judges parameters and declares each after those before.
fn judge_parameters(
    outer: &Names,
    before: &mut Names,
    parameters: &[Named],
    so_far: Option<RuleFault>,
) -> Result<Option<RuleFault>, NoMemory>
    ensures least { IfOk result (λ o. o ≡ least so_far (parameters_faults outer.now before.old parameters.now)) }
    ensures declared { OnOk result (before.new ≡ with_locals before.old parameters.now) }
{
    let mut so_far = so_far;
    for named in parameters {
        so_far = judge_parameter(outer, before, named, so_far);
        declare_local(before, named.name)?;
    }
    Ok(so_far)
}

/// Judges the locals before BEGIN and declares each after those before.
fn judge_outers(
    parameters: &Names,
    before: &mut Names,
    outer: &[Named],
    so_far: Option<RuleFault>,
) -> Result<Option<RuleFault>, NoMemory>
    ensures least { IfOk result (λ o. o ≡ least so_far (outer_faults parameters.now before.old outer.now)) }
    ensures declared { OnOk result (before.new ≡ with_locals before.old outer.now) }
{
    let mut so_far = so_far;
    for named in outer {
        so_far = judge_outer(parameters, before, named, so_far);
        declare_local(before, named.name)?;
    }
    Ok(so_far)
}

/// Judges the locals after BEGIN and declares each after those before.
fn judge_inners(
    outer: &Names,
    before: &mut Names,
    inner: &[Named],
    so_far: Option<RuleFault>,
) -> Result<Option<RuleFault>, NoMemory>
    ensures least { IfOk result (λ o. o ≡ least so_far (inner_faults outer.now before.old inner.now)) }
    ensures declared { OnOk result (before.new ≡ with_locals before.old inner.now) }
{
    let mut so_far = so_far;
    for named in inner {
        so_far = judge_inner(outer, before, named, so_far);
        declare_local(before, named.name)?;
    }
    Ok(so_far)
}

/// Judges the parameters and locals of a procedure.
#[tactic(auto, using(crate::proofs::Parts::parts))]
pub fn judge_locals(
    alloc: Global,
    parameters: &[Named],
    outer: &[Named],
    inner: &[Named],
    so_far: Option<RuleFault>,
) -> Result<Option<RuleFault>, NoMemory>
    ensures { IfOk result (λ o. o ≡ least so_far (locals_faults parameters.now outer.now inner.now)) }
{
    let mut outer_names = Names::new(alloc);
    declare_locals(&mut outer_names, outer)?;
    let mut names = Names::new(alloc);
    let so_far = judge_parameters(&outer_names, &mut names, parameters, so_far)?;
    let mut before = Names::new(alloc);
    let so_far = judge_outers(&names, &mut before, outer, so_far)?;
    judge_inners(&outer_names, &mut names, inner, so_far)
}

/// Whether a procedure gives a value.
pub fn does_give(gives: Gives) -> bool
    ensures { result ≡ does_give (seen_gives gives) }
{
    match gives {
        Gives::Nothing => false,
        Gives::Int(_) => true,
    }
}

/// How many parameters a procedure has.
fn parameter_count(parameters: &Parameters) -> usize
    ensures { result ≡ length (parameters_of (seen_parameters parameters.now)) }
{
    match parameters {
        Parameters::Absent => 0,
        Parameters::Listed(list) => list.more.as_slice().len() + 1,
    }
}

/// Judges the word MAIN of a procedure.
fn judge_main(
    has_main: bool,
    at: At,
    bare: bool,
    main: Main,
    so_far: Option<RuleFault>,
) -> Option<RuleFault>
    ensures { result ≡ least so_far (main_faults has_main at bare (seen_main main)) }
{
    match main {
        Main::Absent => so_far,
        Main::Word(word) => {
            if has_main {
                with_fault(so_far, word, Rule::Twice)
            } else {
                with_fault_if(so_far, !bare, at, Rule::Prologue)
            }
        }
    }
}

/// Judges the heading of a procedure.
#[tactic(auto, using(crate::proofs::Parts::parts))]
fn judge_heading(headed: &Headed, heading: &Heading, so_far: Option<RuleFault>) -> Option<RuleFault>
    ensures { result ≡ least so_far (heading_faults headed.now (seen_heading heading.now)) }
{
    let at = heading.at;
    let so_far = judge_taken(&headed.names, at, heading.name, so_far);
    let so_far = with_fault_if(
        so_far,
        headed.count >= MOST_PROCEDURES,
        at,
        Rule::Limit(ProgramLimit::Procedures),
    );
    let bare = !does_give(heading.gives) && parameter_count(&heading.parameters) == 0;
    judge_main(headed.main.is_some(), at, bare, heading.main, so_far)
}

/// The number of the main procedure, where this one has a number.
fn main_number(found: Option<u16>, number: u16, main: Main) -> Option<u16>
    ensures { result ≡ main_number found number (seen_main main) }
{
    match found {
        Some(before) => Some(before),
        None => match main {
            Main::Absent => None,
            Main::Word(_) => Some(number),
        },
    }
}

/// Declares the name of a procedure, unless it is the system's.
fn declare_procedure(names: &mut Names, name: Ident, meaning: Meaning) -> Result<(), NoMemory>
    ensures { OnOk result (names.new ≡ with_procedure names.old name meaning) }
{
    if system_of(name).is_some() {
        return Ok(());
    }
    names.declare(name, meaning)?;
    Ok(())
}

/// Declares a procedure.
fn declare_heading(headed: &mut Headed, heading: &Heading) -> Result<(), NoMemory>
    ensures { OnOk result (headed.new ≡ with_heading headed.old (seen_heading heading.now)) }
{
    let meaning = Meaning::Procedure {
        number: headed.count,
        gives: does_give(heading.gives),
        parameters: parameter_count(&heading.parameters),
    };
    declare_procedure(&mut headed.names, heading.name, meaning)?;
    headed.main = main_number(headed.main, headed.count, heading.main);
    headed.count = headed.count.saturating_add(1).min(MOST_PROCEDURES);
    Ok(())
}

/// Judges the headings of procedures, and what they declare.
pub fn headed_by(
    headed: &mut Headed,
    procedures: &[Procedure],
    so_far: Option<RuleFault>,
) -> Result<Option<RuleFault>, NoMemory>
    ensures least { IfOk result (λ o. o ≡ least so_far (headings_faults headed.old (seen_procedures procedures.now))) }
    ensures declared { OnOk result (headed.new ≡ with_headings headed.old (seen_procedures procedures.now)) }
{
    let mut so_far = so_far;
    for procedure in procedures {
        so_far = judge_heading(headed, &procedure.heading, so_far);
        declare_heading(headed, &procedure.heading)?;
    }
    Ok(so_far)
}
