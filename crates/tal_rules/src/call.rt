ghost use Rattle.std.specs.Prelude.{◌≡◌, [], OnOk, IfOk, Some, option_map, length};
ghost use Rattle.std.specs.Option.{option_copied};
ghost use Rattle.tal_rules.specs.Calls.{called_faults, argument_faults, arguments_faults, values_faults};
ghost use Rattle.tal_rules.specs.Calls.{undeclared_faults, misfit_faults, named_faults, name_in, value_in};
ghost use Rattle.tal_rules.specs.Calls.{count_faults, read_update_faults, reply_faults, write_read_faults};
ghost use Rattle.tal_rules.specs.Calls.{repeated_faults, with_mention, mention_faults, checkpoint_faults};
ghost use Rattle.tal_rules.specs.Calls.{string_faults, opens_receive, file_number, number_below, name_opened};
ghost use Rattle.tal_rules.specs.Calls.{is_opened, file_limit, is_depth, depth_limit, depth_faults, is_start};
ghost use Rattle.tal_rules.specs.Calls.{takes_open, open_faults, monitor_faults, system_faults, procedure_call_faults};
ghost use Rattle.tal_rules.specs.Calls.{call_faults};
ghost use Rattle.tal_names.specs.Faults.{least};
ghost use Rattle.tal_names.specs.Places.{arguments_of, further_arguments, name_of_argument, constant_of};
ghost use Rattle.tal_syntax.specs.Seen.{seen_argument, seen_further, seen_arguments, seen_values, seen_constant};

use crate::expression::judge_value;
use crate::walk::{Stage, Walk};
use std::alloc::Global;
use tal_declarations::files::{is_receive, named_in};
use tal_declarations::globals::{atom_of, constant_value, judge_constant};
use tal_names::alone::{
    argument, argument_count, constant_of, front_name_of_argument, name_of_argument,
};
use tal_names::fault::{Rule, RuleFault};
use tal_names::least::{with_fault, with_fault_if};
use tal_names::lookup::{judge_name, meaning_of};
use tal_names::meaning::{Meaning, Need};
use tal_names::names::Names;
use tal_names::place::at_of_argument;
use tal_names::scope::{Named, Scope};
use tal_names::system::System;
use tal_syntax::{Argument, Arguments, At, Constant, Ident, NextArgument, NextValue, NoMemory};
use tal_tree::{MOST_DEPTH, MOST_FILES, ProgramLimit};

/// Judges a call of what a name stands for with so many arguments; `wants` where its value goes to a target.
#[tactic(auto, using(crate::proofs::Parts::parts))]
pub fn judge_called(
    scope: &Scope,
    wants: bool,
    at: At,
    count: usize,
    found: Option<Meaning>,
    so_far: Option<RuleFault>,
) -> Option<RuleFault>
    ensures { result ≡ least so_far (called_faults scope.now wants at count found) }
{
    match found {
        None => with_fault(so_far, at, Rule::Unknown),
        Some(meaning) => match meaning {
            Meaning::Procedure {
                number,
                gives,
                parameters,
            } => {
                let differs = count != parameters || (wants && !gives);
                let so_far = with_fault_if(so_far, differs, at, Rule::WrongKind);
                with_fault_if(so_far, scope.number <= number, at, Rule::NotBefore)
            }
            _ => with_fault(so_far, at, Rule::WrongKind),
        },
    }
}

/// Judges an argument in the place of a value.
fn judge_argument(
    scope: &Scope,
    argument: &Argument,
    so_far: Option<RuleFault>,
) -> Option<RuleFault>
    ensures { result ≡ least so_far (argument_faults scope.now (seen_argument argument.now)) }
{
    match argument {
        Argument::Value(expr) => judge_value(expr, scope, so_far),
        Argument::Receive(at) => with_fault(so_far, *at, Rule::WrongKind),
        Argument::Process(at, _) => with_fault(so_far, *at, Rule::WrongKind),
        Argument::Quoted(at) => with_fault(so_far, *at, Rule::WrongKind),
    }
}

fn judge_further(
    scope: &Scope,
    more: &[NextArgument],
    so_far: Option<RuleFault>,
) -> Option<RuleFault>
    ensures { result ≡ least so_far (arguments_faults scope.now (further_arguments (seen_further more.now))) }
{
    let mut so_far = so_far;
    for next in more {
        so_far = judge_argument(scope, &next.argument, so_far);
    }
    so_far
}

/// Judges the arguments of a procedure.
#[tactic(auto, using(crate::proofs::Parts::parts))]
fn judge_arguments(
    scope: &Scope,
    arguments: &Arguments,
    so_far: Option<RuleFault>,
) -> Option<RuleFault>
    ensures { result ≡ least so_far (arguments_faults scope.now (arguments_of (seen_arguments arguments.now))) }
{
    match arguments {
        Arguments::Absent => so_far,
        Arguments::Listed(list) => {
            let so_far = judge_argument(scope, &list.first, so_far);
            judge_further(scope, list.more.as_slice(), so_far)
        }
    }
}

/// Judges the further values of a call on a right side.
pub fn judge_values(
    scope: &Scope,
    more: &[NextValue],
    so_far: Option<RuleFault>,
) -> Option<RuleFault>
    ensures { result ≡ least so_far (values_faults scope.now (seen_values more.now)) }
{
    let mut so_far = so_far;
    for next in more {
        so_far = judge_value(&next.value, scope, so_far);
    }
    so_far
}

/// Judges an argument of another form than its place needs.
#[tactic(auto, using(crate::proofs::Parts::parts))]
fn judge_misfit(scope: &Scope, argument: &Argument, so_far: Option<RuleFault>) -> Option<RuleFault>
    ensures { result ≡ least so_far (misfit_faults scope.now (seen_argument argument.now)) }
{
    let so_far = judge_undeclared(scope, front_name_of_argument(argument), so_far);
    with_fault(so_far, at_of_argument(argument), Rule::WrongKind)
}

/// Judges whether a name is declared.
fn judge_undeclared(
    scope: &Scope,
    named: Option<Named>,
    so_far: Option<RuleFault>,
) -> Option<RuleFault>
    ensures { result ≡ least so_far (undeclared_faults scope.now named) }
{
    match named {
        None => so_far,
        Some(named) => {
            let found = meaning_of(scope, named.name);
            with_fault_if(so_far, found.is_none(), named.at, Rule::Unknown)
        }
    }
}

/// Judges an argument that has to be a name of a kind.
fn judge_named(
    scope: &Scope,
    need: Need,
    argument: &Argument,
    named: Option<Named>,
    so_far: Option<RuleFault>,
) -> Option<RuleFault>
    ensures { result ≡ least so_far (named_faults scope.now need (seen_argument argument.now) named) }
{
    match named {
        None => judge_misfit(scope, argument, so_far),
        Some(named) => judge_name(scope, need, named.at, named.name, so_far),
    }
}

fn judge_name_in(
    scope: &Scope,
    need: Need,
    argument: Option<&Argument>,
    so_far: Option<RuleFault>,
) -> Option<RuleFault>
    ensures { result ≡ least so_far (name_in scope.now need (option_map seen_argument (option_copied argument.entry))) }
{
    match argument {
        None => so_far,
        Some(argument) => judge_named(scope, need, argument, name_of_argument(argument), so_far),
    }
}

fn judge_value_in(
    scope: &Scope,
    argument: Option<&Argument>,
    so_far: Option<RuleFault>,
) -> Option<RuleFault>
    ensures { result ≡ least so_far (value_in scope.now (option_map seen_argument (option_copied argument.entry))) }
{
    match argument {
        None => so_far,
        Some(argument) => judge_argument(scope, argument, so_far),
    }
}

/// Judges how many arguments a call of the system has.
fn judge_count(
    at: At,
    count: usize,
    arguments: &Arguments,
    so_far: Option<RuleFault>,
) -> Option<RuleFault>
    ensures { result ≡ least so_far (count_faults at count (arguments_of (seen_arguments arguments.now))) }
{
    let differs = argument_count(arguments) != count;
    with_fault_if(so_far, differs, at, Rule::WrongKind)
}

#[tactic(auto, using(crate::proofs::Parts::parts))]
fn judge_read_update(
    scope: &Scope,
    at: At,
    arguments: &Arguments,
    so_far: Option<RuleFault>,
) -> Option<RuleFault>
    ensures { result ≡ least so_far (read_update_faults scope.now at (arguments_of (seen_arguments arguments.now))) }
{
    let so_far = judge_count(at, 4, arguments, so_far);
    let so_far = judge_name_in(scope, Need::Receive, argument(arguments, 0), so_far);
    let so_far = judge_name_in(scope, Need::Array, argument(arguments, 1), so_far);
    let so_far = judge_value_in(scope, argument(arguments, 2), so_far);
    judge_name_in(scope, Need::Variable, argument(arguments, 3), so_far)
}

#[tactic(auto, using(crate::proofs::Parts::parts))]
fn judge_reply(
    scope: &Scope,
    at: At,
    arguments: &Arguments,
    so_far: Option<RuleFault>,
) -> Option<RuleFault>
    ensures { result ≡ least so_far (reply_faults scope.now at (arguments_of (seen_arguments arguments.now))) }
{
    let so_far = judge_count(at, 2, arguments, so_far);
    let so_far = judge_name_in(scope, Need::Array, argument(arguments, 0), so_far);
    judge_value_in(scope, argument(arguments, 1), so_far)
}

#[tactic(auto, using(crate::proofs::Parts::parts))]
fn judge_write_read(
    scope: &Scope,
    at: At,
    arguments: &Arguments,
    so_far: Option<RuleFault>,
) -> Option<RuleFault>
    ensures { result ≡ least so_far (write_read_faults scope.now at (arguments_of (seen_arguments arguments.now))) }
{
    let so_far = judge_count(at, 5, arguments, so_far);
    let so_far = judge_name_in(scope, Need::Process, argument(arguments, 0), so_far);
    let so_far = judge_name_in(scope, Need::Array, argument(arguments, 1), so_far);
    let so_far = judge_value_in(scope, argument(arguments, 2), so_far);
    let so_far = judge_value_in(scope, argument(arguments, 3), so_far);
    judge_name_in(scope, Need::Variable, argument(arguments, 4), so_far)
}

/// Judges whether a name stands in a CHECKPOINT before, and puts it with those before.
fn judge_repeated(
    before: &mut Names,
    named: Option<Named>,
    so_far: Option<RuleFault>,
) -> Result<Option<RuleFault>, NoMemory>
    ensures least { IfOk result (λ o. o ≡ least so_far (repeated_faults before.old named)) }
    ensures names { OnOk result (before.new ≡ with_mention before.old named) }
{
    match named {
        None => Ok(so_far),
        Some(named) => {
            let repeated = before.declare(named.name, Meaning::Literal(0))?;
            Ok(with_fault_if(so_far, repeated, named.at, Rule::Twice))
        }
    }
}

/// Judges one argument of a CHECKPOINT after those before, and puts its name with theirs.
#[tactic(auto, using(crate::proofs::Parts::parts))]
fn judge_mention(
    scope: &Scope,
    before: &mut Names,
    argument: &Argument,
    so_far: Option<RuleFault>,
) -> Result<Option<RuleFault>, NoMemory>
    ensures least { IfOk result (λ o. o ≡ least so_far
        (mention_faults scope.now before.old (seen_argument argument.now))) }
    ensures names { OnOk result (before.new ≡ with_mention before.old (name_of_argument (seen_argument argument.now))) }
{
    let so_far = judge_named(
        scope,
        Need::Kept,
        argument,
        name_of_argument(argument),
        so_far,
    );
    let least = judge_repeated(before, name_of_argument(argument), so_far)?;
    Ok(least)
}

fn judge_mentions(
    scope: &Scope,
    before: &mut Names,
    more: &[NextArgument],
    so_far: Option<RuleFault>,
) -> Result<Option<RuleFault>, NoMemory>
    ensures { IfOk result (λ o. o ≡ least so_far
        (checkpoint_faults scope.now before.old (further_arguments (seen_further more.now)))) }
{
    let mut so_far = so_far;
    for next in more {
        so_far = judge_mention(scope, before, &next.argument, so_far)?;
    }
    Ok(so_far)
}

#[tactic(auto, using(crate::proofs::Parts::parts))]
fn judge_checkpoint(
    alloc: Global,
    scope: &Scope,
    arguments: &Arguments,
    so_far: Option<RuleFault>,
) -> Result<Option<RuleFault>, NoMemory>
    ensures { IfOk result (λ o. o ≡ least so_far
        (checkpoint_faults scope.now [] (arguments_of (seen_arguments arguments.now)))) }
{
    match arguments {
        Arguments::Absent => Ok(so_far),
        Arguments::Listed(list) => {
            let mut before = Names::new(alloc);
            let so_far = judge_mention(scope, &mut before, &list.first, so_far)?;
            judge_mentions(scope, &mut before, list.more.as_slice(), so_far)
        }
    }
}

/// Judges the string of an OPEN.
fn judge_string(
    scope: &Scope,
    argument: Option<&Argument>,
    so_far: Option<RuleFault>,
) -> Option<RuleFault>
    ensures { result ≡ least so_far (string_faults scope.now
        (option_map seen_argument (option_copied argument.entry))) }
{
    match argument {
        None => so_far,
        Some(argument) => match argument {
            Argument::Receive(_) => so_far,
            Argument::Process(_, _) => so_far,
            Argument::Quoted(at) => with_fault(so_far, *at, Rule::WrongKind),
            Argument::Value(_) => judge_misfit(scope, argument, so_far),
        },
    }
}

/// Whether the string of an OPEN is `$RECEIVE`.
pub fn opens_receive(argument: Option<&Argument>) -> bool
    ensures { result ≡ opens_receive (option_map seen_argument (option_copied argument.entry)) }
{
    match argument {
        None => false,
        Some(argument) => is_receive(argument),
    }
}

/// The number of the file whose variable a name is.
pub fn file_number(found: Option<Meaning>) -> Option<u8>
    ensures { result ≡ file_number found }
{
    match found {
        None => None,
        Some(meaning) => match meaning {
            Meaning::ReceiveFile { item: _, number } => Some(number),
            Meaning::ProcessFile { item: _, number } => Some(number),
            Meaning::StrayFile { item: _, number } => Some(number),
            _ => None,
        },
    }
}

fn number_below(number: Option<u8>, opened: u8) -> bool
    ensures { result ≡ number_below number opened }
{
    match number {
        None => false,
        Some(number) => number < opened,
    }
}

fn name_opened(scope: &Scope, opened: u8, named: Option<Named>) -> bool
    ensures { result ≡ name_opened scope.now opened named }
{
    match named {
        None => false,
        Some(named) => number_below(file_number(meaning_of(scope, named.name)), opened),
    }
}

/// Whether an argument is the variable of one of the files that are opened before.
fn is_opened(scope: &Scope, opened: u8, argument: Option<&Argument>) -> bool
    ensures { result ≡ is_opened scope.now opened (option_map seen_argument (option_copied argument.entry)) }
{
    match argument {
        None => false,
        Some(argument) => name_opened(scope, opened, name_of_argument(argument)),
    }
}

/// Judges whether the file of an OPEN is past the limit.
fn judge_file(
    opened: u8,
    argument: Option<&Argument>,
    so_far: Option<RuleFault>,
) -> Option<RuleFault>
    ensures { result ≡ least so_far (file_limit opened (option_map seen_argument (option_copied argument.entry))) }
{
    match argument {
        None => so_far,
        Some(argument) => with_fault_if(
            so_far,
            opened >= MOST_FILES,
            at_of_argument(argument),
            Rule::Limit(ProgramLimit::Files),
        ),
    }
}

fn is_depth(receive: bool, value: i16) -> bool
    ensures { result ≡ is_depth receive value }
{
    if receive {
        1 <= value && value <= 1
    } else {
        1 <= value && value <= i16::from(MOST_DEPTH)
    }
}

fn judge_depth_value(
    receive: bool,
    argument: &Argument,
    value: Option<i16>,
    so_far: Option<RuleFault>,
) -> Option<RuleFault>
    ensures { result ≡ least so_far (depth_limit receive (seen_argument argument.now) value) }
{
    match value {
        None => so_far,
        Some(value) => with_fault_if(
            so_far,
            !is_depth(receive, value),
            at_of_argument(argument),
            Rule::Limit(ProgramLimit::KeptReplies),
        ),
    }
}

/// Judges the depth of an OPEN by the constant that it is.
#[tactic(auto, using(crate::proofs::Parts::parts))]
fn judge_depth_by(
    scope: &Scope,
    receive: bool,
    argument: &Argument,
    constant: Option<Constant>,
    so_far: Option<RuleFault>,
) -> Option<RuleFault>
    requires { option_map seen_constant constant ≡ constant_of (seen_argument argument.now) }
    ensures { result ≡ least so_far (depth_faults scope.now receive (Some (seen_argument argument.now))) }
{
    match constant {
        None => with_fault(so_far, at_of_argument(argument), Rule::WrongKind),
        Some(constant) => {
            let named = named_in(scope, atom_of(&constant));
            let so_far = judge_constant(&constant, named, so_far);
            judge_depth_value(receive, argument, constant_value(&constant, named), so_far)
        }
    }
}

/// Judges the depth of an OPEN.
fn judge_depth(
    scope: &Scope,
    receive: bool,
    argument: Option<&Argument>,
    so_far: Option<RuleFault>,
) -> Option<RuleFault>
    ensures { result ≡ least so_far (depth_faults scope.now receive
        (option_map seen_argument (option_copied argument.entry))) }
{
    match argument {
        None => so_far,
        Some(argument) => {
            judge_depth_by(scope, receive, argument, constant_of(argument), so_far)
        }
    }
}

fn is_start(stage: Stage) -> bool
    ensures { result ≡ is_start stage }
{
    match stage {
        Stage::Start => true,
        _ => false,
    }
}

fn takes_open(stage: Stage) -> bool
    ensures { result ≡ takes_open stage }
{
    match stage {
        Stage::Opens => true,
        _ => false,
    }
}

#[tactic(auto, using(crate::proofs::Parts::parts))]
fn judge_open(
    scope: &Scope,
    walk: Walk,
    at: At,
    arguments: &Arguments,
    so_far: Option<RuleFault>,
) -> Option<RuleFault>
    ensures { result ≡ least so_far (open_faults scope.now walk at (arguments_of (seen_arguments arguments.now))) }
{
    let receive = opens_receive(argument(arguments, 0));
    let so_far = with_fault_if(so_far, walk.receive && receive, at, Rule::Twice);
    let so_far = judge_count(at, 3, arguments, so_far);
    let opened = is_opened(scope, walk.files, argument(arguments, 1));
    let misplaced = !takes_open(walk.stage) || opened;
    let so_far = with_fault_if(so_far, misplaced, at, Rule::Prologue);
    let so_far = judge_string(scope, argument(arguments, 0), so_far);
    let so_far = judge_name_in(scope, Need::FileVariable, argument(arguments, 1), so_far);
    let so_far = judge_file(walk.files, argument(arguments, 1), so_far);
    judge_depth(scope, receive, argument(arguments, 2), so_far)
}

#[tactic(auto, using(crate::proofs::Parts::parts))]
fn judge_monitor(
    walk: Walk,
    at: At,
    arguments: &Arguments,
    so_far: Option<RuleFault>,
) -> Option<RuleFault>
    ensures { result ≡ least so_far (monitor_faults walk at (arguments_of (seen_arguments arguments.now))) }
{
    let so_far = judge_count(at, 0, arguments, so_far);
    with_fault_if(so_far, !is_start(walk.stage), at, Rule::Prologue)
}

/// Judges a call of the system.
fn judge_system(
    alloc: Global,
    scope: &Scope,
    walk: Walk,
    at: At,
    arguments: &Arguments,
    system: System,
    so_far: Option<RuleFault>,
) -> Result<Option<RuleFault>, NoMemory>
    ensures { IfOk result (λ o. o ≡ least so_far
        (system_faults scope.now walk at (arguments_of (seen_arguments arguments.now)) system)) }
{
    match system {
        System::CheckMonitor => Ok(judge_monitor(walk, at, arguments, so_far)),
        System::Checkpoint => judge_checkpoint(alloc, scope, arguments, so_far),
        System::Open => Ok(judge_open(scope, walk, at, arguments, so_far)),
        System::ReadUpdate => Ok(judge_read_update(scope, at, arguments, so_far)),
        System::Reply => Ok(judge_reply(scope, at, arguments, so_far)),
        System::Stop => Ok(judge_count(at, 0, arguments, so_far)),
        System::WriteRead => Ok(judge_write_read(scope, at, arguments, so_far)),
    }
}

/// Judges a call of a procedure.
#[tactic(auto, using(crate::proofs::Parts::parts))]
fn judge_procedure(
    scope: &Scope,
    at: At,
    name: Ident,
    arguments: &Arguments,
    so_far: Option<RuleFault>,
) -> Option<RuleFault>
    ensures { result ≡ least so_far (procedure_call_faults scope.now at name
        (arguments_of (seen_arguments arguments.now))) }
{
    let found = meaning_of(scope, name);
    let so_far = judge_called(scope, false, at, argument_count(arguments), found, so_far);
    judge_arguments(scope, arguments, so_far)
}

/// Judges a CALL.
pub fn judge_call(
    alloc: Global,
    scope: &Scope,
    walk: Walk,
    at: At,
    name: Ident,
    arguments: &Arguments,
    system: Option<System>,
    so_far: Option<RuleFault>,
) -> Result<Option<RuleFault>, NoMemory>
    ensures { IfOk result (λ o. o ≡ least so_far
        (call_faults scope.now walk at name (arguments_of (seen_arguments arguments.now)) system)) }
{
    match system {
        Some(system) => judge_system(alloc, scope, walk, at, arguments, system, so_far),
        None => Ok(judge_procedure(scope, at, name, arguments, so_far)),
    }
}
