ghost use Rattle.std.specs.Prelude.{◌≡◌, ◌+◌, OnOk, IfOk};
ghost use Rattle.tal_rules.specs.Calls.{values_count};
ghost use Rattle.tal_rules.specs.Expressions.{value_faults};
ghost use Rattle.tal_names.specs.Faults.{least};
ghost use Rattle.tal_names.specs.Scopes.{kind_faults};
ghost use Rattle.tal_names.specs.Systems.{system_of};
ghost use Rattle.tal_names.specs.declared.meaning.Need.TheVariants.{Readable};
ghost use Rattle.tal_names.specs.Places.{arguments_of, first_of_spot};
ghost use Rattle.tal_rules.specs.Statements.{next_number, stage_after, stage_after_monitor, stage_after_open};
ghost use Rattle.tal_rules.specs.Statements.{next_file, next_walk, inside_do, after_call, number_faults, return_faults};
ghost use Rattle.tal_rules.specs.Statements.{right_by, right_faults, call_statement_faults, return_statement_faults};
ghost use Rattle.tal_rules.specs.Statements.{assign_faults, assign_call_faults, is_below_one, step_faults};
ghost use Rattle.tal_rules.specs.Statements.{for_head_faults, test_faults, after, after_else, after_row};
ghost use Rattle.tal_rules.specs.Statements.{statement_faults, else_faults, row_faults};
ghost use Rattle.tal_syntax.specs.Grammar as g;
ghost use Rattle.tal_syntax.specs.Seen.{seen_spot, seen_expr, seen_arguments, seen_values, seen_answer, seen_statement};
ghost use Rattle.tal_syntax.specs.Seen.{seen_step, seen_otherwise, seen_row};

use crate::call::{judge_call, judge_called, judge_values, opens_receive};
use crate::expression::{judge_expr, judge_spot, judge_value};
use crate::walk::{Stage, Walk};
use std::alloc::Global;
use tal_declarations::files::named_in;
use tal_declarations::globals::{at_of_constant, atom_of, constant_value, judge_constant};
use tal_names::alone::{argument, name_of_expr};
use tal_names::fault::{Rule, RuleFault};
use tal_names::least::with_fault_if;
use tal_names::lookup::{judge_kind, judge_name, meaning_of};
use tal_names::meaning::{Meaning, Need, Wanted};
use tal_names::scope::Scope;
use tal_names::system::{System, system_of};
use tal_syntax::{
    Answer, Arguments, Assign, AssignCall, At, Call, Expr, ForHead, Next, NextValue, NoMemory,
    Otherwise, Return, Statement, Step, Test, Until,
};
use tal_tree::{MOST_FILES, MOST_STATEMENTS, ProgramLimit};

/// What stands before a statement, and the least fault so far.
#[derive(Clone, Copy)]
pub struct Judged {
    pub walk: Walk,
    pub least: Option<RuleFault>,
}

/// The number after another.
fn next_number(number: u16) -> u16
    ensures { result ≡ next_number number }
{
    if number > MOST_STATEMENTS {
        number
    } else {
        number + 1
    }
}

fn stage_after(stage: Stage) -> Stage
    ensures { result ≡ stage_after stage }
{
    match stage {
        Stage::Start => Stage::Missed,
        Stage::Opens => Stage::Over,
        Stage::Over => Stage::Over,
        Stage::Missed => Stage::Missed,
    }
}

fn stage_after_monitor(stage: Stage) -> Stage
    ensures { result ≡ stage_after_monitor stage }
{
    match stage {
        Stage::Start => Stage::Opens,
        _ => stage_after(stage),
    }
}

fn stage_after_open(stage: Stage) -> Stage
    ensures { result ≡ stage_after_open stage }
{
    match stage {
        Stage::Opens => Stage::Opens,
        _ => stage_after(stage),
    }
}

fn next_file(files: u8) -> u8
    ensures { result ≡ next_file files }
{
    if files > MOST_FILES { files } else { files + 1 }
}

/// What stands before the statement that follows one with a number.
pub fn stepped(walk: Walk) -> Walk
    ensures { result ≡ next_walk walk }
{
    Walk {
        number: next_number(walk.number),
        stage: stage_after(walk.stage),
        files: walk.files,
        receive: walk.receive,
    }
}

/// What stands before the statement inside a DO.
pub fn inside_do(walk: Walk) -> Walk
    ensures { result ≡ inside_do walk }
{
    Walk {
        number: walk.number,
        stage: stage_after(walk.stage),
        files: walk.files,
        receive: walk.receive,
    }
}

/// What stands before the statement that follows a call.
pub fn after_call(walk: Walk, arguments: &Arguments, system: Option<System>) -> Walk
    ensures { result ≡ after_call walk (arguments_of (seen_arguments arguments.now)) system }
{
    match system {
        Some(System::CheckMonitor) => Walk {
            number: next_number(walk.number),
            stage: stage_after_monitor(walk.stage),
            files: walk.files,
            receive: walk.receive,
        },
        Some(System::Open) => Walk {
            number: next_number(walk.number),
            stage: stage_after_open(walk.stage),
            files: next_file(walk.files),
            receive: walk.receive || opens_receive(argument(arguments, 0)),
        },
        _ => stepped(walk),
    }
}

fn judge_number(number: u16, at: At, so_far: Option<RuleFault>) -> Option<RuleFault>
    ensures { result ≡ least so_far (number_faults number at) }
{
    with_fault_if(
        so_far,
        number > MOST_STATEMENTS,
        at,
        Rule::Limit(ProgramLimit::Statements),
    )
}

/// Judges whether RETURN has an expression exactly where its procedure gives a value.
#[tactic(auto, using(crate::proofs::Parts::parts))]
fn judge_return(
    scope: &Scope,
    head: At,
    answer: &Answer,
    so_far: Option<RuleFault>,
) -> Option<RuleFault>
    ensures { result ≡ least so_far (return_faults scope.now head (seen_answer answer.now)) }
{
    match answer {
        Answer::Absent => with_fault_if(so_far, scope.gives, head, Rule::WrongKind),
        Answer::Value(value) => {
            let so_far = with_fault_if(so_far, !scope.gives, head, Rule::WrongKind);
            judge_value(value, scope, so_far)
        }
    }
}

/// Judges a right side that is a name alone, by what the name stands for.
fn judge_right_by(
    scope: &Scope,
    at: At,
    found: Option<Meaning>,
    so_far: Option<RuleFault>,
) -> Option<RuleFault>
    ensures { (e : g.Expr) → value_faults scope.now e ≡ kind_faults Readable at found
        → result ≡ least so_far (right_by scope.now e at found) }
{
    match found {
        Some(
            Meaning::Procedure {
                number: _,
                gives: _,
                parameters: _,
            },
        ) => judge_called(scope, true, at, 0, found, so_far),
        _ => judge_kind(Need::Readable, at, found, so_far),
    }
}

/// Judges a right side.
fn judge_right(scope: &Scope, value: &Expr, so_far: Option<RuleFault>) -> Option<RuleFault>
    ensures { result ≡ least so_far (right_faults scope.now (seen_expr value.now)) }
{
    match name_of_expr(value) {
        None => judge_value(value, scope, so_far),
        Some(named) => judge_right_by(scope, named.at, meaning_of(scope, named.name), so_far),
    }
}

#[tactic(auto, using(crate::proofs::Parts::parts))]
fn judge_call_statement(
    alloc: Global,
    scope: &Scope,
    walk: Walk,
    call: &Call,
    so_far: Option<RuleFault>,
) -> Result<Judged, NoMemory>
    ensures walk { IfOk result (λ j. j.walk
        ≡ after_call walk (arguments_of (seen_arguments call.now.arguments)) (system_of call.now.name)) }
    ensures least { IfOk result (λ j. j.least
        ≡ least so_far (call_statement_faults scope.now walk call.now.head call.now.at call.now.name
        (arguments_of (seen_arguments call.now.arguments)))) }
{
    let so_far = judge_number(walk.number, call.head, so_far);
    let system = system_of(call.name);
    let arguments = &call.arguments;
    let least = judge_call(
        alloc, scope, walk, call.at, call.name, arguments, system, so_far,
    )?;
    Ok(Judged {
        walk: after_call(walk, arguments, system),
        least,
    })
}

#[tactic(auto, using(crate::proofs::Parts::parts))]
fn judge_return_statement(
    scope: &Scope,
    walk: Walk,
    said: &Return,
    so_far: Option<RuleFault>,
) -> Judged
    ensures walk { result.walk ≡ next_walk walk }
    ensures least { result.least ≡ least so_far
        (return_statement_faults scope.now walk said.now.head (seen_answer said.now.answer)) }
{
    let so_far = judge_number(walk.number, said.head, so_far);
    Judged {
        walk: stepped(walk),
        least: judge_return(scope, said.head, &said.answer, so_far),
    }
}

#[tactic(auto, using(crate::proofs::Parts::parts))]
fn judge_assign(scope: &Scope, walk: Walk, said: &Assign, so_far: Option<RuleFault>) -> Judged
    ensures walk { result.walk ≡ next_walk walk }
    ensures least { result.least ≡ least so_far
        (assign_faults scope.now walk (seen_spot said.now.target) (seen_expr said.now.value)) }
{
    let so_far = judge_number(walk.number, said.target.at, so_far);
    let so_far = judge_spot(&said.target, scope, Need::Variable, so_far);
    Judged {
        walk: stepped(walk),
        least: judge_right(scope, &said.value, so_far),
    }
}

fn count_values(more: &[NextValue]) -> usize
    ensures { result ≡ values_count (seen_values more.now) + 1 }
{
    more.len() + 1
}

#[tactic(auto, using(crate::proofs::Parts::parts))]
fn judge_assign_call(
    scope: &Scope,
    walk: Walk,
    said: &AssignCall,
    so_far: Option<RuleFault>,
) -> Judged
    ensures walk { result.walk ≡ next_walk walk }
    ensures least { result.least ≡ least so_far
        (assign_call_faults scope.now walk (seen_spot said.now.target) said.now.name_at said.now.name
        (seen_expr said.now.first) (seen_values said.now.more)) }
{
    let so_far = judge_number(walk.number, said.target.at, so_far);
    let so_far = judge_spot(&said.target, scope, Need::Variable, so_far);
    let more = said.more.as_slice();
    let count = count_values(more);
    let found = meaning_of(scope, said.name);
    let so_far = judge_called(scope, true, said.name_at, count, found, so_far);
    let so_far = judge_value(&said.first, scope, so_far);
    Judged {
        walk: stepped(walk),
        least: judge_values(scope, more, so_far),
    }
}

#[tactic(auto, using(crate::proofs::Parts::parts))]
fn judge_test(
    scope: &Scope,
    walk: Walk,
    test: &Test,
    so_far: Option<RuleFault>,
) -> Option<RuleFault>
    ensures { result ≡ least so_far (test_faults scope.now walk test.now.head (seen_expr test.now.test)) }
{
    let so_far = judge_number(walk.number, test.head, so_far);
    judge_expr(&test.test, scope, Wanted::Condition, so_far)
}

/// Judges the test of a DO whose body ends before `walk`.
#[tactic(auto, using(crate::proofs::Parts::parts))]
fn judge_until(
    scope: &Scope,
    walk: Walk,
    until: &Until,
    so_far: Option<RuleFault>,
) -> Option<RuleFault>
    ensures { result ≡ least so_far (test_faults scope.now walk until.now.head (seen_expr until.now.test)) }
{
    let so_far = judge_number(walk.number, until.head, so_far);
    judge_expr(&until.test, scope, Wanted::Condition, so_far)
}

fn is_below_one(value: Option<i16>) -> bool
    ensures { result ≡ is_below_one value }
{
    match value {
        None => false,
        Some(value) => value < 1,
    }
}

/// Judges what a FOR adds or takes away.
#[tactic(auto, using(crate::proofs::Parts::parts))]
fn judge_step(scope: &Scope, step: &Step, so_far: Option<RuleFault>) -> Option<RuleFault>
    ensures { result ≡ least so_far (step_faults scope.now (seen_step step.now)) }
{
    match step {
        Step::One => so_far,
        Step::By(_, constant) => {
            let named = named_in(scope, atom_of(constant));
            let so_far = judge_constant(constant, named, so_far);
            let below = is_below_one(constant_value(constant, named));
            with_fault_if(so_far, below, at_of_constant(constant), Rule::WrongKind)
        }
    }
}

#[tactic(auto, using(crate::proofs::Parts::parts))]
fn judge_for_head(scope: &Scope, head: &ForHead, so_far: Option<RuleFault>) -> Option<RuleFault>
    ensures { result ≡ least so_far (for_head_faults scope.now head.now.at head.now.name (seen_expr head.now.from)
        (seen_expr head.now.to) (seen_step head.now.step)) }
{
    let so_far = judge_name(scope, Need::Variable, head.at, head.name, so_far);
    let so_far = judge_value(&head.from, scope, so_far);
    let so_far = judge_value(&head.to, scope, so_far);
    judge_step(scope, &head.step, so_far)
}

/// Judges a statement.
#[cycle(statement)]
pub fn judge_statement(
    statement: &Statement,
    alloc: Global,
    scope: &Scope,
    walk: Walk,
    so_far: Option<RuleFault>,
) -> Result<Judged, NoMemory>
    ensures walk { IfOk result (λ j. j.walk ≡ after scope.now walk (seen_statement statement.now)) }
    ensures least { IfOk result (λ j. j.least
        ≡ least so_far (statement_faults scope.now walk (seen_statement statement.now))) }
{
    match statement {
        Statement::Nothing => Ok(Judged {
            walk,
            least: so_far,
        }),
        Statement::Block(_, first, more, _) => {
            let judged = judge_statement(first.get(), alloc, scope, walk, so_far)?;
            judge_row(more.as_slice(), alloc, scope, judged.walk, judged.least)
        }
        Statement::If(test, body, otherwise) => {
            let so_far = judge_test(scope, walk, test.get(), so_far);
            let judged = judge_statement(body.get(), alloc, scope, stepped(walk), so_far)?;
            judge_else(otherwise, alloc, scope, judged.walk, judged.least)
        }
        Statement::While(test, body) => {
            let so_far = judge_test(scope, walk, test.get(), so_far);
            judge_statement(body.get(), alloc, scope, stepped(walk), so_far)
        }
        Statement::For(head, body) => {
            let head = head.get();
            let so_far = judge_for_head(scope, head, so_far);
            let inside = stepped(stepped(walk));
            let judged = judge_statement(body.get(), alloc, scope, inside, so_far)?;
            Ok(Judged {
                walk: stepped(judged.walk),
                least: judge_number(judged.walk.number, head.head, judged.least),
            })
        }
        Statement::DoUntil(body, until) => {
            let judged = judge_statement(body.get(), alloc, scope, inside_do(walk), so_far)?;
            Ok(Judged {
                walk: stepped(judged.walk),
                least: judge_until(scope, judged.walk, until.get(), judged.least),
            })
        }
        Statement::Call(call) => judge_call_statement(alloc, scope, walk, call.get(), so_far),
        Statement::Return(said) => Ok(judge_return_statement(scope, walk, said.get(), so_far)),
        Statement::Assign(said) => Ok(judge_assign(scope, walk, said.get(), so_far)),
        Statement::AssignCall(said) => Ok(judge_assign_call(scope, walk, said.get(), so_far)),
    }
}

#[cycle(statement)]
fn judge_else(
    otherwise: &Otherwise,
    alloc: Global,
    scope: &Scope,
    walk: Walk,
    so_far: Option<RuleFault>,
) -> Result<Judged, NoMemory>
    ensures walk { IfOk result (λ j. j.walk ≡ after_else scope.now walk (seen_otherwise otherwise.now)) }
    ensures least { IfOk result (λ j. j.least
        ≡ least so_far (else_faults scope.now walk (seen_otherwise otherwise.now))) }
{
    match otherwise {
        Otherwise::Absent => Ok(Judged {
            walk,
            least: so_far,
        }),
        Otherwise::Else(_, body) => judge_statement(body.get(), alloc, scope, walk, so_far),
    }
}

/// Judges a row of statements.
#[cycle(statement)]
pub fn judge_row(
    more: &[Next],
    alloc: Global,
    scope: &Scope,
    walk: Walk,
    so_far: Option<RuleFault>,
) -> Result<Judged, NoMemory>
    ensures walk { IfOk result (λ j. j.walk ≡ after_row scope.now walk (seen_row more.now)) }
    ensures least { IfOk result (λ j. j.least ≡ least so_far (row_faults scope.now walk (seen_row more.now))) }
{
    let mut judged = Judged {
        walk,
        least: so_far,
    };
    for next in more {
        judged = judge_statement(&next.statement, alloc, scope, judged.walk, judged.least)?;
    }
    Ok(judged)
}
