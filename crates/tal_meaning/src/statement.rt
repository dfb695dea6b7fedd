ghost use Rattle.std.specs.Prelude.{◌≡◌, [], ◌++◌, ◌∷◌, None, OnOk, IfOk};
ghost use Rattle.tal_names.specs.Systems.{system_of};
ghost use Rattle.tal_names.specs.Places.{arguments_of, first_of_spot, name_of_expr};
ghost use Rattle.tal_names.specs.Scopes.{meaning_of};
ghost use Rattle.tal_rules.specs.Statements.{next_walk, inside_do, after_call, after, after_else, after_row};
ghost use Rattle.tal_syntax.specs.Grammar as g;
ghost use Rattle.tal_syntax.specs.Seen.{seen_spot, seen_expr, seen_answer, seen_arguments, seen_values, seen_statement};
ghost use Rattle.tal_syntax.specs.Seen.{seen_direction, seen_step, seen_otherwise, seen_row};
ghost use Rattle.tal_tree.specs.declared.statement.What.TheVariants as what;
ghost use Rattle.tal_meaning.specs.Calls.{values_of, procedure_by, variable_by, call_what, meaning_by};
ghost use Rattle.tal_meaning.specs.Expressions.{read_by, value_of_expr, cond_of_expr, target_of_spot};
ghost use Rattle.tal_meaning.specs.Statements.{one, answer_of, assign_by, is_down, step_of, statements_of};
ghost use Rattle.tal_meaning.specs.Statements.{else_statements, row_statements};

use crate::call::{call_what, procedure_by, push_values, variable_by};
use crate::expression::{cond_of_expr, read_by, target_of_spot, value_of_expr};
use std::alloc::Global;
use tal_names::alone::name_of_expr;
use tal_names::lookup::meaning_of;
use tal_names::meaning::Meaning;
use tal_names::scope::Scope;
use tal_names::system::system_of;
use tal_rules::statement::{after_call, inside_do, stepped};
use tal_rules::walk::Walk;
use tal_rules::{atom_of, constant_value, named_in};
use tal_syntax::{
    Answer, Assign, AssignCall, At, Call, Direction, Expr, ForHead, Next, NextValue, Otherwise,
    Return, Spot, Statement, Step, Test, Until,
};
use tal_tree::{List, NoMemory, What};

/// Puts one statement, on the line of a token, after those before.
fn push_one(
    all: &mut List<tal_tree::Statement>,
    walk: Walk,
    at: At,
    what: What,
) -> Result<(), NoMemory>
    ensures { OnOk result (all.new ≡ all.old ++ one walk at what) }
{
    all.push(tal_tree::Statement {
        number: walk.number,
        line: at.place.line,
        what,
    })
}

/// What RETURN gives.
fn answer_of(
    alloc: Global,
    scope: &Scope,
    answer: &Answer,
) -> Result<Option<tal_tree::Expr>, NoMemory>
    ensures { IfOk result (λ a. a ≡ answer_of scope.now (seen_answer answer.now)) }
{
    match answer {
        Answer::Absent => Ok(None),
        Answer::Value(value) => {
            let value = value_of_expr(value, alloc, scope)?;
            Ok(Some(value))
        }
    }
}

/// An assignment of a value.
fn assign_value(alloc: Global, scope: &Scope, target: &Spot, value: &Expr) -> Result<What, NoMemory>
    ensures { IfOk result (λ w. w ≡ what.Assign (target_of_spot scope.now (seen_spot target.now))
        (value_of_expr scope.now (seen_expr value.now))) }
{
    let to = target_of_spot(target, alloc, scope)?;
    let value = value_of_expr(value, alloc, scope)?;
    Ok(What::Assign { to, value })
}

/// An assignment of a right side that is a name alone, by what the name stands for. That of a procedure is a call of
/// it.
fn assign_by(
    alloc: Global,
    scope: &Scope,
    target: &Spot,
    found: Option<Meaning>,
) -> Result<What, NoMemory>
    ensures { (e : g.Expr) → value_of_expr scope.now e ≡ read_by found None
        → IfOk result (λ w. w ≡ assign_by scope.now (seen_spot target.now) e found) }
{
    let to = target_of_spot(target, alloc, scope)?;
    match found {
        Some(
            Meaning::Procedure {
                number,
                gives: _,
                parameters: _,
            },
        ) => Ok(What::AssignCall {
            to,
            procedure: number,
            arguments: List::new(alloc),
        }),
        _ => {
            let value = read_by(alloc, found, None)?;
            Ok(What::Assign { to, value })
        }
    }
}

/// An assignment.
fn assign(alloc: Global, scope: &Scope, target: &Spot, value: &Expr) -> Result<What, NoMemory>
    ensures { IfOk result (λ w. w ≡ assign_by scope.now (seen_spot target.now) (seen_expr value.now)
        (meaning_by scope.now (name_of_expr (seen_expr value.now)))) }
{
    match name_of_expr(value) {
        None => assign_value(alloc, scope, target, value),
        Some(named) => assign_by(alloc, scope, target, meaning_of(scope, named.name)),
    }
}

/// The values of a call on a right side.
fn values_from(
    alloc: Global,
    scope: &Scope,
    first: &Expr,
    more: &[NextValue],
) -> Result<List<tal_tree::Expr>, NoMemory>
    ensures { IfOk result (λ v. v ≡ value_of_expr scope.now (seen_expr first.now)
        ∷ values_of scope.now (seen_values more.now)) }
{
    let mut values = List::new(alloc);
    let first = value_of_expr(first, alloc, scope)?;
    values.push(first)?;
    push_values(alloc, scope, &mut values, more)?;
    Ok(values)
}

fn push_assign(
    alloc: Global,
    scope: &Scope,
    walk: Walk,
    said: &Assign,
    all: &mut List<tal_tree::Statement>,
) -> Result<Walk, NoMemory>
    ensures walk { IfOk result (λ w. w ≡ next_walk walk) }
    ensures statements { OnOk result (all.new
        ≡ all.old ++ one walk (first_of_spot (seen_spot said.now.target))
        (assign_by scope.now (seen_spot said.now.target) (seen_expr said.now.value)
        (meaning_by scope.now (name_of_expr (seen_expr said.now.value))))) }
{
    let what = assign(alloc, scope, &said.target, &said.value)?;
    push_one(all, walk, said.target.at, what)?;
    Ok(stepped(walk))
}

fn push_assign_call(
    alloc: Global,
    scope: &Scope,
    walk: Walk,
    said: &AssignCall,
    all: &mut List<tal_tree::Statement>,
) -> Result<Walk, NoMemory>
    ensures walk { IfOk result (λ w. w ≡ next_walk walk) }
    ensures statements { OnOk result (all.new
        ≡ all.old ++ one walk (first_of_spot (seen_spot said.now.target))
        (what.AssignCall (target_of_spot scope.now (seen_spot said.now.target))
        (procedure_by (meaning_of scope.now said.now.name))
        (value_of_expr scope.now (seen_expr said.now.first) ∷ values_of scope.now (seen_values said.now.more)))) }
{
    let to = target_of_spot(&said.target, alloc, scope)?;
    let arguments = values_from(alloc, scope, &said.first, said.more.as_slice())?;
    let what = What::AssignCall {
        to,
        procedure: procedure_by(meaning_of(scope, said.name)),
        arguments,
    };
    push_one(all, walk, said.target.at, what)?;
    Ok(stepped(walk))
}

fn push_call(
    alloc: Global,
    scope: &Scope,
    walk: Walk,
    call: &Call,
    all: &mut List<tal_tree::Statement>,
) -> Result<Walk, NoMemory>
    ensures walk { IfOk result (λ w. w ≡ after_call walk (arguments_of (seen_arguments call.now.arguments))
        (system_of call.now.name)) }
    ensures statements { OnOk result (all.new
        ≡ all.old ++ one walk call.now.head (call_what scope.now call.now.name
        (arguments_of (seen_arguments call.now.arguments)) (system_of call.now.name))) }
{
    let system = system_of(call.name);
    let what = call_what(alloc, scope, call.name, &call.arguments, system)?;
    push_one(all, walk, call.head, what)?;
    Ok(after_call(walk, &call.arguments, system))
}

fn push_return(
    alloc: Global,
    scope: &Scope,
    walk: Walk,
    said: &Return,
    all: &mut List<tal_tree::Statement>,
) -> Result<Walk, NoMemory>
    ensures walk { IfOk result (λ w. w ≡ next_walk walk) }
    ensures statements { OnOk result (all.new
        ≡ all.old ++ one walk said.now.head (what.Return (answer_of scope.now (seen_answer said.now.answer)))) }
{
    let answer = answer_of(alloc, scope, &said.answer)?;
    push_one(all, walk, said.head, What::Return(answer))?;
    Ok(stepped(walk))
}

fn push_if(
    alloc: Global,
    scope: &Scope,
    walk: Walk,
    test: &Test,
    first: List<tal_tree::Statement>,
    second: List<tal_tree::Statement>,
    all: &mut List<tal_tree::Statement>,
) -> Result<(), NoMemory>
    ensures { OnOk result (all.new ≡ all.old
        ++ one walk test.now.head (what.If (cond_of_expr scope.now (seen_expr test.now.test)) first second)) }
{
    let head = test.head;
    let test = cond_of_expr(&test.test, alloc, scope)?;
    let what = What::If {
        test,
        yes: first,
        no: second,
    };
    push_one(all, walk, head, what)
}

fn push_while(
    alloc: Global,
    scope: &Scope,
    walk: Walk,
    test: &Test,
    body: List<tal_tree::Statement>,
    all: &mut List<tal_tree::Statement>,
) -> Result<(), NoMemory>
    ensures { OnOk result (all.new ≡ all.old
        ++ one walk test.now.head (what.While (cond_of_expr scope.now (seen_expr test.now.test)) body)) }
{
    let head = test.head;
    let test = cond_of_expr(&test.test, alloc, scope)?;
    push_one(all, walk, head, What::While { test, body })
}

/// Whether a FOR counts down.
fn is_down(direction: Direction) -> bool
    ensures { result ≡ is_down (seen_direction direction) }
{
    match direction {
        Direction::Up(_) => false,
        Direction::Down(_) => true,
    }
}

/// What a FOR adds or takes away.
fn step_of(scope: &Scope, step: &Step) -> i16
    ensures { result ≡ step_of scope.now (seen_step step.now) }
{
    match step {
        Step::One => 1,
        Step::By(_, constant) => {
            constant_value(constant, named_in(scope, atom_of(constant))).unwrap_or(1)
        }
    }
}

fn push_for(
    alloc: Global,
    scope: &Scope,
    walk: Walk,
    head: &ForHead,
    body: List<tal_tree::Statement>,
    last: u16,
    all: &mut List<tal_tree::Statement>,
) -> Result<(), NoMemory>
    ensures { OnOk result (all.new ≡ all.old
        ++ one walk head.now.head (what.For (variable_by (meaning_of scope.now head.now.name))
        (value_of_expr scope.now (seen_expr head.now.from)) (value_of_expr scope.now (seen_expr head.now.to))
        (is_down (seen_direction head.now.direction)) (step_of scope.now (seen_step head.now.step)) body last)) }
{
    let from = value_of_expr(&head.from, alloc, scope)?;
    let to = value_of_expr(&head.to, alloc, scope)?;
    let what = What::For {
        variable: variable_by(meaning_of(scope, head.name)),
        from,
        to,
        down: is_down(head.direction),
        step: step_of(scope, &head.step),
        body,
        last,
    };
    push_one(all, walk, head.head, what)
}

/// Puts a DO whose body ends before `walk`.
fn push_do(
    alloc: Global,
    scope: &Scope,
    walk: Walk,
    until: &Until,
    body: List<tal_tree::Statement>,
    all: &mut List<tal_tree::Statement>,
) -> Result<(), NoMemory>
    ensures { OnOk result (all.new ≡ all.old
        ++ one walk until.now.at (what.DoUntil body (cond_of_expr scope.now (seen_expr until.now.test)))) }
{
    let test = cond_of_expr(&until.test, alloc, scope)?;
    push_one(all, walk, until.at, What::DoUntil { body, test })
}

/// Puts what a statement stands for after what those before do, and answers what stands before the next one.
#[cycle(statement)]
pub fn push_statement(
    statement: &Statement,
    alloc: Global,
    scope: &Scope,
    walk: Walk,
    all: &mut List<tal_tree::Statement>,
) -> Result<Walk, NoMemory>
    ensures walk { IfOk result (λ w. w ≡ after scope.now walk (seen_statement statement.now)) }
    ensures statements { OnOk result (all.new
        ≡ all.old ++ statements_of scope.now walk (seen_statement statement.now)) }
{
    match statement {
        Statement::Nothing => Ok(walk),
        Statement::Block(_, first, more, _) => {
            let inside = push_statement(first.get(), alloc, scope, walk, all)?;
            let next = push_row(more.as_slice(), alloc, scope, inside, all)?;
            Ok(next)
        }
        Statement::If(test, body, otherwise) => {
            let mut first = List::new(alloc);
            let inside = push_statement(body.get(), alloc, scope, stepped(walk), &mut first)?;
            let mut second = List::new(alloc);
            let next = push_else(otherwise, alloc, scope, inside, &mut second)?;
            push_if(alloc, scope, walk, test.get(), first, second, all)?;
            Ok(next)
        }
        Statement::While(test, body) => {
            let mut inner = List::new(alloc);
            let next = push_statement(body.get(), alloc, scope, stepped(walk), &mut inner)?;
            push_while(alloc, scope, walk, test.get(), inner, all)?;
            Ok(next)
        }
        Statement::For(head, body) => {
            let mut inner = List::new(alloc);
            let inside = stepped(stepped(walk));
            let last = push_statement(body.get(), alloc, scope, inside, &mut inner)?;
            push_for(alloc, scope, walk, head.get(), inner, last.number, all)?;
            Ok(stepped(last))
        }
        Statement::DoUntil(body, until) => {
            let mut inner = List::new(alloc);
            let last = push_statement(body.get(), alloc, scope, inside_do(walk), &mut inner)?;
            push_do(alloc, scope, last, until.get(), inner, all)?;
            Ok(stepped(last))
        }
        Statement::Call(call) => push_call(alloc, scope, walk, call.get(), all),
        Statement::Return(said) => push_return(alloc, scope, walk, said.get(), all),
        Statement::Assign(said) => push_assign(alloc, scope, walk, said.get(), all),
        Statement::AssignCall(said) => push_assign_call(alloc, scope, walk, said.get(), all),
    }
}

#[cycle(statement)]
fn push_else(
    otherwise: &Otherwise,
    alloc: Global,
    scope: &Scope,
    walk: Walk,
    all: &mut List<tal_tree::Statement>,
) -> Result<Walk, NoMemory>
    ensures walk { IfOk result (λ w. w ≡ after_else scope.now walk (seen_otherwise otherwise.now)) }
    ensures statements { OnOk result (all.new
        ≡ all.old ++ else_statements scope.now walk (seen_otherwise otherwise.now)) }
{
    match otherwise {
        Otherwise::Absent => Ok(walk),
        Otherwise::Else(_, body) => {
            let next = push_statement(body.get(), alloc, scope, walk, all)?;
            Ok(next)
        }
    }
}

/// Puts what a row of statements stands for after what those before do, and answers what stands before the next one.
#[cycle(statement)]
pub fn push_row(
    more: &[Next],
    alloc: Global,
    scope: &Scope,
    walk: Walk,
    all: &mut List<tal_tree::Statement>,
) -> Result<Walk, NoMemory>
    ensures walk { IfOk result (λ w. w ≡ after_row scope.now walk (seen_row more.now)) }
    ensures statements { OnOk result (all.new ≡ all.old ++ row_statements scope.now walk (seen_row more.now)) }
{
    let mut walk = walk;
    for next in more {
        walk = push_statement(&next.statement, alloc, scope, walk, all)?;
    }
    Ok(walk)
}
