ghost use Rattle.std.specs.Prelude.{◌≡◌, ℕ, ◌∷◌, []};
ghost use Rattle.process_semantics.specs.Rests.{next_number, rests, rests_before, rests_in};
ghost use Rattle.process_semantics.specs.State.{Run, Test, Last};
ghost use Rattle.discipline.specs.Finding.{IsFirstNumber, IsFoundIn};

use process_semantics::Entry;
use tal_tree::{Statement, What};

/// An entry that is found by its number, and the number that comes after it in its procedure, 0 at the end.
#[derive(Clone, Copy)]
pub(crate) struct Found<'a> {
    pub(crate) entry: Entry<'a>,
    pub(crate) after: u32,
}

/// The number with which statements begin, or what comes after them where there are none.
#[cycle(first)]
pub(crate) fn first_number(statements: &[Statement], after: u32) -> u32
    ensures { IsFirstNumber statements.now after result }
{
    match statements.first() {
        None => after,
        Some(statement) => first_of(statement),
    }
}

/// The number with which a statement begins: that of a DO's body, else its own.
#[cycle(first)]
fn first_of(statement: &Statement) -> u32
    ensures { (after : ℕ) → IsFirstNumber (statement.now ∷ []) after result }
{
    match &statement.what {
        What::DoUntil { body, test: _ } => {
            first_number(body.as_slice(), u32::from(statement.number))
        }
        What::Assign { .. }
        | What::AssignCall { .. }
        | What::If { .. }
        | What::While { .. }
        | What::For { .. }
        | What::Call { .. }
        | What::Return(_)
        | What::ReadUpdate { .. }
        | What::Reply { .. }
        | What::WriteRead { .. }
        | What::Checkpoint { .. }
        | What::CheckMonitor
        | What::Open(_)
        | What::Stop => u32::from(statement.number),
    }
}

/// The entry of a number in statements, at any level, after which this number comes.
#[cycle(find)]
pub(crate) fn find(statements: &[Statement], after: u32, number: u32) -> Option<Found<'_>>
    ensures { IsFoundIn (rests statements.now) after number result }
{
    for (k, statement) in statements.iter().enumerate() {
        let (_, others) = statements.split_at(k + 1);
        let next = first_number(others, after);
        if let Some(found) = find_in(statement, next, number) {
            return Some(found);
        }
    }
    None
}

/// The entry of a number in one statement: among those before its own, its own, and those inside it.
#[cycle(find)]
fn find_in(statement: &Statement, after: u32, number: u32) -> Option<Found<'_>>
    ensures { IsFoundIn (rests (statement.now ∷ [])) after number result }
{
    if let Some(found) = find_before(statement, number) {
        return Some(found);
    }
    if let Some(found) = find_own(statement, after, number) {
        return Some(found);
    }
    find_within(statement, after, number)
}

/// The entry of a number among those that come before a statement's own, which are those of a DO's body.
#[cycle(find)]
fn find_before(statement: &Statement, number: u32) -> Option<Found<'_>>
    ensures { (after : ℕ)
        → IsFoundIn (λ later. rests_before statement.now.what (Run statement.now ∷ later)) after number result }
{
    match &statement.what {
        What::DoUntil { body, test: _ } => {
            find(body.as_slice(), u32::from(statement.number), number)
        }
        What::Assign { .. }
        | What::AssignCall { .. }
        | What::If { .. }
        | What::While { .. }
        | What::For { .. }
        | What::Call { .. }
        | What::Return(_)
        | What::ReadUpdate { .. }
        | What::Reply { .. }
        | What::WriteRead { .. }
        | What::Checkpoint { .. }
        | What::CheckMonitor
        | What::Open(_)
        | What::Stop => None,
    }
}

/// The entry of a number among those inside a statement that come after its own.
#[cycle(find)]
fn find_within(statement: &Statement, after: u32, number: u32) -> Option<Found<'_>>
    ensures { IsFoundIn (rests_in statement.now.what statement.now) after number result }
{
    match &statement.what {
        What::If { test: _, yes, no } => match find(yes.as_slice(), after, number) {
            Some(found) => Some(found),
            None => find(no.as_slice(), after, number),
        },
        What::While { test: _, body } => {
            find(body.as_slice(), u32::from(statement.number), number)
        }
        What::For {
            variable: _,
            from: _,
            to: _,
            down: _,
            step: _,
            body,
            last,
        } => match find_test(statement, after, number) {
            Some(found) => Some(found),
            None => match find(body.as_slice(), u32::from(*last), number) {
                Some(found) => Some(found),
                None => find_last(statement, u32::from(*last), number),
            },
        },
        What::Assign { .. }
        | What::AssignCall { .. }
        | What::DoUntil { .. }
        | What::Call { .. }
        | What::Return(_)
        | What::ReadUpdate { .. }
        | What::Reply { .. }
        | What::WriteRead { .. }
        | What::Checkpoint { .. }
        | What::CheckMonitor
        | What::Open(_)
        | What::Stop => None,
    }
}

/// A statement's own entry, where it has this number.
fn find_own(statement: &Statement, after: u32, number: u32) -> Option<Found<'_>>
    ensures { IsFoundIn (λ later. (Run statement.now ∷ later) ∷ []) after number result }
{
    if u32::from(statement.number) == number {
        let entry = Entry::Run(statement);
        Some(Found { entry, after })
    } else {
        None
    }
}

/// The test of a FOR, where it has this number.
fn find_test(statement: &Statement, after: u32, number: u32) -> Option<Found<'_>>
    ensures { IsFoundIn (λ later. (Test statement.now ∷ later) ∷ []) after number result }
{
    if u32::from(statement.number) + 1 == number {
        let entry = Entry::Test(statement);
        Some(Found { entry, after })
    } else {
        None
    }
}

/// The last assignment of a FOR, where it has this number.
fn find_last(statement: &Statement, last: u32, number: u32) -> Option<Found<'_>>
    requires { last ≡ next_number (Last statement.now ∷ []) }
    ensures { (after : ℕ) → IsFoundIn (λ later. (Last statement.now ∷ Test statement.now ∷ later) ∷ []) after number
        result }
{
    if last == number {
        let entry = Entry::Last(statement);
        let after = u32::from(statement.number) + 1;
        Some(Found { entry, after })
    } else {
        None
    }
}
