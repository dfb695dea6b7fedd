ghost use Rattle.std.specs.Prelude.{◌≡◌, ◌≤◌, ◌+◌, min, Some};
ghost use Rattle.std.specs.Option.{option_copied};
ghost use Rattle.gd_words.specs.Members.{is_among};
ghost use Rattle.tal_tree.specs.declared.statement.What.{out-What};
ghost use Rattle.path_semantics.specs.process_semantics.specs.SeenEntries.{entry_of};
ghost use Rattle.path_semantics.specs.Dues.{global_of_spot, global_of, changed_by, changed_by_return, target_of, reads};
ghost use Rattle.reason_dues.specs.Amounts.{clears, adds, adds_changed, one_more, after_what, after_changed};
ghost use Rattle.reason_dues.specs.Amounts.{after_entry, may_break_at, depth_in, most_of};
ghost use Rattle.gd_words.specs.declared.limits.TheConstants.{MOST_DEPTH};

use path_semantics::{Entry, Reason, asks, may_break};
use tal_tree::{FileUse, Program, Spot, Variable, What};

/// How much is due after an entry.
#[inline(always)]
pub fn after_entry(reason: Reason, entry: Entry<'_>, due: u8) -> u8
    requires { due ≤ MOST_DEPTH }
    ensures value { result ≡ after_entry reason (entry_of entry.entry) due }
    ensures most { result ≤ MOST_DEPTH + 1 }
{
    match entry {
        Entry::Run(statement) => after_what(reason, &statement.what, due),
        Entry::Test(_) => due,
        Entry::Last(statement) => after_last(reason, &statement.what, due),
    }
}

#[inline(always)]
fn after_what(reason: Reason, what: &What, due: u8) -> u8
    requires { due ≤ MOST_DEPTH }
    ensures value { result ≡ after_what reason (out-What what.now) due }
    ensures most { result ≤ MOST_DEPTH + 1 }
{
    if clears(what) {
        0
    } else if adds(reason, what) {
        one_more(reason, due)
    } else {
        due
    }
}

#[inline(always)]
fn one_more(reason: Reason, due: u8) -> u8
    requires { due ≤ MOST_DEPTH }
    ensures value { result ≡ one_more reason due }
    ensures most { result ≤ MOST_DEPTH + 1 }
{
    match reason {
        Reason::Depth(_) => due + 1,
        _ => 1,
    }
}

#[inline(always)]
fn after_last(reason: Reason, what: &What, due: u8) -> u8
    requires { due ≤ MOST_DEPTH }
    ensures value { result ≡ after_changed reason (changed_by (out-What what.now)) due }
    ensures most { result ≤ MOST_DEPTH + 1 }
{
    if adds_last(reason, what) { 1 } else { due }
}

/// Whether the last assignment of a FOR adds to what is due.
#[inline(always)]
fn adds_last(reason: Reason, what: &What) -> bool
    ensures { result ≡ adds_changed reason (changed_by (out-What what.now)) }
{
    match reason {
        Reason::Data(item) => changes(what, item),
        _ => false,
    }
}

/// How much is due after a change of these globals, at most as much as breaks.
#[inline(always)]
pub fn cut_changed(reason: Reason, most: u8, globals: &[u16], due: u8) -> u8
    ensures { result ≡ min most (after_changed reason globals.now due) }
{
    let after = if adds_changed(reason, globals) {
        1
    } else {
        due
    };
    most.min(after)
}

/// How much is due after a return to a frame with this next entry, at most as much as breaks.
pub fn after_return(reason: Reason, most: u8, entry: Entry<'_>, due: u8) -> u8
    ensures { result ≡ min most (after_changed reason (changed_by_return (Some (entry_of entry.entry))) due) }
{
    let after = if returns_to(reason, entry) { 1 } else { due };
    most.min(after)
}

fn returns_to(reason: Reason, entry: Entry<'_>) -> bool
    ensures { result ≡ adds_changed reason (changed_by_return (Some (entry_of entry.entry))) }
{
    match entry {
        Entry::Run(statement) => gives_to(reason, &statement.what),
        _ => adds_changed(reason, &[]),
    }
}

fn gives_to(reason: Reason, what: &What) -> bool
    ensures { result ≡ adds_changed reason (target_of (out-What what.now)) }
{
    match reason {
        Reason::Data(item) => match what {
            What::AssignCall {
                to,
                procedure: _,
                arguments: _,
            } => is_in(to, item),
            _ => false,
        },
        _ => false,
    }
}

/// Whether a change of these globals adds to what is due.
#[inline(always)]
pub(crate) fn adds_changed(reason: Reason, globals: &[u16]) -> bool
    ensures { result ≡ adds_changed reason globals.now }
{
    match reason {
        Reason::Data(item) => has(globals, item),
        _ => false,
    }
}

/// How much is due where a reason breaks.
pub fn most_of(program: &Program, reason: Reason) -> u8
    ensures { result ≡ most_of program.now reason }
{
    match reason {
        Reason::Depth(file) => depth_in(program.files.get(usize::from(file))),
        _ => 1,
    }
}

fn depth_in(file: Option<&FileUse>) -> u8
    ensures { result ≡ depth_in (option_copied file.entry) }
{
    match file {
        None => 0,
        Some(file) => file.depth,
    }
}

/// Whether a global is one of these. Mostly there are none.
#[inline(always)]
fn has(globals: &[u16], item: u16) -> bool
    ensures { result ≡ is_among item globals.now }
{
    if globals.is_empty() {
        false
    } else {
        globals.contains(&item)
    }
}

/// Whether an entry breaks where enough is due.
#[inline(always)]
pub fn may_break_at(reason: Reason, entry: Entry<'_>) -> bool
    ensures { result ≡ may_break_at reason (entry_of entry.entry) }
{
    match entry {
        Entry::Run(statement) => may_break(reason, &statement.what),
        _ => false,
    }
}

/// Whether a statement adds to what is due.
#[inline(always)]
fn adds(reason: Reason, what: &What) -> bool
    ensures { result ≡ adds reason (out-What what.now) }
{
    match reason {
        Reason::Data(item) => changes(what, item),
        Reason::SyncBlock(file) => asks(what, file),
        Reason::Input => reads(what),
        Reason::Depth(file) => asks(what, file),
    }
}

#[inline(always)]
fn clears(what: &What) -> bool
    ensures { result ≡ clears (out-What what.now) }
{
    match what {
        What::Checkpoint { items: _, files: _ } => true,
        _ => false,
    }
}

#[inline(always)]
pub(crate) fn reads(what: &What) -> bool
    ensures { result ≡ reads (out-What what.now) }
{
    match what {
        What::ReadUpdate {
            buffer: _,
            most: _,
            got: _,
        } => true,
        _ => false,
    }
}

#[inline(always)]
fn changes(what: &What, item: u16) -> bool
    ensures { result ≡ is_among item (changed_by (out-What what.now)) }
{
    match what {
        What::Assign { to, value: _ } => is_in(to, item),
        What::For {
            variable,
            from: _,
            to: _,
            down: _,
            step: _,
            body: _,
            last: _,
        } => is_global(*variable, item),
        What::ReadUpdate {
            buffer,
            most: _,
            got,
        } => *buffer == item || is_global(*got, item),
        What::WriteRead {
            file: _,
            buffer,
            send: _,
            room: _,
            got,
        } => *buffer == item || is_global(*got, item),
        _ => false,
    }
}

#[inline(always)]
fn is_in(spot: &Spot, item: u16) -> bool
    ensures { result ≡ is_among item (global_of_spot spot.now) }
{
    match spot {
        Spot::Local(_) => false,
        Spot::Simple(global) => *global == item,
        Spot::Element {
            item: global,
            index: _,
        } => *global == item,
    }
}

#[inline(always)]
fn is_global(variable: Variable, item: u16) -> bool
    ensures { result ≡ is_among item (global_of variable) }
{
    match variable {
        Variable::Local(_) => false,
        Variable::Simple(global) => global == item,
    }
}
