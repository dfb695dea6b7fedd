ghost use Rattle.std.specs.Prelude.{◌≡◌, ◌==◌, count_by};
ghost use Rattle.std.specs.Option.{option_copied};
ghost use Rattle.tal_tree.specs.declared.statement.What.{out-What};
ghost use Rattle.gd_words.specs.Members.{is_among};
ghost use Rattle.path_semantics.specs.Dues.{asked_by};
ghost use Rattle.path_semantics.specs.Break.{asked_count, is_reached, omits_item, omits_file, sends, may_break};
ghost use Rattle.path_semantics.specs.Break.{is_enough, breaks_by, breaks_at};

use crate::dues::Dues;
use crate::reason::Reason;
use crate::stand::Stand;
use process_semantics::Entry;
use tal_tree::{FileUse, Program, What};

impl<'a> Stand<'a> {
    /// Whether the next entry breaks for a reason.
    pub(crate) fn breaks(&self, program: &Program, reason: Reason) -> bool
        ensures { result ≡ breaks_at program.now reason self.now }
    {
        match self.next() {
            Some(Entry::Run(statement)) => breaks_by(program, reason, self.dues(), &statement.what),
            _ => false,
        }
    }
}

fn breaks_by(program: &Program, reason: Reason, dues: &Dues, what: &What) -> bool
    ensures { result ≡ breaks_by program.now reason dues.now (out-What what.now) }
{
    may_break(reason, what) && is_enough(program, reason, dues)
}

/// Whether a statement breaks for a reason where enough is due.
#[inline(always)]
pub fn may_break(reason: Reason, what: &What) -> bool
    ensures { result ≡ may_break reason (out-What what.now) }
{
    match reason {
        Reason::Data(item) => omits_item(what, item),
        Reason::SyncBlock(file) => omits_file(what, file),
        Reason::Input => sends(what),
        Reason::Depth(file) => asks(what, file),
    }
}

/// Whether enough is due for a reason to break.
fn is_enough(program: &Program, reason: Reason, dues: &Dues) -> bool
    ensures { result ≡ is_enough program.now reason dues.now }
{
    match reason {
        Reason::Data(item) => has_item(dues.globals.as_slice(), item),
        Reason::SyncBlock(file) => has_file(dues.asked.as_slice(), file),
        Reason::Input => dues.read,
        Reason::Depth(file) => {
            let count = asked_count(dues, file);
            is_reached(program.files.get(usize::from(file)), count)
        }
    }
}

fn omits_item(what: &What, item: u16) -> bool
    ensures { result ≡ omits_item item (out-What what.now) }
{
    match what {
        What::Checkpoint { items, files: _ } => {
            let named = has_item(items.as_slice(), item);
            !named
        }
        _ => false,
    }
}

fn omits_file(what: &What, file: u8) -> bool
    ensures { result ≡ omits_file file (out-What what.now) }
{
    match what {
        What::Checkpoint { items: _, files } => {
            let named = has_file(files.as_slice(), file);
            !named
        }
        _ => false,
    }
}

/// Whether a statement is a WRITEREAD or a REPLY.
#[inline(always)]
pub fn sends(what: &What) -> bool
    ensures { result ≡ sends (out-What what.now) }
{
    match what {
        What::WriteRead {
            file: _,
            buffer: _,
            send: _,
            room: _,
            got: _,
        } => true,
        What::Reply {
            buffer: _,
            count: _,
        } => true,
        _ => false,
    }
}

/// Whether a statement is a WRITEREAD on this file.
#[inline(always)]
pub fn asks(what: &What, file: u8) -> bool
    ensures { result ≡ is_among file (asked_by (out-What what.now)) }
{
    match what {
        What::WriteRead {
            file: asked,
            buffer: _,
            send: _,
            room: _,
            got: _,
        } => *asked == file,
        _ => false,
    }
}

fn has_item(items: &[u16], item: u16) -> bool
    ensures { result ≡ is_among item items.now }
{
    items.contains(&item)
}

fn has_file(files: &[u8], file: u8) -> bool
    ensures { result ≡ is_among file files.now }
{
    files.contains(&file)
}

fn asked_count(dues: &Dues, file: u8) -> usize
    ensures { result ≡ asked_count file dues.now }
{
    let asked = dues.asked.as_slice();
    asked.iter().filter(|one| **one == file).count()
}

fn is_reached(file: Option<&FileUse>, count: usize) -> bool
    ensures { result ≡ is_reached (option_copied file.entry) count }
{
    match file {
        None => false,
        Some(file) => usize::from(file.depth) <= count,
    }
}
