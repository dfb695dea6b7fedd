ghost use Rattle.std.specs.Prelude.{◌≡◌, ◌++◌, OnOk};
ghost use Rattle.finding_text.specs.Sentences.{hint_text, broken_text, data_text, depth_text, input_text, refusal_text};
ghost use Rattle.finding_text.specs.Sentences.{cause_text, hint_of, reason_text, size_text, sync_text, too_deep_text};

use crate::names::{put_file, put_item};
use gd_words::{List, NoMemory};
use path_semantics::{Reason, RefusalFault};
use tal_tree::Program;
use text_pieces::{put, put_number};

/// Puts the cause for which the program of a pair is refused behind the text, as a sentence without a point.
pub(crate) fn put_refusal(
    text: &mut List<u8>,
    name: &[u8],
    program: &Program,
    refusal: &RefusalFault,
) -> Result<(), NoMemory>
    ensures { OnOk result (text.new ≡ text.old ++ refusal_text name.now program.now refusal.now) }
{
    match refusal {
        RefusalFault::TooDeep => put_too_deep(text, name),
        RefusalFault::TooLarge(size) => put_size(text, name, *size),
        RefusalFault::Broken { reason, path: _ } => put_broken(text, name, program, *reason),
        RefusalFault::NoMemory(_) => Ok(()),
    }
}

fn put_too_deep(text: &mut List<u8>, name: &[u8]) -> Result<(), NoMemory>
    ensures { OnOk result (text.new ≡ text.old ++ too_deep_text name.now) }
{
    put(text, b"the calls of ")?;
    put(text, name)?;
    put(text, b" go more than 16 procedures deep")
}

fn put_size(text: &mut List<u8>, name: &[u8], size: u32) -> Result<(), NoMemory>
    ensures { OnOk result (text.new ≡ text.old ++ size_text name.now size) }
{
    put(text, b"with its calls written out ")?;
    put(text, name)?;
    put(text, b" has ")?;
    put_number(text, u64::from(size))?;
    put(text, b" statements, and 8,192 is the limit")
}

fn put_broken(
    text: &mut List<u8>,
    name: &[u8],
    program: &Program,
    reason: Reason,
) -> Result<(), NoMemory>
    ensures { OnOk result (text.new ≡ text.old ++ broken_text name.now program.now reason) }
{
    match reason {
        Reason::Data(item) => put_data(text, name, program, item),
        Reason::SyncBlock(file) => put_sync(text, name, program, file),
        Reason::Input => put_input(text, name),
        Reason::Depth(file) => put_depth(text, name, program, file),
    }
}

fn put_data(text: &mut List<u8>, name: &[u8], program: &Program, item: u16) -> Result<(), NoMemory>
    ensures { OnOk result (text.new ≡ text.old ++ data_text name.now program.now item) }
{
    put(text, b"a CHECKPOINT of ")?;
    put(text, name)?;
    put(text, b" doesn't name ")?;
    put_item(text, program, item)?;
    put(text, b", which was set before it")
}

fn put_sync(text: &mut List<u8>, name: &[u8], program: &Program, file: u8) -> Result<(), NoMemory>
    ensures { OnOk result (text.new ≡ text.old ++ sync_text name.now program.now file) }
{
    put(text, b"a CHECKPOINT of ")?;
    put(text, name)?;
    put(text, b" doesn't name the file ")?;
    put_file(text, program, usize::from(file))?;
    put(text, b", which was asked before it")
}

fn put_input(text: &mut List<u8>, name: &[u8]) -> Result<(), NoMemory>
    ensures { OnOk result (text.new ≡ text.old ++ input_text name.now) }
{
    put(text, name)?;
    put(
        text,
        b" asks or replies on a request that it has read, and no CHECKPOINT comes between",
    )
}

fn put_depth(text: &mut List<u8>, name: &[u8], program: &Program, file: u8) -> Result<(), NoMemory>
    ensures { OnOk result (text.new ≡ text.old ++ depth_text name.now program.now file) }
{
    put(text, name)?;
    put(text, b" asks the file ")?;
    put_file(text, program, usize::from(file))?;
    put(
        text,
        b" more often than its OPEN keeps replies, and no CHECKPOINT comes between",
    )
}

/// What is lost, and what often helps.
pub(crate) fn hint_of(refusal: &RefusalFault) -> &'static [u8]
    ensures { result.now ≡ hint_of refusal.now }
{
    match refusal {
        RefusalFault::TooDeep => b"write the statements of a procedure where it is called",
        RefusalFault::TooLarge(_) =>
            b"call a procedure in a loop in place of many times, or from fewer places",
        RefusalFault::Broken { reason, path: _ } => hint_text(*reason),
        RefusalFault::NoMemory(_) => b"",
    }
}

fn hint_text(reason: Reason) -> &'static [u8]
    ensures { result.now ≡ hint_text reason }
{
    match reason {
        Reason::Data(_) =>
            b"a backup that takes over here has the old value; name it, or make it a local of its PROC",
        Reason::SyncBlock(_) =>
            b"a backup that takes over here numbers its next request as this one was numbered",
        Reason::Input =>
            b"a backup that takes over here takes the same request once more, and does it twice",
        Reason::Depth(_) =>
            b"a backup that takes over here asks all of them again, and the first reply is kept no more",
    }
}

/// Puts the cause as `guardian` writes it behind the text.
pub(crate) fn put_cause(
    text: &mut List<u8>,
    program: &Program,
    refusal: &RefusalFault,
) -> Result<(), NoMemory>
    ensures { OnOk result (text.new ≡ text.old ++ cause_text program.now refusal.now) }
{
    match refusal {
        RefusalFault::TooDeep => put(text, b"TooDeep"),
        RefusalFault::TooLarge(size) => {
            put(text, b"TooLarge ")?;
            put_number(text, u64::from(*size))
        }
        RefusalFault::Broken { reason, path: _ } => put_reason(text, program, *reason),
        RefusalFault::NoMemory(_) => Ok(()),
    }
}

fn put_reason(text: &mut List<u8>, program: &Program, reason: Reason) -> Result<(), NoMemory>
    ensures { OnOk result (text.new ≡ text.old ++ reason_text program.now reason) }
{
    match reason {
        Reason::Data(item) => {
            put(text, b"Data ")?;
            put_item(text, program, item)
        }
        Reason::SyncBlock(file) => {
            put(text, b"SyncBlock ")?;
            put_file(text, program, usize::from(file))
        }
        Reason::Input => put(text, b"Input"),
        Reason::Depth(file) => {
            put(text, b"Depth ")?;
            put_file(text, program, usize::from(file))
        }
    }
}
