ghost use Rattle.std.specs.Prelude.{◌≡◌, ◌++◌, OnOk};
ghost use Rattle.left_text.specs.LeftText.{answered_text, end_of_terminal, terminal_line, terminal_lines};
ghost use Rattle.left_text.specs.LeftText.{unanswered_text};

use gd_words::{List, NoMemory};
use left_findings::TerminalLeft;
use tal_tree::TerminalSpec;
use text_pieces::{put, put_number};

/// Puts a line for each terminal behind the text.
pub(crate) fn put_terminals(
    text: &mut List<u8>,
    specs: &[TerminalSpec],
    all: &[TerminalLeft],
) -> Result<(), NoMemory>
    ensures { OnOk result (text.new ≡ text.old ++ terminal_lines specs.now all.now) }
{
    let mut specs_left = specs;
    let mut all_left = all;
    while let Some((spec, later_specs)) = specs_left.split_first() {
        let Some((one, later)) = all_left.split_first() else {
            return Ok(());
        };
        put_terminal(text, spec.name.text(), *one)?;
        specs_left = later_specs;
        all_left = later;
    }
    Ok(())
}

fn put_terminal(text: &mut List<u8>, name: &[u8], left: TerminalLeft) -> Result<(), NoMemory>
    ensures { OnOk result (text.new ≡ text.old ++ terminal_line name.now left) }
{
    put(text, name)?;
    put_end(text, left)
}

fn put_end(text: &mut List<u8>, left: TerminalLeft) -> Result<(), NoMemory>
    ensures { OnOk result (text.new ≡ text.old ++ end_of_terminal left) }
{
    match left {
        TerminalLeft::Unanswered(number) => put_unanswered(text, number),
        TerminalLeft::Answered(count) => put_answered(text, count),
    }
}

fn put_unanswered(text: &mut List<u8>, number: u32) -> Result<(), NoMemory>
    ensures { OnOk result (text.new ≡ text.old ++ unanswered_text number) }
{
    put(text, b": request ")?;
    put_number(text, u64::from(number))?;
    put(text, b" has no reply\n")
}

fn put_answered(text: &mut List<u8>, count: u32) -> Result<(), NoMemory>
    ensures { OnOk result (text.new ≡ text.old ++ answered_text count) }
{
    put(text, b": all that it entered has its reply, requests: ")?;
    put_number(text, u64::from(count))?;
    put(text, b"\n")
}
