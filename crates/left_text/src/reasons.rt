ghost use Rattle.std.specs.Fmt.{signed_decimal};
ghost use Rattle.std.specs.Prelude.{◌≡◌, ◌++◌, OnOk};
ghost use Rattle.left_text.specs.LeftText.{after_text, bad_count_text, bounds_text, end_text, index_text, lost_text};
ghost use Rattle.left_text.specs.LeftText.{no_element_text, reason_text, target_text, trap_text, value_text, why_text};

use gd_words::{List, NoMemory, decimal_of};
use left_findings::Stand;
use program_ends::{LastStep, Trap};
use text_pieces::put;
use value_traps::ValueTrap;

/// Puts behind the text why a process has ended, if it has, and that the request which it has in hand gets no reply.
pub(crate) fn put_after(
    text: &mut List<u8>,
    step: Option<LastStep>,
    in_hand: bool,
    stand: Stand,
) -> Result<(), NoMemory>
    ensures { OnOk result (text.new ≡ text.old ++ after_text step in_hand stand) }
{
    match stand {
        Stand::Ended => put_end(text, step, in_hand),
        Stand::AtAwait(_) => Ok(()),
        Stand::AtAcknowledgement(_) => Ok(()),
        Stand::AtTakeover => Ok(()),
        Stand::AtTake => Ok(()),
        Stand::CanStep => Ok(()),
    }
}

fn put_end(text: &mut List<u8>, step: Option<LastStep>, in_hand: bool) -> Result<(), NoMemory>
    ensures { OnOk result (text.new ≡ text.old ++ end_text step in_hand) }
{
    put_reason(text, step)?;
    put(text, lost_text(in_hand))
}

fn lost_text(in_hand: bool) -> &'static [u8]
    ensures { result.now ≡ lost_text in_hand }
{
    if in_hand {
        b"         the request that it has in hand gets no reply\n"
    } else {
        b""
    }
}

/// Puts behind the text why a process has ended, if that isn't told yet.
fn put_reason(text: &mut List<u8>, step: Option<LastStep>) -> Result<(), NoMemory>
    ensures { OnOk result (text.new ≡ text.old ++ reason_text step) }
{
    match step {
        None => Ok(()),
        Some(step) => put_why(text, step),
    }
}

fn put_why(text: &mut List<u8>, step: LastStep) -> Result<(), NoMemory>
    ensures { OnOk result (text.new ≡ text.old ++ why_text step) }
{
    match step {
        LastStep::MainEnded => Ok(()),
        LastStep::Stopped(_) => Ok(()),
        LastStep::Returned(_) => Ok(()),
        LastStep::Trapped { line: _, trap } => put_trap(text, trap),
        LastStep::TrappedAtEnd(target) => put_target(text, target.met),
    }
}

fn put_trap(text: &mut List<u8>, trap: Trap) -> Result<(), NoMemory>
    ensures { OnOk result (text.new ≡ text.old ++ trap_text trap) }
{
    match trap {
        Trap::NothingInHand => put(text, b"         no request is in hand\n"),
        Trap::RequestInHand => put(text, b"         a request is in hand already\n"),
        Trap::Value(trap) => put_value(text, trap),
        Trap::Count { count, most } => put_bad_count(text, count, most),
        Trap::Target(trap) => put_no_element(text, trap),
    }
}

/// Puts a count behind the text, and the most that its array lets it be.
fn put_bad_count(text: &mut List<u8>, count: i16, most: i16) -> Result<(), NoMemory>
    ensures { OnOk result (text.new ≡ text.old ++ bad_count_text count most) }
{
    put(text, b"         count ")?;
    put_word(text, count)?;
    put_bounds(text, 0, most)
}

fn put_no_element(text: &mut List<u8>, trap: ValueTrap) -> Result<(), NoMemory>
    ensures { OnOk result (text.new ≡ text.old ++ no_element_text trap) }
{
    put(
        text,
        b"         its word goes to an element that isn't there\n",
    )?;
    put_target(text, trap)
}

/// Puts behind the text why the element isn't there to which a procedure gives its word.
fn put_target(text: &mut List<u8>, trap: ValueTrap) -> Result<(), NoMemory>
    ensures { OnOk result (text.new ≡ text.old ++ target_text trap) }
{
    match trap {
        ValueTrap::ZeroDivisor => put(text, b"         the index of that element divides by 0\n"),
        ValueTrap::Index { index, low, high } => put_index(text, index, low, high),
        ValueTrap::NotThere => Ok(()),
    }
}

fn put_value(text: &mut List<u8>, trap: ValueTrap) -> Result<(), NoMemory>
    ensures { OnOk result (text.new ≡ text.old ++ value_text trap) }
{
    match trap {
        ValueTrap::ZeroDivisor => put(text, b"         it divides by 0\n"),
        ValueTrap::Index { index, low, high } => put_index(text, index, low, high),
        ValueTrap::NotThere => put(text, b"         what it names isn't there\n"),
    }
}

fn put_index(text: &mut List<u8>, index: i16, low: i16, high: i16) -> Result<(), NoMemory>
    ensures { OnOk result (text.new ≡ text.old ++ index_text index low high) }
{
    put(text, b"         index ")?;
    put_word(text, index)?;
    put_bounds(text, low, high)
}

fn put_bounds(text: &mut List<u8>, low: i16, high: i16) -> Result<(), NoMemory>
    ensures { OnOk result (text.new ≡ text.old ++ bounds_text low high) }
{
    put(text, b" is out of the bounds ")?;
    put_word(text, low)?;
    put(text, b" to ")?;
    put_word(text, high)?;
    put(text, b"\n")
}

/// Puts a word in decimal digits behind the text, with its sign if it is below 0.
fn put_word(text: &mut List<u8>, word: i16) -> Result<(), NoMemory>
    ensures { OnOk result (text.new ≡ text.old ++ signed_decimal word) }
{
    put(text, decimal_of(i64::from(word)).bytes())
}
