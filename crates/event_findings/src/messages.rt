ghost use Rattle.std.specs.Prelude.{◌≡◌, ◌≤◌};
ghost use Rattle.packet_words.specs.Telling.{number_at};
ghost use Rattle.event_findings.specs.Messages as spec;
ghost use Rattle.event_findings.specs.Messages.{asker_in, checkpoint_in, long_at, name_of, silent_in, small_at};

use alive_regroup::ProcessorSet;
use machine_views::{Machine, set_of};
use tal_tree::Who;
use trace_lines::MessageName;

/// The message that words are of, or the first of its words.
pub(crate) fn message_named(machine: &Machine, words: &[i16]) -> Option<MessageName>
    ensures { result ≡ spec.message_named machine.now.state.site words.now }
{
    name_of(machine, words, number_at(0, words))
}

/// The message of a kind.
fn name_of(machine: &Machine, words: &[i16], kind: u16) -> Option<MessageName>
    ensures { result ≡ name_of machine.now.state.site words.now kind }
{
    match kind {
        1 => Some(MessageName::Request {
            asker: asker_in(machine, words),
            process: small_at(1, words),
            number: long_at(3, words),
        }),
        2 => Some(MessageName::Reply {
            asker: asker_in(machine, words),
            process: small_at(1, words),
            number: long_at(3, words),
        }),
        3 => Some(checkpoint_in(words)),
        4 => Some(MessageName::Taken {
            process: small_at(1, words),
            era: long_at(2, words),
            number: long_at(4, words),
        }),
        5 => Some(MessageName::Report {
            node: small_at(1, words),
            silent: silent_in(words),
        }),
        6 => Some(MessageName::Down(small_at(1, words))),
        7 => Some(checkpoint_in(words)),
        _ => None,
    }
}

/// A checkpoint, whole or as what changed.
fn checkpoint_in(words: &[i16]) -> MessageName
    ensures { result ≡ checkpoint_in words.now }
{
    MessageName::Checkpoint {
        process: small_at(1, words),
        era: long_at(2, words),
        number: long_at(4, words),
    }
}

/// Who opens a process at the place that words name.
fn asker_in(machine: &Machine, words: &[i16]) -> Option<Who>
    ensures { result ≡ asker_in machine.now.state.site words.now }
{
    machine.opener_at(small_at(1, words), number_at(2, words))
}

/// The processors that a report has.
fn silent_in(words: &[i16]) -> ProcessorSet
    ensures { result ≡ silent_in words.now }
{
    set_of(number_at(2, words))
}

/// A number of two words.
fn long_at(place: usize, words: &[i16]) -> u32
    requires { place ≤ 4 }
    ensures { result ≡ long_at place words.now }
{
    u32::from(number_at(place, words)) * 65_536 + u32::from(number_at(place + 1, words))
}

/// The number of a process or a node.
fn small_at(place: usize, words: &[i16]) -> u8
    ensures { result ≡ small_at place words.now }
{
    (number_at(place, words) % 256) as u8
}

/// The number of the pattern at a place, 0 where none is.
fn number_at(place: usize, words: &[i16]) -> u16
    ensures { result ≡ number_at place words.now }
{
    match words.get(place) {
        Some(word) => word.cast_unsigned(),
        None => 0,
    }
}
