//! Whether two things that are shown are the same.
ghost use Rattle.std.specs.Prelude.{◌≡◌, ◌↔◌, IsTrue};
ghost use Rattle.std.specs.Option.{option_copied};
ghost use Rattle.tal_tree.specs.declared.act.Shown.TheVariants.{Reply, Write};
ghost use Rattle.unfailing_judge.specs.Due.{IsDue};

use tal_tree::Shown;

/// Whether nothing is shown, or what is to be shown next.
pub(crate) fn is_due(told: Option<&Shown>, next: Option<&Shown>) -> bool
    ensures { IsTrue result ↔ IsDue (option_copied told.entry) (option_copied next.entry) }
{
    match told {
        None => true,
        Some(told) => match next {
            None => false,
            Some(next) => is_same(told, next),
        },
    }
}

fn is_same(one: &Shown, other: &Shown) -> bool
    ensures { IsTrue result ↔ (one.now ≡ other.now) }
{
    match one {
        Shown::Write {
            process,
            sector,
            words,
        } => is_write(other, *process, *sector, words),
        Shown::Reply {
            terminal,
            number,
            words,
        } => is_reply(other, *terminal, *number, words.as_slice()),
    }
}

/// Whether it is this write.
fn is_write(shown: &Shown, process: u8, sector: u8, words: &[i16]) -> bool
    ensures { IsTrue result ↔ (Write process sector words.now ≡ shown.now) }
{
    match shown {
        Shown::Write {
            process: other_process,
            sector: other_sector,
            words: other_words,
        } => {
            if process != *other_process {
                return false;
            }
            if sector != *other_sector {
                return false;
            }
            are_same(words, other_words)
        }
        Shown::Reply { .. } => false,
    }
}

/// Whether it is this reply.
fn is_reply(shown: &Shown, terminal: u8, number: u32, words: &[i16]) -> bool
    ensures { IsTrue result ↔ (Reply terminal number words.now ≡ shown.now) }
{
    match shown {
        Shown::Write { .. } => false,
        Shown::Reply {
            terminal: other_terminal,
            number: other_number,
            words: other_words,
        } => {
            if terminal != *other_terminal {
                return false;
            }
            if number != *other_number {
                return false;
            }
            are_same(words, other_words.as_slice())
        }
    }
}

fn are_same(one: &[i16], other: &[i16]) -> bool
    ensures { IsTrue result ↔ (one.now ≡ other.now) }
{
    one == other
}
