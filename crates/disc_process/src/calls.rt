ghost use Rattle.std.specs.Prelude.{◌≡◌, ◌≤◌, length};
ghost use Rattle.process_semantics.specs.Disc.{sector_of, filled, call_at, call_of, reply_of, last_write_after};
ghost use Rattle.gd_words.specs.declared.limits.TheConstants.{SECTOR_WORDS};

use gd_words::limits::SECTOR_WORDS;
use gd_words::{DeviceCall, Sector, Words};

/// What the words of a request ask of the device, under the number that a write would have.
pub fn call_of(sectors: u8, number: u32, words: &[i16]) -> DeviceCall
    ensures { result ≡ call_of sectors number words.now }
{
    match words {
        [kind, sector, rest @ ..] => call_at(number, *kind, rest, sector_of(sectors, *sector)),
        _ => DeviceCall::Nothing,
    }
}

fn call_at(number: u32, kind: i16, words: &[i16], sector: Option<u8>) -> DeviceCall
    ensures { result ≡ call_at number kind words.now sector }
{
    match sector {
        None => DeviceCall::Nothing,
        Some(sector) => {
            if kind == 1 && words.is_empty() {
                DeviceCall::Read(sector)
            } else if kind == 2 && 1 <= words.len() && words.len() <= SECTOR_WORDS {
                let words = filled(words);
                DeviceCall::Write {
                    sector,
                    words,
                    number,
                }
            } else {
                DeviceCall::Nothing
            }
        }
    }
}

fn sector_of(sectors: u8, sector: i16) -> Option<u8>
    ensures { result ≡ sector_of sectors sector }
{
    if 0 <= sector && sector < i16::from(sectors) {
        Some(sector as u8)
    } else {
        None
    }
}

fn filled(words: &[i16]) -> Sector
    requires { length words.now ≤ SECTOR_WORDS }
    ensures { result ≡ filled words.now }
{
    let mut sector = [0; SECTOR_WORDS];
    let (front, _) = sector.split_at_mut(words.len());
    front.copy_from_slice(words);
    sector
}

/// The reply to a request, with the words that stand on the sector that it reads.
pub fn reply_of(call: &DeviceCall, found: &Sector) -> Words
    ensures { result ≡ reply_of call.now found.now }
{
    let mut reply = Words::new();
    match call {
        DeviceCall::Nothing => {
            let _full = reply.push(1);
        }
        DeviceCall::Read(_) => {
            let _full = reply.push(0);
            for word in found {
                let _full = reply.push(*word);
            }
        }
        DeviceCall::Write { .. } => {
            let _full = reply.push(0);
        }
    }
    reply
}

/// The number of the last write after an act on the device.
pub fn last_write_after(last: u32, call: &DeviceCall) -> u32
    ensures { result ≡ last_write_after last call.now }
{
    match call {
        DeviceCall::Write { number, .. } => *number,
        _ => last,
    }
}
