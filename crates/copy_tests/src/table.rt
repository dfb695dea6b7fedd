ghost use Rattle.std.specs.Prelude.{◌≡◌, ◌<◌, length, IfOk};

use checkpoint_image::{OpenerBlock, ReceiveBlock};
use file_calls::{Arrival, Waiting};
use gd_words::{List, NoMemory, Reply, Request, Words};
use std::alloc::Global;
use std::test::Fail;
use sync_ids::Receive;
use tal_tree::{OpenerSpec, Who};

pub fn words(items: &[i16]) -> Result<Words, &'static str> {
    let mut words = Words::new();
    for item in items {
        if words.push(*item).is_err() {
            return Err("too many words");
        }
    }
    Ok(words)
}

pub fn request(opener: u16, number: u32) -> Result<Request, &'static str>
    ensures { IfOk result (λ request. request.opener ≡ opener) }
{
    Ok(Request {
        process: 3,
        opener,
        number,
        words: words(&[1, 2])?,
    })
}

/// A block from which so many requests were taken, and that keeps replies of these words, one each.
fn block(alloc: Global, taken: u32, replies: &[i16]) -> Result<OpenerBlock, Fail> {
    let mut kept = List::new(alloc);
    for reply in replies {
        kept.push(words(&[*reply])?)?;
    }
    Ok(OpenerBlock { taken, kept })
}

/// Five openers. Of opener 0 the requests 2 and 3 are kept and 1 is old, of opener 1 request 1 is in hand, of opener 2
/// request 5 is kept and those before are old, of opener 3 nothing was taken, and of opener 4 the requests 1 and 2 are
/// kept.
pub fn receive(alloc: Global) -> Result<Receive, Fail>
    ensures { IfOk result (λ receive. length receive.table.openers ≡ 5) }
{
    let opener = OpenerSpec {
        who: Who::Terminal(0),
        depth: 2,
    };
    let mut receive = Receive::new(alloc, &[opener, opener, opener, opener, opener])?;
    let mut openers = List::new(alloc);
    openers.push(block(alloc, 3, &[8, 9])?)?;
    openers.push(block(alloc, 1, &[])?)?;
    openers.push(block(alloc, 5, &[50])?)?;
    openers.push(block(alloc, 0, &[])?)?;
    openers.push(block(alloc, 2, &[20, 21])?)?;
    let table = ReceiveBlock {
        openers,
        in_hand: Some(1),
    };
    if receive.put_block(&table) {
        Ok(receive)
    } else {
        Err("the table doesn't fit".into())
    }
}

/// The waiting requests of a process with five openers.
pub fn waiting(alloc: Global) -> Result<Waiting, NoMemory>
    ensures { IfOk result (λ waiting. waiting.openers ≡ 5) }
{
    Waiting::new(alloc, 5)
}

/// A request comes to a copy that watches.
pub fn comes(waiting: &mut Waiting, opener: u16, number: u32) -> Result<Arrival, &'static str>
    requires { opener < waiting.old.openers }
    ensures { waiting.new.openers ≡ waiting.old.openers }
{
    let request = request(opener, number)?;
    Ok(waiting.arrive_watching(request))
}

pub fn waits(arrival: &Arrival) -> bool {
    match arrival {
        Arrival::Waits => true,
        _ => false,
    }
}

pub fn is_dropped(arrival: &Arrival) -> bool {
    match arrival {
        Arrival::Dropped => true,
        _ => false,
    }
}

/// Whether these are the waiting requests, as openers and numbers.
pub fn are(waiting: &Waiting, requests: &[(u16, u32)]) -> bool {
    for (k, (opener, number)) in requests.iter().enumerate() {
        match waiting.at(k) {
            None => return false,
            Some(request) => {
                if request.opener != *opener || request.number != *number {
                    return false;
                }
            }
        }
    }
    waiting.len() == requests.len()
}

/// Whether this is the reply of one word to the request of this opener and number.
pub fn is_reply(reply: &Reply, opener: u16, number: u32, word: i16) -> bool {
    reply.process == 3
        && reply.opener == opener
        && reply.number == number
        && reply.words.as_slice() == [word].as_slice()
}
