ghost use Rattle.std.specs.Prelude.{◌≡◌, ◌≤◌, ◌++◌, length, IfOk, OnOk};
ghost use Rattle.checkpoint_image.specs.Receive.{answered, is_place, last_ones};
ghost use Rattle.sync_ids.specs.Changes.{change_at, change_between, changes_from, is_untouched};

use crate::change::{OpenerChange, ReceiveChange};
use checkpoint_image::{List, NoMemory, OpenerBlock, ReceiveBlock, Words};
use std::alloc::Global;

/// What changed from a receive table to a later one. It takes memory for what changed alone.
pub fn change_between(
    alloc: Global,
    base: &ReceiveBlock,
    later: &ReceiveBlock,
) -> Result<ReceiveChange, NoMemory>
    requires { length later.now.openers ≤ 65536 }
    ensures { IfOk result (λ change. change ≡ change_between base.now later.now) }
{
    let changes = changes_from(
        alloc,
        base.in_hand,
        later.in_hand,
        base.openers.as_slice(),
        later.openers.as_slice(),
    )?;
    Ok(ReceiveChange {
        changes,
        in_hand: later.in_hand,
    })
}

/// What changed of openers, with the places in hand then and now.
fn changes_from(
    alloc: Global,
    before: Option<u16>,
    now: Option<u16>,
    olds: &[OpenerBlock],
    news: &[OpenerBlock],
) -> Result<List<OpenerChange>, NoMemory>
    requires { length news.now ≤ 65536 }
    ensures { IfOk result (λ changes. changes ≡ changes_from before now 0 olds.now news.now) }
{
    let mut changes = List::new(alloc);
    for (k, new) in news.iter().enumerate() {
        if k >= olds.len() {
            return Ok(changes);
        }
        let place = k as u16;
        let old = &olds[k];
        let held = is_place(before, place);
        let holds = is_place(now, place);
        if is_untouched(held, holds, old, new) {
            continue;
        }
        let change = change_at(alloc, held, holds, place, old, new)?;
        changes.push(change)?;
    }
    Ok(changes)
}

/// Whether this place is in hand.
fn is_place(in_hand: Option<u16>, place: u16) -> bool
    ensures { result ≡ is_place in_hand place }
{
    match in_hand {
        None => false,
        Some(held) => held == place,
    }
}

/// The number last answered to an opener, of which a request is in hand or not.
fn answered(held: bool, block: &OpenerBlock) -> u32
    ensures { result ≡ answered held block.now }
{
    if held {
        block.taken.saturating_sub(1)
    } else {
        block.taken
    }
}

fn is_untouched(before: bool, now: bool, old: &OpenerBlock, new: &OpenerBlock) -> bool
    ensures { result ≡ is_untouched before now old.now new.now }
{
    old.taken == new.taken && answered(before, old) == answered(now, new)
}

fn change_at(
    alloc: Global,
    before: bool,
    now: bool,
    place: u16,
    old: &OpenerBlock,
    new: &OpenerBlock,
) -> Result<OpenerChange, NoMemory>
    ensures { IfOk result (λ change. change ≡ change_at before now place old.now new.now) }
{
    let count = answered(now, new).saturating_sub(answered(before, old));
    let mut added = List::new(alloc);
    put_last(count as usize, new.kept.as_slice(), &mut added)?;
    Ok(OpenerChange {
        opener: place,
        taken: new.taken,
        added,
    })
}

/// Puts copies of so many replies, the last ones, behind others.
fn put_last(count: usize, replies: &[Words], out: &mut List<Words>) -> Result<(), NoMemory>
    ensures { OnOk result (out.new ≡ out.old ++ last_ones count replies.now) }
{
    let (_, last) = replies.split_at(replies.len().saturating_sub(count));
    put_copies(last, out)
}

/// Puts copies of replies behind others.
pub(crate) fn put_copies(replies: &[Words], out: &mut List<Words>) -> Result<(), NoMemory>
    ensures { OnOk result (out.new ≡ out.old ++ replies.now) }
{
    for words in replies {
        out.push(words.copy())?;
    }
    Ok(())
}
