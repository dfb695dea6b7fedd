ghost use Rattle.std.specs.Prelude.{◌≡◌, length, nat_le, IsTrue};
ghost use Rattle.std.specs.List.{list_all};
ghost use Rattle.checkpoint_image.specs.Layout.{HasShortLists, IsPlace};

use checkpoint_image::{ImageMessage, OpenerBlock, to_words};
use gd_words::{List, NoMemory};
use std::alloc::Global;

/// Whether the replies that are kept of each opener are few enough to be counted in a word.
fn keep_few(openers: &[OpenerBlock]) -> bool
    ensures { result ≡ list_all (λ block. nat_le (length block.kept) 32767) openers.now }
{
    openers.iter().all(|opener| opener.kept.len() <= 32_767)
}

/// Whether a place in hand fits a word.
fn is_place(in_hand: Option<u16>) -> bool
    ensures { IsTrue result → IsPlace in_hand }
{
    match in_hand {
        None => true,
        Some(place) => place <= 32_767,
    }
}

/// Whether a checkpoint's counts and its place in hand each fit a word.
#[tactic(auto, using(crate::proofs::Kept::all_keep_few))]
fn is_short(message: &ImageMessage) -> bool
    ensures { IsTrue result → HasShortLists message.now }
{
    let image = &message.image;
    let openers = image.receive.openers.as_slice();
    if image.body.len() > 32_767 || image.files.len() > 32_767 || openers.len() > 32_767 {
        return false;
    }
    if !keep_few(openers) || !is_place(image.receive.in_hand) {
        return false;
    }
    true
}

/// The words of a checkpoint; none where a count or the place in hand doesn't fit a word.
pub fn words_of(alloc: Global, message: &ImageMessage) -> Result<Option<List<i16>>, NoMemory> {
    if !is_short(message) {
        return Ok(None);
    }
    let words = to_words(alloc, message)?;
    Ok(Some(words))
}
