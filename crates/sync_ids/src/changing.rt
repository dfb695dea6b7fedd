ghost use Rattle.std.specs.Prelude.{◌≡◌, if◌then◌else◌, map, slice_get};
ghost use Rattle.sync_ids.specs.Changes.{table_with_change, fits_change, with_change, with_changes};
ghost use Rattle.sync_ids.specs.Changing.{all_fit, can_hold_after, fits_at};
ghost use Rattle.sync_ids.specs.Openers.{block_of, depth_of};
ghost use Rattle.sync_ids.specs.Tables.{IsSound};

use crate::change::{OpenerChange, ReceiveChange};
use crate::opener::Opener;
use crate::receive::Receive;

impl Receive {
    /// Whether a change can be put into what is remembered.
    pub fn fits_change(&self, change: &ReceiveChange) -> bool
        ensures { result ≡ fits_change self.now change.now }
    {
        let changes = change.changes.as_slice();
        all_fit(&self.openers, changes) && can_hold_after(&self.openers, changes, change.in_hand)
    }

    /// Puts a change into the table where it fits, and says whether it did; where not, nothing changes.
    #[tactic(auto, using(crate::proofs::Putting::sound_after, crate::proofs::Putting::table_after))]
    pub fn put_change(&mut self, change: &ReceiveChange) -> bool
        ensures told { result ≡ fits_change self.old change.now }
        ensures table { self.new.table
            ≡ (if result then table_with_change self.old.depths self.old.table change.now else self.old.table) }
        ensures depths { self.new.depths ≡ self.old.depths }
        ensures sound { IsSound self.new }
    {
        let fits = self.fits_change(change);
        if fits {
            put_changes(&mut self.openers, change.changes.as_slice());
            self.in_hand = change.in_hand;
        }
        fits
    }
}

/// Whether the places of changes rise, and each can be put into the block of an opener that is there.
fn all_fit(openers: &[Opener], changes: &[OpenerChange]) -> bool
    ensures { result ≡ all_fit (map depth_of openers.now) (map block_of openers.now) 0 changes.now }
{
    let mut least = 0;
    for change in changes {
        let place = u32::from(change.opener);
        if place < least || !fits_at(openers, change) {
            return false;
        }
        least = place + 1;
    }
    true
}

fn fits_at(openers: &[Opener], change: &OpenerChange) -> bool
    ensures { result ≡ fits_at (slice_get (map depth_of openers.now) change.now.opener)
        (slice_get (map block_of openers.now) change.now.opener) change.now }
{
    match openers.get(usize::from(change.opener)) {
        None => false,
        Some(opener) => opener.fits(change),
    }
}

/// Whether nothing is in hand after changes, or it is the unanswered request of an opener.
fn can_hold_after(openers: &[Opener], changes: &[OpenerChange], in_hand: Option<u16>) -> bool
    ensures { result ≡ can_hold_after (map depth_of openers.now) (map block_of openers.now) changes.now in_hand }
{
    match in_hand {
        None => true,
        Some(place) => match openers.get(usize::from(place)) {
            None => false,
            Some(opener) => opener.is_unanswered_after(place, changes),
        },
    }
}

/// Puts changes into the blocks of openers.
fn put_changes(openers: &mut [Opener], changes: &[OpenerChange])
    ensures blocks { map block_of openers.new
        ≡ with_changes (map depth_of openers.old) (map block_of openers.old) changes.now }
    ensures depths { map depth_of openers.new ≡ map depth_of openers.old }
{
    for change in changes {
        put_one(openers, change);
    }
}

/// Puts the change of one opener into its block, if the opener is there.
fn put_one(openers: &mut [Opener], change: &OpenerChange)
    ensures blocks { map block_of openers.new
        ≡ with_change (map depth_of openers.old) (map block_of openers.old) change.now }
    ensures depths { map depth_of openers.new ≡ map depth_of openers.old }
{
    let place = usize::from(change.opener);
    if place < openers.len() {
        openers[place].add(change);
    }
}
