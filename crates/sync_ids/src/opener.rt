ghost use Rattle.std.specs.Prelude.{◌≡◌, ◌<◌, ◌≤◌, ◌+◌, [], ◌∷◌, ◌++◌, length, IfOk};
ghost use Rattle.checkpoint_image.specs.gd_words.specs.Ranges.{HasNext};
ghost use Rattle.circular_buffer.specs.Buffer.{buffer};
ghost use Rattle.checkpoint_image.specs.Receive.{answered, last_ones, reply_kept, standing_in};
ghost use Rattle.sync_ids.specs.Changes.{put_in};
ghost use Rattle.sync_ids.specs.Changing.{fits_block, is_unanswered_after};
ghost use Rattle.sync_ids.specs.Openers.{block_of, depth_of, untaken_of, with_block};
ghost use Rattle.sync_ids.specs.Tables.{is_of_depth};

use crate::change::OpenerChange;
use crate::since::put_copies;
use checkpoint_image::{List, NoMemory, OpenerBlock, RequestStanding, Words};
use circular_buffer::HeapCircularBuffer;
use std::alloc::Global;

/// What is remembered of one opener. The room of the kept replies is its depth.
#[derive(Drop)]
pub struct Opener {
    pub taken: u32,
    pub kept: HeapCircularBuffer<Words>,
}

impl Opener {
    /// An opener of this depth, from which nothing was taken.
    pub fn new(alloc: Global, depth: u8) -> Result<Opener, NoMemory>
        ensures { IfOk result (λ opener. opener ≡ untaken_of depth) }
    {
        let kept = HeapCircularBuffer::with_capacity(alloc, usize::from(depth))?;
        Ok(Opener { taken: 0, kept })
    }

    /// How a number stands to it, where its request is in hand or not.
    pub fn standing(&self, held: bool, number: u32) -> RequestStanding
        ensures { result ≡ standing_in held (block_of self.now) number }
    {
        if number > self.taken {
            if number - self.taken == 1 {
                RequestStanding::Next
            } else {
                RequestStanding::Ahead
            }
        } else if held && number == self.taken {
            RequestStanding::InHand
        } else {
            match self.reply(self.answered(held), number) {
                Some(words) => RequestStanding::Kept(words),
                None => RequestStanding::Old,
            }
        }
    }

    /// The number last answered.
    fn answered(&self, held: bool) -> u32
        ensures { result ≡ answered held (block_of self.now) }
    {
        if held {
            self.taken.saturating_sub(1)
        } else {
            self.taken
        }
    }

    /// The reply that is kept to a number, where `last` was answered last.
    fn reply(&self, last: u32, number: u32) -> Option<Words>
        ensures { result ≡ reply_kept last self.now.kept.items number }
    {
        if number <= last {
            let words = self.kept.nth_back((last - number) as usize)?;
            Some(words.copy())
        } else {
            None
        }
    }

    /// Takes its next request.
    pub fn take(&mut self)
        requires { HasNext self.old.taken }
        ensures block { block_of self.new ≡ record (block_of self.old) { taken = self.old.taken + 1 } }
        ensures depth { depth_of self.new ≡ depth_of self.old }
    {
        self.taken += 1;
    }

    /// Keeps a reply; the oldest one goes where more than the depth would be kept.
    pub fn keep(&mut self, words: &Words)
        ensures block { block_of self.new ≡ record (block_of self.old)
            { kept = last_ones (depth_of self.old) (self.old.kept.items ++ words.now ∷ []) } }
        ensures depth { depth_of self.new ≡ depth_of self.old }
    {
        let _oldest = self.kept.push_back(words.copy());
    }

    /// Its block.
    pub fn block(&self, alloc: Global) -> Result<OpenerBlock, NoMemory>
        ensures { IfOk result (λ block. block ≡ block_of self.now) }
    {
        let mut kept = List::from_vec(Vec::with_capacity(alloc, self.kept.len())?);
        let (older, newer) = self.kept.as_slices();
        put_copies(older, &mut kept)?;
        put_copies(newer, &mut kept)?;
        Ok(OpenerBlock {
            taken: self.taken,
            kept,
        })
    }

    /// Whether a block keeps no more replies than its depth, nor than were taken.
    pub fn takes(&self, block: &OpenerBlock) -> bool
        ensures { result ≡ is_of_depth block.now (depth_of self.now) }
    {
        let kept = block.kept.len();
        kept <= self.kept.capacity() && kept <= block.taken as usize
    }

    /// Puts a block in the place of its own.
    pub fn put(&mut self, block: &OpenerBlock)
        requires { length block.now.kept ≤ depth_of self.old }
        ensures { self.new ≡ with_block block.now self.old }
    {
        self.taken = block.taken;
        refill(&mut self.kept, block.kept.as_slice());
    }

    /// Whether a change can be put into its block: it adds no more replies than the depth, and no more are kept then
    /// than were taken.
    pub fn fits(&self, change: &OpenerChange) -> bool
        ensures { result ≡ fits_block (depth_of self.now) (block_of self.now) change.now }
    {
        change.added.len() <= self.kept.capacity()
            && self.kept_after(change) <= change.taken as usize
    }

    /// Whether its request has no reply after changes of openers, of which one may be its own.
    pub fn is_unanswered_after(&self, place: u16, changes: &[OpenerChange]) -> bool
        ensures { result ≡ is_unanswered_after (depth_of self.now) (block_of self.now) place changes.now }
    {
        for change in changes {
            if change.opener == place {
                return self.kept_after(change) < change.taken as usize;
            }
        }
        self.kept.len() < self.taken as usize
    }

    /// How many replies are kept after a change.
    fn kept_after(&self, change: &OpenerChange) -> usize
        ensures { result ≡ length (put_in (depth_of self.now) (block_of self.now) change.now).kept }
    {
        let depth = self.kept.capacity();
        let added = change.added.len();
        if depth <= added {
            return depth;
        }
        let kept = self.kept.len();
        if kept <= depth - added {
            kept + added
        } else {
            depth
        }
    }

    /// Puts a change into its block; the oldest replies go where more than the depth would be kept.
    pub fn add(&mut self, change: &OpenerChange)
        ensures block { block_of self.new ≡ put_in (depth_of self.old) (block_of self.old) change.now }
        ensures depth { depth_of self.new ≡ depth_of self.old }
    {
        self.taken = change.taken;
        keep_all(&mut self.kept, change.added.as_slice());
    }
}

/// Keeps copies of replies behind those that are kept. Of more than there is room for, only the last are copied.
#[tactic(auto, using(crate::proofs::Lists::last_onto))]
fn keep_all(kept: &mut HeapCircularBuffer<Words>, replies: &[Words])
    ensures { kept.new ≡ buffer (last_ones kept.old.capacity (kept.old.items ++ replies.now)) kept.old.capacity }
{
    let (_, last) = replies.split_at(replies.len().saturating_sub(kept.capacity()));
    keep_each(kept, last);
}

/// Keeps copies of replies behind those that are kept, one by one.
#[tactic(auto, using(crate::proofs::Lists::last_again, crate::proofs::Lists::last_few))]
fn keep_each(kept: &mut HeapCircularBuffer<Words>, replies: &[Words])
    requires { length kept.old.items ≤ kept.old.capacity }
    ensures { kept.new ≡ buffer (last_ones kept.old.capacity (kept.old.items ++ replies.now)) kept.old.capacity }
{
    for words in replies {
        let _oldest = kept.push_back(words.copy());
    }
}

/// Puts copies of replies in the place of those that are kept.
fn refill(kept: &mut HeapCircularBuffer<Words>, replies: &[Words])
    requires { length replies.now ≤ kept.old.capacity }
    ensures { kept.new ≡ buffer replies.now kept.old.capacity }
{
    kept.clear();
    for words in replies {
        let _oldest = kept.push_back(words.copy());
    }
}
