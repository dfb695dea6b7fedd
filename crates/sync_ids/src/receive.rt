ghost use Rattle.std.specs.Prelude.{◌≡◌, ℕ, ◌<◌, IsTrue, All, if◌then◌else◌, length, map, slice_get, Some, None};
ghost use Rattle.std.specs.Prelude.{IfOk, IsSome};
ghost use Rattle.checkpoint_image.specs.gd_words.specs.Ranges.{HasNext};
ghost use Rattle.checkpoint_image.specs.Receive.{after_answering, after_taking, holds, standing_at};
ghost use Rattle.checkpoint_image.specs.declared.receive.OpenerBlock.{OpenerBlock};
ghost use Rattle.sync_ids.specs.Openers.{block_of, depth_of, untaken_of};
ghost use Rattle.sync_ids.specs.Tables.{IsDepth, IsSound, are_of_depths, can_hold, fits, last_taken, nothing_taken};

use crate::opener::Opener;
use checkpoint_image::{
    List, NoMemory, OpenerBlock, OpenerSpec, ReceiveBlock, RequestStanding, Words,
};
use std::alloc::Global;
use std::marker::Model;

/// What a process remembers of its openers: of each the number last taken and the latest replies, and whose request is
/// in hand.
#[derive(Drop)]
pub struct Receive {
    pub(crate) openers: Vec<Opener>,
    pub(crate) in_hand: Option<u16>,
}

impl Model for Receive {
    ghost use Rattle.sync_ids.specs.Tables.{Remembered, IsSound};

    ghost Value = { Remembered };

    ghost use Rattle.sync_ids.specs.Openers.{remembered};

    ghost view = { λ receive. remembered receive.openers.items receive.in_hand };

    ghost invariant = { λ receive. IsSound (remembered receive.openers.items receive.in_hand) };
}

impl Receive {
    /// Nothing taken, kept or in hand, of openers of these depths.
    pub fn new(alloc: Global, openers: &[OpenerSpec]) -> Result<Receive, NoMemory>
        requires few { length openers.now < 4096 }
        requires depths { All (λ opener. IsDepth opener.depth) openers.now }
        ensures value { IfOk result (λ receive. receive ≡ nothing_taken (map (λ opener. opener.depth) openers.now)) }
        ensures sound { IfOk result IsSound }
    {
        let openers = openers_of(alloc, openers)?;
        Ok(Receive {
            openers,
            in_hand: None,
        })
    }

    /// How a number of an opener stands to what is remembered.
    pub fn standing(&self, opener: u16, number: u32) -> RequestStanding
        requires { opener < length self.now.depths }
        ensures { result ≡ standing_at self.now.table opener number }
    {
        let held = self.holds(opener);
        self.openers[usize::from(opener)].standing(held, number)
    }

    /// Whether an opener's request is in hand.
    fn holds(&self, opener: u16) -> bool
        ensures { result ≡ holds self.now.table opener }
    {
        self.in_hand.is_some_and(|held| held == opener)
    }

    /// The number last taken from an opener, or 0.
    pub fn taken(&self, opener: u16) -> u32
        requires { opener < length self.now.depths }
        ensures { result ≡ last_taken self.now.table opener }
    {
        self.openers[usize::from(opener)].taken
    }

    /// The opener whose request is in hand.
    pub fn in_hand(&self) -> Option<u16>
        ensures value { result ≡ self.now.table.in_hand }
        ensures sound { IsSound self.now }
    {
        self.in_hand
    }

    /// Takes the next request of an opener: it is in hand then.
    pub fn take(&mut self, opener: u16)
        requires there { opener < length self.old.depths }
        requires room { HasNext (last_taken self.old.table opener) }
        ensures table { (block : OpenerBlock) → slice_get self.old.table.openers opener ≡ Some block
            → self.new.table ≡ after_taking opener block self.old.table }
        ensures held { self.new.table.in_hand ≡ Some opener }
        ensures depths { self.new.depths ≡ self.old.depths }
        ensures sound { IsSound self.new }
    {
        self.openers[usize::from(opener)].take();
        self.in_hand = Some(opener);
    }

    /// Answers the request in hand with these words, and says whose it was.
    pub fn reply(&mut self, words: &Words) -> u16
        requires { IsSome self.old.table.in_hand }
        ensures whose { self.old.table.in_hand ≡ Some result }
        ensures there { result < length self.old.depths }
        ensures free { self.new.table.in_hand ≡ None }
        ensures table { (block : OpenerBlock) (depth : ℕ) → slice_get self.old.table.openers result ≡ Some block
            → slice_get self.old.depths result ≡ Some depth
            → self.new.table ≡ after_answering depth result block words.now self.old.table }
        ensures depths { self.new.depths ≡ self.old.depths }
        ensures sound { IsSound self.new }
    {
        let opener = self.in_hand.unwrap();
        self.openers[usize::from(opener)].keep(words);
        self.in_hand = None;
        opener
    }

    /// The whole table.
    pub fn block(&self, alloc: Global) -> Result<ReceiveBlock, NoMemory>
        ensures table { IfOk result (λ block. block ≡ self.now.table) }
        ensures sound { IsSound self.now }
    {
        let openers = blocks_of(alloc, &self.openers)?;
        Ok(ReceiveBlock {
            openers,
            in_hand: self.in_hand,
        })
    }

    /// Whether a table can be that of a process with these openers.
    pub fn fits(&self, block: &ReceiveBlock) -> bool
        ensures { result ≡ fits self.now block.now }
    {
        are_of_depths(&self.openers, block.openers.as_slice()) && can_hold(block)
    }

    /// Puts a whole table where it fits, and says whether it did; where not, nothing changes.
    pub fn put_block(&mut self, block: &ReceiveBlock) -> bool
        ensures told { result ≡ fits self.old block.now }
        ensures table { self.new.table ≡ (if result then block.now else self.old.table) }
        ensures depths { self.new.depths ≡ self.old.depths }
        ensures sound { IsSound self.new }
    {
        let fits = self.fits(block);
        if fits {
            put_blocks(&mut self.openers, block.openers.as_slice());
            self.in_hand = block.in_hand;
        }
        fits
    }
}

/// Openers of which nothing is remembered yet.
fn openers_of(alloc: Global, openers: &[OpenerSpec]) -> Result<Vec<Opener>, NoMemory>
    ensures { IfOk result (λ made. made.items ≡ map (λ opener. untaken_of opener.depth) openers.now) }
{
    let mut made = Vec::with_capacity(alloc, openers.len())?;
    for opener in openers {
        made.push(Opener::new(alloc, opener.depth)?)?;
    }
    Ok(made)
}

/// The blocks of openers.
fn blocks_of(alloc: Global, openers: &[Opener]) -> Result<List<OpenerBlock>, NoMemory>
    ensures { IfOk result (λ blocks. blocks ≡ map block_of openers.now) }
{
    let mut blocks = List::from_vec(Vec::with_capacity(alloc, openers.len())?);
    for opener in openers {
        blocks.push(opener.block(alloc)?)?;
    }
    Ok(blocks)
}

/// Whether there is a block for each opener, and each is of its depth.
fn are_of_depths(openers: &[Opener], blocks: &[OpenerBlock]) -> bool
    ensures { result ≡ are_of_depths blocks.now (map depth_of openers.now) }
{
    openers.len() == blocks.len() && all_take(openers, blocks)
}

/// Whether each block is of its opener's depth, where there are as many.
fn all_take(openers: &[Opener], blocks: &[OpenerBlock]) -> bool
    requires { length openers.now ≡ length blocks.now }
    ensures { result ≡ are_of_depths blocks.now (map depth_of openers.now) }
{
    for (k, opener) in openers.iter().enumerate() {
        if !opener.takes(&blocks[k]) {
            return false;
        }
    }
    true
}

/// Whether nothing is in hand, or an unanswered request of an opener.
fn can_hold(block: &ReceiveBlock) -> bool
    ensures { result ≡ can_hold block.now.openers block.now.in_hand }
{
    match block.in_hand {
        None => true,
        Some(place) => match block.openers.get(usize::from(place)) {
            None => false,
            Some(opener) => opener.kept.len() < opener.taken as usize,
        },
    }
}

/// Puts each block in the place of its opener's own.
fn put_blocks(openers: &mut [Opener], blocks: &[OpenerBlock])
    requires { IsTrue (are_of_depths blocks.now (map depth_of openers.old)) }
    ensures blocks { map block_of openers.new ≡ blocks.now }
    ensures depths { map depth_of openers.new ≡ map depth_of openers.old }
{
    for (k, block) in blocks.iter().enumerate() {
        openers[k].put(block);
    }
}
