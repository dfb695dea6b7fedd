ghost use Rattle.std.specs.Prelude.{◌≡◌, ◌≤◌, ◌+◌, ◌-◌, ◌++◌, OnOk, length, map, slice_get};
ghost use Rattle.world_semantics.specs.checkpoint_image.specs.Receive.{answered, holds};
ghost use Rattle.world_semantics.specs.Messages.{Replying, sent_at};
ghost use Rattle.world_semantics.specs.World.{copy_of};
ghost use Rattle.process_copies.specs.letters.specs.Again.{is_moved, kept_for, kept_from, numbered, of_copies};
ghost use Rattle.process_copies.specs.letters.specs.Again.{tells_again};
ghost use Rattle.world_copies.specs.Again.{IsKeptTable, of_copy};

use crate::copies::WorldCopies;
use gd_words::{List, NoMemory, Reply, Words};
use process_copies::{Message, ProcessCopies, Sending};
use tal_tree::{OpenerSpec, Who};
use world_semantics::{OpenerBlock, ReceiveBlock, Which};

impl WorldCopies {
    /// The replies that a node's copies keep for openers which are found elsewhere once it has marked a processor are
    /// added to `again`.
    pub(crate) fn copies_tell(
        &self,
        node: u8,
        processor: u8,
        again: &mut List<Sending>,
    ) -> Result<(), NoMemory>
        ensures { OnOk result (again.new
            ≡ again.old ++ sent_at node (of_copies (tells_again self.now.site self.now.world node processor) 0
            self.now.world.processes)) }
    {
        for number in 0..self.processes.len() {
            self.copy_tells(node, processor, number, Which::First, again)?;
            self.copy_tells(node, processor, number, Which::Second, again)?;
        }
        Ok(())
    }

    fn copy_tells(
        &self,
        node: u8,
        processor: u8,
        number: usize,
        which: Which,
        again: &mut List<Sending>,
    ) -> Result<(), NoMemory>
        ensures { OnOk result (again.new ≡ again.old
            ++ sent_at node (of_copy (tells_again self.now.site self.now.world node processor) number which
            (slice_get self.now.world.processes number))) }
    {
        if number >= self.processes.len() {
            return Ok(());
        }
        self.process_tells(node, processor, &self.processes[number], which, again)?;
        Ok(())
    }

    fn process_tells(
        &self,
        node: u8,
        processor: u8,
        process: &ProcessCopies,
        which: Which,
        again: &mut List<Sending>,
    ) -> Result<(), NoMemory>
        ensures { OnOk result (again.new ≡ again.old
            ++ sent_at node (tells_again process.now.site self.now.world node processor
            process.now.number (copy_of which process.now.pair))) }
    {
        if !process.acts_on(which, node) {
            return Ok(());
        }
        let table = process.kept_table(self.alloc, which)?;
        self.tell_openers(
            node,
            processor,
            process.number(),
            &table,
            process.openers(),
            again,
        )?;
        Ok(())
    }

    /// The replies that a table keeps for those of these openers that are found elsewhere are added to `again`.
    fn tell_openers(
        &self,
        node: u8,
        processor: u8,
        number: u8,
        table: &ReceiveBlock,
        openers: &[OpenerSpec],
        again: &mut List<Sending>,
    ) -> Result<(), NoMemory>
        requires { IsKeptTable table.now }
        ensures { OnOk result (again.new
            ≡ again.old ++ sent_at node (map Replying
            (kept_from self.now.world node processor number table.now 0 openers.now))) }
    {
        for place in 0..openers.len() {
            if self.is_moved(node, processor, openers[place].who) {
                tell_kept(node, number, table, place, again)?;
            }
        }
        Ok(())
    }

    /// Whether an opener is found elsewhere once a node has marked a processor.
    fn is_moved(&self, node: u8, processor: u8, opener: Who) -> bool
        ensures { result ≡ is_moved self.now.world node processor opener }
    {
        match opener {
            Who::File { process, file: _ } => self.is_rerouted(node, processor, process),
            Who::Terminal(_) => false,
        }
    }
}

/// The replies that a table keeps for the opener at a place are added to `again`.
fn tell_kept(
    node: u8,
    process: u8,
    table: &ReceiveBlock,
    place: usize,
    again: &mut List<Sending>,
) -> Result<(), NoMemory>
    requires { IsKeptTable table.now }
    ensures { OnOk result (again.new ≡ again.old ++ sent_at node (map Replying (kept_for process table.now place))) }
{
    match table.openers.get(place) {
        None => Ok(()),
        Some(block) => {
            let last = answered(holds(table, place), block);
            let opener = place as u16;
            tell_numbered(node, process, opener, last, block.kept.as_slice(), again)?;
            Ok(())
        }
    }
}

/// The number last answered to an opener, by its block and whether its request is in hand.
fn answered(is_held: bool, block: &OpenerBlock) -> u32
    ensures { result ≡ answered is_held block.now }
{
    if is_held {
        block.taken.saturating_sub(1)
    } else {
        block.taken
    }
}

/// Whether the request in hand is of the opener at a place.
fn holds(table: &ReceiveBlock, place: usize) -> bool
    ensures { result ≡ holds table.now place }
{
    match table.in_hand {
        None => false,
        Some(held) => usize::from(held) == place,
    }
}

/// Replies of these words to the opener at a place, of which the last has this number, are added to `again`.
fn tell_numbered(
    node: u8,
    process: u8,
    opener: u16,
    last: u32,
    kept: &[Words],
    again: &mut List<Sending>,
) -> Result<(), NoMemory>
    requires { length kept.now ≤ last }
    ensures { OnOk result (again.new
        ≡ again.old ++ sent_at node (map Replying (numbered process opener (last + 1 - length kept.now) kept.now))) }
{
    let mut number = last - kept.len() as u32;
    for words in kept {
        number += 1;
        let reply = Reply {
            process,
            opener,
            number,
            words: words.copy(),
        };
        again.push(Sending::new(node, Message::Replying(reply)))?;
    }
    Ok(())
}
