ghost use Rattle.std.specs.Prelude.{◌≡◌, ◌++◌, OnOk};
ghost use Rattle.world_semantics.specs.declared.role.Role.TheVariants.{Watching};
ghost use Rattle.world_semantics.specs.World.{copy_of, other_of};
ghost use Rattle.world_semantics.specs.Rules.{after_takeover, pair_after_down, pair_at_down, renewals_ended};
ghost use Rattle.world_semantics.specs.Rules.{stopped_pair, taken_over, taker, takes_over, told_again, told_at_down};
ghost use Rattle.world_semantics.specs.Shares.{closed_by};
ghost use Rattle.node_copies.specs.message_wires.specs.HasRoom.{CopyHasRoom};
ghost use Rattle.process_copies.specs.Receiving.{placed_with};
ghost use Rattle.world_semantics.specs.Shares.{let_go};

use crate::copies::{ProcessCopies, is_watching, other_of};
use gd_words::{List, NoMemory};
use node_copies::{Records, Sending};
use world_semantics::Which;

impl ProcessCopies {
    /// A node marks a processor: a copy there that watches the one in that processor takes over, and none there has to
    /// send anything to that one any more. What is sent again is added to `told`.
    pub fn mark(
        &mut self,
        node: u8,
        processor: u8,
        told: &mut List<Sending>,
    ) -> Result<(), NoMemory>
        requires watching { (k : Which) → (copy_of k self.old.pair).role ≡ Watching
            → CopyHasRoom (copy_of k self.old.pair) }
        ensures process { OnOk result (self.new
            ≡ record self.old { pair = pair_at_down node processor self.old.pair }) }
        ensures told { OnOk result (told.new ≡ told.old ++ told_at_down node processor self.old.pair) }
        ensures site { self.new.site ≡ self.old.site }
        ensures number { self.new.number ≡ self.old.number }
    {
        self.take_over_from(node, processor, told)?;
        self.end_renewals(node, processor);
        Ok(())
    }

    /// A copy on a node that watches the one in a processor takes over, if there is one.
    fn take_over_from(
        &mut self,
        node: u8,
        processor: u8,
        told: &mut List<Sending>,
    ) -> Result<(), NoMemory>
        requires watching { (k : Which) → (copy_of k self.old.pair).role ≡ Watching
            → CopyHasRoom (copy_of k self.old.pair) }
        ensures process { OnOk result (self.new ≡ record self.old
            { pair = pair_after_down (taker node processor self.old.pair) self.old.pair }) }
        ensures told { OnOk result (told.new ≡ told.old ++ told_at_down node processor self.old.pair) }
        ensures site { self.new.site ≡ self.old.site }
        ensures number { self.new.number ≡ self.old.number }
    {
        match self.taker(node, processor) {
            None => Ok(()),
            Some(which) => {
                self.take_over(which, told)?;
                Ok(())
            }
        }
    }

    /// A node marks a processor: no copy there has to send anything any more to one in that processor.
    fn end_renewals(&mut self, node: u8, processor: u8)
        ensures { self.new ≡ record self.old { pair = renewals_ended node processor self.old.pair } }
    {
        let first = self.copies.first.processor();
        let second = self.copies.second.processor();
        self.copies.first.end_renewal(node, processor, second);
        self.copies.second.end_renewal(node, processor, first);
    }

    /// Which copy takes over where a node marks a processor.
    fn taker(&self, node: u8, processor: u8) -> Option<Which>
        ensures { result ≡ taker node processor self.now.pair }
    {
        if self.takes_over(node, processor, Which::First) {
            return Some(Which::First);
        }
        if self.takes_over(node, processor, Which::Second) {
            return Some(Which::Second);
        }
        None
    }

    fn takes_over(&self, node: u8, processor: u8, which: Which) -> bool
        ensures { result ≡ takes_over node processor which self.now.pair }
    {
        is_watching(self.role(which))
            && self.processor(which) == node
            && self.processor(other_of(which)) == processor
    }

    /// A copy that watches takes over.
    fn take_over(&mut self, which: Which, told: &mut List<Sending>) -> Result<(), NoMemory>
        requires watching { (copy_of which self.old.pair).role ≡ Watching }
        requires room { CopyHasRoom (copy_of which self.old.pair) }
        ensures process { OnOk result (self.new ≡ record self.old { pair = after_takeover which self.old.pair }) }
        ensures told { OnOk result (told.new ≡ told.old ++ told_again (copy_of which self.old.pair)) }
        ensures site { self.new.site ≡ self.old.site }
        ensures number { self.new.number ≡ self.old.number }
    {
        let base = self.base;
        self.copies.of_mut(which).take_over(base, told)?;
        self.copies.of_mut(other_of(which)).let_go();
        Ok(())
    }

    /// A processor stops: the copy there is gone.
    pub fn stop(&mut self, processor: u8)
        ensures { self.new ≡ record self.old { pair = stopped_pair processor self.old.pair } }
    {
        self.copies.first.stop(processor);
        self.copies.second.stop(processor);
    }

    /// The run is closed: what its copies still hold is kept.
    pub fn close(&mut self, records: &mut Records) -> Result<(), NoMemory>
        ensures process { OnOk result (self.new ≡ record self.old { pair = let_go self.old.pair }) }
        ensures records { OnOk result (records.new
            ≡ record records.old { kept = closed_by records.old.kept self.old.pair }) }
        ensures site { self.new.site ≡ self.old.site }
        ensures number { self.new.number ≡ self.old.number }
    {
        self.copies.first.close(records)?;
        self.copies.second.close(records)?;
        Ok(())
    }
}
