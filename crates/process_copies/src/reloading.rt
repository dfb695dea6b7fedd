ghost use Rattle.std.specs.Prelude.{◌≡◌, ◌<◌, length, IfOk, None, Some};
ghost use Rattle.std.specs.Option.{IfSome};
ghost use Rattle.gd_words.specs.Ranges.{HasNext};
ghost use Rattle.node_copies.specs.computed_changes.specs.Fitting.{depths_of};
ghost use Rattle.node_copies.specs.message_wires.specs.HasRoom.{PairHasRoom};
ghost use Rattle.process_copies.specs.Reloading.{blank_after, blanks_by, blanks_of, copy_if, placed_reloaded};
ghost use Rattle.process_copies.specs.Starting.{IsStartable};
ghost use Rattle.world_semantics.specs.Rules.{pair_with_blanks};

use crate::copies::ProcessCopies;
use gd_words::NoMemory;
use node_copies::NodeCopy;
use std::alloc::Global;
use tal_tree::Site;
use world_semantics::Which;

/// The blank copies that a process gets in a processor which is loaded again: one for each of its copies that was
/// there.
#[derive(Drop)]
pub struct BlankCopies {
    first: Option<NodeCopy>,
    second: Option<NodeCopy>,
}

impl ProcessCopies {
    /// Makes the blank copies that the process gets when a processor is loaded again. Eras have successors.
    pub fn blanks(&self, alloc: Global, site: &Site, processor: u8) -> Result<BlankCopies, NoMemory>
        requires startable { IsStartable site.now }
        requires site { site.now ≡ self.now.site }
        requires there { self.now.number < length site.now.processes }
        requires room { PairHasRoom self.now.pair }
        ensures { IfOk result (λ blanks. blanks ≡ blanks_of processor self.now) }
    {
        let first = self.copies.first.processor() == processor;
        let second = self.copies.second.processor() == processor;
        let blanks = self.blanks_by(alloc, site, first, second)?;
        Ok(blanks)
    }

    /// The blank copies, where the processor is that of the first copy, that of the second one, both or none.
    fn blanks_by(
        &self,
        alloc: Global,
        site: &Site,
        first: bool,
        second: bool,
    ) -> Result<BlankCopies, NoMemory>
        requires startable { IsStartable site.now }
        requires site { site.now ≡ self.now.site }
        requires there { self.now.number < length site.now.processes }
        requires room { PairHasRoom self.now.pair }
        ensures { IfOk result (λ blanks. blanks ≡ blanks_by self.now first second) }
    {
        match (first, second) {
            (false, false) => Ok(BlankCopies {
                first: None,
                second: None,
            }),
            (true, false) => {
                let era = self.copies.second.era();
                let first = self.blank_after(alloc, site, self.copies.first.processor(), era)?;
                Ok(BlankCopies {
                    first: Some(first),
                    second: None,
                })
            }
            (false, true) => {
                let era = self.copies.first.era();
                let second = self.blank_after(alloc, site, self.copies.second.processor(), era)?;
                Ok(BlankCopies {
                    first: None,
                    second: Some(second),
                })
            }
            (true, true) => {
                let era = self.copies.first.era();
                let first = self.blank_after(alloc, site, self.copies.first.processor(), era)?;
                let era = self.copies.second.era();
                let second = self.blank_after(alloc, site, self.copies.second.processor(), era)?;
                Ok(BlankCopies {
                    first: Some(first),
                    second: Some(second),
                })
            }
        }
    }

    /// The blank copy of the process in a processor, in the era after this one.
    fn blank_after(
        &self,
        alloc: Global,
        site: &Site,
        processor: u8,
        era: u32,
    ) -> Result<NodeCopy, NoMemory>
        requires startable { IsStartable site.now }
        requires site { site.now ≡ self.now.site }
        requires there { self.now.number < length site.now.processes }
        requires era { HasNext era }
        ensures { IfOk result (λ one. one ≡ blank_after processor era self.now) }
    {
        let spec = &site.processes.as_slice()[usize::from(self.number)];
        let openers = self.openers.as_slice();
        let one = NodeCopy::blank(alloc, &spec.what, processor, era + 1, openers)?;
        Ok(one)
    }

    /// A processor is loaded again: the process has these blank copies there, and a copy elsewhere has to send them
    /// everything, and leads.
    pub fn reload(&mut self, processor: u8, blanks: BlankCopies)
        requires blanks { blanks ≡ blanks_of processor self.old }
        requires room { PairHasRoom self.old.pair }
        ensures { self.new ≡ placed_reloaded processor self.old }
    {
        let BlankCopies { first, second } = blanks;
        match first {
            None => self.put_second(second),
            Some(first) => self.put_first(first, second),
        }
    }

    /// Its first copy is this blank one now, and its second one too, if there is a blank one for it.
    fn put_first(&mut self, first: NodeCopy, second: Option<NodeCopy>)
        requires first { first.depths ≡ depths_of self.old.site self.old.number }
        requires second { IfSome second (λ one. one.depths ≡ depths_of self.old.site self.old.number) }
        requires room { PairHasRoom self.old.pair }
        ensures { self.new
            ≡ record self.old { pair = pair_with_blanks (Some first.copy) (copy_if second) self.old.pair } }
    {
        self.copies.first = first;
        match second {
            None => {
                self.copies.second.renew();
                self.led = Which::Second;
            }
            Some(second) => self.copies.second = second,
        }
    }

    /// Its second copy is a blank one now, if there is one for it.
    fn put_second(&mut self, second: Option<NodeCopy>)
        requires second { IfSome second (λ one. one.depths ≡ depths_of self.old.site self.old.number) }
        requires room { PairHasRoom self.old.pair }
        ensures { self.new ≡ record self.old { pair = pair_with_blanks None (copy_if second) self.old.pair } }
    {
        if let Some(second) = second {
            self.copies.first.renew();
            self.copies.second = second;
            self.led = Which::First;
        }
    }
}
