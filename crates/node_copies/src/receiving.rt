ghost use Rattle.std.specs.Prelude.{◌≡◌, ◌<◌, ◌++◌, ◌==◌, ◌&&◌, not, is_some, length, IfOk, OnOk};
ghost use Rattle.gd_words.specs.Ranges.{HasNext};
ghost use Rattle.process_semantics.specs.declared.point.Point.TheVariants.{Await};
ghost use Rattle.process_semantics.specs.Process.{asked_file, asked_words, point};
ghost use Rattle.checkpoint_image.specs.Receive.{reply_sent_again};
ghost use Rattle.file_calls.specs.Queue.{sent_again};
ghost use Rattle.file_calls.specs.sync_ids.specs.Tables.{IsSound};
ghost use Rattle.kept_acts.specs.world_semantics.specs.declared.role.Role.TheVariants.{Watching};
ghost use Rattle.kept_acts.specs.world_semantics.specs.Core.{next_on};
ghost use Rattle.kept_acts.specs.world_semantics.specs.Rules.{copy_with_renewal, stopped_copy, taken_over, told_again};
ghost use Rattle.kept_acts.specs.world_semantics.specs.Passes.{after_told};
ghost use Rattle.process_control.specs.computed_changes.specs.Changed.{core_changing};
ghost use Rattle.process_control.specs.computed_changes.specs.Checkpoints.{core_applying, is_of_last};
ghost use Rattle.process_control.specs.computed_changes.specs.Replies.{copy_got, kept_got};
ghost use Rattle.process_control.specs.computed_changes.specs.Requests.{after_early_request, after_request};
ghost use Rattle.message_wires.specs.HasRoom.{CopyHasRoom};
ghost use Rattle.node_copies.specs.Receiving.{copy_applying, copy_changing, with_changed};
ghost use Rattle.kept_acts.specs.world_semantics.specs.Shares.{share_at_close, covered_count, share_after_cover};
ghost use Rattle.kept_acts.specs.world_semantics.specs.Shares.{share_of, with_share};
ghost use Rattle.kept_acts.specs.world_semantics.specs.Shares.{without_held};

use crate::one::NodeCopy;
use crate::records::Records;
use crate::settling::settle;
use checkpoint_image::{ImageMessage, ReceiveBlock, TakenMessage};
use file_calls::Arrival;
use gd_words::{List, NoMemory, Request, Words};
use message_wires::ChangeMessage;
use sendings::Sending;
use std::alloc::Global;
use tal_tree::Act;

impl NodeCopy {
    /// A request came to the copy, which acts.
    pub fn arrive(&mut self, request: Request) -> Arrival
        requires { request.opener < length self.old.depths }
        ensures again { sent_again result ≡ reply_sent_again self.old.copy.core.receive request }
        ensures copy { self.new ≡ with_changed self.old (after_request self.old.copy request) }
    {
        let receive = self.control.receive();
        self.waiting.arrive(request, receive)
    }

    /// A request came to the copy, which watches.
    pub fn arrive_watching(&mut self, request: Request)
        requires { request.opener < length self.old.depths }
        ensures { self.new ≡ with_changed self.old (after_early_request self.old.copy request) }
    {
        let _arrival = self.waiting.arrive_watching(request);
    }

    /// The copy gets the reply that it awaits: a step of its process.
    pub fn get_reply(
        &mut self,
        process: u8,
        words: &Words,
        records: &mut Records,
    ) -> Result<(), NoMemory>
        requires point { point self.old.copy.core.state ≡ Await }
        requires room { CopyHasRoom self.old.copy }
        ensures copy { OnOk result (self.new ≡ with_changed self.old
            (copy_got process words.now records.old.kept self.old.copy)) }
        ensures records { OnOk result (records.new
            ≡ record records.old { kept = kept_got process records.old.kept self.old.copy }) }
        ensures depths { self.new.depths ≡ self.old.depths }
    {
        self.share
            .enter(process, Act::Step(process), &mut records.kept)?;
        self.control.got(words);
        Ok(())
    }

    /// Applies a checkpoint that came, whole, or ignores it. It answers whether it was applied.
    pub fn apply(&mut self, message: &ImageMessage) -> bool
        ensures told { result ≡ is_some (core_applying self.old.depths self.old.copy message.now) }
        ensures copy { self.new ≡ with_changed self.old
            (copy_applying self.old.copy message.now (core_applying self.old.depths self.old.copy message.now)) }
    {
        self.control.checkpoint_in(message)
    }

    /// Applies a checkpoint that came as what changed since the one before it, or ignores it. It answers whether it was
    /// applied.
    pub fn apply_change(&mut self, change: &ChangeMessage) -> bool
        ensures told { result ≡ is_some (core_changing self.old.depths self.old.copy change.now) }
        ensures copy { self.new ≡ with_changed self.old
            (copy_changing self.old.copy change.now (core_changing self.old.depths self.old.copy change.now)) }
    {
        self.control.change_in(change)
    }

    /// The other copy applied this copy's checkpoint. Answers the base.
    pub fn cover(&mut self, process: u8, records: &mut Records) -> Result<u64, NoMemory>
        ensures base { IfOk result (λ base. base
            ≡ covered_count process (point self.old.copy.core.state) records.old.kept (share_of self.old.copy)) }
        ensures copy { OnOk result (self.new
            ≡ with_changed self.old (with_share (share_after_cover process (point self.old.copy.core.state)
            records.old.kept (share_of self.old.copy)).share self.old.copy)) }
        ensures records { OnOk result (records.new
            ≡ record records.old {
              kept = (share_after_cover process (point self.old.copy.core.state)
                  records.old.kept (share_of self.old.copy)).kept;
            }) }
        ensures depths { self.new.depths ≡ self.old.depths }
    {
        let stands = self.control.point();
        let base = self.share.cover(process, stands, &mut records.kept)?;
        Ok(base)
    }

    /// Whether it is what the copy sent last that was taken.
    pub fn is_of_last(&self, taken: TakenMessage) -> bool
        ensures { result ≡ is_of_last self.now.copy.sent self.now.copy.era self.now.copy.number taken }
    {
        self.control.is_of_last(taken)
    }

    /// What the copy sent last was taken: it has sent everything, if it had to.
    pub fn acked(&mut self)
        ensures { self.new ≡ with_changed self.old (after_told self.old.copy) }
    {
        self.control.acked();
    }

    /// The processor of the other copy was loaded again: everything is to be sent to it. The number of the next era has
    /// 32 bits.
    pub fn renew(&mut self)
        requires { HasNext self.old.copy.era }
        ensures { self.new ≡ with_changed self.old (copy_with_renewal self.old.copy) }
    {
        self.control.renew();
    }

    /// A node marks a processor: where the copy is on that node, and the other copy's processor is this one, nothing
    /// more is to be sent to that copy.
    pub fn end_renewal(&mut self, node: u8, processor: u8, other: u8)
        ensures { self.new ≡ with_changed self.old (record self.old.copy
            { renewal = self.old.copy.renewal && not (self.old.copy.processor == node && other == processor) }) }
    {
        if self.processor == node && other == processor {
            self.control.end_renewal();
        }
    }

    /// The copy takes over, from the base on. The replies kept to its waiting requests are added to `told`.
    pub fn take_over(&mut self, base: u64, told: &mut List<Sending>) -> Result<(), NoMemory>
        requires watching { self.old.copy.role ≡ Watching }
        requires room { CopyHasRoom self.old.copy }
        ensures copy { OnOk result (self.new ≡ with_changed self.old (taken_over base self.old.copy)) }
        ensures told { OnOk result (told.new ≡ told.old ++ told_again self.old.copy) }
        ensures depths { self.new.depths ≡ self.old.depths }
    {
        let receive = self.control.receive();
        settle(self.processor, &mut self.waiting, receive, told)?;
        self.control.take_over();
        self.share.take_over(base);
        Ok(())
    }

    /// The other copy took over: what this one held is dropped.
    pub fn let_go(&mut self)
        ensures { self.new ≡ with_changed self.old (without_held self.old.copy) }
    {
        self.share.let_go();
    }

    /// The run is closed: what the copy still holds is kept.
    pub fn close(&mut self, records: &mut Records) -> Result<(), NoMemory>
        ensures copy { OnOk result (self.new ≡ with_changed self.old (without_held self.old.copy)) }
        ensures records { OnOk result (records.new
            ≡ record records.old { kept = (share_at_close records.old.kept (share_of self.old.copy)).kept }) }
        ensures depths { self.new.depths ≡ self.old.depths }
    {
        self.share.close(&mut records.kept)?;
        Ok(())
    }

    /// A processor stops: if it is the copy's, the copy is gone.
    pub fn stop(&mut self, processor: u8)
        ensures { self.new ≡ with_changed self.old (stopped_copy processor self.old.copy) }
    {
        if self.processor == processor {
            self.control.stop();
        }
    }

    /// The file on which its process asked.
    pub fn asked_file(&self) -> u8
        ensures { result ≡ asked_file self.now.copy.core.state }
    {
        self.control.behaviour().asked_file()
    }

    /// The words that its process asked.
    pub fn asked_words(&self) -> Words
        ensures { result ≡ asked_words self.now.copy.core.state }
    {
        self.control.behaviour().asked_words()
    }

    /// The number of the next request on a file.
    pub fn next_on(&self, file: u8) -> u32
        ensures { result ≡ next_on self.now.copy.core file }
    {
        self.control.next_on(file)
    }

    /// Its receive table.
    pub fn kept_table(&self, alloc: Global) -> Result<ReceiveBlock, NoMemory>
        ensures table { IfOk result (λ block. block ≡ self.now.copy.core.receive) }
        ensures sound { IfOk result (λ block. IsSound (record { table = block; depths = self.now.depths })) }
    {
        let block = self.control.receive().block(alloc)?;
        Ok(block)
    }
}
