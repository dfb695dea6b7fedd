ghost use Rattle.std.specs.Prelude.{◌≡◌, ◌<◌, ◌∷◌, [], true, is_some, length, map, IfOk, IsTrue, OnOk, Some};
ghost use Rattle.process_semantics.specs.declared.point.Point.TheVariants.{Await};
ghost use Rattle.process_semantics.specs.Process as process;
ghost use Rattle.node_copies.specs.file_calls.specs.Queue.{sent_again};
ghost use Rattle.plain_semantics.specs.Openers.{openers_of};
ghost use Rattle.world_semantics.specs.checkpoint_image.specs.Receive.{reply_sent_again};
ghost use Rattle.world_semantics.specs.Shares.{covered_count, share_after_cover, share_of, with_share};
ghost use Rattle.node_copies.specs.message_wires.specs.HasRoom.{CopyHasRoom, PairHasRoom};
ghost use Rattle.node_copies.specs.sendings.specs.Seen.{message_of};
ghost use Rattle.world_semantics.specs.World.{copy_of, other_of};
ghost use Rattle.world_semantics.specs.Messages.{Replying, Taking, sent_at};
ghost use Rattle.world_semantics.specs.Passes.{after_covering, after_told, point_at, taken_of};
ghost use Rattle.node_copies.specs.computed_changes.specs.Changed.{change_step, change_step_on};
ghost use Rattle.node_copies.specs.computed_changes.specs.Checkpoints.{checkpoint_step, is_of_last};
ghost use Rattle.node_copies.specs.computed_changes.specs.Checkpoints.{records_covering, taken_step, taken_step_where};
ghost use Rattle.node_copies.specs.computed_changes.specs.Handed.{step_by, step_on};
ghost use Rattle.node_copies.specs.computed_changes.specs.Laws.{NamesOpener};
ghost use Rattle.node_copies.specs.computed_changes.specs.Replies.{awaits, got_step, reply_step, reply_step_where};
ghost use Rattle.node_copies.specs.computed_changes.specs.Requests.{after_early_request, after_request, repeated_at};
ghost use Rattle.node_copies.specs.computed_changes.specs.Requests.{request_step};
ghost use Rattle.node_copies.specs.Receiving.{copy_applying, copy_changing};
ghost use Rattle.world_semantics.specs.Records as happened;
ghost use Rattle.node_copies.specs.Seen.{step_sendings};
ghost use Rattle.process_copies.specs.Receiving.{Settles, core_by, core_changed_by, is_awaiting, placed_with};
ghost use Rattle.process_copies.specs.Receiving.{taken_by_change};
ghost use Rattle.process_copies.specs.Seen.{placed_after, records_after, sent_by};

use crate::copies::{ProcessCopies, other_of};
use gd_words::{NoMemory, Reply, Request};
use node_copies::{Arrival, ChangeMessage, Message, Records, Sending, StepOutcome};
use process_semantics::Point;
use world_semantics::{ImageMessage, Role, TakenMessage, Which};

impl ProcessCopies {
    /// A message that is for this process comes to it at a node.
    pub fn come_in(
        &mut self,
        node: u8,
        message: Message,
        records: &mut Records,
    ) -> Result<StepOutcome, NoMemory>
        requires opener { NamesOpener self.old.site self.old.number (message_of message) }
        requires room { PairHasRoom self.old.pair }
        ensures told { IfOk result (λ step. step_sendings step
            ≡ sent_by (step_on self.old.site self.old.number node self.old.pair records.old (message_of message))) }
        ensures process { OnOk result (self.new
            ≡ placed_after self.old (step_on self.old.site self.old.number node self.old.pair records.old
            (message_of message))) }
        ensures records { OnOk result (records.new
            ≡ records_after records.old (step_on self.old.site self.old.number node self.old.pair records.old
            (message_of message))) }
        ensures site { self.new.site ≡ self.old.site }
        ensures number { self.new.number ≡ self.old.number }
    {
        match self.copy_in(node) {
            None => Ok(StepOutcome::Impossible),
            Some(which) => {
                let step = self.come_to(which, message, records)?;
                Ok(step)
            }
        }
    }

    /// A message comes to a copy.
    fn come_to(
        &mut self,
        which: Which,
        message: Message,
        records: &mut Records,
    ) -> Result<StepOutcome, NoMemory>
        requires opener { NamesOpener self.old.site self.old.number (message_of message) }
        requires room { CopyHasRoom (copy_of which self.old.pair) }
        ensures step { IfOk result (λ step. Settles
            (step_by self.old.site self.old.number self.old.pair records.old (message_of message) which)
            self.old records.old step self.new records.new) }
        ensures site { self.new.site ≡ self.old.site }
        ensures number { self.new.number ≡ self.old.number }
    {
        match message {
            Message::Asking(request) => Ok(self.request_to(which, request)),
            Message::Replying(reply) => {
                let step = self.reply_to(which, &reply, records)?;
                Ok(step)
            }
            Message::Checkpointing(message) => {
                let step = self.checkpoint_to(which, message.get(), records)?;
                Ok(step)
            }
            Message::Taking(taken) => Ok(self.taken_to(which, taken)),
        }
    }

    fn request_to(&mut self, which: Which, request: Request) -> StepOutcome
        requires { request.opener < length (openers_of self.old.site self.old.number) }
        ensures step { (records : happened.Records) → Settles
            (request_step which self.old.pair records request (copy_of which self.old.pair).role)
            self.old records result self.new records }
        ensures site { self.new.site ≡ self.old.site }
        ensures number { self.new.number ≡ self.old.number }
    {
        match self.role(which) {
            Role::Acting => self.request_acting(which, request),
            Role::Watching | Role::Blank => {
                self.arrive_watching(which, request);
                StepOutcome::Quiet
            }
            Role::Gone => StepOutcome::Impossible,
        }
    }

    fn request_acting(&mut self, which: Which, request: Request) -> StepOutcome
        requires { request.opener < length (openers_of self.old.site self.old.number) }
        ensures told { step_sendings result ≡ Some (repeated_at (copy_of which self.old.pair) request) }
        ensures process { self.new ≡ placed_with which (after_request (copy_of which self.old.pair) request) self.old }
    {
        let node = self.processor(which);
        let arrival = self.arrive(which, request);
        repeating(node, arrival)
    }

    fn arrive(&mut self, which: Which, request: Request) -> Arrival
        requires { request.opener < length (openers_of self.old.site self.old.number) }
        ensures again { sent_again result ≡ reply_sent_again (copy_of which self.old.pair).core.receive request }
        ensures process { self.new ≡ placed_with which (after_request (copy_of which self.old.pair) request) self.old }
    {
        self.copies.of_mut(which).arrive(request)
    }

    fn arrive_watching(&mut self, which: Which, request: Request)
        requires { request.opener < length (openers_of self.old.site self.old.number) }
        ensures { self.new ≡ placed_with which (after_early_request (copy_of which self.old.pair) request) self.old }
    {
        self.copies.of_mut(which).arrive_watching(request)
    }

    fn reply_to(
        &mut self,
        which: Which,
        reply: &Reply,
        records: &mut Records,
    ) -> Result<StepOutcome, NoMemory>
        requires { CopyHasRoom (copy_of which self.old.pair) }
        ensures step { IfOk result (λ step. Settles
            (reply_step self.old.site self.old.number which self.old.pair records.old reply.now
            (copy_of which self.old.pair).role)
            self.old records.old step self.new records.new) }
        ensures site { self.new.site ≡ self.old.site }
        ensures number { self.new.number ≡ self.old.number }
    {
        match self.role(which) {
            Role::Acting => {
                let step = self.reply_acting(which, reply, records)?;
                Ok(step)
            }
            Role::Watching | Role::Blank | Role::Gone => Ok(StepOutcome::Impossible),
        }
    }

    fn reply_acting(
        &mut self,
        which: Which,
        reply: &Reply,
        records: &mut Records,
    ) -> Result<StepOutcome, NoMemory>
        requires { CopyHasRoom (copy_of which self.old.pair) }
        ensures step { IfOk result (λ step. Settles
            (reply_step_where self.old.number which self.old.pair records.old reply.now
            (is_awaiting self.old.site self.old.number (copy_of which self.old.pair) reply.now))
            self.old records.old step self.new records.new) }
        ensures site { self.new.site ≡ self.old.site }
        ensures number { self.new.number ≡ self.old.number }
    {
        if !self.awaits(which, reply) {
            return Ok(StepOutcome::Impossible);
        }
        self.get_reply(which, reply, records)?;
        Ok(StepOutcome::Quiet)
    }

    /// Whether a copy awaits a reply.
    fn awaits(&self, which: Which, reply: &Reply) -> bool
        ensures told { result ≡ is_awaiting self.now.site self.now.number (copy_of which self.now.pair) reply.now }
        ensures at { IsTrue result → process.point (copy_of which self.now.pair).core.state ≡ Await }
    {
        match self.point(which) {
            Point::Await => self.is_awaited(which, reply),
            _ => false,
        }
    }

    /// Whether a reply is to the request that a copy asked last.
    fn is_awaited(&self, which: Which, reply: &Reply) -> bool
        ensures { result ≡ awaits self.now.site self.now.number (copy_of which self.now.pair).core reply.now Await }
    {
        let file = self.asked_file(which);
        if !self.is_from(file, reply) {
            return false;
        }
        u64::from(reply.number) + 1 == u64::from(self.next_on(which, file))
    }

    fn get_reply(
        &mut self,
        which: Which,
        reply: &Reply,
        records: &mut Records,
    ) -> Result<(), NoMemory>
        requires point { process.point (copy_of which self.old.pair).core.state ≡ Await }
        requires room { CopyHasRoom (copy_of which self.old.pair) }
        ensures process { OnOk result (self.new
            ≡ record self.old { pair = (got_step self.old.number which self.old.pair records.old reply.now).pair }) }
        ensures records { OnOk result (records.new
            ≡ (got_step self.old.number which self.old.pair records.old reply.now).records) }
        ensures site { self.new.site ≡ self.old.site }
        ensures number { self.new.number ≡ self.old.number }
    {
        let number = self.number;
        self.copies
            .of_mut(which)
            .get_reply(number, &reply.words, records)?;
        Ok(())
    }

    fn checkpoint_to(
        &mut self,
        which: Which,
        message: &ImageMessage,
        records: &mut Records,
    ) -> Result<StepOutcome, NoMemory>
        ensures step { IfOk result (λ step. Settles
            (checkpoint_step self.old.site self.old.number which self.old.pair records.old message.now
            (copy_of which self.old.pair).role)
            self.old records.old step self.new records.new) }
        ensures site { self.new.site ≡ self.old.site }
        ensures number { self.new.number ≡ self.old.number }
    {
        if !self.apply(which, message) {
            return Ok(StepOutcome::Impossible);
        }
        let step = self.applied(which, taken_of(message), records)?;
        Ok(step)
    }

    /// A copy applies a checkpoint, or ignores it. Whether it applied it is answered.
    fn apply(&mut self, which: Which, message: &ImageMessage) -> bool
        ensures told { result ≡ is_some (core_by which self.old message.now) }
        ensures process { self.new
            ≡ placed_with which (copy_applying (copy_of which self.old.pair) message.now
            (core_by which self.old message.now)) self.old }
    {
        self.copies.of_mut(which).apply(message)
    }

    /// A copy applied a checkpoint, and says that it was taken.
    fn applied(
        &mut self,
        which: Which,
        taken: TakenMessage,
        records: &mut Records,
    ) -> Result<StepOutcome, NoMemory>
        ensures told { IfOk result (λ step. step_sendings step
            ≡ Some (sent_at (copy_of which self.old.pair).processor (Taking taken ∷ []))) }
        ensures process { OnOk result (self.new
            ≡ record self.old {
              pair = after_covering self.old.number (other_of which) taken records.old.kept
                  self.old.pair;
            }) }
        ensures records { OnOk result (records.new
            ≡ records_covering self.old.number (copy_of (other_of which) self.old.pair) records.old) }
        ensures site { self.new.site ≡ self.old.site }
        ensures number { self.new.number ≡ self.old.number }
    {
        let node = self.processor(which);
        let base = self.cover_other(which, records)?;
        self.takens.add(&taken)?;
        self.base = base;
        Ok(StepOutcome::Sends(Sending::new(node, Message::Taking(taken))))
    }

    /// The checkpoint of the other copy is kept, with what that copy held. Answers the base.
    fn cover_other(&mut self, which: Which, records: &mut Records) -> Result<u64, NoMemory>
        ensures base { IfOk result (λ base. base
            ≡ covered_count self.old.number (point_at (copy_of (other_of which) self.old.pair)) records.old.kept
            (share_of (copy_of (other_of which) self.old.pair))) }
        ensures process { OnOk result (self.new ≡ placed_with (other_of which)
            (with_share (share_after_cover self.old.number (point_at (copy_of (other_of which) self.old.pair))
            records.old.kept (share_of (copy_of (other_of which) self.old.pair))).share
            (copy_of (other_of which) self.old.pair)) self.old) }
        ensures records { OnOk result (records.new
            ≡ records_covering self.old.number (copy_of (other_of which) self.old.pair) records.old) }
        ensures site { self.new.site ≡ self.old.site }
        ensures number { self.new.number ≡ self.old.number }
    {
        let number = self.number;
        let base = self.copies.of_mut(other_of(which)).cover(number, records)?;
        Ok(base)
    }

    /// A checkpoint that is for this process comes to it at a node as what changed since the one before it.
    pub fn change_in(
        &mut self,
        node: u8,
        change: &ChangeMessage,
        records: &mut Records,
    ) -> Result<StepOutcome, NoMemory>
        ensures told { IfOk result (λ step. step_sendings step
            ≡ sent_by (change_step_on self.old.site self.old.number node self.old.pair records.old change.now)) }
        ensures process { OnOk result (self.new
            ≡ placed_after self.old (change_step_on self.old.site self.old.number node self.old.pair records.old
            change.now)) }
        ensures records { OnOk result (records.new
            ≡ records_after records.old (change_step_on self.old.site self.old.number node self.old.pair records.old
            change.now)) }
        ensures site { self.new.site ≡ self.old.site }
        ensures number { self.new.number ≡ self.old.number }
    {
        match self.copy_in(node) {
            None => Ok(StepOutcome::Impossible),
            Some(which) => {
                let step = self.change_to(which, change, records)?;
                Ok(step)
            }
        }
    }

    #[tactic(auto, using(crate::proofs::Changing::change_refused))]
    fn change_to(
        &mut self,
        which: Which,
        change: &ChangeMessage,
        records: &mut Records,
    ) -> Result<StepOutcome, NoMemory>
        ensures step { IfOk result (λ step. Settles
            (change_step self.old.site self.old.number self.old.pair records.old change.now which)
            self.old records.old step self.new records.new) }
        ensures site { self.new.site ≡ self.old.site }
        ensures number { self.new.number ≡ self.old.number }
    {
        if !self.apply_change(which, change) {
            return Ok(StepOutcome::Impossible);
        }
        let step = self.applied(which, taken_by_change(change), records)?;
        Ok(step)
    }

    /// A copy applies a checkpoint that came as what changed, or ignores it. Whether it applied it is answered.
    fn apply_change(&mut self, which: Which, change: &ChangeMessage) -> bool
        ensures told { result ≡ is_some (core_changed_by which self.old change.now) }
        ensures process { self.new
            ≡ placed_with which (copy_changing (copy_of which self.old.pair) change.now
            (core_changed_by which self.old change.now)) self.old }
    {
        self.copies.of_mut(which).apply_change(change)
    }

    fn taken_to(&mut self, which: Which, taken: TakenMessage) -> StepOutcome
        ensures step { (records : happened.Records) → Settles
            (taken_step which self.old.pair records taken (copy_of which self.old.pair).role) self.old records result
            self.new records }
        ensures site { self.new.site ≡ self.old.site }
        ensures number { self.new.number ≡ self.old.number }
    {
        match self.role(which) {
            Role::Acting => self.taken_acting(which, taken),
            Role::Watching | Role::Blank | Role::Gone => StepOutcome::Impossible,
        }
    }

    fn taken_acting(&mut self, which: Which, taken: TakenMessage) -> StepOutcome
        ensures step { (records : happened.Records) → Settles
            (taken_step_where which self.old.pair records (is_of_last (copy_of which self.old.pair).sent
            (copy_of which self.old.pair).era (copy_of which self.old.pair).number taken))
            self.old records result self.new records }
        ensures site { self.new.site ≡ self.old.site }
        ensures number { self.new.number ≡ self.old.number }
    {
        if !self.is_of_last(which, taken) {
            return StepOutcome::Impossible;
        }
        self.acked(which);
        StepOutcome::Quiet
    }

    fn is_of_last(&self, which: Which, taken: TakenMessage) -> bool
        ensures { result ≡ is_of_last (copy_of which self.now.pair).sent (copy_of which self.now.pair).era
            (copy_of which self.now.pair).number taken }
    {
        self.copies.of(which).is_of_last(taken)
    }

    fn acked(&mut self, which: Which)
        ensures { self.new ≡ placed_with which (after_told (copy_of which self.old.pair)) self.old }
    {
        self.copies.of_mut(which).acked()
    }
}

/// What a node sends that a request came to.
fn repeating(node: u8, arrival: Arrival) -> StepOutcome
    ensures { step_sendings result ≡ Some (sent_at node (map Replying (sent_again arrival))) }
{
    match arrival {
        Arrival::Waits | Arrival::Dropped => StepOutcome::Quiet,
        Arrival::Again(reply) => StepOutcome::Sends(Sending::new(node, Message::Replying(reply))),
    }
}

/// The message that a checkpoint was taken which came as what changed.
fn taken_by_change(change: &ChangeMessage) -> TakenMessage
    ensures { result ≡ taken_by_change change.now }
{
    TakenMessage {
        process: change.process,
        era: change.era,
        number: change.number,
    }
}

/// The message that a checkpoint was taken.
fn taken_of(message: &ImageMessage) -> TakenMessage
    ensures { result ≡ taken_of message.now }
{
    TakenMessage {
        process: message.process,
        era: message.era,
        number: message.number,
    }
}
