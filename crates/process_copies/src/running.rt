ghost use Rattle.std.specs.Prelude.{◌≡◌, List, Some, false, length, not, true, IfOk, OnOk};
ghost use Rattle.process_semantics.specs.Process.{point};
ghost use Rattle.world_semantics.specs.World.{Down, copy_of, has_marked, may_pass, other_of};
ghost use Rattle.gd_words.specs.Ranges.{HasNext};
ghost use Rattle.node_copies.specs.message_wires.specs.HasRoom.{CopyHasRoom, PairHasRoom};
ghost use Rattle.world_semantics.specs.Records as happened;
ghost use Rattle.node_copies.specs.Seen.{step_sendings};
ghost use Rattle.process_copies.specs.Acting.{HasStepped, step_by_act};
ghost use Rattle.process_copies.specs.Seen.{placed_after, records_after, sent_by};
ghost use Rattle.world_semantics.specs.Running.{ending_step, free_step, step_at_checkpoint, own_of, passing_step};
ghost use Rattle.world_semantics.specs.Running.{renewing_step, sending_step, step_as, step_at, step_if, step_of};
ghost use Rattle.world_semantics.specs.Running.{step_of_copy};

use crate::copies::ProcessCopies;
use gd_words::NoMemory;
use logs::Shared;
use node_copies::{Downs, Message, Records, Sending, StepOutcome};
use process_semantics::Point;
use std::alloc::Global;
use world_semantics::{Role, Which};

impl ProcessCopies {
    /// The process runs: its copy that acts makes a step, if it can go on.
    pub fn run(
        &mut self,
        alloc: Global,
        downs: &Downs,
        records: &mut Records,
    ) -> Result<StepOutcome, NoMemory>
        requires room { PairHasRoom self.old.pair }
        requires shown { HasNext (length records.old.shown) }
        ensures told { IfOk result (λ step. step_sendings step
            ≡ sent_by (step_of self.old.site self.old.number self.old.pair downs.now records.old)) }
        ensures process { OnOk result (self.new
            ≡ placed_after self.old (step_of self.old.site self.old.number self.old.pair downs.now records.old)) }
        ensures records { OnOk result (records.new
            ≡ records_after records.old (step_of self.old.site self.old.number self.old.pair downs.now records.old)) }
        ensures site { self.new.site ≡ self.old.site }
        ensures number { self.new.number ≡ self.old.number }
    {
        match self.run_copy(alloc, Which::First, downs, records)? {
            StepOutcome::Impossible => {
                let step = self.run_copy(alloc, Which::Second, downs, records)?;
                Ok(step)
            }
            StepOutcome::Quiet => Ok(StepOutcome::Quiet),
            StepOutcome::Sends(sending) => Ok(StepOutcome::Sends(sending)),
        }
    }

    fn run_copy(
        &mut self,
        alloc: Global,
        which: Which,
        downs: &Downs,
        records: &mut Records,
    ) -> Result<StepOutcome, NoMemory>
        requires room { PairHasRoom self.old.pair }
        requires shown { HasNext (length records.old.shown) }
        ensures stepped { IfOk result (λ step. HasStepped
            (step_of_copy self.old.site self.old.number self.old.pair downs.now records.old which)
            step self.old self.new records.old records.new) }
        ensures site { self.new.site ≡ self.old.site }
        ensures number { self.new.number ≡ self.old.number }
    {
        match self.role(which) {
            Role::Acting => {
                let stands = self.point(which);
                let step = self.run_at(alloc, which, downs, records, stands)?;
                Ok(step)
            }
            Role::Watching | Role::Blank | Role::Gone => Ok(StepOutcome::Impossible),
        }
    }

    fn run_at(
        &mut self,
        alloc: Global,
        which: Which,
        downs: &Downs,
        records: &mut Records,
        stands: Point,
    ) -> Result<StepOutcome, NoMemory>
        requires point { point (copy_of which self.old.pair).core.state ≡ stands }
        requires room { CopyHasRoom (copy_of which self.old.pair) }
        requires shown { HasNext (length records.old.shown) }
        ensures stepped { IfOk result (λ step. HasStepped
            (step_at self.old.site self.old.number which self.old.pair downs.now records.old stands)
            step self.old self.new records.old records.new) }
        ensures site { self.new.site ≡ self.old.site }
        ensures number { self.new.number ≡ self.old.number }
    {
        match stands {
            Point::AtCheckpoint => {
                let free = self.may_pass(which, downs);
                let sent = self.sent(which);
                let step = self.run_at_checkpoint(alloc, which, records, free, sent)?;
                Ok(step)
            }
            _ => {
                let sent = self.sent(which);
                let renewal = self.renewal(which);
                let step = self.run_free(alloc, which, downs, records, stands, sent, renewal)?;
                Ok(step)
            }
        }
    }

    /// Elsewhere than at a checkpoint: what the copy has sent comes to its end, where it may; or it sends everything,
    /// if it has to; or it does an act of its own.
    fn run_free(
        &mut self,
        alloc: Global,
        which: Which,
        downs: &Downs,
        records: &mut Records,
        stands: Point,
        sent: bool,
        renewal: bool,
    ) -> Result<StepOutcome, NoMemory>
        requires point { point (copy_of which self.old.pair).core.state ≡ stands }
        requires renewal { renewal ≡ (copy_of which self.old.pair).renewal }
        requires room { CopyHasRoom (copy_of which self.old.pair) }
        requires shown { HasNext (length records.old.shown) }
        ensures stepped { IfOk result (λ step. HasStepped
            (free_step self.old.site self.old.number which self.old.pair downs.now records.old stands sent renewal)
            step self.old self.new records.old records.new) }
        ensures site { self.new.site ≡ self.old.site }
        ensures number { self.new.number ≡ self.old.number }
    {
        if sent {
            let free = self.may_pass(which, downs);
            return Ok(self.end_where(which, free));
        }
        if renewal {
            let is_heard = !self.has_marked_other(which, downs);
            let step = self.send_all(alloc, which, stands, is_heard)?;
            return Ok(step);
        }
        let step = self.act(which, records, stands)?;
        Ok(step)
    }

    /// What a copy has sent elsewhere than at a checkpoint comes to its end, where it may.
    fn end_where(&mut self, which: Which, free: bool) -> StepOutcome
        ensures stepped { (records : happened.Records) → HasStepped
            (step_if free (ending_step self.old.number which self.old.pair records)) result self.old self.new records
            records }
        ensures site { self.new.site ≡ self.old.site }
        ensures number { self.new.number ≡ self.old.number }
    {
        if !free {
            return StepOutcome::Impossible;
        }
        self.copies.of_mut(which).end();
        StepOutcome::Quiet
    }

    /// A copy sends everything, where it awaits no reply and its node hasn't marked the other copy's processor.
    fn send_all(
        &mut self,
        alloc: Global,
        which: Which,
        stands: Point,
        is_heard: bool,
    ) -> Result<StepOutcome, NoMemory>
        requires renewal { (copy_of which self.old.pair).renewal ≡ true }
        requires room { CopyHasRoom (copy_of which self.old.pair) }
        ensures stepped { (downs : List Down) (records : happened.Records)
            → is_heard ≡ not (has_marked downs (copy_of which self.old.pair).processor
            (copy_of (other_of which) self.old.pair).processor)
            → IfOk result (λ step. HasStepped
            (renewing_step self.old.number which self.old.pair downs records stands) step self.old self.new records
            records) }
        ensures site { self.new.site ≡ self.old.site }
        ensures number { self.new.number ≡ self.old.number }
    {
        if !is_heard {
            return Ok(StepOutcome::Impossible);
        }
        match stands {
            Point::Await => Ok(StepOutcome::Impossible),
            _ => {
                let step = self.send(alloc, which)?;
                Ok(step)
            }
        }
    }

    /// An act of a copy at a point where it stands.
    fn act(
        &mut self,
        which: Which,
        records: &mut Records,
        stands: Point,
    ) -> Result<StepOutcome, NoMemory>
        requires point { point (copy_of which self.old.pair).core.state ≡ stands }
        requires room { CopyHasRoom (copy_of which self.old.pair) }
        requires shown { HasNext (length records.old.shown) }
        ensures stepped { IfOk result (λ step. HasStepped (step_by_act self.old.number which self.old.pair records.old
            (own_of self.old.site self.old.number which self.old.pair records.old stands)) step self.old self.new
            records.old records.new) }
        ensures site { self.new.site ≡ self.old.site }
        ensures number { self.new.number ≡ self.old.number }
    {
        let number = self.number;
        let files = self.files.as_slice();
        let copy = self.copies.of_mut(which);
        let step = copy.act(number, files, &mut self.device, records, stands)?;
        Ok(step)
    }

    /// At a checkpoint, which a copy may pass or not, and whose checkpoint it has sent or not.
    fn run_at_checkpoint(
        &mut self,
        alloc: Global,
        which: Which,
        records: &mut Records,
        free: bool,
        sent: bool,
    ) -> Result<StepOutcome, NoMemory>
        requires point { point (copy_of which self.old.pair).core.state ≡ Point.AtCheckpoint }
        requires room { CopyHasRoom (copy_of which self.old.pair) }
        ensures stepped { IfOk result (λ step. HasStepped
            (step_at_checkpoint self.old.number which self.old.pair records.old free sent)
            step self.old self.new records.old records.new) }
        ensures site { self.new.site ≡ self.old.site }
        ensures number { self.new.number ≡ self.old.number }
    {
        if free {
            let step = self.pass(which, records)?;
            return Ok(step);
        }
        if sent {
            return Ok(StepOutcome::Impossible);
        }
        let step = self.send(alloc, which)?;
        Ok(step)
    }

    /// A copy passes its checkpoint.
    fn pass(&mut self, which: Which, records: &mut Records) -> Result<StepOutcome, NoMemory>
        requires { point (copy_of which self.old.pair).core.state ≡ Point.AtCheckpoint }
        ensures stepped { IfOk result (λ step. HasStepped
            (Some (passing_step self.old.number which self.old.pair records.old))
            step self.old self.new records.old records.new) }
        ensures site { self.new.site ≡ self.old.site }
        ensures number { self.new.number ≡ self.old.number }
    {
        let number = self.number;
        self.copies.of_mut(which).pass(number, records)?;
        Ok(StepOutcome::Quiet)
    }

    /// A copy sends its checkpoint, or everything.
    fn send(&mut self, alloc: Global, which: Which) -> Result<StepOutcome, NoMemory>
        requires point { (copy_of which self.old.pair).renewal ≡ false
            → point (copy_of which self.old.pair).core.state ≡ Point.AtCheckpoint }
        requires room { CopyHasRoom (copy_of which self.old.pair) }
        ensures stepped { (records : happened.Records)
            → IfOk result (λ step. HasStepped (Some (sending_step self.old.number which self.old.pair records))
            step self.old self.new records records) }
        ensures site { self.new.site ≡ self.old.site }
        ensures number { self.new.number ≡ self.old.number }
    {
        let number = self.number;
        let node = self.processor(which);
        let message = self.copies.of_mut(which).send(alloc, number)?;
        let message = Shared::new(alloc, message)?;
        let sent = message.share()?;
        self.checkpoints.add(sent)?;
        Ok(StepOutcome::Sends(Sending::new(node, Message::Checkpointing(message))))
    }
}
