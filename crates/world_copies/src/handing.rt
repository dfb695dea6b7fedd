ghost use Rattle.std.specs.Prelude.{◌≡◌, slice_get, IfOk, OnOk};
ghost use Rattle.std.specs.Option.{option_map};
ghost use Rattle.process_copies.specs.computed_changes.specs.Changed.{change_done};
ghost use Rattle.process_copies.specs.computed_changes.specs.Handed.{brought, handed_done, replied_done, replied_to};
ghost use Rattle.process_copies.specs.computed_changes.specs.Laws.{NamesOpener};
ghost use Rattle.process_copies.specs.message_wires.specs.HasRoom.{WorldHasRoom};
ghost use Rattle.plain_semantics.specs.Openers.{openers_of};
ghost use Rattle.process_copies.specs.sendings.specs.Seen.{message_of};
ghost use Rattle.process_copies.specs.node_copies.specs.Seen.{step_sendings};
ghost use Rattle.world_copies.specs.Room.{NamesItsOpener};
ghost use Rattle.world_copies.specs.SiteWorld.{changed_by};
ghost use Rattle.world_copies.specs.Told.{sent_in};

use crate::copies::WorldCopies;
use gd_words::{NoMemory, Reply};
use process_copies::{ChangeMessage, Message, StepOutcome, TERMINAL_NODE};
use tal_tree::Who;

impl WorldCopies {
    /// A message is handed over at a node.
    pub fn hand(&mut self, node: u8, message: Message) -> Result<StepOutcome, NoMemory>
        requires opener { NamesItsOpener self.old.site (message_of message) }
        requires room { WorldHasRoom self.old.world }
        ensures told { IfOk result (λ step. step_sendings step
            ≡ sent_in (handed_done self.old.site node (message_of message) self.old.world)) }
        ensures state { OnOk result (self.new ≡ changed_by self.old
            (handed_done self.old.site node (message_of message) self.old.world)) }
    {
        match message {
            Message::Asking(request) => {
                let step = self.bring(request.process, node, Message::Asking(request))?;
                Ok(step)
            }
            Message::Replying(reply) => {
                let step = self.hand_reply(node, reply)?;
                Ok(step)
            }
            Message::Checkpointing(checkpoint) => {
                let number = checkpoint.get().process;
                let step = self.bring(number, node, Message::Checkpointing(checkpoint))?;
                Ok(step)
            }
            Message::Taking(taken) => {
                let step = self.bring(taken.process, node, Message::Taking(taken))?;
                Ok(step)
            }
        }
    }

    /// A checkpoint is handed over at a node as what changed since the one before it.
    pub fn hand_change(&mut self, node: u8, change: &ChangeMessage) -> Result<StepOutcome, NoMemory>
        ensures told { IfOk result (λ step. step_sendings step
            ≡ sent_in (change_done self.old.site node change.now self.old.world)) }
        ensures state { OnOk result (self.new ≡ changed_by self.old
            (change_done self.old.site node change.now self.old.world)) }
    {
        let place = usize::from(change.process);
        if place >= self.processes.len() {
            return Ok(StepOutcome::Impossible);
        }
        let step = self.processes[place].change_in(node, change, &mut self.records)?;
        Ok(step)
    }

    /// A reply goes to the opener that stands at its place.
    fn hand_reply(&mut self, node: u8, reply: Reply) -> Result<StepOutcome, NoMemory>
        requires { WorldHasRoom self.old.world }
        ensures told { IfOk result (λ step. step_sendings step
            ≡ sent_in (replied_done self.old.site node reply self.old.world
            (option_map (λ one. one.who) (slice_get (openers_of self.old.site reply.process) reply.opener)))) }
        ensures state { OnOk result (self.new ≡ changed_by self.old
            (replied_done self.old.site node reply self.old.world
            (option_map (λ one. one.who) (slice_get (openers_of self.old.site reply.process) reply.opener)))) }
    {
        match self.opener_at(reply.process, reply.opener) {
            None => Ok(StepOutcome::Impossible),
            Some(opener) => {
                let step = self.reply_to(node, reply, opener)?;
                Ok(step)
            }
        }
    }

    fn reply_to(&mut self, node: u8, reply: Reply, opener: Who) -> Result<StepOutcome, NoMemory>
        requires { WorldHasRoom self.old.world }
        ensures told { IfOk result (λ step. step_sendings step
            ≡ sent_in (replied_to self.old.site node reply self.old.world opener)) }
        ensures state { OnOk result (self.new ≡ changed_by self.old
            (replied_to self.old.site node reply self.old.world opener)) }
    {
        match opener {
            Who::File { process, file: _ } => {
                let step = self.bring(process, node, Message::Replying(reply))?;
                Ok(step)
            }
            Who::Terminal(terminal) => {
                if node != TERMINAL_NODE {
                    return Ok(StepOutcome::Impossible);
                }
                let step = self.print(terminal, reply)?;
                Ok(step)
            }
        }
    }

    /// A message comes to the process of a number at a node.
    fn bring(&mut self, number: u8, node: u8, message: Message) -> Result<StepOutcome, NoMemory>
        requires opener { NamesOpener self.old.site number (message_of message) }
        requires room { WorldHasRoom self.old.world }
        ensures told { IfOk result (λ step. step_sendings step
            ≡ sent_in (brought self.old.site number node (message_of message) self.old.world)) }
        ensures state { OnOk result (self.new ≡ changed_by self.old
            (brought self.old.site number node (message_of message) self.old.world)) }
    {
        let place = usize::from(number);
        if place >= self.processes.len() {
            return Ok(StepOutcome::Impossible);
        }
        let step = self.processes[place].come_in(node, message, &mut self.records)?;
        Ok(step)
    }
}
