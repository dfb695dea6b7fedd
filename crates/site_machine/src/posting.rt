ghost use Rattle.std.specs.Prelude.{◌≡◌, [], ◌∷◌, IfOk, OnOk};
ghost use Rattle.open_links.specs.world_copies.specs.node_copies.specs.Seen.{step_sendings};
ghost use Rattle.node.specs.event_parts.specs.Numbers.{CanPush};
ghost use Rattle.site_machine.specs.Needs.{AreWithin, AreWithinIfAny, IsSentWithin};
ghost use Rattle.site_machine.specs.Told.{Answers, sent_all};

use crate::whole::MachineParts;
use crate::wording::words_of;
use gd_words::{List, NoMemory};
use node::Effect;
use open_links::{Sending, StepOutcome};

impl MachineParts {
    /// A message is sent at a node, where that runs: to where the node finds the receiver, and a checkpoint in the form
    /// in which it goes.
    pub(crate) fn post(&mut self, sending: Sending) -> Result<(), NoMemory>
        requires within { IsSentWithin self.old.world sending.message }
        requires numbered { CanPush self.old.wires.nodes }
        ensures { OnOk result (self.new ≡ sent_all (sending ∷ []) self.old) }
    {
        let node = sending.node();
        match self.world.receiver_of(node, sending.message()) {
            None => Ok(()),
            Some(receiver) => {
                if !self.world.is_running(node) {
                    return Ok(());
                }
                let words = words_of(self.alloc, &self.world, sending.message())?;
                self.wires.send(node, receiver, words)?;
                Ok(())
            }
        }
    }

    /// Messages are sent, one after another.
    pub(crate) fn post_all(&mut self, sendings: List<Sending>) -> Result<(), NoMemory>
        requires within { AreWithin self.old.world sendings }
        requires numbered { CanPush self.old.wires.nodes }
        ensures { OnOk result (self.new ≡ sent_all sendings self.old) }
    {
        for sending in sendings.into_vec() {
            self.post(sending)?;
        }
        Ok(())
    }

    /// Posts what a step sends that a process was to make, and answers whether it was made.
    pub(crate) fn tell(&mut self, step: StepOutcome) -> Result<Effect, NoMemory>
        requires within { AreWithinIfAny self.old.world (step_sendings step) }
        requires numbered { CanPush self.old.wires.nodes }
        ensures { IfOk result (λ effect. Answers (step_sendings step) self.old effect self.new) }
    {
        match step {
            StepOutcome::Impossible => Ok(Effect::Skipped),
            StepOutcome::Quiet => Ok(Effect::Done),
            StepOutcome::Sends(sending) => {
                self.post(sending)?;
                Ok(Effect::Done)
            }
        }
    }
}
