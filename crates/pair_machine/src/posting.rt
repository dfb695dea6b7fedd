ghost use Rattle.std.specs.Prelude.{◌≡◌, [], ◌∷◌, IfOk, OnOk};
ghost use Rattle.pair_machine.specs.Room.{AreCounted, AreCountedTelling};
ghost use Rattle.pair_machine.specs.Told.{Answers, sent_all};
ghost use Rattle.world_copies.specs.node_copies.specs.Seen.{step_sendings};

use crate::whole::MachineParts;
use gd_words::{List, NoMemory};
use machine_states::Effect;
use posted_letters::{Letter, Sending};
use world_copies::StepOutcome;

impl MachineParts {
    /// A message is sent at a node: a letter is posted to where the node finds the receiver.
    #[tactic(auto, using(crate::proofs::Room::posted_next))]
    pub(crate) fn post(&mut self, sending: Sending) -> Result<(), NoMemory>
        requires { AreCounted (sent_all (sending ∷ []) self.old) }
        ensures { OnOk result (self.new ≡ sent_all (sending ∷ []) self.old) }
    {
        match self.world.receiver_of(sending.node(), sending.message()) {
            None => Ok(()),
            Some(receiver) => {
                let node = sending.node();
                self.wires
                    .post(Letter::new(node, receiver, sending.into_message()))?;
                Ok(())
            }
        }
    }

    /// Messages are sent, one after another.
    pub(crate) fn post_all(&mut self, sendings: List<Sending>) -> Result<(), NoMemory>
        requires { AreCounted (sent_all sendings self.old) }
        ensures { OnOk result (self.new ≡ sent_all sendings self.old) }
    {
        for sending in sendings.into_vec() {
            self.post(sending)?;
        }
        Ok(())
    }

    /// Posts what a step sends that a process was to make, and answers whether it was made.
    pub(crate) fn tell(&mut self, step: StepOutcome) -> Result<Effect, NoMemory>
        requires { AreCountedTelling (step_sendings step) self.old }
        ensures { IfOk result (λ effect. Answers (step_sendings step) self.old effect self.new) }
    {
        match step {
            StepOutcome::Impossible => Ok(Effect::Skipped),
            StepOutcome::Quiet => Ok(Effect::Done),
            StepOutcome::Sends(sending) => {
                self.post(sending)?;
                Ok(Effect::Done)
            }
        }
    }
}
