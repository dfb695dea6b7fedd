ghost use Rattle.std.specs.Prelude.{◌≡◌, ◌&&◌, IfOk, OnOk};
ghost use Rattle.message_wires.specs.computed_changes.specs.Handed.{handed_done};
ghost use Rattle.machine_states.specs.States.{Settles};
ghost use Rattle.number_laws.specs.message_wires.specs.HasRoom.{HasRoom};
ghost use Rattle.message_wires.specs.Play.{after_any, deliver_played, is_admitted, lose_played, packet_at};
ghost use Rattle.message_wires.specs.Play.{state_after_receiving, repeat_played};
ghost use Rattle.message_wires.specs.Wires.{is_current};
ghost use Rattle.posted_letters.specs.sendings.specs.Seen.{message_of};
ghost use Rattle.world_copies.specs.node_copies.specs.Seen.{step_sendings};
ghost use Rattle.world_copies.specs.Room.{NamesItsOpener};
ghost use Rattle.world_copies.specs.Told.{sent_in};
ghost use Rattle.pair_machine.specs.Room.{AreCounted, AreCountedAfter, OpenersAreThere};
ghost use Rattle.pair_machine.specs.Told.{unsent};

use crate::whole::MachineParts;
use gd_words::NoMemory;
use machine_states::Effect;
use posted_letters::{Message, Sent};
use schedule::BusName;
use world_copies::StepOutcome;

impl MachineParts {
    /// The packet at a position of a bus is taken off, and its letter comes in or is dropped.
    #[tactic(auto, using(crate::proofs::Packets::none_removed))]
    pub(crate) fn deliver(&mut self, bus: BusName, k: u32) -> Result<Effect, NoMemory>
        requires openers { OpenersAreThere self.old }
        requires room { HasRoom self.old }
        requires letters { AreCountedAfter (deliver_played k self.old (packet_at self.old bus k)) }
        ensures { IfOk result (λ effect. Settles (deliver_played k self.old (packet_at self.old bus k)) self.old effect
            self.new) }
    {
        match bus {
            BusName::Y => Ok(Effect::Skipped),
            BusName::X => match self.wires.take(k as usize) {
                None => Ok(Effect::Skipped),
                Some(packet) => {
                    self.receive(packet)?;
                    Ok(Effect::Done)
                }
            },
        }
    }

    /// A packet that was taken off the bus comes in at its receiver, or is dropped there.
    fn receive(&mut self, packet: Sent) -> Result<(), NoMemory>
        requires opener { NamesItsOpener self.old.site packet.letter.message }
        requires room { HasRoom self.old }
        requires letters { AreCounted (state_after_receiving packet self.old) }
        ensures { OnOk result (self.new ≡ state_after_receiving packet self.old) }
    {
        if self.comes_in(&packet) {
            self.wires.pay(packet.number());
            let letter = packet.into_letter();
            let node = letter.receiver();
            self.hand(node, letter.into_message())?;
        }
        Ok(())
    }

    /// Whether a packet comes in: it isn't old, and its receiver runs and hasn't marked its sender.
    fn comes_in(&self, packet: &Sent) -> bool
        ensures { result
            ≡ (is_current self.now.wires.before packet.now && is_admitted self.now packet.now.letter) }
    {
        self.wires.is_current(packet)
            && self.world.is_running(packet.receiver())
            && !self.world.has_marked(packet.receiver(), packet.sender())
    }

    /// A message is handed over at a node, and what that sends is posted.
    fn hand(&mut self, node: u8, message: Message) -> Result<(), NoMemory>
        requires opener { NamesItsOpener self.old.site (message_of message) }
        requires room { HasRoom self.old }
        requires letters { AreCounted (after_any self.old
            (handed_done self.old.site node (message_of message) self.old.world)) }
        ensures { OnOk result (self.new ≡ after_any self.old
            (handed_done self.old.site node (message_of message) self.old.world)) }
    {
        let step = self.hand_over(node, message)?;
        self.tell(step)?;
        Ok(())
    }

    /// A message is handed over at a node. What that sends isn't posted yet.
    fn hand_over(&mut self, node: u8, message: Message) -> Result<StepOutcome, NoMemory>
        requires opener { NamesItsOpener self.old.site (message_of message) }
        requires room { HasRoom self.old }
        ensures told { IfOk result (λ step. step_sendings step
            ≡ sent_in (handed_done self.old.site node (message_of message) self.old.world)) }
        ensures state { OnOk result (self.new ≡ unsent self.old
            (handed_done self.old.site node (message_of message) self.old.world)) }
    {
        let step = self.world.hand(node, message)?;
        Ok(step)
    }

    /// The packet at a position of a bus is lost.
    #[tactic(auto, using(crate::proofs::Packets::none_removed))]
    pub(crate) fn lose(&mut self, bus: BusName, k: u32) -> Result<Effect, NoMemory>
        ensures { IfOk result (λ effect. Settles (lose_played k self.old (packet_at self.old bus k)) self.old effect
            self.new) }
    {
        match bus {
            BusName::Y => Ok(Effect::Skipped),
            BusName::X => match self.wires.take(k as usize) {
                None => Ok(Effect::Skipped),
                Some(packet) => {
                    drop(packet);
                    Ok(Effect::Done)
                }
            },
        }
    }

    /// The packet at a position of a bus comes once more.
    pub(crate) fn repeat(&mut self, bus: BusName, k: u32) -> Result<Effect, NoMemory>
        ensures { IfOk result (λ effect. Settles (repeat_played self.old (packet_at self.old bus k)) self.old effect
            self.new) }
    {
        match bus {
            BusName::Y => Ok(Effect::Skipped),
            BusName::X => {
                if self.wires.repeat(k as usize)? {
                    Ok(Effect::Done)
                } else {
                    Ok(Effect::Skipped)
                }
            }
        }
    }
}
