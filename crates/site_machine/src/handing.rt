ghost use Rattle.std.specs.Prelude.{◌≡◌, IfOk, OnOk};
ghost use Rattle.std.specs.Option.{option_and_then, option_map};
ghost use Rattle.node.specs.computed_changes.specs.Changed.{change_done};
ghost use Rattle.node.specs.computed_changes.specs.Handed.{handed_done};
ghost use Rattle.node.specs.packet_wires.specs.message_layout.specs.Layout.{Fits};
ghost use Rattle.node.specs.packet_wires.specs.message_layout.specs.Messages.{Carrying, Changing};
ghost use Rattle.node.specs.packet_wires.specs.message_layout.specs.Reading.{if_known, node_message_in};
ghost use Rattle.node.specs.message_words.specs.Seen as seen;
ghost use Rattle.open_links.specs.world_copies.specs.node_copies.specs.Seen.{step_sendings};
ghost use Rattle.open_links.specs.world_copies.specs.message_wires.specs.HasRoom.{WorldHasRoom};
ghost use Rattle.node.specs.packet_wires.specs.Play.{handed, handed_any, handed_words};
ghost use Rattle.open_links.specs.sendings.specs.Seen.{message_of};
ghost use Rattle.open_links.specs.world_copies.specs.Room.{NamesItsOpener};
ghost use Rattle.open_links.specs.world_copies.specs.Told.{sent_in};
ghost use Rattle.site_machine.specs.Needs.{CanHand, IsReadWithin};
ghost use Rattle.site_machine.specs.Told.{after_part, unsent};

use crate::whole::MachineParts;
use gd_words::{List, NoMemory};
use logs::Shared;
use node::{ChangeMessage, NodeMessage, read};
use open_links::{Message, StepOutcome};

impl MachineParts {
    /// The words of a whole message are handed over at a node, where there are any.
    pub(crate) fn hand_words(&mut self, node: u8, words: Option<List<i16>>) -> Result<(), NoMemory>
        requires { CanHand self.old }
        ensures { OnOk result (self.new ≡ after_part (handed_words node words) self.old) }
    {
        match words {
            None => Ok(()),
            Some(words) => {
                let message = self.message_in(&words)?;
                self.hand_read(node, message)?;
                Ok(())
            }
        }
    }

    /// The message that words tell, if they tell one.
    fn message_in(&self, words: &List<i16>) -> Result<Option<NodeMessage>, NoMemory>
        ensures is { IfOk result (λ read. option_map seen.message_of read ≡ node_message_in words.now) }
        ensures within { IfOk result (λ read. IsReadWithin (option_map seen.message_of read)) }
    {
        let message = read(self.alloc, words.as_slice())?;
        Ok(message)
    }

    /// A message that was read is handed over, where there is one and the site has what it names.
    fn hand_read(&mut self, node: u8, message: Option<NodeMessage>) -> Result<(), NoMemory>
        requires hands { CanHand self.old }
        requires within { IsReadWithin (option_map seen.message_of message) }
        ensures { OnOk result (self.new ≡ after_part (handed_any node
            (option_and_then (if_known self.old.site) (option_map seen.message_of message))) self.old) }
    {
        match message {
            None => Ok(()),
            Some(message) => {
                if !self.knows(&message) {
                    return Ok(());
                }
                self.hand(node, message)?;
                Ok(())
            }
        }
    }

    /// A message is handed over at a node.
    fn hand(&mut self, node: u8, message: NodeMessage) -> Result<(), NoMemory>
        requires hands { CanHand self.old }
        requires fits { Fits self.old.site (seen.message_of message) }
        ensures { OnOk result (self.new ≡ after_part (handed node (seen.message_of message)) self.old) }
    {
        match message {
            NodeMessage::Asking(request) => self.hand_carried(node, Message::Asking(request)),
            NodeMessage::Replying(reply) => self.hand_carried(node, Message::Replying(reply)),
            NodeMessage::Checkpointing(image) => {
                let image = Shared::new(self.alloc, image)?;
                self.hand_carried(node, Message::Checkpointing(image))
            }
            NodeMessage::Taking(taken) => self.hand_carried(node, Message::Taking(taken)),
            NodeMessage::Changing(change) => self.hand_changed(node, &change),
            NodeMessage::Reporting { node: from, silent } => {
                self.wires.note(node, from, silent);
                Ok(())
            }
            NodeMessage::Declaring(processor) => self.mark(node, processor),
        }
    }

    /// A message of the world is handed over at a node, and what that sends is posted.
    fn hand_carried(&mut self, node: u8, message: Message) -> Result<(), NoMemory>
        requires hands { CanHand self.old }
        requires fits { Fits self.old.site (Carrying (message_of message)) }
        ensures { OnOk result (self.new ≡ after_part (handed node (Carrying (message_of message))) self.old) }
    {
        let step = self.hand_over(node, message)?;
        self.tell(step)?;
        Ok(())
    }

    /// A checkpoint is handed over at a node as what changed since the one before it, and what that sends is posted.
    fn hand_changed(&mut self, node: u8, change: &ChangeMessage) -> Result<(), NoMemory>
        requires hands { CanHand self.old }
        requires fits { Fits self.old.site (Changing change.now) }
        ensures { OnOk result (self.new ≡ after_part (handed node (Changing change.now)) self.old) }
    {
        let step = self.hand_change(node, change)?;
        self.tell(step)?;
        Ok(())
    }

    /// A checkpoint is handed over at a node as what changed since the one before it. What that sends isn't posted yet.
    fn hand_change(&mut self, node: u8, change: &ChangeMessage) -> Result<StepOutcome, NoMemory>
        ensures told { IfOk result (λ step. step_sendings step
            ≡ sent_in (change_done self.old.site node change.now self.old.world)) }
        ensures state { OnOk result (self.new ≡ unsent self.old
            (change_done self.old.site node change.now self.old.world)) }
    {
        let step = self.world.hand_change(node, change)?;
        Ok(step)
    }

    /// A message of the world is handed over at a node. What that sends isn't posted yet.
    fn hand_over(&mut self, node: u8, message: Message) -> Result<StepOutcome, NoMemory>
        requires opener { NamesItsOpener self.old.site (message_of message) }
        requires room { WorldHasRoom self.old.world }
        ensures told { IfOk result (λ step. step_sendings step
            ≡ sent_in (handed_done self.old.site node (message_of message) self.old.world)) }
        ensures state { OnOk result (self.new ≡ unsent self.old
            (handed_done self.old.site node (message_of message) self.old.world)) }
    {
        let step = self.world.hand(node, message)?;
        Ok(step)
    }
}
