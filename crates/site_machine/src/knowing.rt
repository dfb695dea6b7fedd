ghost use Rattle.std.specs.Prelude.{◌≡◌, drop, length, nat_lt, not};
ghost use Rattle.std.specs.List.{list_all};
ghost use Rattle.node.specs.plain_semantics.specs.Openers.{openers_of};
ghost use Rattle.node.specs.packet_wires.specs.message_layout.specs.Messages.{has_members, has_opener, has_process};
ghost use Rattle.node.specs.packet_wires.specs.message_layout.specs.Messages.{has_processor};
ghost use Rattle.node.specs.packet_wires.specs.message_layout.specs.Messages.{is_known};
ghost use Rattle.node.specs.message_words.specs.Seen.{message_of};

use crate::whole::MachineParts;
use alive_regroup::ProcessorSet;
use node::NodeMessage;

impl MachineParts {
    /// Whether the site has all that a message names.
    pub(crate) fn knows(&self, message: &NodeMessage) -> bool
        ensures { result ≡ is_known self.now.site (message_of message.now) }
    {
        match message {
            NodeMessage::Asking(request) => self.has_opener(request.process, request.opener),
            NodeMessage::Replying(reply) => self.has_opener(reply.process, reply.opener),
            NodeMessage::Checkpointing(message) => self.has_process(message.process),
            NodeMessage::Taking(taken) => self.has_process(taken.process),
            NodeMessage::Changing(change) => self.has_process(change.process),
            NodeMessage::Reporting { node, silent } => {
                self.has_processor(*node) && self.has_members(silent)
            }
            NodeMessage::Declaring(processor) => self.has_processor(*processor),
        }
    }

    fn has_process(&self, process: u8) -> bool
        ensures { result ≡ has_process self.now.site process }
    {
        usize::from(process) < self.world.site().processes.len()
    }

    fn has_opener(&self, process: u8, opener: u16) -> bool
        ensures { result ≡ has_opener self.now.site process opener }
    {
        self.has_process(process) && self.opens(process, opener)
    }

    #[tactic(auto, using(crate::proofs::Known::found_there))]
    fn opens(&self, process: u8, opener: u16) -> bool
        ensures { result ≡ nat_lt opener (length (openers_of self.now.site process)) }
    {
        self.world.opener_at(process, opener).is_some()
    }

    fn has_processor(&self, processor: u8) -> bool
        ensures { result ≡ has_processor self.now.site processor }
    {
        processor < self.world.site().processors
    }

    fn has_members(&self, set: &ProcessorSet) -> bool
        ensures { result ≡ has_members self.now.site set.now }
    {
        none_past(set, self.world.site().processors)
    }
}

/// Whether no member is past so many processors.
fn none_past(set: &ProcessorSet, processors: u8) -> bool
    ensures { result ≡ list_all not (drop processors set.now.members) }
{
    set.members
        .iter()
        .skip(usize::from(processors))
        .all(|member| !*member)
}
