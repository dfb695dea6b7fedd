ghost use Rattle.std.specs.Prelude.{◌≡◌, slice_get};
ghost use Rattle.std.specs.Option.{option_and_then, option_map};
ghost use Rattle.process_copies.specs.letters.specs.Routes.{end_of, home_of, receiver_of, route_of, route_to};
ghost use Rattle.plain_semantics.specs.Openers.{openers_of};
ghost use Rattle.process_copies.specs.sendings.specs.Seen.{message_of};
ghost use Rattle.world_semantics.specs.World.{other_of};

use crate::copies::WorldCopies;
use process_copies::{Downs, Message, ProcessCopies, TERMINAL_NODE};
use tal_tree::Who;
use world_semantics::Which;

/// The processor to which a node sends what is for a process, by its marks.
fn route_of(downs: &Downs, node: u8, process: &ProcessCopies) -> u8
    ensures { result ≡ route_of downs.now node process.now.pair }
{
    let led = process.led();
    let processor = process.processor(led);
    if downs.has(node, processor) {
        process.processor(other_of(led))
    } else {
        processor
    }
}

fn other_of(which: Which) -> Which
    ensures { result ≡ other_of which }
{
    match which {
        Which::First => Which::Second,
        Which::Second => Which::First,
    }
}

impl WorldCopies {
    /// The opener at a place of a process, if it is there.
    pub fn opener_at(&self, process: u8, opener: u16) -> Option<Who>
        ensures { result ≡ option_map (λ one. one.who) (slice_get (openers_of self.now.site process) opener) }
    {
        let place = usize::from(process);
        if place >= self.processes.len() {
            return None;
        }
        let opener = self.processes[place].openers().get(usize::from(opener))?;
        Some(opener.who)
    }

    /// The node to which a node sends a message; none where the process or the opener isn't there.
    pub fn receiver_of(&self, node: u8, message: &Message) -> Option<u8>
        ensures { result ≡ receiver_of self.now.site self.now.world node (message_of message.now) }
    {
        match message {
            Message::Asking(request) => self.route(node, request.process),
            Message::Replying(reply) => self.home_at(node, reply.process, reply.opener),
            Message::Checkpointing(checkpoint) => self.end_of(node, checkpoint.get().process),
            Message::Taking(taken) => self.end_of(node, taken.process),
        }
    }

    /// Where a node finds the opener at a place of a process.
    fn home_at(&self, node: u8, process: u8, opener: u16) -> Option<u8>
        ensures { result ≡ option_and_then (λ one. home_of self.now.world node one.who)
            (slice_get (openers_of self.now.site process) opener) }
    {
        match self.opener_at(process, opener) {
            None => None,
            Some(opener) => self.home_of(node, opener),
        }
    }

    /// Where a node sends what is for the process of a number, if that is there.
    pub(crate) fn route(&self, node: u8, process: u8) -> Option<u8>
        ensures { result ≡ route_to self.now.world node process }
    {
        let place = usize::from(process);
        if place >= self.processes.len() {
            return None;
        }
        Some(route_of(&self.downs, node, &self.processes[place]))
    }

    /// The processor of the other copy of a process, seen from the node of one of them.
    pub(crate) fn end_of(&self, node: u8, process: u8) -> Option<u8>
        ensures { result ≡ end_of self.now.world node process }
    {
        let place = usize::from(process);
        if place >= self.processes.len() {
            return None;
        }
        Some(self.processes[place].other_end(node))
    }

    /// Where a node finds an opener.
    pub(crate) fn home_of(&self, node: u8, opener: Who) -> Option<u8>
        ensures { result ≡ home_of self.now.world node opener }
    {
        match opener {
            Who::File { process, file: _ } => self.route(node, process),
            Who::Terminal(_) => Some(TERMINAL_NODE),
        }
    }
}
