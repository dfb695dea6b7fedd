ghost use Rattle.std.specs.Prelude.{◌≡◌, ◌||◌, option_to_list, IfOk};
ghost use Rattle.tal_tree.specs.declared.site.Who.TheVariants as who;
ghost use Rattle.process_semantics.specs.declared.point.Point.TheVariants.{Await};
ghost use Rattle.process_semantics.specs.Process as process;
ghost use Rattle.plain_semantics.specs.Openers.{opener_of};
ghost use Rattle.node_copies.specs.computed_changes.specs.Fitting.{depths_of};
ghost use Rattle.node_copies.specs.computed_changes.specs.Replies.{is_to};
ghost use Rattle.node_copies.specs.sendings.specs.letters.specs.Again.{awaited_at, awaited_by};
ghost use Rattle.node_copies.specs.message_wires.specs.Idle.{awaits_taking_as, awaits_taking};
ghost use Rattle.node_copies.specs.sync_ids.specs.Tables.{IsSound};
ghost use Rattle.world_semantics.specs.Core.{next_on};
ghost use Rattle.world_semantics.specs.World.{copy_of};
ghost use Rattle.process_copies.specs.Receiving.{acts_on_node};

use crate::copies::ProcessCopies;
use gd_words::{NoMemory, Reply, Request, Words};
use node_copies::sending::{address_in, request_to};
use node_copies::{Address, Asking};
use process_semantics::Point;
use std::alloc::Global;
use world_semantics::{ReceiveBlock, Role, Which};

impl ProcessCopies {
    /// Whether a copy acts, and is in this processor.
    pub fn acts_on(&self, which: Which, node: u8) -> bool
        ensures { result
            ≡ acts_on_node node (copy_of which self.now.pair).role (copy_of which self.now.pair).processor }
    {
        match self.role(which) {
            Role::Acting => self.processor(which) == node,
            Role::Watching | Role::Blank | Role::Gone => false,
        }
    }

    /// The request whose reply a copy awaits: the one that its process asked last.
    pub fn awaited(&self, which: Which) -> Option<Request>
        ensures { option_to_list result ≡ awaited_by self.now.site self.now.number (copy_of which self.now.pair).core }
    {
        match self.point(which) {
            Point::Await => self.asked_last(which),
            _ => None,
        }
    }

    /// A copy's receive table, with the replies that it keeps.
    pub fn kept_table(&self, alloc: Global, which: Which) -> Result<ReceiveBlock, NoMemory>
        ensures table { IfOk result (λ block. block ≡ (copy_of which self.now.pair).core.receive) }
        ensures sound { IfOk result (λ block. IsSound
            (record { table = block; depths = depths_of self.now.site self.now.number })) }
    {
        self.copies.of(which).kept_table(alloc)
    }

    /// Whether a copy acts and waits at a checkpoint, its checkpoint sent.
    pub fn awaits_taking(&self) -> bool
        ensures { result ≡ (awaits_taking self.now.pair.first || awaits_taking self.now.pair.second) }
    {
        awaits_taking_as(self.copies.first.role(), self.copies.first.sent())
            || awaits_taking_as(self.copies.second.role(), self.copies.second.sent())
    }

    /// The request that the process of a copy asked last.
    fn asked_last(&self, which: Which) -> Option<Request>
        ensures { option_to_list result ≡ awaited_at self.now.site self.now.number (copy_of which self.now.pair).core
            Await }
    {
        let file = self.asked_file(which);
        let asking = Asking {
            file,
            number: self.next_on(which, file).saturating_sub(1),
            words: self.asked_words(which),
        };
        request_to(self.opener_of_file(file), asking)
    }

    /// The file on which the process of a copy asked.
    pub(crate) fn asked_file(&self, which: Which) -> u8
        ensures { result ≡ process.asked_file (copy_of which self.now.pair).core.state }
    {
        self.copies.of(which).asked_file()
    }

    fn asked_words(&self, which: Which) -> Words
        ensures { result ≡ process.asked_words (copy_of which self.now.pair).core.state }
    {
        self.copies.of(which).asked_words()
    }

    /// The number of the next request on a file, at a copy.
    pub(crate) fn next_on(&self, which: Which, file: u8) -> u32
        ensures { result ≡ next_on (copy_of which self.now.pair).core file }
    {
        self.copies.of(which).next_on(file)
    }

    /// Where a file of the process stands.
    pub(crate) fn opener_of_file(&self, file: u8) -> Option<Address>
        ensures { result ≡ opener_of self.now.site (who.File self.now.number file) }
    {
        address_in(self.files.as_slice(), file)
    }

    /// Whether a reply goes to a file of the process.
    pub(crate) fn is_from(&self, file: u8, reply: &Reply) -> bool
        ensures { result ≡ is_to (opener_of self.now.site (who.File self.now.number file)) reply.now }
    {
        match self.opener_of_file(file) {
            None => false,
            Some(opener) => opener.process() == reply.process && opener.opener() == reply.opener,
        }
    }
}

fn awaits_taking_as(role: Role, sent: bool) -> bool
    ensures { result ≡ awaits_taking_as role sent }
{
    match role {
        Role::Acting => sent,
        Role::Watching | Role::Blank | Role::Gone => false,
    }
}
