ghost use Rattle.std.specs.Prelude.{◌≡◌, length, slice_get, IfOk, OnOk};
ghost use Rattle.process_copies.specs.computed_changes.specs.Replies.{awaits_at, is_to, printed_done};
ghost use Rattle.gd_words.specs.Ranges.{HasNext};
ghost use Rattle.process_copies.specs.node_copies.specs.Seen.{step_sendings};
ghost use Rattle.world_copies.specs.SiteWorld.{changed_by};
ghost use Rattle.world_copies.specs.Told.{sent_in};
ghost use Rattle.tal_tree.specs.declared.site.Who.TheVariants as who;
ghost use Rattle.plain_semantics.specs.Openers.{opener_of};

use crate::copies::WorldCopies;
use crate::terminal::Terminal;
use gd_words::{NoMemory, Reply};
use process_copies::{Address, StepOutcome};

/// Whether a reply goes to the opener that stands here.
fn is_to(opener: Option<Address>, reply: &Reply) -> bool
    ensures { result ≡ is_to opener reply.now }
{
    match opener {
        None => false,
        Some(opener) => opener.process() == reply.process && opener.opener() == reply.opener,
    }
}

impl WorldCopies {
    /// Where a terminal stands.
    pub(crate) fn place_of(&self, terminal: u8) -> Option<Address>
        ensures { result ≡ opener_of self.now.site (who.Terminal terminal) }
    {
        match self.places.get(usize::from(terminal)) {
            None => None,
            Some(place) => *place,
        }
    }

    /// Whether a terminal awaits a reply.
    fn awaits_at(&self, number: u8, terminal: Terminal, reply: &Reply) -> bool
        ensures { result ≡ awaits_at self.now.site number terminal reply.now }
    {
        is_to(self.place_of(number), reply) && terminal.awaits(reply.number)
    }

    /// A reply that comes to a terminal is printed, if the terminal awaits it.
    pub(crate) fn print(&mut self, number: u8, reply: Reply) -> Result<StepOutcome, NoMemory>
        requires { HasNext (length self.old.world.shown) }
        ensures told { IfOk result (λ step. step_sendings step ≡ sent_in
            (printed_done self.old.site number reply self.old.world (slice_get self.old.world.terminals number))) }
        ensures state { OnOk result (self.new ≡ changed_by self.old
            (printed_done self.old.site number reply self.old.world (slice_get self.old.world.terminals number))) }
    {
        let place = usize::from(number);
        if place >= self.terminals.len() {
            return Ok(StepOutcome::Impossible);
        }
        let terminal = self.terminals[place];
        if self.awaits_at(number, terminal, &reply) {
            let printed = terminal.after_printing();
            self.records.print(number, reply)?;
            self.terminals[place] = printed;
            return Ok(StepOutcome::Quiet);
        }
        Ok(StepOutcome::Impossible)
    }
}
