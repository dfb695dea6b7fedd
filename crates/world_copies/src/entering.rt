ghost use Rattle.std.specs.Prelude.{◌≡◌, true, ◌∷◌, [], IfOk, OnOk};
ghost use Rattle.std.specs.Option.{option_map};
ghost use Rattle.process_copies.specs.computed_changes.specs.Entered.{enter_done, enter_where, entered_done};
ghost use Rattle.gd_words.specs.Ranges.{HasNext};
ghost use Rattle.process_copies.specs.message_wires.specs.HasRoom.{WorldHasRoom};
ghost use Rattle.plain_semantics.specs.Machine.{next_request};
ghost use Rattle.process_copies.specs.node_copies.specs.Seen.{step_sendings};
ghost use Rattle.world_copies.specs.SiteWorld.{changed_by};
ghost use Rattle.world_copies.specs.Told.{sent_in};

use crate::copies::WorldCopies;
use crate::terminal::Terminal;
use gd_words::{NoMemory, Request, Words};
use process_copies::{Address, Message, Sending, StepOutcome, TERMINAL_NODE};

/// A request of these words, of this number, to the server where an opener stands.
fn request_to(opener: Address, number: u32, words: Words) -> Request
    ensures { result ≡ record { process = opener.server; opener = opener.place; number = number; words = words } }
{
    Request {
        process: opener.process(),
        opener: opener.opener(),
        number,
        words,
    }
}

impl WorldCopies {
    /// A terminal enters its next request, if it awaits no reply and has one left.
    pub fn enter(&mut self, terminal: u8) -> Result<StepOutcome, NoMemory>
        requires { WorldHasRoom self.old.world }
        ensures told { IfOk result (λ step. step_sendings step
            ≡ sent_in (enter_done self.old.site terminal self.old.world)) }
        ensures state { OnOk result (self.new ≡ changed_by self.old
            (enter_done self.old.site terminal self.old.world)) }
    {
        let place = usize::from(terminal);
        if place >= self.terminals.len() {
            return Ok(StepOutcome::Impossible);
        }
        let before = self.terminals[place];
        if before.entered() != before.printed() {
            return Ok(StepOutcome::Impossible);
        }
        let step = self.enter_next(terminal, before)?;
        Ok(step)
    }

    /// A terminal that awaits no reply enters its next request, if it has one left.
    fn enter_next(&mut self, terminal: u8, before: Terminal) -> Result<StepOutcome, NoMemory>
        requires { HasNext before.entered }
        ensures told { IfOk result (λ step. step_sendings step
            ≡ sent_in (enter_where self.old.site terminal before self.old.world true)) }
        ensures state { OnOk result (self.new ≡ changed_by self.old
            (enter_where self.old.site terminal before self.old.world true)) }
    {
        match self.place_of(terminal) {
            None => Ok(StepOutcome::Impossible),
            Some(opener) => {
                let step = self.enter_to(terminal, before, opener)?;
                Ok(step)
            }
        }
    }

    fn enter_to(
        &mut self,
        terminal: u8,
        before: Terminal,
        opener: Address,
    ) -> Result<StepOutcome, NoMemory>
        requires { HasNext before.entered }
        ensures told { IfOk result (λ step. step_sendings step
            ≡ sent_in (option_map (entered_done terminal before self.old.world opener)
            (next_request self.old.site terminal before.entered))) }
        ensures state { OnOk result (self.new ≡ changed_by self.old
            (option_map (entered_done terminal before self.old.world opener)
            (next_request self.old.site terminal before.entered))) }
    {
        match self.next_request(terminal, before.entered()) {
            None => Ok(StepOutcome::Impossible),
            Some(words) => {
                let sending = self.enter_words(terminal, before, opener, words)?;
                Ok(StepOutcome::Sends(sending))
            }
        }
    }

    /// The request that a terminal sends after it has entered `entered` of them. `None` if it has no more.
    fn next_request(&self, terminal: u8, entered: u32) -> Option<Words>
        ensures { result ≡ next_request self.now.site terminal entered }
    {
        let terminal = self.site.get().terminals.get(usize::from(terminal))?;
        let words = terminal.requests.get(entered as usize)?;
        Some(words.copy())
    }

    /// A terminal enters a request of these words. The answer is what it sends.
    fn enter_words(
        &mut self,
        terminal: u8,
        before: Terminal,
        opener: Address,
        words: Words,
    ) -> Result<Sending, NoMemory>
        requires { HasNext before.entered }
        ensures told { IfOk result (λ sending. sending ∷ []
            ≡ (entered_done terminal before self.old.world opener words).sendings) }
        ensures state { OnOk result (self.new ≡ record self.old
            { world = (entered_done terminal before self.old.world opener words).world }) }
    {
        let after = before.after_entering();
        let number = after.entered();
        let request = request_to(opener, number, words);
        self.records.enter(terminal, &request)?;
        let place = usize::from(terminal);
        if place < self.terminals.len() {
            self.terminals[place] = after;
        }
        Ok(Sending::new(TERMINAL_NODE, Message::Asking(request)))
    }
}
