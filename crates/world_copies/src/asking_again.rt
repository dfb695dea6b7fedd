ghost use Rattle.std.specs.Prelude.{◌≡◌, ◌-◌, ◌<◌, ◌++◌, option_to_list, OnOk, Some, slice_get};
ghost use Rattle.std.specs.Option.{option_copied, option_flatten};
ghost use Rattle.tal_tree.specs.declared.site.Who.TheVariants as who;
ghost use Rattle.plain_semantics.specs.Machine.{next_request};
ghost use Rattle.plain_semantics.specs.Openers.{opener_of};
ghost use Rattle.world_semantics.specs.Messages.{sent_at};
ghost use Rattle.world_semantics.specs.World.{copy_of};
ghost use Rattle.process_copies.specs.letters.specs.Again.{asks_again, awaited_by, awaited_from, entered_last};
ghost use Rattle.process_copies.specs.letters.specs.Again.{if_acts_on, is_rerouted};
ghost use Rattle.process_copies.specs.letters.specs.Again.{of_copies, rerouted};
ghost use Rattle.process_copies.specs.letters.specs.Again.{sent_again, terminals_ask};
ghost use Rattle.world_copies.specs.Again.{of_copy, of_terminal, terminal_asking};

use crate::copies::WorldCopies;
use crate::terminal::Terminal;
use gd_words::{List, NoMemory, Request, Words};
use process_copies::{Address, Message, ProcessCopies, Sending, TERMINAL_NODE};
use world_semantics::Which;

impl WorldCopies {
    /// What a node sends again where it marks a processor, by the routes of now, is added to `again`.
    pub(crate) fn send_again(
        &self,
        node: u8,
        processor: u8,
        again: &mut List<Sending>,
    ) -> Result<(), NoMemory>
        ensures { OnOk result (again.new ≡ again.old
            ++ sent_again self.now.site self.now.world self.now.world node processor) }
    {
        self.copies_ask(node, processor, again)?;
        self.terminals_ask(node, processor, again)?;
        self.copies_tell(node, processor, again)?;
        Ok(())
    }

    fn copies_ask(&self, node: u8, processor: u8, again: &mut List<Sending>) -> Result<(), NoMemory>
        ensures { OnOk result (again.new
            ≡ again.old ++ sent_at node (of_copies (asks_again self.now.site self.now.world node processor) 0
            self.now.world.processes)) }
    {
        for number in 0..self.processes.len() {
            self.copy_asks(node, processor, number, Which::First, again)?;
            self.copy_asks(node, processor, number, Which::Second, again)?;
        }
        Ok(())
    }

    fn copy_asks(
        &self,
        node: u8,
        processor: u8,
        number: usize,
        which: Which,
        again: &mut List<Sending>,
    ) -> Result<(), NoMemory>
        ensures { OnOk result (again.new ≡ again.old
            ++ sent_at node (of_copy (asks_again self.now.site self.now.world node processor) number which
            (slice_get self.now.world.processes number))) }
    {
        if number >= self.processes.len() {
            return Ok(());
        }
        let request = awaited_on(&self.processes[number], which, node);
        self.ask(node, processor, request, again)?;
        Ok(())
    }

    /// A request that is awaited on a node is added to `again`, if its route changes where the node marks a processor.
    fn ask(
        &self,
        node: u8,
        processor: u8,
        request: Option<Request>,
        again: &mut List<Sending>,
    ) -> Result<(), NoMemory>
        ensures { OnOk result (again.new ≡ again.old
            ++ sent_at node (rerouted self.now.world node processor (option_to_list request))) }
    {
        match request {
            None => Ok(()),
            Some(request) => {
                if self.is_rerouted(node, processor, request.process) {
                    again.push(Sending::new(node, Message::Asking(request)))?;
                }
                Ok(())
            }
        }
    }

    fn terminals_ask(
        &self,
        node: u8,
        processor: u8,
        again: &mut List<Sending>,
    ) -> Result<(), NoMemory>
        ensures { OnOk result (again.new ≡ again.old
            ++ sent_at node (terminals_ask self.now.site self.now.world node processor self.now.world.terminals)) }
    {
        if node != TERMINAL_NODE {
            return Ok(());
        }
        for number in 0..self.terminals.len() {
            self.terminal_asks(node, processor, number, again)?;
        }
        Ok(())
    }

    fn terminal_asks(
        &self,
        node: u8,
        processor: u8,
        number: usize,
        again: &mut List<Sending>,
    ) -> Result<(), NoMemory>
        ensures { OnOk result (again.new ≡ again.old
            ++ sent_at node (of_terminal (terminal_asking self.now.site self.now.world node processor) number
            (slice_get self.now.world.terminals number))) }
    {
        if number >= self.terminals.len() {
            return Ok(());
        }
        let terminal = self.terminals[number];
        let request = self.awaited_from(number, terminal);
        self.ask(node, processor, request, again)?;
        Ok(())
    }

    /// The request whose reply the terminal of a number awaits.
    pub fn awaited_from(&self, number: usize, terminal: Terminal) -> Option<Request>
        ensures { option_to_list result ≡ awaited_from self.now.site number terminal }
    {
        let entered = terminal.entered();
        if entered == 0 {
            return None;
        }
        if entered - 1 != terminal.printed() {
            return None;
        }
        self.entered_last(number, entered)
    }

    /// The request that a terminal entered last, its number.
    fn entered_last(&self, terminal: usize, number: u32) -> Option<Request>
        requires { 0 < number }
        ensures { option_to_list result
            ≡ entered_last number (opener_of self.now.site (who.Terminal terminal))
            (next_request self.now.site terminal (number - 1)) }
    {
        let opener = self.terminal_opener(terminal);
        match self.request_after(terminal, number - 1) {
            None => None,
            Some(words) => request_of(number, opener, words.copy()),
        }
    }

    /// Where a terminal stands.
    pub(crate) fn terminal_opener(&self, terminal: usize) -> Option<Address>
        ensures { result ≡ opener_of self.now.site (who.Terminal terminal) }
    {
        found(&self.places, terminal)
    }

    /// The request that a terminal sends after it has entered `entered` of them. `None` if it has no more.
    pub(crate) fn request_after(&self, terminal: usize, entered: u32) -> Option<&Words>
        ensures { option_copied result ≡ next_request self.now.site terminal entered }
    {
        match self.site.get().terminals.get(terminal) {
            None => None,
            Some(terminal) => terminal.requests.get(entered as usize),
        }
    }

    /// Whether the route of a node to a process changes where it marks a processor.
    pub(crate) fn is_rerouted(&self, node: u8, processor: u8, process: u8) -> bool
        ensures { result ≡ is_rerouted self.now.world node processor process }
    {
        match self.route(node, process) {
            None => false,
            Some(route) => route == processor,
        }
    }
}

fn found(places: &List<Option<Address>>, terminal: usize) -> Option<Address>
    ensures { result ≡ option_flatten (slice_get places.now terminal) }
{
    match places.get(terminal) {
        None => None,
        Some(opener) => *opener,
    }
}

/// The request whose reply a copy awaits, if it acts on a node.
fn awaited_on(process: &ProcessCopies, which: Which, node: u8) -> Option<Request>
    ensures { option_to_list result
        ≡ if_acts_on node (copy_of which process.now.pair).role (copy_of which process.now.pair).processor
        (awaited_by process.now.site process.now.number (copy_of which process.now.pair).core) }
{
    if process.acts_on(which, node) {
        process.awaited(which)
    } else {
        None
    }
}

/// The request of a number and these words to an opener's server.
fn request_of(number: u32, opener: Option<Address>, words: Words) -> Option<Request>
    ensures { option_to_list result ≡ entered_last number opener (Some words) }
{
    match opener {
        None => None,
        Some(opener) => Some(Request {
            process: opener.process(),
            opener: opener.opener(),
            number,
            words,
        }),
    }
}
