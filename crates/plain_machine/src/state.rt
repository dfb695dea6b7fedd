ghost use Rattle.std.specs.Prelude.{◌≡◌, ◌+◌, IfOk, IfSome, Some, is_some, length, map, slice_get, slice_set};
ghost use Rattle.std.specs.Option.{option_copied};
ghost use Rattle.checkpoint_image.specs.Behaving.{last_write_of};
ghost use Rattle.gd_words.specs.Ranges.{HasNext};
ghost use Rattle.process_semantics.specs.Process as process;
ghost use Rattle.tal_tree.specs.declared.act.Act.TheVariants.{Step, Print};
ghost use Rattle.tal_tree.specs.declared.site.Who.TheVariants as who;
ghost use Rattle.plain_semantics.specs.Openers.{opener_of};
ghost use Rattle.plain_semantics.specs.Machine.{processes_at_first, plain_start, slot_of, with_slot, with_state};
ghost use Rattle.plain_semantics.specs.Machine.{own_opener, answer_made, answered_by, device_made, shown_by_device};
ghost use Rattle.plain_semantics.specs.Machine.{step_at, step_made, take_slot, take_at, take_made, enter_request};
ghost use Rattle.plain_semantics.specs.Machine.{enter_made, entered_at, next_request, print_made, made};
ghost use Rattle.plain_semantics.specs.SiteLimits.{KeepsSiteLimits};
ghost use Rattle.plain_machine.specs.Machines.{listed, shown_at, shown_of};
ghost use Rattle.plain_machine.specs.Outcomes.{Settles, shown_in};
ghost use Rattle.plain_machine.specs.Standing.{AreLoadable, IsPlayable, IsAt};
ghost use Rattle.plain_machine.specs.Rounds.{enter_of, next_move, print_of};
ghost use Rattle.plain_machine.specs.Writes.{HasRoomFor};
ghost use Rattle.plain_machine.specs.Stillness.{has_waiting, is_answered, none_of, is_still};

use crate::outcome::Outcome;
use crate::process::PlainProcess;
use crate::wires::Wires;
use gd_words::{DeviceCall, NoMemory};
use plain_semantics::{Opener, Slot};
use process_semantics::Point;
use std::alloc::Global;
use std::marker::Model;
use tal_tree::{Act, ProcessSpec, Shown, Site, TerminalSpec};

/// The Take or Step that was tried for a process, and what became of it.
#[derive(Drop)]
pub(crate) struct Move {
    pub(crate) act: Act,
    pub(crate) outcome: Outcome,
}

/// The state of a machine of single unfailing processes: its processes, and for each terminal how many requests it has
/// entered.
#[derive(Drop)]
pub struct State {
    processes: Vec<PlainProcess>,
    entered: Vec<u32>,
}

impl Model for State {
    ghost use Rattle.std.specs.Coded.{codes};
    ghost use Rattle.tal_tree.specs.contracts.statement.Statement as statement;
    ghost use Rattle.plain_semantics.specs.Machine as machine;

    ghost Value = { machine.Plain };

    ghost coded = { Prim.hlevel (codes, statement.the_row.coded) };

    ghost view = { λ state. record { processes = state.processes.items; entered = state.entered.items } };
}

impl State {
    /// The state of a machine at its beginning.
    pub(crate) fn start(alloc: Global, site: &Site) -> Result<State, NoMemory>
        requires { IsPlayable site.now }
        ensures { IfOk result (λ state. state ≡ plain_start site.now) }
    {
        let processes = first_processes(alloc, site, site.processes.as_slice())?;
        let entered = none_entered(alloc, site.terminals.as_slice())?;
        Ok(State { processes, entered })
    }

    /// Makes an act, where it is possible.
    pub(crate) fn made(&mut self, wires: &Wires<'_>, act: Act) -> Outcome
        requires { HasRoomFor 1 self.old }
        ensures { Settles (made wires.now self.old act) self.old result self.new }
    {
        match act {
            Act::Step(process) => self.step(wires, process),
            Act::Take { process, opener } => self.take(usize::from(process), usize::from(opener)),
            Act::Enter(terminal) => self.enter(wires, usize::from(terminal)),
            Act::Print(terminal) => self.print(wires, terminal),
        }
    }

    fn step(&mut self, wires: &Wires<'_>, process: u8) -> Outcome
        requires { HasRoomFor 1 self.old }
        ensures { Settles (step_made wires.now process self.old (slice_get self.old.processes process)) self.old result
            self.new }
    {
        match self.processes.as_slice().get(usize::from(process)) {
            None => Outcome::Impossible,
            Some(one) => {
                let point = one.at();
                self.step_at(wires, process, point)
            }
        }
    }

    fn step_at(&mut self, wires: &Wires<'_>, process: u8, point: Point) -> Outcome
        requires stands { IsAt process point self.old }
        requires room { HasRoomFor 1 self.old }
        ensures { IfSome (slice_get self.old.processes process)
            (λ one. Settles (step_at wires.now process one self.old point) self.old result self.new) }
    {
        let number = usize::from(process);
        match point {
            Point::Inner => {
                self.inner(number);
                Outcome::Quiet
            }
            Point::Ask => {
                self.ask(wires, number);
                Outcome::Quiet
            }
            Point::Await => self.get(wires, number),
            Point::Answer => {
                self.answer(number);
                Outcome::Quiet
            }
            Point::AtCheckpoint => {
                self.checkpoint(number);
                Outcome::Quiet
            }
            Point::Device => self.device(process),
            Point::Take => Outcome::Impossible,
            Point::Ended => Outcome::Impossible,
        }
    }

    fn inner(&mut self, number: usize)
        requires { IsAt number Point.Inner self.old }
        ensures { IfSome (slice_get self.old.processes number)
            (λ one. self.new ≡ with_state number one (process.after_inner one.state) self.old) }
    {
        if number < self.processes.len() {
            self.processes[number].inner();
        }
    }

    fn checkpoint(&mut self, number: usize)
        requires { IsAt number Point.AtCheckpoint self.old }
        ensures { IfSome (slice_get self.old.processes number)
            (λ one. self.new ≡ with_state number one (process.after_checkpoint one.state) self.old) }
    {
        if number < self.processes.len() {
            self.processes[number].checkpointed();
        }
    }

    fn ask(&mut self, wires: &Wires<'_>, number: usize)
        requires { IsAt number Point.Ask self.old }
        ensures { IfSome (slice_get self.old.processes number)
            (λ one. self.new ≡ with_slot (own_opener wires.now number one)
            (Slot.Waiting (process.asked_words one.state))
            (with_state number one (process.after_asked one.state) self.old)) }
    {
        if number < self.processes.len() {
            let opener = wires.file(number, self.processes[number].asked_file());
            let words = self.processes[number].asked();
            self.set_slot(opener, Slot::Waiting(words));
        }
    }

    fn get(&mut self, wires: &Wires<'_>, number: usize) -> Outcome
        requires { IsAt number Point.Await self.old }
        ensures { IfSome (slice_get self.old.processes number)
            (λ one. Settles (step_at wires.now number one self.old Point.Await) self.old result self.new) }
    {
        if number >= self.processes.len() {
            return Outcome::Impossible;
        }
        let opener = wires.file(number, self.processes[number].asked_file());
        match self.slot_of(opener) {
            Some(Slot::Answered(words)) => {
                let words = words.copy();
                self.processes[number].got(&words);
                self.set_slot(opener, Slot::Empty);
                Outcome::Quiet
            }
            _ => Outcome::Impossible,
        }
    }

    fn answer(&mut self, number: usize)
        requires { IsAt number Point.Answer self.old }
        ensures { IfSome (slice_get self.old.processes number) (λ one. self.new ≡ answer_made number one self.old) }
    {
        if number < self.processes.len() {
            let opener = answered_by(number, self.processes[number].hand());
            let words = self.processes[number].answered();
            self.set_slot(opener, Slot::Answered(words));
        }
    }

    fn device(&mut self, server: u8) -> Outcome
        requires stands { IsAt server Point.Device self.old }
        requires room { HasRoomFor 1 self.old }
        ensures { IfSome (slice_get self.old.processes server)
            (λ one. Settles (Some (device_made server one self.old (process.call_of one.state))) self.old result
            self.new) }
    {
        let number = usize::from(server);
        if number >= self.processes.len() {
            return Outcome::Impossible;
        }
        let call = self.processes[number].device();
        shown_by(server, call)
    }

    fn take(&mut self, number: usize, place: usize) -> Outcome
        ensures { Settles (take_made number place self.old (slice_get self.old.processes number)) self.old result
            self.new }
    {
        match self.processes.as_slice().get(number) {
            None => Outcome::Impossible,
            Some(one) => match one.at() {
                Point::Take => self.take_slot(number, place),
                _ => Outcome::Impossible,
            },
        }
    }

    fn take_slot(&mut self, number: usize, place: usize) -> Outcome
        requires { IsAt number Point.Take self.old }
        ensures { IfSome (slice_get self.old.processes number)
            (λ one. Settles (take_slot number place one self.old (slice_get one.slots place)) self.old result
            self.new) }
    {
        if number >= self.processes.len() {
            return Outcome::Impossible;
        }
        match self.processes[number].slots().get(place) {
            Some(Slot::Waiting(words)) => {
                let words = words.copy();
                self.processes[number].took(place, &words);
                Outcome::Quiet
            }
            _ => Outcome::Impossible,
        }
    }

    fn enter(&mut self, wires: &Wires<'_>, number: usize) -> Outcome
        ensures { Settles (enter_made wires.now number (opener_of wires.now (who.Terminal number)) self.old
            (slot_of self.old (opener_of wires.now (who.Terminal number)))) self.old result self.new }
    {
        let opener = wires.terminal(number);
        match self.slot_of(opener) {
            Some(Slot::Empty) => self.enter_next(wires, number, opener),
            _ => Outcome::Impossible,
        }
    }

    fn enter_next(&mut self, wires: &Wires<'_>, number: usize, opener: Option<Opener>) -> Outcome
        ensures { Settles (enter_request number opener self.old
            (next_request wires.now number (entered_at self.old number))) self.old result self.new }
    {
        let entered = self.entered_at(number);
        match wires.request(number, entered) {
            None => Outcome::Impossible,
            Some(words) => {
                let words = words.copy();
                if number < self.entered.len() {
                    self.entered[number] = entered + 1;
                }
                self.set_slot(opener, Slot::Waiting(words));
                Outcome::Quiet
            }
        }
    }

    fn print(&mut self, wires: &Wires<'_>, terminal: u8) -> Outcome
        ensures { Settles (print_made terminal (opener_of wires.now (who.Terminal terminal)) self.old
            (slot_of self.old (opener_of wires.now (who.Terminal terminal)))) self.old result self.new }
    {
        let opener = wires.terminal(usize::from(terminal));
        let number = self.entered_at(usize::from(terminal));
        match self.slot_of(opener) {
            Some(Slot::Answered(words)) => {
                let words = words.copy();
                self.set_slot(opener, Slot::Empty);
                Outcome::Shows(Shown::Reply {
                    terminal,
                    number,
                    words,
                })
            }
            _ => Outcome::Impossible,
        }
    }

    /// What an act shows if it is made now.
    pub(crate) fn shows(&self, wires: &Wires<'_>, act: Act) -> Option<Shown>
        requires { HasRoomFor 1 self.now }
        ensures { listed result ≡ shown_of (made wires.now self.now act) }
    {
        match act {
            Act::Step(process) => self.step_shows(wires, process),
            Act::Take { .. } => None,
            Act::Enter(_) => None,
            Act::Print(terminal) => self.print_shows(wires, terminal),
        }
    }

    fn step_shows(&self, wires: &Wires<'_>, process: u8) -> Option<Shown>
        requires { HasRoomFor 1 self.now }
        ensures { listed result ≡ shown_of (made wires.now self.now (Step process)) }
    {
        match self.processes.as_slice().get(usize::from(process)) {
            None => None,
            Some(one) => self.one_shows(wires, process, one),
        }
    }

    fn one_shows(&self, _wires: &Wires<'_>, number: u8, one: &PlainProcess) -> Option<Shown>
        requires there { slice_get self.now.processes number ≡ Some one.now }
        requires room { HasRoomFor 1 self.now }
        ensures { listed result ≡ shown_of (made _wires.now self.now (Step number)) }
    {
        shown_there(number, one)
    }

    fn print_shows(&self, wires: &Wires<'_>, terminal: u8) -> Option<Shown>
        ensures { listed result ≡ shown_of (made wires.now self.now (Print terminal)) }
    {
        let number = usize::from(terminal);
        match self.slot_of(wires.terminal(number)) {
            Some(Slot::Answered(words)) => Some(Shown::Reply {
                terminal,
                number: self.entered_at(number),
                words: words.copy(),
            }),
            _ => None,
        }
    }

    /// Makes the Take or Step that a process may make next, where it is possible.
    pub(crate) fn make_move(&mut self, wires: &Wires<'_>, process: u8) -> Move
        requires { HasRoomFor 1 self.old }
        ensures act { result.act ≡ next_move self.old process }
        ensures outcome { Settles (made wires.now self.old (next_move self.old process)) self.old result.outcome
            self.new }
    {
        match self.processes.as_slice().get(usize::from(process)) {
            None => {
                let act = Act::Step(process);
                let outcome = Outcome::Impossible;
                Move { act, outcome }
            }
            Some(one) => match one.at() {
                Point::Take => {
                    let opener = one.first_waiting();
                    let act = Act::Take { process, opener };
                    let outcome = self.take_slot(usize::from(process), usize::from(opener));
                    Move { act, outcome }
                }
                point => {
                    let act = Act::Step(process);
                    let outcome = self.step_at(wires, process, point);
                    Move { act, outcome }
                }
            },
        }
    }

    /// Whether no act is possible.
    pub(crate) fn is_still(&self, wires: &Wires<'_>) -> bool
        ensures { result ≡ is_still wires.now self.now }
    {
        self.has_no_enter(wires) && self.has_no_print(wires) && self.has_no_move(wires)
    }

    fn has_no_enter(&self, wires: &Wires<'_>) -> bool
        ensures { result ≡ none_of wires.now self.now enter_of 0 (length wires.now.terminals) }
    {
        for terminal in 0..wires.terminal_count() {
            if self.can_enter(wires, terminal) {
                return false;
            }
        }
        true
    }

    fn has_no_print(&self, wires: &Wires<'_>) -> bool
        ensures { result ≡ none_of wires.now self.now print_of 0 (length wires.now.terminals) }
    {
        for terminal in 0..wires.terminal_count() {
            if self.can_print(wires, terminal) {
                return false;
            }
        }
        true
    }

    fn has_no_move(&self, wires: &Wires<'_>) -> bool
        ensures { result ≡ none_of wires.now self.now next_move 0 (length self.now.processes) }
    {
        for number in 0..self.process_count() {
            if self.can_move(wires, number) {
                return false;
            }
        }
        true
    }

    fn process_count(&self) -> usize
        ensures { result ≡ length self.now.processes }
    {
        self.processes.len()
    }

    fn can_enter(&self, wires: &Wires<'_>, terminal: u8) -> bool
        ensures { result ≡ is_some (made wires.now self.now (enter_of self.now terminal)) }
    {
        let number = usize::from(terminal);
        match self.slot_of(wires.terminal(number)) {
            Some(Slot::Empty) => wires.request(number, self.entered_at(number)).is_some(),
            _ => false,
        }
    }

    fn can_print(&self, wires: &Wires<'_>, terminal: u8) -> bool
        ensures { result ≡ is_some (made wires.now self.now (print_of self.now terminal)) }
    {
        match self.slot_of(wires.terminal(usize::from(terminal))) {
            Some(Slot::Answered(_)) => true,
            _ => false,
        }
    }

    fn can_move(&self, wires: &Wires<'_>, number: usize) -> bool
        ensures { result ≡ is_some (made wires.now self.now (next_move self.now number)) }
    {
        match self.processes.as_slice().get(number) {
            None => false,
            Some(one) => match one.at() {
                Point::Take => self.can_take(wires, number, one),
                Point::Await => self.has_reply(wires.file(number, one.asked_file())),
                Point::Ended => false,
                Point::Inner => true,
                Point::Ask => true,
                Point::Answer => true,
                Point::AtCheckpoint => true,
                Point::Device => true,
            },
        }
    }

    fn can_take(&self, _wires: &Wires<'_>, number: usize, one: &PlainProcess) -> bool
        requires there { slice_get self.now.processes number ≡ Some one.now }
        requires stands { process.point one.now.state ≡ Point.Take }
        ensures { result ≡ is_some (made _wires.now self.now (next_move self.now number)) }
    {
        has_waiting(one.slots())
    }

    fn entered_at(&self, number: usize) -> u32
        ensures { result ≡ entered_at self.now number }
    {
        match self.entered.as_slice().get(number) {
            None => 0,
            Some(entered) => *entered,
        }
    }

    fn slot_of(&self, opener: Option<Opener>) -> Option<&Slot>
        ensures { option_copied result ≡ slot_of self.now opener }
    {
        match opener {
            None => None,
            Some(Opener { server, place }) => match self.processes.as_slice().get(server) {
                None => None,
                Some(server) => server.slots().get(place),
            },
        }
    }

    fn has_reply(&self, opener: Option<Opener>) -> bool
        ensures { result ≡ is_answered (slot_of self.now opener) }
    {
        match self.slot_of(opener) {
            Some(Slot::Answered(_)) => true,
            _ => false,
        }
    }

    fn set_slot(&mut self, opener: Option<Opener>, slot: Slot)
        ensures { self.new ≡ with_slot opener slot self.old }
    {
        if let Some(Opener { server, place }) = opener {
            if server < self.processes.len() {
                self.processes[server].set_slot(place, slot);
            }
        }
    }
}

/// Whether a request waits in a slot.
fn has_waiting(slots: &[Slot]) -> bool
    ensures { result ≡ has_waiting slots.now }
{
    for slot in slots {
        if let Slot::Waiting(_) = slot {
            return true;
        }
    }
    false
}

fn answered_by(server: usize, hand: Option<usize>) -> Option<Opener>
    ensures { result ≡ answered_by server hand }
{
    let place = hand?;
    Some(Opener { server, place })
}

fn shown_by(process: u8, call: DeviceCall) -> Outcome
    ensures { shown_in result ≡ Some (shown_by_device process call) }
{
    match written(process, call) {
        None => Outcome::Quiet,
        Some(shown) => Outcome::Shows(shown),
    }
}

/// What the step of a process shows.
fn shown_there(number: u8, one: &PlainProcess) -> Option<Shown>
    requires { HasNext (last_write_of one.now.state) }
    ensures { listed result ≡ shown_at number one.now (process.point one.now.state) }
{
    match one.at() {
        Point::Device => written(number, one.call()),
        Point::Inner => None,
        Point::Ask => None,
        Point::Await => None,
        Point::Answer => None,
        Point::AtCheckpoint => None,
        Point::Take => None,
        Point::Ended => None,
    }
}

/// What an act on the device shows: a write.
fn written(process: u8, call: DeviceCall) -> Option<Shown>
    ensures { listed result ≡ shown_by_device process call }
{
    match call {
        DeviceCall::Write {
            sector,
            words,
            number: _,
        } => Some(Shown::Write {
            process,
            sector,
            words,
        }),
        _ => None,
    }
}

fn first_processes(
    alloc: Global,
    site: &Site,
    specs: &[ProcessSpec],
) -> Result<Vec<PlainProcess>, NoMemory>
    requires limits { KeepsSiteLimits site.now }
    requires loadable { AreLoadable specs.now }
    ensures { IfOk result (λ all. all.items ≡ processes_at_first site.now 0 specs.now) }
{
    let mut all = Vec::new(alloc);
    for (number, spec) in specs.iter().enumerate() {
        let one = PlainProcess::start(alloc, site, number, spec)?;
        all.push(one)?;
    }
    Ok(all)
}

fn none_entered(alloc: Global, terminals: &[TerminalSpec]) -> Result<Vec<u32>, NoMemory>
    ensures { IfOk result (λ all. all.items ≡ map (λ terminal. 0) terminals.now) }
{
    let mut all = Vec::new(alloc);
    for _terminal in terminals {
        all.push(0)?;
    }
    Ok(all)
}
