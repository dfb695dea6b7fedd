ghost use Rattle.std.specs.Prelude.{◌≡◌, ◌*◌, length, IfOk, OnOk};
ghost use Rattle.plain_machine.specs.Rounds.{run_start, tried, swept, enter_of, next_move, print_of, round, rounds_on};
ghost use Rattle.plain_machine.specs.Lines.{happened, line_played, repeated};
ghost use Rattle.plain_machine.specs.Standing.{IsPlayable};
ghost use Rattle.plain_machine.specs.Stillness.{is_still};
ghost use Rattle.plain_machine.specs.Writes.{HasRoomFor, line_acts, round_acts};

use crate::outcome::Outcome;
use crate::state::{Move, State};
use crate::wires::Wires;
use gd_words::{List, NoMemory};
use schedule::{Event, Line};
use std::alloc::Global;
use std::marker::Model;
use tal_tree::{Act, Shown, Site};

/// A run so far: the state of the machine, the acts that were made, and what they show.
#[derive(Drop)]
pub struct Ran {
    state: State,
    acts: List<Act>,
    shown: List<Shown>,
}

impl Model for Ran {
    ghost use Rattle.std.specs.Coded.{codes};
    ghost use Rattle.tal_tree.specs.contracts.statement.Statement as statement;
    ghost use Rattle.plain_machine.specs.Rounds as rounds;

    ghost Value = { rounds.Ran };

    ghost coded = { Prim.hlevel (codes, statement.the_row.coded) };

    ghost view = { λ ran. record { plain = ran.state; acts = ran.acts; shown = ran.shown } };
}

impl Ran {
    /// No act so far.
    pub(crate) fn start(alloc: Global, site: &Site) -> Result<Ran, NoMemory>
        requires { IsPlayable site.now }
        ensures { IfOk result (λ ran. ran ≡ run_start site.now) }
    {
        let state = State::start(alloc, site)?;
        Ok(Ran {
            state,
            acts: List::new(alloc),
            shown: List::new(alloc),
        })
    }

    /// How many acts were made.
    fn len(&self) -> usize
        ensures { result ≡ length self.now.acts }
    {
        self.acts.len()
    }

    /// Makes an act and keeps it with what it shows, where it is possible.
    fn try_act(&mut self, wires: &Wires<'_>, act: Act) -> Result<(), NoMemory>
        requires { HasRoomFor 1 self.old.plain }
        ensures { OnOk result (self.new ≡ tried wires.now act self.old) }
    {
        match self.state.made(wires, act) {
            Outcome::Impossible => {}
            Outcome::Quiet => self.acts.push(act)?,
            Outcome::Shows(shown) => {
                self.acts.push(act)?;
                self.shown.push(shown)?;
            }
        }
        Ok(())
    }

    /// Makes the Take or Step of a process and keeps it with what it shows, where it is possible.
    fn try_move(&mut self, wires: &Wires<'_>, process: u8) -> Result<(), NoMemory>
        requires { HasRoomFor 1 self.old.plain }
        ensures { OnOk result (self.new ≡ tried wires.now (next_move self.old.plain process) self.old) }
    {
        let Move { act, outcome } = self.state.make_move(wires, process);
        match outcome {
            Outcome::Impossible => {}
            Outcome::Quiet => self.acts.push(act)?,
            Outcome::Shows(shown) => {
                self.acts.push(act)?;
                self.shown.push(shown)?;
            }
        }
        Ok(())
    }

    fn try_enters(&mut self, wires: &Wires<'_>) -> Result<(), NoMemory>
        requires { HasRoomFor (length wires.now.terminals) self.old.plain }
        ensures { OnOk result (self.new ≡ swept wires.now enter_of 0 (length wires.now.terminals) self.old) }
    {
        for terminal in 0..wires.terminal_count() {
            self.try_act(wires, Act::Enter(terminal))?;
        }
        Ok(())
    }

    fn try_moves(&mut self, wires: &Wires<'_>) -> Result<(), NoMemory>
        requires { HasRoomFor (length wires.now.processes) self.old.plain }
        ensures { OnOk result (self.new ≡ swept wires.now next_move 0 (length wires.now.processes) self.old) }
    {
        for process in 0..wires.process_count() {
            self.try_move(wires, process)?;
        }
        Ok(())
    }

    fn try_prints(&mut self, wires: &Wires<'_>) -> Result<(), NoMemory>
        requires { HasRoomFor (length wires.now.terminals) self.old.plain }
        ensures { OnOk result (self.new ≡ swept wires.now print_of 0 (length wires.now.terminals) self.old) }
    {
        for terminal in 0..wires.terminal_count() {
            self.try_act(wires, Act::Print(terminal))?;
        }
        Ok(())
    }

    /// Plays a line of a schedule: events that this machine has not make nothing.
    pub(crate) fn play(&mut self, wires: &Wires<'_>, line: Line) -> Result<(), NoMemory>
        requires { HasRoomFor (line_acts wires.now line) self.old.plain }
        ensures { OnOk result (self.new ≡ line_played wires.now line self.old) }
    {
        match line {
            Line::One(event) => self.try_event(wires, event),
            Line::Many { event, times } => self.try_events(wires, event, times),
            Line::Drain(rounds) => self.play_rounds(wires, rounds),
            _ => Ok(()),
        }
    }

    /// Makes what an event asks for and keeps it with what it shows, where it is possible.
    fn try_event(&mut self, wires: &Wires<'_>, event: Event) -> Result<(), NoMemory>
        requires { HasRoomFor 1 self.old.plain }
        ensures { OnOk result (self.new ≡ happened wires.now event self.old) }
    {
        match event {
            Event::Run(process) => self.try_move(wires, process),
            Event::Enter(terminal) => self.try_act(wires, Act::Enter(terminal)),
            _ => Ok(()),
        }
    }

    /// Makes what an event asks for so many times. Once it is not possible, it stays so.
    fn try_events(&mut self, wires: &Wires<'_>, event: Event, times: u32) -> Result<(), NoMemory>
        requires { HasRoomFor times self.old.plain }
        ensures { OnOk result (self.new ≡ repeated wires.now event times self.old) }
    {
        for _ in 0..times {
            let before = self.len();
            self.try_event(wires, event)?;
            if self.len() == before {
                return Ok(());
            }
        }
        Ok(())
    }

    /// Plays so many rounds. Once one makes no act, the others make none.
    fn play_rounds(&mut self, wires: &Wires<'_>, rounds: u32) -> Result<(), NoMemory>
        requires { HasRoomFor (rounds * round_acts wires.now) self.old.plain }
        ensures { OnOk result (self.new ≡ rounds_on wires.now rounds self.old) }
    {
        for _ in 0..rounds {
            let before = self.len();
            self.play_round(wires)?;
            if self.len() == before {
                return Ok(());
            }
        }
        Ok(())
    }

    fn play_round(&mut self, wires: &Wires<'_>) -> Result<(), NoMemory>
        requires { HasRoomFor (round_acts wires.now) self.old.plain }
        ensures { OnOk result (self.new ≡ round wires.now self.old) }
    {
        self.try_enters(wires)?;
        self.try_moves(wires)?;
        self.try_prints(wires)?;
        Ok(())
    }

    /// Whether no act is possible.
    pub(crate) fn is_still(&self, wires: &Wires<'_>) -> bool
        ensures { result ≡ is_still wires.now self.now.plain }
    {
        self.state.is_still(wires)
    }

    /// The acts, and what they show.
    pub(crate) fn into_lists(self) -> (List<Act>, List<Shown>)
        ensures acts { result.0 ≡ self.acts }
        ensures shown { result.1 ≡ self.shown }
    {
        let Ran {
            state: _,
            acts,
            shown,
        } = self;
        (acts, shown)
    }
}
