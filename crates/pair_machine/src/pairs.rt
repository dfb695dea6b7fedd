ghost use Rattle.std.specs.Prelude.{◌≡◌, false, true, length, reverse, IfOk, OnOk, OnErr};
ghost use Rattle.machine_states.specs.States.{Settles};
ghost use Rattle.world_semantics.specs.Kept.{acts_of};
ghost use Rattle.world_copies.specs.node_copies.specs.ShownCounts.{replies_in, writes_in};
ghost use Rattle.message_wires.specs.Idle.{is_idle};
ghost use Rattle.message_wires.specs.Play.{play, machine_at_boot};
ghost use Rattle.number_laws.specs.message_wires.specs.HasRoom.{HasRoom, HasRoomForLetters};
ghost use Rattle.world_copies.specs.process_copies.specs.Starting.{IsStartable};
ghost use Rattle.world_copies.specs.Seen.{ArePlaced, pairs_in};
ghost use Rattle.pair_machine.specs.Room.{OpenersAreThere};
ghost use Rattle.pair_machine.specs.Seen.{closed_state};

use crate::whole::MachineParts;
use gd_words::NoMemory;
use logs::Shared;
use machine_states::Effect;
use schedule::Event;
use std::alloc::Global;
use std::marker::Model;
use tal_tree::{Act, Shown, Site};
use world_copies::{Downs, ProcessCopies, Terminal};

/// The machine over whole messages. Once an allocation was refused to it, it answers so for good.
#[derive(Drop)]
pub struct PairMachine {
    broken: Option<NoMemory>,
    whole: MachineParts,
}

impl Model for PairMachine {
    ghost use Rattle.std.specs.Coded.{codes};
    ghost use Rattle.std.specs.Prelude.{is_some};
    ghost use Rattle.tal_tree.specs.contracts.statement.Statement as statement;
    ghost use Rattle.pair_machine.specs.Seen.{MachineStanding};

    ghost Value = { MachineStanding };

    ghost coded = { Prim.hlevel (codes, statement.the_row.coded) };

    ghost view = { λ pairs. record { is_broken = is_some pairs.broken; state = pairs.whole } };
}

impl PairMachine {
    /// The machine at the beginning.
    pub fn boot(alloc: Global, site: &Shared<Site>) -> Result<PairMachine, NoMemory>
        requires { IsStartable site.now }
        ensures { IfOk result (λ pairs. pairs ≡ record { is_broken = false; state = machine_at_boot site.now }) }
    {
        let whole = MachineParts::boot(alloc, site)?;
        Ok(PairMachine {
            broken: None,
            whole,
        })
    }

    /// Plays one event, and tells what came of it. This is the machine's only step.
    pub fn event(&mut self, event: Event) -> Result<Effect, NoMemory>
        requires room { HasRoom self.old.state }
        requires letters { HasRoomForLetters self.old.state }
        requires openers { OpenersAreThere self.old.state }
        ensures done { IfOk result (λ effect. Settles (play self.old.state event) self.old.state effect
            self.new.state) }
        ensures whole { IfOk result (λ effect. (self.old.is_broken ≡ false) × (self.new.is_broken ≡ false)) }
        ensures broken { OnErr result (self.new.is_broken ≡ true) }
    {
        if let Some(error) = self.broken {
            return Err(error);
        }
        match self.whole.event(event) {
            Ok(effect) => Ok(effect),
            Err(error) => {
                self.broken = Some(error);
                Err(error)
            }
        }
    }

    /// How many packets are on the bus.
    pub fn packets(&self) -> u32
        ensures { result ≡ length self.now.state.wires.bus }
    {
        self.whole.packets()
    }

    /// How many writes were shown.
    pub fn writes(&self) -> u32
        ensures { result ≡ writes_in self.now.state.world.shown }
    {
        self.whole.world.writes()
    }

    /// How many replies were shown.
    pub fn replies(&self) -> u32
        ensures { result ≡ replies_in self.now.state.world.shown }
    {
        self.whole.world.replies()
    }

    /// Whether nothing is left to do.
    pub fn is_idle(&self) -> bool
        ensures { result ≡ is_idle self.now.state }
    {
        self.whole.is_idle()
    }

    /// The run is closed: what copies still hold is kept.
    pub fn close(&mut self) -> Result<(), NoMemory>
        ensures closed { OnOk result (self.new ≡ record self.old { state = closed_state self.old.state }) }
        ensures whole { OnOk result (self.old.is_broken ≡ false) }
        ensures broken { OnErr result (self.new.is_broken ≡ true) }
    {
        if let Some(error) = self.broken {
            return Err(error);
        }
        match self.whole.close() {
            Ok(()) => Ok(()),
            Err(error) => {
                self.broken = Some(error);
                Err(error)
            }
        }
    }

    /// Which processors have stopped.
    pub fn stopped(&self) -> &[bool]
        ensures { result.now ≡ self.now.state.world.stopped }
    {
        self.whole.world.stopped()
    }

    /// How many processors there are.
    pub fn processors(&self) -> u8
        ensures { result ≡ length self.now.state.world.stopped }
    {
        self.whole.world.processors()
    }

    /// How often each processor was loaded again.
    pub fn reloads(&self) -> &[u8]
        ensures { result.now ≡ self.now.state.world.reloads }
    {
        self.whole.world.reloads()
    }

    /// Which node has marked which processor.
    pub fn downs(&self) -> &Downs
        ensures { result.now ≡ self.now.state.world.downs }
    {
        self.whole.world.downs()
    }

    /// The processes in their places, both copies of each.
    pub fn processes(&self) -> &[ProcessCopies]
        ensures processes { pairs_in result.now ≡ self.now.state.world.processes }
        ensures placed { ArePlaced self.now.state.site result.now }
    {
        self.whole.world.processes()
    }

    pub fn terminals(&self) -> &[Terminal]
        ensures { result.now ≡ self.now.state.world.terminals }
    {
        self.whole.world.terminals()
    }

    /// The acts that are kept, in order.
    pub fn acts(&self) -> &[Act]
        ensures { result.now ≡ acts_of self.now.state.world }
    {
        self.whole.world.acts()
    }

    /// What was shown, in order.
    pub fn shown(&self) -> &[Shown]
        ensures { result.now ≡ reverse self.now.state.world.shown }
    {
        self.whole.world.shown()
    }
}

impl MachineParts {
    fn event(&mut self, event: Event) -> Result<Effect, NoMemory>
        requires room { HasRoom self.old }
        requires letters { HasRoomForLetters self.old }
        requires openers { OpenersAreThere self.old }
        ensures { IfOk result (λ effect. Settles (play self.old event) self.old effect self.new) }
    {
        match event {
            Event::Run(number) => self.run(number),
            Event::Enter(terminal) => self.enter(terminal),
            Event::Deliver { bus, k } => self.deliver(bus, k),
            Event::Lose { bus, k } => self.lose(bus, k),
            Event::Repeat { bus, k } => self.repeat(bus, k),
            Event::Tick(node) => self.tick(node),
            Event::Fail(processor) => self.fail(processor),
            Event::Reload(processor) => self.reload(processor),
            Event::Drive(turn) => Ok(self.turn(turn)),
        }
    }
}
