ghost use Rattle.std.specs.Prelude.{◌≡◌, false, IfOk};
ghost use Rattle.pair_machine.specs.message_wires.specs.Play.{machine_at_boot};
ghost use Rattle.pair_machine.specs.message_wires.specs.Wires as wires;
ghost use Rattle.pair_machine.specs.process_copies.specs.Starting.{IsStartable};
ghost use Rattle.schedule_runs.specs.Rules.{CanGoOn, pair_rules};
ghost use Rattle.schedule_runs.specs.Runs.{counts_of};

use gd_words::NoMemory;
use logs::Shared;
use machine_states::Effect;
use pair_machine::PairMachine;
use player::Player;
use schedule::{BusName, Counts, Event};
use schedule_loop::ScheduleMachine;
use std::alloc::Global;
use tal_tree::Site;

/// The machine over whole messages, as a schedule is played on it.
#[derive(Drop)]
pub struct PlayedPairs {
    pub machine: PairMachine,
}

impl PlayedPairs {
    /// The machine at the beginning.
    pub fn boot(alloc: Global, site: &Shared<Site>) -> Result<PlayedPairs, NoMemory>
        requires { IsStartable site.now }
        ensures { IfOk result (λ pairs. pairs.machine
            ≡ record { is_broken = false; state = machine_at_boot site.now }) }
    {
        let machine = PairMachine::boot(alloc, site)?;
        Ok(PlayedPairs { machine })
    }

    /// All packets are on bus X, and none is an alive one.
    fn counted(&self, idle: bool) -> Counts
        ensures { result ≡ record (counts_of self.now.machine.state) { idle = idle } }
    {
        Counts {
            x: self.machine.packets(),
            y: 0,
            alive: false,
            sender: 0,
            idle,
            writes: self.machine.writes(),
            replies: self.machine.replies(),
        }
    }
}

impl ScheduleMachine for PlayedPairs {
    ghost Wires = { wires.Wires };

    ghost rules = { pair_rules };

    ghost is_ready = { CanGoOn };

    ghost state = { λ pairs. pairs.machine.state };

    ghost is_broken = { λ pairs. pairs.machine.is_broken };

    fn event(&mut self, event: Event) -> Result<Effect, NoMemory> {
        self.machine.event(event)
    }

    fn deliver_at_once(&mut self, bus: BusName) -> bool {
        false
    }

    fn counts(&self, player: &Player, idle: bool) -> Counts {
        self.counted(idle)
    }

    fn tally(&self, idle: bool) -> Counts {
        self.counted(idle)
    }

    fn is_idle(&self) -> bool {
        self.machine.is_idle()
    }

    fn close(&mut self) -> Result<(), NoMemory> {
        self.machine.close()
    }
}
