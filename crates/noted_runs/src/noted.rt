ghost use Rattle.std.specs.Prelude.{◌≡◌, false, None, Some, IfOk, OnOk};
ghost use Rattle.std.specs.Option.{option_copied, option_map};
ghost use Rattle.machine_states.specs.States.{Settles};
ghost use Rattle.noted_rules.specs.Noted.{IsReadyToo, NotedWires, noted_play, noted_rules, with_notes};
ghost use Rattle.machine_views.specs.processes.specs.Seen.{state_of};
ghost use Rattle.noted_rules.specs.packet_runs.specs.site_machine.specs.Needs.{IsReady};
ghost use Rattle.noted_runs.specs.Steps as ends;
ghost use Rattle.noted_runs.specs.Steps.{ends_after, everything_at_end, noting_ends, state_in, stepped, stood_by};

use crate::steps::{Stood, acting_of, end_of_spec, everything_at_end, put_end, stood_at};
use gd_words::{List, NoMemory};
use machine_states::Effect;
use machine_views::Process;
use noted_rules::PlayedPackets;
use player::Player;
use program_ends::LastStep;
use schedule::{BusName, Counts, Event};
use schedule_loop::ScheduleMachine;
use std::alloc::Global;
use tal_tree::Site;

/// The machine over packets, as a schedule is played on it, and with which steps the processes of its site ended.
#[derive(Drop)]
pub struct NotedPackets<'a> {
    pub alloc: Global,
    pub packets: PlayedPackets,
    pub site: &'a Site,
    pub steps: List<Option<LastStep>>,
}

impl<'a> NotedPackets<'a> {
    /// Plays an event that is a step of none.
    fn other(&mut self, event: Event) -> Result<Effect, NoMemory>
        requires ready { IsReady self.old.packets.machine.state }
        requires stepped { stepped event ≡ None }
        ensures done { IfOk result (λ effect. Settles
            (noted_play noting_ends
            (with_notes (record { site = self.old.site.now; steps = self.old.steps })
            self.old.packets.machine.state) event)
            (with_notes (record { site = self.old.site.now; steps = self.old.steps })
            self.old.packets.machine.state) effect
            (with_notes (record { site = self.new.site.now; steps = self.new.steps })
            self.new.packets.machine.state)) }
        ensures whole { IfOk result (λ effect. self.new.packets.machine.is_broken ≡ false) }
    {
        self.packets.machine.event(event)
    }

    /// Plays an event that is a step of a process.
    fn step(&mut self, process: u8, event: Event) -> Result<Effect, NoMemory>
        requires ready { IsReady self.old.packets.machine.state }
        requires stepped { stepped event ≡ Some process }
        ensures done { IfOk result (λ effect. Settles
            (noted_play noting_ends
            (with_notes (record { site = self.old.site.now; steps = self.old.steps })
            self.old.packets.machine.state) event)
            (with_notes (record { site = self.old.site.now; steps = self.old.steps })
            self.old.packets.machine.state) effect
            (with_notes (record { site = self.new.site.now; steps = self.new.steps })
            self.new.packets.machine.state)) }
        ensures whole { IfOk result (λ effect. self.new.packets.machine.is_broken ≡ false) }
    {
        let process = usize::from(process);
        let stood = stood_at(self.alloc, self.acting(process))?;
        let effect = self.packets.machine.event(event)?;
        match effect {
            Effect::Done => {
                self.note(process, stood)?;
                Ok(Effect::Done)
            }
            Effect::Skipped => Ok(Effect::Skipped),
            Effect::WouldStopSecond(processor) => Ok(Effect::WouldStopSecond(processor)),
            Effect::WouldLoseDisc(disc) => Ok(Effect::WouldLoseDisc(disc)),
        }
    }

    /// Notes the step with which a process ended that stood so before it, if it has.
    fn note(&mut self, process: usize, stood: Option<Stood>) -> Result<(), NoMemory>
        ensures steps { OnOk result (self.new.steps ≡ ends_after self.old.site.now process stood
            (everything_at_end (state_in self.old.packets.machine.state.world process)) self.old.steps) }
        ensures machine { self.new.packets.machine ≡ self.old.packets.machine }
        ensures site { self.new.site ≡ self.old.site }
    {
        let Some(everything) = everything_at_end(self.alloc, self.acting(process))? else {
            return Ok(());
        };
        let spec = self.site.processes.get(process);
        let step = end_of_spec(self.alloc, spec, stood, everything.as_slice())?;
        put_end(&mut self.steps, process, step);
        Ok(())
    }

    /// The process of the copy that acts for the process of a number, if one does.
    fn acting(&self, process: usize) -> Option<&Process>
        ensures { option_map state_of (option_copied result) ≡ state_in self.now.packets.machine.state.world process }
    {
        acting_of(self.packets.machine.processes().get(process)?)
    }
}

impl<'a> ScheduleMachine for NotedPackets<'a> {
    ghost Wires = { NotedWires ends.Ends };

    ghost rules = { noted_rules noting_ends };

    ghost is_ready = { IsReadyToo };

    ghost state = { λ noted. with_notes (record { site = noted.site.now; steps = noted.steps })
        noted.packets.machine.state };

    ghost is_broken = { λ noted. noted.packets.machine.is_broken };

    fn event(&mut self, event: Event) -> Result<Effect, NoMemory> {
        match stepped(event) {
            None => self.other(event),
            Some(process) => self.step(process, event),
        }
    }

    fn deliver_at_once(&mut self, bus: BusName) -> bool {
        self.packets.machine.deliver_at_once(bus)
    }

    fn counts(&self, player: &Player, idle: bool) -> Counts {
        self.packets.counts(player, idle)
    }

    fn tally(&self, idle: bool) -> Counts {
        self.packets.tally(idle)
    }

    fn is_idle(&self) -> bool {
        self.packets.machine.is_idle()
    }

    fn close(&mut self) -> Result<(), NoMemory> {
        self.packets.machine.close()
    }
}

/// The process of which an event is a step.
fn stepped(event: Event) -> Option<u8>
    ensures { result ≡ stepped event }
{
    match event {
        Event::Run(process) => Some(process),
        Event::Enter(_) => None,
        Event::Deliver { bus: _, k: _ } => None,
        Event::Lose { bus: _, k: _ } => None,
        Event::Repeat { bus: _, k: _ } => None,
        Event::Tick(_) => None,
        Event::Fail(_) => None,
        Event::Reload(_) => None,
        Event::Drive(_) => None,
    }
}
