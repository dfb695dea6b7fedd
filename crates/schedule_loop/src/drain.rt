ghost use Rattle.std.specs.Prelude.{◌≡◌, ◌<◌, ◌+◌, false, true, IfOk};
ghost use Rattle.std.specs.Bool.{OnTrue};
ghost use Rattle.schedule.specs.declared.bus_name.BusName.TheVariants as bus;
ghost use Rattle.schedule.specs.declared.event.Event.TheVariants as events;
ghost use Rattle.player.specs.gd_words.specs.declared.limits.TheConstants.{TERMINAL_NODE};
ghost use Rattle.player.specs.Rounds.{turn};
ghost use Rattle.player.specs.declared.standing.Place.TheVariants as place;
ghost use Rattle.schedule_loop.specs.Drained.{Drains, IsDrained, IsDueAt, Takes, counted, stood};

use crate::machine::ScheduleMachine;
use crate::running::tried;
use machine_states::NoMemory;
use player::{Place, Sizes, TERMINAL_NODE};
use schedule::{BusName, Event};

/// Where a drain stands whose rounds are played at once.
#[derive(Clone, Copy)]
pub struct Drain {
    pub sizes: Sizes,
    /// How many rounds are left behind the one that is being made.
    pub left: u32,
    pub place: Place,
    pub played: u32,
    /// No stop comes before so many events were played.
    pub until: u32,
}

impl Drain {
    /// Plays whole rounds until nothing is left to do, as long as no stop comes and no event would do harm.
    pub fn rounds<M: ScheduleMachine>(&mut self, machine: &mut M) -> Result<(), NoMemory>
        requires before { self.old.place ≡ place.Before }
        requires can { IsDrained M.rules M.is_ready self.old (M.state machine.old) }
        requires whole { M.is_broken machine.old ≡ false }
        ensures drains { IfOk result (λ done. Drains M.rules self.old self.new (M.state machine.old)
            (M.state machine.new)) }
        ensures whole { IfOk result (λ done. M.is_broken machine.new ≡ false) }
    {
        while 0 < self.left {
            if machine.is_idle() {
                return Ok(());
            }
            let rest = self.left - 1;
            if !self.round(rest, machine)? {
                return Ok(());
            }
        }
        Ok(())
    }

    /// Plays a round, and answers whether it went to its end.
    #[inline(always)]
    fn round<M: ScheduleMachine>(&mut self, rest: u32, machine: &mut M) -> Result<bool, NoMemory>
        requires can { IsDrained M.rules M.is_ready self.old (M.state machine.old) }
        requires whole { M.is_broken machine.old ≡ false }
        requires due { IsDueAt M.rules rest self.old (M.state machine.old) (place.Before) }
        ensures drains { IfOk result (λ went. Drains M.rules self.old self.new (M.state machine.old)
            (M.state machine.new)) }
        ensures whole { IfOk result (λ went. M.is_broken machine.new ≡ false) }
        ensures ends { IfOk result (λ went. OnTrue went ((self.new.left ≡ rest) × (self.new.place ≡ place.Before))) }
    {
        if !self.enter(rest, machine)? {
            return Ok(false);
        }
        if !self.run(rest, machine)? {
            return Ok(false);
        }
        if !self.deliver_x(rest, machine)? {
            return Ok(false);
        }
        if !self.deliver_y(rest, machine)? {
            return Ok(false);
        }
        if !self.tick(rest, machine)? {
            return Ok(false);
        }
        self.play(rest, machine, Event::Tick(TERMINAL_NODE), Place::Before)
    }

    /// The terminals enter, and whether that was done is answered.
    #[inline(always)]
    fn enter<M: ScheduleMachine>(&mut self, rest: u32, machine: &mut M) -> Result<bool, NoMemory>
        requires can { IsDrained M.rules M.is_ready self.old (M.state machine.old) }
        requires whole { M.is_broken machine.old ≡ false }
        requires due { IsDueAt M.rules rest self.old (M.state machine.old) (place.Before) }
        ensures drains { IfOk result (λ went. Drains M.rules self.old self.new (M.state machine.old)
            (M.state machine.new)) }
        ensures whole { IfOk result (λ went. M.is_broken machine.new ≡ false) }
        ensures due { IfOk result (λ went. OnTrue went (IsDueAt M.rules rest self.new (M.state machine.new)
            (place.Runs 0))) }
    {
        for terminal in 0..self.sizes.terminals {
            if !self.play(
                rest,
                machine,
                Event::Enter(terminal),
                Place::Enters(terminal + 1),
            )? {
                return Ok(false);
            }
        }
        Ok(true)
    }

    /// The processes run, and whether that was done is answered.
    #[inline(always)]
    fn run<M: ScheduleMachine>(&mut self, rest: u32, machine: &mut M) -> Result<bool, NoMemory>
        requires can { IsDrained M.rules M.is_ready self.old (M.state machine.old) }
        requires whole { M.is_broken machine.old ≡ false }
        requires due { IsDueAt M.rules rest self.old (M.state machine.old) (place.Runs 0) }
        ensures drains { IfOk result (λ went. Drains M.rules self.old self.new (M.state machine.old)
            (M.state machine.new)) }
        ensures whole { IfOk result (λ went. M.is_broken machine.new ≡ false) }
        ensures due { IfOk result (λ went. OnTrue went (IsDueAt M.rules rest self.new (M.state machine.new)
            (place.Delivers bus.X (counted M.rules self.new (M.state machine.new)).x))) }
    {
        for process in 0..self.sizes.processes {
            if !self.play(rest, machine, Event::Run(process), Place::Runs(process + 1))? {
                return Ok(false);
            }
        }
        Ok(true)
    }

    /// Bus X delivers the packets that are on it, and whether that was done is answered.
    #[inline(always)]
    fn deliver_x<M: ScheduleMachine>(
        &mut self,
        rest: u32,
        machine: &mut M,
    ) -> Result<bool, NoMemory>
        requires can { IsDrained M.rules M.is_ready self.old (M.state machine.old) }
        requires whole { M.is_broken machine.old ≡ false }
        requires due { IsDueAt M.rules rest self.old (M.state machine.old)
            (place.Delivers bus.X (counted M.rules self.old (M.state machine.old)).x) }
        ensures drains { IfOk result (λ went. Drains M.rules self.old self.new (M.state machine.old)
            (M.state machine.new)) }
        ensures whole { IfOk result (λ went. M.is_broken machine.new ≡ false) }
        ensures due { IfOk result (λ went. OnTrue went (IsDueAt M.rules rest self.new (M.state machine.new)
            (place.Delivers bus.X 0))) }
    {
        let counts = machine.tally(false);
        self.deliver(rest, machine, BusName::X, counts.x)
    }

    /// Bus Y delivers the packets that are on it, and whether that was done is answered.
    #[inline(always)]
    fn deliver_y<M: ScheduleMachine>(
        &mut self,
        rest: u32,
        machine: &mut M,
    ) -> Result<bool, NoMemory>
        requires can { IsDrained M.rules M.is_ready self.old (M.state machine.old) }
        requires whole { M.is_broken machine.old ≡ false }
        requires due { IsDueAt M.rules rest self.old (M.state machine.old) (place.Delivers bus.X 0) }
        ensures drains { IfOk result (λ went. Drains M.rules self.old self.new (M.state machine.old)
            (M.state machine.new)) }
        ensures whole { IfOk result (λ went. M.is_broken machine.new ≡ false) }
        ensures due { IfOk result (λ went. OnTrue went (IsDueAt M.rules rest self.new (M.state machine.new)
            (place.Delivers bus.Y 0))) }
    {
        let counts = machine.tally(false);
        self.deliver(rest, machine, BusName::Y, counts.y)
    }

    /// A bus delivers so many packets, and whether that was done is answered.
    #[inline(always)]
    fn deliver<M: ScheduleMachine>(
        &mut self,
        rest: u32,
        machine: &mut M,
        bus: BusName,
        packets: u32,
    ) -> Result<bool, NoMemory>
        requires can { IsDrained M.rules M.is_ready self.old (M.state machine.old) }
        requires whole { M.is_broken machine.old ≡ false }
        requires due { IsDueAt M.rules rest self.old (M.state machine.old) (place.Delivers bus packets) }
        ensures drains { IfOk result (λ went. Drains M.rules self.old self.new (M.state machine.old)
            (M.state machine.new)) }
        ensures whole { IfOk result (λ went. M.is_broken machine.new ≡ false) }
        ensures due { IfOk result (λ went. OnTrue went (IsDueAt M.rules rest self.new (M.state machine.new)
            (place.Delivers bus 0))) }
    {
        let mut left = packets;
        while 0 < left {
            left -= 1;
            if !self.deliver_one(rest, machine, bus, left)? {
                return Ok(false);
            }
        }
        Ok(true)
    }

    /// A bus delivers its first packet, if so many are left. Whether that was done is answered.
    #[inline(always)]
    fn deliver_one<M: ScheduleMachine>(
        &mut self,
        rest: u32,
        machine: &mut M,
        bus: BusName,
        left: u32,
    ) -> Result<bool, NoMemory>
        requires can { IsDrained M.rules M.is_ready self.old (M.state machine.old) }
        requires whole { M.is_broken machine.old ≡ false }
        requires due { IsDueAt M.rules rest self.old (M.state machine.old) (place.Delivers bus (left + 1)) }
        ensures drains { IfOk result (λ went. Drains M.rules self.old self.new (M.state machine.old)
            (M.state machine.new)) }
        ensures whole { IfOk result (λ went. M.is_broken machine.new ≡ false) }
        ensures due { IfOk result (λ went. OnTrue went (IsDueAt M.rules rest self.new (M.state machine.new)
            (place.Delivers bus left))) }
    {
        let place = Place::Delivers { bus, left };
        if self.until <= self.played {
            return Ok(false);
        }
        if machine.deliver_at_once(bus) {
            self.stand(rest, place);
            return Ok(true);
        }
        self.play(rest, machine, Event::Deliver { bus, k: 0 }, place)
    }

    /// The processors tick, and whether that was done is answered.
    #[inline(always)]
    fn tick<M: ScheduleMachine>(&mut self, rest: u32, machine: &mut M) -> Result<bool, NoMemory>
        requires can { IsDrained M.rules M.is_ready self.old (M.state machine.old) }
        requires whole { M.is_broken machine.old ≡ false }
        requires due { IsDueAt M.rules rest self.old (M.state machine.old) (place.Delivers bus.Y 0) }
        ensures drains { IfOk result (λ went. Drains M.rules self.old self.new (M.state machine.old)
            (M.state machine.new)) }
        ensures whole { IfOk result (λ went. M.is_broken machine.new ≡ false) }
        ensures takes { IfOk result (λ went. OnTrue went (Takes M.rules rest self.new (M.state machine.new)
            (turn (events.Tick TERMINAL_NODE) place.Before))) }
    {
        for node in 0..self.sizes.processors {
            if !self.play(rest, machine, Event::Tick(node), Place::Ticks(node + 1))? {
                return Ok(false);
            }
        }
        Ok(true)
    }

    /// Plays the next event, with which the round stands at this place, and answers whether that was done.
    #[inline(always)]
    fn play<M: ScheduleMachine>(
        &mut self,
        rest: u32,
        machine: &mut M,
        event: Event,
        place: Place,
    ) -> Result<bool, NoMemory>
        requires can { IsDrained M.rules M.is_ready self.old (M.state machine.old) }
        requires whole { M.is_broken machine.old ≡ false }
        requires takes { Takes M.rules rest self.old (M.state machine.old) (record { event = event; place = place }) }
        ensures drains { IfOk result (λ went. Drains M.rules self.old self.new (M.state machine.old)
            (M.state machine.new)) }
        ensures whole { IfOk result (λ went. M.is_broken machine.new ≡ false) }
        ensures stands { IfOk result (λ went. OnTrue went (self.new ≡ stood rest place self.old)) }
    {
        if self.until <= self.played {
            return Ok(false);
        }
        match tried(machine, event)? {
            None => {
                self.stand(rest, place);
                Ok(true)
            }
            Some(_) => Ok(false),
        }
    }

    /// An event was played, with which the round stands here.
    #[inline(always)]
    fn stand(&mut self, rest: u32, place: Place)
        requires { self.old.played < self.old.until }
        ensures { self.new ≡ stood rest place self.old }
    {
        self.left = rest;
        self.place = place;
        self.played += 1;
    }
}
