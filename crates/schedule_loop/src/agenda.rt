ghost use Rattle.std.specs.Prelude.{◌≡◌, ◌≤◌, ◌<◌, ◌+◌, ◌-◌, ℕ, IfOk, None, Some, false, true};
ghost use Rattle.std.specs.Option.{IfSome, option_map};
ghost use Rattle.player.specs.Lines.{begun, event_of, is_mixed, next_event, stands_after};
ghost use Rattle.player.specs.declared.standing.Place.TheVariants as place;
ghost use Rattle.agendas.specs.Agendas.{agenda_of, coming, stopped_by};
ghost use Rattle.schedule_loop.specs.Drained.{GoesOn, IsFree, scheduled};
ghost use Rattle.schedule_loop.specs.Ends.{Course};
ghost use Rattle.schedule_loop.specs.Looks.{asks_packet, loses};
ghost use Rattle.schedule_loop.specs.Plans.{next_seen, planned_seen, upcoming_seen};
ghost use Rattle.schedule_loop.specs.Playing.{IsPlaying};
ghost use Rattle.schedule_loop.specs.Rules.{sight_of};
ghost use Rattle.schedule_loop.specs.Seen.{IsBegun, IsDraining, event_in, player_at, with_left};

use crate::drain::Drain;
use crate::machine::ScheduleMachine;
use machine_states::NoMemory;
use player::{Place, Player, ProcessorStop, Sizes, spared};
use schedule::{BusName, Counts, Event, Line};
use std::marker::Model;

/// Where a schedule stands that is played: its line, those after it, the stop that is still to come, and the event that
/// was to come when the stop came before it.
#[derive(Drop)]
pub struct Schedule<'a> {
    player: Player,
    lines: &'a [Line],
    stop: Option<ProcessorStop>,
    held_back: Option<Event>,
    /// Whether the next event of the line may depend on which packet it concerns.
    looks: bool,
}

impl<'a> Model for Schedule<'a> {
    ghost use Rattle.std.specs.Coded.{codes};
    ghost use Rattle.std.specs.Prelude.{◌≡◌, false};
    ghost use Rattle.schedule_loop.specs.Looks.{asks_packet};
    ghost use Rattle.schedule_loop.specs.Seen.{Scheduled};

    ghost Value = { Scheduled };

    ghost coded = { Prim.hlevel codes };

    ghost view = { λ all. record {
      sizes = all.player.sizes;
      agenda = record {
        standing = all.player.standing;
        lines = all.lines.now;
        stop = all.stop;
        held_back =
            all.held_back;
      };
    } };

    ghost invariant = { λ all. all.looks ≡ false → asks_packet all.player.standing ≡ false };
}

impl<'a> Schedule<'a> {
    /// A schedule at its beginning, for a site of these sizes.
    pub fn new(sizes: Sizes, lines: &'a [Line], stop: Option<ProcessorStop>) -> Schedule<'a>
        ensures { result ≡ record { sizes = sizes; agenda = agenda_of lines.now stop } }
    {
        Schedule {
            player: Player::new(sizes.processors, sizes.processes, sizes.terminals),
            lines,
            stop,
            held_back: None,
            looks: false,
        }
    }

    /// The next event, that so many precede; none where the schedule is over.
    pub fn next<M: ScheduleMachine>(&mut self, before: u32, machine: &M) -> Option<Event>
        ensures event { result ≡ event_in (upcoming_seen self.old.sizes before (sight_of M.rules (M.state machine.now))
            self.old.agenda) }
        ensures agenda { IfSome (upcoming_seen self.old.sizes before (sight_of M.rules (M.state machine.now))
            self.old.agenda)
            (λ plan. self.new ≡ record self.old { agenda = plan.agenda }) }
    {
        match self.held_back {
            Some(event) => {
                self.held_back = None;
                Some(event)
            }
            None => self.next_or_stop(before, machine),
        }
    }

    /// Plays the deliveries of a drain that come next, as long as they can be done at once. Answers how many events
    /// were played then.
    pub fn deliver_at_once<M: ScheduleMachine>(&mut self, before: u32, machine: &mut M) -> u32
        ensures plays { (course : Course M.Wires) → IsPlaying M.rules course self.old (M.state machine.old) before
            → IsPlaying M.rules course self.new (M.state machine.new) result }
        ensures more { before ≤ result }
        ensures whole { M.is_broken machine.new ≡ M.is_broken machine.old }
    {
        match self.draining() {
            None => before,
            Some((bus, packets)) => {
                let left = self.left_behind(bus, packets, before, machine);
                self.player.leave(left);
                before + (packets - left)
            }
        }
    }

    /// How many packets are left of those that a drain delivers next, after those that can be delivered at once.
    fn left_behind<M: ScheduleMachine>(
        &self,
        bus: BusName,
        packets: u32,
        before: u32,
        machine: &mut M,
    ) -> u32
        requires { IsDraining self.now.agenda (Some (bus, packets)) }
        ensures plays { (course : Course M.Wires) → IsPlaying M.rules course self.now (M.state machine.old) before
            → IsPlaying M.rules course (with_left result self.now) (M.state machine.new)
            (before + (packets - result)) }
        ensures fewer { result ≤ packets }
        ensures few { before + (packets - result) ≤ 4294967295 }
        ensures whole { M.is_broken machine.new ≡ M.is_broken machine.old }
    {
        let kept = packets.saturating_sub(self.free_after(before));
        let mut left = packets;
        while kept < left {
            if !machine.deliver_at_once(bus) {
                return left;
            }
            left -= 1;
        }
        left
    }

    /// Plays rounds of a drain that is to begin one, as long as that can be done at once. Answers how many events were
    /// played then.
    #[inline(always)]
    pub fn drain_on<M: ScheduleMachine>(
        &mut self,
        before: u32,
        machine: &mut M,
    ) -> Result<u32, NoMemory>
        requires can { GoesOn M.rules M.is_ready self.old (M.state machine.old) before }
        requires whole { M.is_broken machine.old ≡ false }
        ensures plays { IfOk result (λ after. (course : Course M.Wires)
            → IsPlaying M.rules course self.old (M.state machine.old) before
            → IsPlaying M.rules course self.new (M.state machine.new) after) }
        ensures more { IfOk result (λ after. before ≤ after) }
        ensures whole { IfOk result (λ after. M.is_broken machine.new ≡ false) }
    {
        match self.drain(before) {
            None => Ok(before),
            Some(drain) => {
                let mut drain = drain;
                drain.rounds(machine)?;
                self.player.drain_from(drain.left, drain.place);
                Ok(drain.played)
            }
        }
    }

    /// The drain that is to begin a round, if so many events were played.
    #[inline(always)]
    fn drain(&self, before: u32) -> Option<Drain>
        ensures stands { IfSome result (λ drain. self.now
            ≡ scheduled self.now.agenda.lines self.now.agenda.stop drain) }
        ensures place { IfSome result (λ drain. drain.place ≡ place.Before) }
        ensures played { IfSome result (λ drain. drain.played ≡ before) }
        ensures free { IfSome result (λ drain. IsFree self.now.agenda.stop before drain.until) }
    {
        let left = self.player.rounds_to_drain()?;
        match self.held_back {
            Some(_) => None,
            None => Some(Drain {
                sizes: self.player.sizes(),
                left,
                place: Place::Before,
                played: before,
                until: before + self.free_after(before),
            }),
        }
    }

    /// How many events may follow so many with no stop before any of them.
    fn free_after(&self, before: u32) -> u32
        ensures free { (more : ℕ) → more < result → coming self.now.agenda.stop (before + more) ≡ None }
        ensures few { before + result ≤ 4294967295 }
    {
        match self.stop {
            None => u32::MAX - before,
            Some(stop) => {
                if stop.after < before {
                    u32::MAX - before
                } else {
                    stop.after - before
                }
            }
        }
    }

    /// The bus whose packets a drain delivers next, and how many are left of them, where no event was held back.
    fn draining(&self) -> Option<(BusName, u32)>
        ensures { IsDraining self.now.agenda result }
    {
        match self.held_back {
            Some(_) => None,
            None => self.player.draining(),
        }
    }

    /// The next event of the lines, or the stop that comes before it.
    fn next_or_stop<M: ScheduleMachine>(&mut self, before: u32, machine: &M) -> Option<Event>
        requires { self.old.agenda.held_back ≡ None }
        ensures event { result ≡ event_in (option_map (stopped_by (coming self.old.agenda.stop before))
            (planned_seen self.old.sizes (sight_of M.rules (M.state machine.now)) self.old.agenda.stop
            self.old.agenda.lines
            (next_seen self.old.sizes (sight_of M.rules (M.state machine.now)) self.old.agenda.standing))) }
        ensures agenda { IfSome (option_map (stopped_by (coming self.old.agenda.stop before))
            (planned_seen self.old.sizes (sight_of M.rules (M.state machine.now)) self.old.agenda.stop
            self.old.agenda.lines
            (next_seen self.old.sizes (sight_of M.rules (M.state machine.now)) self.old.agenda.standing)))
            (λ plan. self.new ≡ record self.old { agenda = plan.agenda }) }
    {
        let stop = self.coming(before);
        let event = self.planned(machine)?;
        match stop {
            None => Some(event),
            Some(processor) => {
                self.hold_back(event);
                Some(Event::Fail(processor))
            }
        }
    }

    /// The processor whose stop comes just before the event that so many precede.
    fn coming(&self, before: u32) -> Option<u8>
        ensures { result ≡ coming self.now.agenda.stop before }
    {
        match self.stop {
            None => None,
            Some(stop) => {
                if stop.after == before {
                    Some(stop.processor)
                } else {
                    None
                }
            }
        }
    }

    /// Notes that the stop was given, and holds back the event that comes after it.
    fn hold_back(&mut self, event: Event)
        ensures { self.new ≡ record self.old {
          agenda =
              record self.old.agenda { stop = None; held_back = Some event };
        } }
    {
        self.stop = None;
        self.held_back = Some(event);
    }

    /// The next event of the lines.
    fn planned<M: ScheduleMachine>(&mut self, machine: &M) -> Option<Event>
        requires { self.old.agenda.held_back ≡ None }
        ensures event { result ≡ event_in (planned_seen self.old.sizes (sight_of M.rules (M.state machine.now))
            self.old.agenda.stop
            self.old.agenda.lines (next_seen self.old.sizes (sight_of M.rules (M.state machine.now))
            self.old.agenda.standing)) }
        ensures agenda { IfSome (planned_seen self.old.sizes (sight_of M.rules (M.state machine.now))
            self.old.agenda.stop
            self.old.agenda.lines (next_seen self.old.sizes (sight_of M.rules (M.state machine.now))
            self.old.agenda.standing))
            (λ plan. self.new ≡ record self.old { agenda = plan.agenda }) }
    {
        loop {
            if let Some(event) = self.next_of_line(machine) {
                return Some(event);
            }
            if !self.begin_line() {
                return None;
            }
        }
    }

    /// Begins the next line, and answers whether there was one.
    fn begin_line(&mut self) -> bool
        ensures { IsBegun self.old.agenda.lines self.old result self.new }
    {
        match self.lines.split_first() {
            None => false,
            Some((line, rest)) => {
                self.player.start(*line);
                self.lines = rest;
                self.looks = asks_packet(*line);
                true
            }
        }
    }

    /// The next event of the line at which the schedule stands.
    fn next_of_line<M: ScheduleMachine>(&mut self, machine: &M) -> Option<Event>
        ensures event { result ≡ event_of (next_seen self.old.sizes (sight_of M.rules (M.state machine.now))
            self.old.agenda.standing) }
        ensures agenda { self.new ≡ record self.old {
          agenda = record self.old.agenda {
            standing =
                stands_after (next_seen self.old.sizes (sight_of M.rules (M.state machine.now))
                self.old.agenda.standing);
          };
        } }
    {
        if self.looks && self.player.is_mixed() {
            return self.next_mixed(machine);
        }
        let counts = self.counted(machine);
        self.player.next(&counts)
    }

    /// The same of a line of mixed rounds. A packet is looked at only if the line would lose it.
    #[inline(always)]
    fn next_mixed<M: ScheduleMachine>(&mut self, machine: &M) -> Option<Event>
        requires { is_mixed self.old.agenda.standing ≡ true }
        ensures event { result ≡ event_of (next_seen self.old.sizes (sight_of M.rules (M.state machine.now))
            self.old.agenda.standing) }
        ensures agenda { self.new ≡ record self.old {
          agenda = record self.old.agenda {
            standing =
                stands_after (next_seen self.old.sizes (sight_of M.rules (M.state machine.now))
                self.old.agenda.standing);
          };
        } }
    {
        let before = self.player;
        let counts = machine.tally(false);
        let event = self.player.next(&counts)?;
        if loses(event) {
            let counts = machine.counts(&before, false);
            return Some(spared(&counts, event));
        }
        Some(event)
    }

    /// What is counted before the next event of the line. The packet that the event concerns is looked at only where
    /// the event may depend on it, and whether the machine is idle is asked only where the event depends on that.
    fn counted<M: ScheduleMachine>(&self, machine: &M) -> Counts
        ensures { next_event self.now.sizes self.now.agenda.standing result ≡ next_seen self.now.sizes
            (sight_of M.rules (M.state machine.now)) self.now.agenda.standing }
    {
        if self.looks {
            self.looked(machine)
        } else {
            self.tallied(machine)
        }
    }

    /// The same of a line that looks at packets. Out of line, so that other lines count no more than they ask.
    #[inline(never)]
    fn looked<M: ScheduleMachine>(&self, machine: &M) -> Counts
        ensures { next_event self.now.sizes self.now.agenda.standing result ≡ next_seen self.now.sizes
            (sight_of M.rules (M.state machine.now)) self.now.agenda.standing }
    {
        if self.player.asks_idle() {
            machine.counts(&self.player, machine.is_idle())
        } else {
            machine.counts(&self.player, false)
        }
    }

    /// The same of a line that looks at no packet.
    fn tallied<M: ScheduleMachine>(&self, machine: &M) -> Counts
        requires { asks_packet self.now.agenda.standing ≡ false }
        ensures { next_event self.now.sizes self.now.agenda.standing result ≡ next_seen self.now.sizes
            (sight_of M.rules (M.state machine.now)) self.now.agenda.standing }
    {
        if self.player.asks_idle() {
            machine.tally(machine.is_idle())
        } else {
            machine.tally(false)
        }
    }
}

fn loses(event: Event) -> bool
    ensures { result ≡ loses event }
{
    matches!(event, Event::Lose { .. })
}

fn asks_packet(line: Line) -> bool
    ensures { result ≡ asks_packet (begun line) }
{
    matches!(line, Line::Mix { .. } | Line::Mute { .. })
}
