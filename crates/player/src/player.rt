ghost use Rattle.std.specs.Prelude.{◌≡◌, ◌-◌, nat_lt, Bool, false, Some, None, if◌then◌else◌};
ghost use Rattle.schedule.specs.declared.event.Counts.{Counts as AnyCounts};
ghost use Rattle.player.specs.declared.standing.LinePlace.TheVariants as standing;
ghost use Rattle.player.specs.declared.standing.Place.TheVariants as place;
ghost use Rattle.player.specs.declared.standing.Rule.TheVariants as rule;
ghost use Rattle.player.specs.Lines.{begun, proposed, asks_idle, next_event, stands_after, event_of, packet_of};
ghost use Rattle.player.specs.Lines.{held, on_bus, packet_aimed_at};
ghost use Rattle.player.specs.Lines.{bus_to_drain, is_mixed, rounds_to_drain, with_packets_left};

use crate::mixed::{first_draws, next_mixed};
use crate::round::next_turn;
use crate::standing::{LinePlace, MixedPlace, Move, Place, Rule, Sizes};
use crate::step::{is_before, is_before_mixed};
use schedule::{BusName, Counts, Event, Line};

/// Gives the events of a line one by one.
#[derive(Clone, Copy, PartialEq, Eq)]
pub struct Player {
    sizes: Sizes,
    standing: LinePlace,
}

impl Player {
    /// A player for so many processors, processes and terminals, with no line.
    pub fn new(processors: u8, processes: u8, terminals: u8) -> Player
        ensures sizes { result.sizes ≡ record {
          processors = processors;
          processes = processes;
          terminals = terminals;
        } }
        ensures standing { result.standing ≡ standing.Ended }
    {
        Player {
            sizes: Sizes {
                processors,
                processes,
                terminals,
            },
            standing: LinePlace::Ended,
        }
    }

    /// Begins a line.
    pub fn start(&mut self, line: Line)
        ensures { self.new ≡ record self.old { standing = begun line } }
    {
        self.standing = begun(line);
    }

    /// The packet that the next event concerns where the buses hold `x` and `y` packets and the line goes on: its
    /// bus, and its position there.
    pub fn aim(&self, x: u32, y: u32) -> Option<(BusName, u32)>
        ensures { result ≡ packet_aimed_at self.now.sizes x y self.now.standing }
    {
        let next = proposed(self.sizes, x, y, self.standing)?;
        packet_of(x, y, next.event)
    }

    /// The next event of the line. After none the line has ended.
    pub fn next(&mut self, counts: &Counts) -> Option<Event>
        ensures event { result ≡ event_of (next_event self.old.sizes self.old.standing counts.now) }
        ensures standing { self.new ≡ record self.old
            { standing = stands_after (next_event self.old.sizes self.old.standing counts.now) } }
    {
        let event = self.standing.step(self.sizes, counts);
        if event.is_none() {
            self.standing = LinePlace::Ended;
        }
        event
    }

    /// Whether the next event may depend on whether the machine is idle.
    pub fn asks_idle(&self) -> bool
        ensures asks { result ≡ asks_idle self.now.standing }
        ensures same { result ≡ false → (counts : AnyCounts) (idle : Bool)
            → next_event self.now.sizes self.now.standing (record counts { idle = idle })
            ≡ next_event self.now.sizes self.now.standing counts }
    {
        asks_idle(self.standing)
    }

    /// Whether it stands on a line of mixed rounds.
    pub fn is_mixed(&self) -> bool
        ensures { result ≡ is_mixed self.now.standing }
    {
        matches!(self.standing, LinePlace::Mixed { .. })
    }

    /// The bus whose packets a drain delivers next, whatever is counted, and how many of them are left.
    pub fn draining(&self) -> Option<(BusName, u32)>
        ensures { result ≡ bus_to_drain self.now.standing }
    {
        match self.standing {
            LinePlace::Rounds {
                rule: Rule::Drain,
                left: _,
                place: Place::Delivers { bus, left },
            } => Some((bus, left)),
            _ => None,
        }
    }

    /// The sizes of the site for which it gives events.
    pub fn sizes(&self) -> Sizes
        ensures { result ≡ self.now.sizes }
    {
        self.sizes
    }

    /// How many rounds are left of a drain that stands between two rounds.
    #[inline(always)]
    pub fn rounds_to_drain(&self) -> Option<u32>
        ensures { result ≡ rounds_to_drain self.now.standing }
    {
        match self.standing {
            LinePlace::Rounds {
                rule: Rule::Drain,
                left,
                place: Place::Before,
            } => Some(left),
            _ => None,
        }
    }

    /// The line is a drain with so many rounds left behind the one that stands here.
    pub fn drain_from(&mut self, left: u32, place: Place)
        ensures { self.new ≡ record self.old { standing = standing.Rounds rule.Drain left place } }
    {
        self.standing = LinePlace::Rounds {
            rule: Rule::Drain,
            left,
            place,
        };
    }

    /// So many packets are left of those that the round delivers.
    pub fn leave(&mut self, packets: u32)
        ensures { self.new ≡ record self.old { standing = with_packets_left packets self.old.standing } }
    {
        if let LinePlace::Rounds {
            rule,
            left,
            place: Place::Delivers { bus, left: _ },
        } = self.standing
        {
            self.standing = LinePlace::Rounds {
                rule,
                left,
                place: Place::Delivers { bus, left: packets },
            };
        }
    }
}

fn begun(line: Line) -> LinePlace
    ensures { result ≡ begun line }
{
    match line {
        Line::One(event) => LinePlace::Event { event, left: 1 },
        Line::Many { event, times } => LinePlace::Event { event, left: times },
        Line::Drain(rounds) => before_rounds(Rule::Drain, rounds),
        Line::Mute { node, rounds } => before_rounds(Rule::Mute(node), rounds),
        Line::Until {
            writes,
            count,
            rounds,
        } => before_rounds(Rule::Until { writes, count }, rounds),
        Line::Mix { start, rounds } => LinePlace::Mixed {
            left: rounds,
            place: MixedPlace::Before,
            draws: first_draws(start),
        },
    }
}

fn before_rounds(rule: Rule, left: u32) -> LinePlace
    ensures { result ≡ standing.Rounds rule left place.Before }
{
    LinePlace::Rounds {
        rule,
        left,
        place: Place::Before,
    }
}

fn proposed(sizes: Sizes, x: u32, y: u32, standing: LinePlace) -> Option<Move>
    ensures { result ≡ proposed sizes x y standing }
{
    match standing {
        LinePlace::Ended => None,
        LinePlace::Event { event, left } => event_again(event, left),
        LinePlace::Rounds { rule, left, place } => {
            let left = if is_before(place) {
                left.checked_sub(1)?
            } else {
                left
            };
            let turn = next_turn(sizes, x, y, place);
            Some(Move {
                event: turn.event,
                standing: LinePlace::Rounds {
                    rule,
                    left,
                    place: turn.place,
                },
            })
        }
        LinePlace::Mixed { left, place, draws } => {
            let left = if is_before_mixed(place) {
                left.checked_sub(1)?
            } else {
                left
            };
            let turn = next_mixed(sizes, x, y, place, draws);
            Some(Move {
                event: turn.event,
                standing: LinePlace::Mixed {
                    left,
                    place: turn.place,
                    draws: turn.draws,
                },
            })
        }
    }
}

fn event_again(event: Event, left: u32) -> Option<Move>
    ensures { result ≡ (if nat_lt 0 left then Some
        (record { event = event; standing = standing.Event event (left - 1) }) else None) }
{
    if 0 < left {
        Some(Move {
            event,
            standing: LinePlace::Event {
                event,
                left: left - 1,
            },
        })
    } else {
        None
    }
}

fn asks_idle(standing: LinePlace) -> bool
    ensures { result ≡ asks_idle standing }
{
    match standing {
        LinePlace::Rounds { rule, place, .. } => rule.minds_idle() && is_before(place),
        LinePlace::Ended | LinePlace::Event { .. } | LinePlace::Mixed { .. } => false,
    }
}

fn packet_of(x: u32, y: u32, event: Event) -> Option<(BusName, u32)>
    ensures { result ≡ packet_of x y event }
{
    match event {
        Event::Deliver { bus, k } | Event::Lose { bus, k } | Event::Repeat { bus, k } => {
            on_bus(x, y, bus, k)
        }
        _ => None,
    }
}

fn on_bus(x: u32, y: u32, bus: BusName, k: u32) -> Option<(BusName, u32)>
    ensures { result ≡ on_bus x y bus k }
{
    if k < held(x, y, bus) {
        Some((bus, k))
    } else {
        None
    }
}

fn held(x: u32, y: u32, bus: BusName) -> u32
    ensures { result ≡ held x y bus }
{
    match bus {
        BusName::X => x,
        BusName::Y => y,
    }
}
