ghost use Rattle.std.specs.Prelude.{◌≡◌};
ghost use Rattle.player.specs.Rounds.{ticks, delivers_y, delivers_x, runs, enters, next_turn};

use crate::standing::{Place, Sizes, Turn};
use gd_words::limits::TERMINAL_NODE;
use schedule::{BusName, Event};

/// The next event of a round at a place, where `x` and `y` packets are on the buses.
#[inline(always)]
pub fn next_turn(sizes: Sizes, x: u32, y: u32, place: Place) -> Turn
    ensures { result ≡ next_turn sizes x y place }
{
    match place {
        Place::Before => enters(sizes, x, y, 0),
        Place::Enters(terminal) => enters(sizes, x, y, terminal),
        Place::Runs(process) => runs(sizes, x, y, process),
        Place::Delivers {
            bus: BusName::X,
            left,
        } => delivers_x(sizes, y, left),
        Place::Delivers {
            bus: BusName::Y,
            left,
        } => delivers_y(sizes, left),
        Place::Ticks(node) => ticks(sizes, node),
    }
}

fn enters(sizes: Sizes, x: u32, y: u32, terminal: u8) -> Turn
    ensures { result ≡ enters sizes x y terminal }
{
    if terminal < sizes.terminals {
        Turn {
            event: Event::Enter(terminal),
            place: Place::Enters(terminal + 1),
        }
    } else {
        runs(sizes, x, y, 0)
    }
}

fn runs(sizes: Sizes, x: u32, y: u32, process: u8) -> Turn
    ensures { result ≡ runs sizes x y process }
{
    if process < sizes.processes {
        Turn {
            event: Event::Run(process),
            place: Place::Runs(process + 1),
        }
    } else {
        delivers_x(sizes, y, x)
    }
}

fn delivers_x(sizes: Sizes, y: u32, left: u32) -> Turn
    ensures { result ≡ delivers_x sizes y left }
{
    if 0 < left {
        Turn {
            event: Event::Deliver {
                bus: BusName::X,
                k: 0,
            },
            place: Place::Delivers {
                bus: BusName::X,
                left: left - 1,
            },
        }
    } else {
        delivers_y(sizes, y)
    }
}

fn delivers_y(sizes: Sizes, left: u32) -> Turn
    ensures { result ≡ delivers_y sizes left }
{
    if 0 < left {
        Turn {
            event: Event::Deliver {
                bus: BusName::Y,
                k: 0,
            },
            place: Place::Delivers {
                bus: BusName::Y,
                left: left - 1,
            },
        }
    } else {
        ticks(sizes, 0)
    }
}

fn ticks(sizes: Sizes, node: u8) -> Turn
    ensures { result ≡ ticks sizes node }
{
    if node < sizes.processors {
        Turn {
            event: Event::Tick(node),
            place: Place::Ticks(node + 1),
        }
    } else {
        Turn {
            event: Event::Tick(TERMINAL_NODE),
            place: Place::Before,
        }
    }
}
