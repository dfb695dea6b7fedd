ghost use Rattle.std.specs.Prelude.{◌≡◌, ◌<◌};
ghost use Rattle.player.specs.Mixes.{first_draws, word, drawn, ticks, handled, drawn_packet, delivers_y, delivers_x};
ghost use Rattle.player.specs.Mixes.{runs_from, runs, enters, next_mixed};

use crate::standing::{MixedPlace, MixedTurn, Sizes};
use gd_words::limits::TERMINAL_NODE;
use rand_core::utils::NextWord;
use rand_pcg::Pcg32;
use schedule::{BusName, Event};

const STREAM: u64 = 54;

/// A word, and where the generator stands after it.
#[derive(Clone, Copy)]
struct Draw {
    word: u32,
    draws: u64,
}

/// Where the generator of a line stands at first.
pub fn first_draws(start: u64) -> u64
    ensures { result ≡ first_draws start }
{
    Pcg32::new(start, STREAM).state()
}

fn draw_word(draws: u64) -> Draw
    ensures word { result.word ≡ word draws }
    ensures draws { result.draws ≡ drawn draws }
{
    let mut generator = Pcg32::from_state(draws, STREAM);
    let word = generator.next_word();
    Draw {
        word,
        draws: generator.state(),
    }
}

/// The next event of a mixed round at a place, where `x` and `y` packets are on the buses.
#[inline(always)]
pub fn next_mixed(sizes: Sizes, x: u32, y: u32, place: MixedPlace, draws: u64) -> MixedTurn
    ensures { result ≡ next_mixed sizes x y place draws }
{
    match place {
        MixedPlace::Before => enters(sizes, x, y, 0, draws),
        MixedPlace::Enters(terminal) => enters(sizes, x, y, terminal, draws),
        MixedPlace::Runs { next, left } => runs(sizes, x, y, next, left, draws),
        MixedPlace::Delivers {
            bus: BusName::X,
            left,
        } => delivers_x(sizes, y, left, draws),
        MixedPlace::Delivers {
            bus: BusName::Y,
            left,
        } => delivers_y(sizes, left, draws),
        MixedPlace::Repeated { bus, k, left } => MixedTurn {
            event: Event::Deliver { bus, k },
            place: MixedPlace::Delivers { bus, left },
            draws,
        },
        MixedPlace::Ticks(node) => ticks(sizes, node, draws),
    }
}

fn enters(sizes: Sizes, x: u32, y: u32, terminal: u8, draws: u64) -> MixedTurn
    ensures { result ≡ enters sizes x y terminal draws }
{
    if terminal < sizes.terminals {
        MixedTurn {
            event: Event::Enter(terminal),
            place: MixedPlace::Enters(terminal + 1),
            draws,
        }
    } else {
        runs_from(sizes, x, y, 0, draws)
    }
}

fn runs(sizes: Sizes, x: u32, y: u32, next: u8, left: u8, draws: u64) -> MixedTurn
    ensures { result ≡ runs sizes x y next left draws }
{
    if 0 < left {
        MixedTurn {
            event: Event::Run(next.saturating_sub(1)),
            place: MixedPlace::Runs {
                next,
                left: left - 1,
            },
            draws,
        }
    } else {
        runs_from(sizes, x, y, next, draws)
    }
}

fn runs_from(sizes: Sizes, x: u32, y: u32, first: u8, draws: u64) -> MixedTurn
    ensures { result ≡ runs_from sizes x y first draws }
{
    let mut draws = draws;
    for process in first..sizes.processes {
        let draw = draw_word(draws);
        draws = draw.draws;
        let times = (draw.word % 4) as u8;
        if 0 < times {
            return MixedTurn {
                event: Event::Run(process),
                place: MixedPlace::Runs {
                    next: process + 1,
                    left: times - 1,
                },
                draws,
            };
        }
    }
    delivers_x(sizes, y, x, draws)
}

fn delivers_x(sizes: Sizes, y: u32, left: u32, draws: u64) -> MixedTurn
    ensures { result ≡ delivers_x sizes y left draws }
{
    if 0 < left {
        drawn_packet(BusName::X, left, draws)
    } else {
        delivers_y(sizes, y, draws)
    }
}

fn delivers_y(sizes: Sizes, left: u32, draws: u64) -> MixedTurn
    ensures { result ≡ delivers_y sizes left draws }
{
    if 0 < left {
        drawn_packet(BusName::Y, left, draws)
    } else {
        ticks(sizes, 0, draws)
    }
}

fn drawn_packet(bus: BusName, left: u32, draws: u64) -> MixedTurn
    requires { 0 < left }
    ensures { result ≡ drawn_packet bus left draws }
{
    let draw = draw_word(draws);
    let k = draw.word / 8 % left;
    let choice = draw.word % 8;
    handled(bus, k, choice, left - 1, draw.draws)
}

fn handled(bus: BusName, k: u32, choice: u32, left: u32, draws: u64) -> MixedTurn
    ensures { result ≡ handled bus k choice left draws }
{
    if choice == 0 {
        MixedTurn {
            event: Event::Repeat { bus, k },
            place: MixedPlace::Repeated { bus, k, left },
            draws,
        }
    } else if choice == 1 {
        MixedTurn {
            event: Event::Lose { bus, k },
            place: MixedPlace::Delivers { bus, left },
            draws,
        }
    } else {
        MixedTurn {
            event: Event::Deliver { bus, k },
            place: MixedPlace::Delivers { bus, left },
            draws,
        }
    }
}

fn ticks(sizes: Sizes, node: u8, draws: u64) -> MixedTurn
    ensures { result ≡ ticks sizes node draws }
{
    if node < sizes.processors {
        MixedTurn {
            event: Event::Tick(node),
            place: MixedPlace::Ticks(node + 1),
            draws,
        }
    } else {
        MixedTurn {
            event: Event::Tick(TERMINAL_NODE),
            place: MixedPlace::Before,
            draws,
        }
    }
}
