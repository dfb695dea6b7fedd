ghost use Rattle.std.specs.Prelude.{◌+◌, ◌≤◌};
ghost use Rattle.plain_machine.specs.Writes.{HasRoomFor, most_write};

use crate::bank::bank_site;
use plain_machine::{Plain, play_lines};
use plain_semantics::{Opener, opener_at, opener_of, openers};
use schedule::{Event, Line};
use std::test::Fail;
use tal_tree::{Act, OpenerSpec, Shown, Who};

const ENTERED: Act = Act::Enter(0);

const PRINTED: Act = Act::Print(0);

const BANK: Act = Act::Step(1);

const DISC: Act = Act::Step(0);

const TAKEN_BY_BANK: Act = Act::Take {
    process: 1,
    opener: 0,
};

const TAKEN_BY_DISC: Act = Act::Take {
    process: 0,
    opener: 0,
};

/// The acts of the first deposit.
const DEPOSIT: [Act; 20] = [
    ENTERED,
    BANK,
    BANK,
    BANK,
    BANK,
    TAKEN_BY_BANK,
    BANK,
    BANK,
    BANK,
    BANK,
    BANK,
    BANK,
    TAKEN_BY_DISC,
    DISC,
    DISC,
    DISC,
    BANK,
    BANK,
    BANK,
    PRINTED,
];

/// Lines that ask for these acts and for some that aren't possible, and a round after them.
const LINES: [Line; 8] = [
    Line::One(Event::Enter(0)),
    Line::One(Event::Enter(0)),
    Line::Many {
        event: Event::Run(0),
        times: 1_000_000,
    },
    Line::Many {
        event: Event::Run(1),
        times: 1_000,
    },
    Line::Many {
        event: Event::Run(0),
        times: 4,
    },
    Line::Many {
        event: Event::Run(1),
        times: 2,
    },
    Line::Drain(0),
    Line::Drain(1),
];

/// What a shown act tells of the bank: 0 and the total that was written to sector 0, or the number of the request and
/// the total that was replied.
fn shown_total(shown: &Shown) -> (u32, Option<i16>) {
    match shown {
        Shown::Write { words, .. } => (0, Some(words[0])),
        Shown::Reply { number, words, .. } => (*number, words.get(0)),
    }
}

#[test]
fn the_bank_writes_each_total_before_it_answers(rt: HostRuntime) -> Result<(), Fail> {
    let alloc = rt.alloc();
    let site = bank_site(alloc)?;
    let played = play_lines(alloc, &site, &[Line::Drain(4_000)])?;
    let mut told = Vec::new(alloc);
    for shown in played.shown.as_slice() {
        told.push(shown_total(shown))?;
    }
    let want = [(0, Some(5)), (1, Some(5)), (0, Some(12)), (2, Some(12))];
    assert!(rt; told.as_slice() == want.as_slice() && played.idle);
    Ok(())
}

#[test]
fn lines_make_the_acts_that_they_ask_for(rt: HostRuntime) -> Result<(), Fail> {
    let site = bank_site(rt.alloc())?;
    let played = play_lines(rt.alloc(), &site, &LINES)?;
    assert!(rt; played.acts.as_slice() == DEPOSIT.as_slice() && !played.idle);
    Ok(())
}

/// What came of an act: whether it was possible, and whether it showed something.
fn made(plain: &mut Plain<'_>, act: Act) -> (bool, bool)
    requires { HasRoomFor 1 plain.old.state }
    ensures { most_write plain.new.state.processes ≤ most_write plain.old.state.processes + 1 }
{
    match plain.act(act) {
        Err(_) => (false, false),
        Ok(None) => (true, false),
        Ok(Some(_)) => (true, true),
    }
}

#[test]
fn acts_are_made_one_by_one(rt: HostRuntime) -> Result<(), Fail> {
    let alloc = rt.alloc();
    let site = bank_site(alloc)?;
    let mut plain = Plain::start(alloc, &site)?;
    for act in [TAKEN_BY_BANK, PRINTED, Act::Enter(1), DISC] {
        assert!(rt; made(&mut plain, act) == (false, false));
    }
    for (place, act) in DEPOSIT.iter().enumerate() {
        assert!(rt;
            made(&mut plain, *act) == (true, *act == PRINTED || place == 14),
            "act {place}"
        );
    }
    assert!(rt; !plain.none_left());
    Ok(())
}

#[test]
fn the_bank_opens_the_disc(rt: HostRuntime) -> Result<(), Fail> {
    let alloc = rt.alloc();
    let site = bank_site(alloc)?;
    let who = Who::File {
        process: 1,
        file: 1,
    };
    let server = 0;
    let place = 0;
    assert!(rt; openers(alloc, &site, 0)?.as_slice() == [OpenerSpec { who, depth: 1 }].as_slice());
    assert!(rt; opener_of(alloc, &site, who)? == Some(Opener { server, place }));
    assert!(rt; opener_at(&site, 0, 0) == Some(who));
    Ok(())
}
