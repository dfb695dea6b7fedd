use deck_reader::read_deck;
use schedule::{BusName, Event, Line};
use std::test::Fail;

/// Two processes, of which the terminal before them asks the second one, and each line of a schedule.
const DECK: &[u8] = b"processors 3
terminal $t1 $add
send 5 -7
send
disc $D 0 1 8
pair $add 2 1
INT rcv;
PROC p MAIN;
BEGIN
  CALL CHECKMONITOR;
  CALL OPEN(\"$RECEIVE\", rcv, 1);
END;
.
schedule

  run  $d 003
# a remark
run $ADD
run $add 1
enter $t1
deliver x 0
lose y 007
 repeat  x 999999999 
tick 2
tick 16
fail 0
drain  007
drain 0
mix 999999999 3
mute 1 4
until W 5 6
until R 0 0
END";

const LINES: [Line; 16] = [
    Line::Many {
        event: Event::Run(0),
        times: 3,
    },
    Line::One(Event::Run(1)),
    Line::Many {
        event: Event::Run(1),
        times: 1,
    },
    Line::One(Event::Enter(0)),
    Line::One(Event::Deliver {
        bus: BusName::X,
        k: 0,
    }),
    Line::One(Event::Lose {
        bus: BusName::Y,
        k: 7,
    }),
    Line::One(Event::Repeat {
        bus: BusName::X,
        k: 999_999_999,
    }),
    Line::One(Event::Tick(2)),
    Line::One(Event::Tick(16)),
    Line::One(Event::Fail(0)),
    Line::Drain(7),
    Line::Drain(0),
    Line::Mix {
        start: 999_999_999,
        rounds: 3,
    },
    Line::Mute { node: 1, rounds: 4 },
    Line::Until {
        writes: true,
        count: 5,
        rounds: 6,
    },
    Line::Until {
        writes: false,
        count: 0,
        rounds: 0,
    },
];

#[test]
fn reads_a_deck(rt: HostRuntime) -> Result<(), Fail> {
    let deck = read_deck(rt.alloc(), DECK)?;
    assert!(rt; deck.site.processors == 3);
    let ([disc, pair], [terminal]) = (
        deck.site.processes.as_slice(),
        deck.site.terminals.as_slice(),
    ) else {
        return Err("other processes or terminals".into());
    };
    assert!(rt; disc.name.text() == b"$D".as_slice());
    assert!(rt; pair.name.text() == b"$ADD".as_slice());
    assert!(rt; (pair.primary, pair.backup, terminal.target) == (2, 1, 1));
    let [first, second] = terminal.requests.as_slice() else {
        return Err("other requests".into());
    };
    assert!(rt; first.as_slice() == [5, -7].as_slice());
    assert!(rt; second.as_slice().is_empty());
    assert!(rt; deck.lines.as_slice() == LINES.as_slice());
    Ok(())
}
