use flow_paths::{Edge, Flow, Goal, Node};
use path_semantics::entry_number;
use std::test::Fail;
use worked_programs::program_of;

/// A program with each kind of statement that leads elsewhere: calls with a target, one of which ends two procedures
/// and one of which is of an empty procedure, RETURN, WHILE, FOR, IF and STOP.
const TEXT: &[u8] = b"INT x, y;
INT PROC f; BEGIN RETURN 1 END;
INT PROC g; BEGIN x := f END;
INT PROC e; BEGIN END;
PROC m MAIN; BEGIN CALL CHECKMONITOR; y := g; y := e;
WHILE x DO x := 0;
FOR y := 1 TO 2 DO IF x THEN RETURN;
CALL STOP END;";

/// An edge: where it leads, and its targets.
#[derive(Clone, Copy)]
struct Way {
    goal: Goal,
    targets: &'static [u16],
}

/// A node: the number of its entry, its caller, and its edges.
#[derive(Clone, Copy)]
struct Place {
    number: u16,
    caller: Option<u16>,
    first: Way,
    second: Option<Way>,
}

/// An edge that leaves no call.
const fn to(k: u16) -> Way {
    Way {
        goal: Goal::At(k),
        targets: &[],
    }
}

const fn one(number: u16, caller: Option<u16>, first: Way) -> Place {
    Place {
        number,
        caller,
        first,
        second: None,
    }
}

const fn two(number: u16, first: Way, second: Way) -> Place {
    Place {
        number,
        caller: None,
        first,
        second: Some(second),
    }
}

fn is_way(edge: &Edge, way: &Way) -> bool {
    edge.goal == way.goal && edge.targets.as_slice() == way.targets
}

fn is_place(node: &Node<'_>, place: &Place) -> bool {
    let second = match (node.second(), &place.second) {
        (None, None) => true,
        (Some(edge), Some(way)) => is_way(edge, way),
        _ => false,
    };
    entry_number(node.entry()) == u32::from(place.number)
        && node.caller() == place.caller
        && is_way(node.first(), &place.first)
        && second
}

#[test]
fn edges_lead_where_the_entries_do(rt: HostRuntime) -> Result<(), Fail> {
    let out = Way {
        goal: Goal::Left,
        targets: &[],
    };
    let end = Way {
        goal: Goal::Ended,
        targets: &[],
    };
    let back = Way {
        goal: Goal::At(4),
        targets: &[0, 1],
    };
    let empty = Way {
        goal: Goal::At(5),
        targets: &[1],
    };
    let places = [
        one(3, None, to(1)),
        one(4, None, to(2)),
        one(2, Some(1), to(3)),
        one(1, Some(2), back),
        one(5, None, empty),
        two(6, to(6), to(7)),
        one(7, None, to(5)),
        one(8, None, to(8)),
        two(9, to(9), to(12)),
        two(10, to(10), to(11)),
        one(11, None, out),
        one(12, None, to(8)),
        one(13, None, end),
    ];
    let program = program_of(rt.alloc(), TEXT)?;
    let flow = Flow::of(rt.alloc(), &program)?;
    assert!(rt; flow.len() == 13);
    let mut k: u16 = 0;
    for place in &places {
        if k < flow.len() {
            assert!(rt; is_place(flow.node(k), place), "{k}");
        }
        k = k.saturating_add(1);
    }
    Ok(())
}
