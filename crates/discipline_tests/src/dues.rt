use path_semantics::{Reason, breaks_there, leads_somewhere};
use std::alloc::Global;
use std::test::Fail;
use worked_programs::program_of;

/// A program whose path ends with a CHECKPOINT that names nothing, and which of its first four globals are due there.
struct Due {
    text: &'static [u8],
    path: &'static [u16],
    globals: [bool; 4],
}

const NOTHING: [bool; 4] = [false; 4];

const X: [bool; 4] = [true, false, false, false];

const COUNTED: &[u8] =
    b"INT x; PROC m MAIN; BEGIN CALL CHECKMONITOR; FOR x := 1 TO 2 DO CALL CHECKPOINT(x); CALL CHECKPOINT END;";

const COUNTED_LOCALLY: &[u8] =
    b"INT x; PROC m MAIN; BEGIN INT i; CALL CHECKMONITOR; FOR i := 1 TO 2 DO CALL CHECKPOINT(x); CALL CHECKPOINT END;";

/// A CHECKPOINT in g after its call of f.
const ONE_BY_ONE: &[u8] =
    b"INT x, y; INT PROC f; BEGIN CALL CHECKPOINT END; INT PROC g; BEGIN y := f; CALL CHECKPOINT END;
PROC m MAIN; BEGIN CALL CHECKMONITOR; x := g; CALL CHECKPOINT END;";

const DUES: [Due; 11] = [
    // a FOR's variable, at its first assignment and at its last
    Due {
        text: COUNTED,
        path: &[1, 2, 3, 6],
        globals: X,
    },
    Due {
        text: COUNTED,
        path: &[1, 2, 3, 4, 5, 3, 6],
        globals: X,
    },
    Due {
        text: COUNTED_LOCALLY,
        path: &[1, 2, 3, 4, 5, 3, 6],
        globals: NOTHING,
    },
    // the target of a call: a global, and a local
    Due {
        text: b"INT x; INT PROC f; BEGIN RETURN 0 END; PROC m MAIN; BEGIN CALL CHECKMONITOR; x := f; CALL CHECKPOINT END;",
        path: &[2, 3, 1, 4],
        globals: X,
    },
    Due {
        text: b"INT x; INT PROC f; BEGIN RETURN 0 END; PROC m MAIN; BEGIN INT i; CALL CHECKMONITOR; i := f; CALL CHECKPOINT END;",
        path: &[2, 3, 1, 4],
        globals: NOTHING,
    },
    // a request's buffer, where its count goes to a local
    Due {
        text: b"INT x, rcv; INT b[0:3]; PROC m MAIN; BEGIN INT i; CALL CHECKMONITOR; CALL OPEN(\"$RECEIVE\", rcv, 1);
CALL READUPDATE(rcv, b, 1, i); CALL CHECKPOINT END;",
        path: &[1, 2, 3, 4],
        globals: [false, false, true, false],
    },
    // an element of an array
    Due {
        text: b"INT x; INT b[0:3]; PROC m MAIN; BEGIN CALL CHECKMONITOR; b[x] := 1; CALL CHECKPOINT END;",
        path: &[1, 2, 3],
        globals: [false, true, false, false],
    },
    // a CHECKPOINT, and an assignment, that ends two procedures
    Due {
        text: b"INT x, y; INT PROC f; BEGIN CALL CHECKPOINT END; INT PROC g; BEGIN y := f END;
PROC m MAIN; BEGIN CALL CHECKMONITOR; x := g; CALL CHECKPOINT END;",
        path: &[3, 4, 2, 1, 5],
        globals: [true, true, false, false],
    },
    Due {
        text: b"INT x, y, z; INT PROC f; BEGIN z := 1 END; INT PROC g; BEGIN y := f END;
PROC m MAIN; BEGIN CALL CHECKMONITOR; x := g; CALL CHECKPOINT END;",
        path: &[3, 4, 2, 1, 5],
        globals: [true, true, true, false],
    },
    // one procedure that is left before the other
    Due {
        text: ONE_BY_ONE,
        path: &[4, 5, 2, 1, 3],
        globals: [false, true, false, false],
    },
    Due {
        text: ONE_BY_ONE,
        path: &[4, 5, 2, 1, 3, 6],
        globals: X,
    },
];

/// Whether the path is one of the program and breaks for just these globals.
fn is_due(alloc: Global, due: &Due) -> Result<bool, Fail> {
    let program = program_of(alloc, due.text)?;
    let mut holds = leads_somewhere(alloc, &program, due.path)?;
    for (item, wanted) in [0, 1, 2, 3].into_iter().zip(due.globals) {
        let found = breaks_there(alloc, &program, due.path, Reason::Data(item))?;
        holds = holds && found == wanted;
    }
    Ok(holds)
}

#[test]
fn statements_make_their_globals_due(rt: HostRuntime) -> Result<(), Fail> {
    for due in &DUES {
        assert!(rt; is_due(rt.alloc(), due)?, "{:?}", due.text);
    }
    Ok(())
}

#[test]
fn a_reply_to_a_request_read_since_breaks(rt: HostRuntime) -> Result<(), Fail> {
    let alloc = rt.alloc();
    let at_once = program_of(
        alloc,
        b"INT rcv, n; INT b[0:3]; PROC m MAIN; BEGIN CALL CHECKMONITOR; CALL OPEN(\"$RECEIVE\", rcv, 1);
CALL READUPDATE(rcv, b, 1, n); CALL REPLY(b, 1) END;",
    )?;
    assert!(rt; breaks_there(alloc, &at_once, &[1, 2, 3, 4], Reason::Input)?);
    let with_checkpoint = program_of(
        alloc,
        b"INT rcv, n; INT b[0:3]; PROC m MAIN; BEGIN CALL CHECKMONITOR; CALL OPEN(\"$RECEIVE\", rcv, 1);
CALL READUPDATE(rcv, b, 1, n); CALL CHECKPOINT(b, n); CALL REPLY(b, 1) END;",
    )?;
    assert!(rt; leads_somewhere(alloc, &with_checkpoint, &[1, 2, 3, 4, 5])?);
    assert!(rt; !breaks_there(alloc, &with_checkpoint, &[1, 2, 3, 4, 5], Reason::Input)?);
    Ok(())
}
