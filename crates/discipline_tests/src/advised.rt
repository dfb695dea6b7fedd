use advice::AdviseFault;
use advice_search::advise;
use path_semantics::Reason;
use std::test::Fail;
use worked_programs::program_of;

/// What a CHECKPOINT has to name: the number of its statement, globals, and files.
struct Named {
    statement: u16,
    items: &'static [u16],
    files: &'static [u8],
}

/// A text that lists and depths mend.
struct Mended {
    text: &'static [u8],
    lists: &'static [Named],
    depths: &'static [u8],
}

const MENDED: [Mended; 12] = [
    // The bank: its turn sets `out`, `got`, `buf` after the CHECKPOINT, and comes back to it.
    Mended {
        text: b"INT total, got, rcv, disk; INT buf[0:0]; INT out[0:2]; PROC bank MAIN; BEGIN CALL CHECKMONITOR;
CALL OPEN(\"$RECEIVE\", rcv, 1); CALL OPEN(\"$DISC\", disk, 4); WHILE 1 DO BEGIN
CALL READUPDATE(rcv, buf, 1, got); total := total + buf[0]; CALL CHECKPOINT;
out[0] := 2; out[1] := 0; out[2] := total; CALL WRITEREAD(disk, out, 3, 1, got); buf[0] := total;
CALL REPLY(buf, 1) END; END;",
        lists: &[Named {
            statement: 7,
            items: &[0, 1, 4, 5],
            files: &[1],
        }],
        depths: &[1, 1],
    },
    // What no path leads to is due nowhere.
    Mended {
        text: b"INT a, t[0:3], u[0:3], f; PROC m MAIN; BEGIN INT x; CALL CHECKMONITOR; CALL OPEN(\"$D1\", f, 2);
IF x THEN BEGIN CALL STOP; a := 1; END; CALL CHECKPOINT(t); END;",
        lists: &[Named {
            statement: 6,
            items: &[],
            files: &[],
        }],
        depths: &[1],
    },
    // A CHECKPOINT to which no path leads names nothing.
    Mended {
        text: b"INT a, t[0:3], u[0:3], f; PROC m MAIN; BEGIN INT x; CALL CHECKMONITOR; CALL OPEN(\"$D1\", f, 2);
a := 1; CALL STOP; t[0] := 1; CALL CHECKPOINT(a); END;",
        lists: &[Named {
            statement: 6,
            items: &[],
            files: &[],
        }],
        depths: &[1],
    },
    // One list for a CHECKPOINT in a procedure that is called from two places.
    Mended {
        text: b"INT a, t[0:3], u[0:3], f; PROC q; BEGIN CALL CHECKPOINT; END;
PROC m MAIN; BEGIN INT x; CALL CHECKMONITOR; CALL OPEN(\"$D1\", f, 2); a := 1; CALL q; t[0] := 1; CALL q; END;",
        lists: &[Named {
            statement: 1,
            items: &[0, 1],
            files: &[],
        }],
        depths: &[1],
    },
    // A procedure that is never called.
    Mended {
        text: b"INT a, t[0:3], u[0:3], f; PROC q; BEGIN a := 1; CALL CHECKPOINT(a); END;
PROC m MAIN; BEGIN INT x; CALL CHECKMONITOR; CALL OPEN(\"$D1\", f, 2); a := 1; END;",
        lists: &[Named {
            statement: 2,
            items: &[],
            files: &[],
        }],
        depths: &[1],
    },
    // The target of a call is due after it, and not at a CHECKPOINT in it.
    Mended {
        text: b"INT a, t[0:3], u[0:3], f; INT PROC q; BEGIN CALL CHECKPOINT; RETURN 1; END;
PROC m MAIN; BEGIN INT x; CALL CHECKMONITOR; CALL OPEN(\"$D1\", f, 2); a := q; CALL CHECKPOINT; END;",
        lists: &[
            Named {
                statement: 1,
                items: &[],
                files: &[],
            },
            Named {
                statement: 6,
                items: &[0],
                files: &[],
            },
        ],
        depths: &[1],
    },
    // A file that is asked where no path leads needs one reply.
    Mended {
        text: b"INT a, t[0:3], u[0:3], f; PROC m MAIN; BEGIN INT x; CALL CHECKMONITOR; CALL OPEN(\"$D1\", f, 2);
CALL STOP; CALL WRITEREAD(f, t, 2, 0, a); CALL WRITEREAD(f, t, 2, 0, a); END;",
        lists: &[],
        depths: &[1],
    },
    // Four WRITEREADs in a row need four.
    Mended {
        text: b"INT a, t[0:3], u[0:3], f; PROC m MAIN; BEGIN INT x; CALL CHECKMONITOR; CALL OPEN(\"$D1\", f, 2);
CALL WRITEREAD(f, t, 2, 0, a); CALL WRITEREAD(f, t, 2, 0, a); CALL WRITEREAD(f, t, 2, 0, a);
CALL WRITEREAD(f, t, 2, 0, a);
CALL CHECKPOINT; END;",
        lists: &[Named {
            statement: 7,
            items: &[0, 1],
            files: &[0],
        }],
        depths: &[4],
    },
    // Each way to a CHECKPOINT adds to its list, and one CHECKPOINT takes from another.
    Mended {
        text: b"INT a, b, c, t[0:3]; PROC m MAIN; BEGIN INT x; CALL CHECKMONITOR; a := 1;
IF x THEN b := 1 ELSE c := 1; CALL CHECKPOINT; t[0] := 1; CALL CHECKPOINT; CALL CHECKPOINT; END;",
        lists: &[
            Named {
                statement: 6,
                items: &[0, 1, 2],
                files: &[],
            },
            Named {
                statement: 8,
                items: &[3],
                files: &[],
            },
            Named {
                statement: 9,
                items: &[],
                files: &[],
            },
        ],
        depths: &[],
    },
    // A loop whose bound sets a global in its last assignment.
    Mended {
        text: b"INT a, b; PROC m MAIN; BEGIN CALL CHECKMONITOR; FOR a := 1 TO 2 DO CALL CHECKPOINT; b := a; END;",
        lists: &[Named {
            statement: 4,
            items: &[0],
            files: &[],
        }],
        depths: &[],
    },
    // Two files, of which one is asked twice.
    Mended {
        text: b"INT a, t[0:3], f, g; PROC m MAIN; BEGIN CALL CHECKMONITOR; CALL OPEN(\"$D1\", f, 4);
CALL OPEN(\"$D2\", g, 4);
CALL WRITEREAD(f, t, 2, 0, a); CALL WRITEREAD(g, t, 2, 0, a); CALL WRITEREAD(f, t, 2, 0, a); CALL CHECKPOINT;
CALL WRITEREAD(g, t, 2, 0, a); CALL CHECKPOINT; END;",
        lists: &[
            Named {
                statement: 7,
                items: &[0, 1],
                files: &[0, 1],
            },
            Named {
                statement: 9,
                items: &[0, 1],
                files: &[1],
            },
        ],
        depths: &[2, 1],
    },
    // No CHECKPOINT at all.
    Mended {
        text: b"PROC m MAIN; BEGIN CALL CHECKMONITOR; END;",
        lists: &[],
        depths: &[],
    },
];

#[test]
fn programs_are_mended(rt: HostRuntime) -> Result<(), Fail> {
    let alloc = rt.alloc();
    for sample in &MENDED {
        let program = program_of(alloc, sample.text)?;
        let Ok(advice) = advise(alloc, &program) else {
            return Err(Fail::from("no advice"));
        };
        assert_eq!(rt; advice.depths.as_slice(), sample.depths);
        assert_eq!(rt; advice.lists.len(), sample.lists.len());
        for (list, named) in advice.lists.as_slice().iter().zip(sample.lists) {
            assert_eq!(rt; list.statement, named.statement);
            assert_eq!(rt; list.items.as_slice(), named.items);
            assert_eq!(rt; list.files.as_slice(), named.files);
        }
    }
    Ok(())
}

/// A text that nothing mends: for which reason, and by which path.
struct Unmended {
    text: &'static [u8],
    reason: Reason,
    path: &'static [u16],
}

const UNMENDED: [Unmended; 3] = [
    Unmended {
        text: b"INT total, got, rcv, disk; INT buf[0:0]; INT out[0:2]; PROC bank MAIN; BEGIN CALL CHECKMONITOR;
CALL OPEN(\"$RECEIVE\", rcv, 1); CALL OPEN(\"$DISC\", disk, 1); WHILE 1 DO BEGIN
CALL READUPDATE(rcv, buf, 1, got); total := total + buf[0];
out[0] := 2; out[1] := 0; out[2] := total; CALL WRITEREAD(disk, out, 3, 1, got); CALL CHECKPOINT END; END;",
        reason: Reason::Input,
        path: &[1, 2, 3, 4, 5, 6, 7, 8, 9, 10],
    },
    // Five in a row.
    Unmended {
        text: b"INT a, t[0:3], u[0:3], f; PROC m MAIN; BEGIN INT x; CALL CHECKMONITOR; CALL OPEN(\"$D1\", f, 2);
CALL WRITEREAD(f, t, 2, 0, a); CALL WRITEREAD(f, t, 2, 0, a); CALL WRITEREAD(f, t, 2, 0, a);
CALL WRITEREAD(f, t, 2, 0, a);
CALL WRITEREAD(f, t, 2, 0, a); CALL CHECKPOINT; END;",
        reason: Reason::Depth(0),
        path: &[1, 2, 3, 4, 5, 6, 7],
    },
    // A loop, through which the path goes four times; the other file is asked in it too, but comes later.
    Unmended {
        text: b"INT a, t[0:3], f, g; PROC m MAIN; BEGIN CALL CHECKMONITOR; CALL OPEN(\"$D1\", f, 1);
CALL OPEN(\"$D2\", g, 1);
WHILE a DO BEGIN CALL WRITEREAD(g, t, 2, 0, a); CALL WRITEREAD(f, t, 2, 0, a); END; END;",
        reason: Reason::Depth(0),
        path: &[1, 2, 3, 4, 5, 6, 4, 5, 6, 4, 5, 6, 4, 5, 6, 4, 5, 6],
    },
];

#[test]
fn what_nothing_mends_is_refused(rt: HostRuntime) -> Result<(), Fail> {
    let alloc = rt.alloc();
    for sample in &UNMENDED {
        let program = program_of(alloc, sample.text)?;
        let Err(AdviseFault::Unmendable { reason, path }) = advise(alloc, &program) else {
            return Err(Fail::from("not refused"));
        };
        assert!(rt; reason == sample.reason);
        assert_eq!(rt; path.as_slice(), sample.path);
    }
    Ok(())
}
