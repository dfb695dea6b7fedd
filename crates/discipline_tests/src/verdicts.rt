use crate::paths::SECOND_TURN;
use discipline::{breaks, check, is_path};
use path_semantics::{Reason, RefusalFault};
use std::alloc::Global;
use std::test::Fail;
use worked_programs::turns::{
    LATE_TURN, TURN_AROUND, TURN_WITHOUT_DISK, TURN_WITHOUT_OUT, TURN_WITHOUT_TOTAL, WHOLE_TURN,
};
use worked_programs::{bank_with, program_of};

/// A turn, and for which reason and by which path it breaks, if it does.
struct Sample {
    turn: &'static [u8],
    broken: Option<(Reason, &'static [u16])>,
}

const BANKS: [Sample; 7] = [
    Sample {
        turn: TURN_WITHOUT_TOTAL,
        broken: Some((Reason::Data(0), &[1, 2, 3, 4, 5, 6, 7])),
    },
    Sample {
        turn: TURN_WITHOUT_OUT,
        broken: Some((Reason::Data(5), SECOND_TURN)),
    },
    Sample {
        turn: TURN_WITHOUT_DISK,
        broken: Some((Reason::SyncBlock(1), SECOND_TURN)),
    },
    Sample {
        turn: WHOLE_TURN,
        broken: None,
    },
    Sample {
        turn: LATE_TURN,
        broken: Some((Reason::Input, &[1, 2, 3, 4, 5, 6, 7, 8, 9, 10])),
    },
    Sample {
        turn: TURN_AROUND,
        broken: Some((Reason::Input, &[1, 2, 3, 4, 5, 6, 7, 9, 10, 11, 12])),
    },
    Sample {
        turn: b"CALL READUPDATE(rcv, buf, 1, got); total := total + buf[0]; CALL CHECKPOINT(buf, out, got, total, disk);
CALL WRITEREAD(disk, out, 3, 1, got); CALL WRITEREAD(disk, out, 3, 1, got); buf[0] := total; CALL REPLY(buf, 1)",
        broken: Some((Reason::Depth(1), &[1, 2, 3, 4, 5, 6, 7, 8, 9])),
    },
];

#[test]
fn banks_are_judged(rt: HostRuntime) -> Result<(), Fail> {
    let alloc = rt.alloc();
    for sample in &BANKS {
        let program = bank_with(alloc, sample.turn)?;
        match check(alloc, &program) {
            Ok(()) => assert!(rt; sample.broken.is_none(), "accepted"),
            Err(RefusalFault::Broken { reason, path }) => match sample.broken {
                Some((due, expected)) => {
                    assert!(rt; reason == due);
                    assert_eq!(rt; path.as_slice(), expected);
                }
                None => return Err(Fail::from("refused")),
            },
            Err(_) => return Err(Fail::from("no verdict")),
        }
    }
    Ok(())
}

#[test]
fn paths_are_judged(rt: HostRuntime) -> Result<(), Fail> {
    let alloc = rt.alloc();
    for sample in &BANKS {
        let program = bank_with(alloc, sample.turn)?;
        assert!(rt; is_path(&program, &[]));
        assert!(rt; is_path(&program, &[1, 2, 3, 4]));
        assert!(rt; is_path(&program, &[1, 2, 3, 4, 5, 6]));
        assert!(rt; !is_path(&program, &[1, 2, 4]));
        assert!(rt; !is_path(&program, &[0]));
        assert!(rt; !is_path(&program, &[2]));
        if let Some((reason, path)) = sample.broken {
            assert!(rt; is_path(&program, path));
            assert!(rt; breaks(&program, path, reason));
            let Some((_, front)) = path.split_last() else {
                return Err(Fail::from("an empty path"));
            };
            assert!(rt; !breaks(&program, front, reason));
            assert!(rt; !breaks(&program, path, Reason::Depth(7)));
        }
    }
    Ok(())
}

/// Calls that end at once, one in another, and a value that is given back past them.
const CALLS: &[u8] =
    b"INT x, got, f; INT buf[0:1]; PROC nothing; BEGIN END; INT PROC one; BEGIN CALL nothing; RETURN 1; END;
PROC m MAIN; BEGIN CALL CHECKMONITOR; CALL OPEN(\"$S\", f, 2); x := one; CALL CHECKPOINT(buf, got); CALL WRITEREAD(f, buf, 1, 1, got); WHILE x DO; CALL CHECKPOINT(x, buf, got); END;";

#[test]
fn calls_are_walked(rt: HostRuntime) -> Result<(), Fail> {
    let alloc = rt.alloc();
    let program = program_of(alloc, CALLS)?;
    assert!(rt; is_path(&program, &[3, 4, 5, 1, 2, 6, 7, 8, 8, 8, 9]));
    assert!(rt; !is_path(&program, &[3, 4, 5, 1, 2, 6, 7, 8, 8, 8, 9, 9]));
    assert!(rt; breaks(&program, &[3, 4, 5, 1, 2, 6], Reason::Data(0)));
    assert!(rt; breaks(&program, &[3, 4, 5, 1, 2, 6, 7, 8, 9], Reason::SyncBlock(0)));
    assert!(rt; !breaks(&program, &[3, 4, 5, 1, 2, 6, 7, 8, 9], Reason::Data(0)));
    match check(alloc, &program) {
        Err(RefusalFault::Broken { reason, path }) => {
            assert!(rt; reason == Reason::Data(0));
            assert_eq!(rt; path.as_slice(), [3, 4, 5, 1, 2, 6].as_slice());
        }
        _ => return Err(Fail::from("not refused")),
    }
    Ok(())
}
