use path_semantics::{Reason, breaks_there, call_depth, leads_somewhere};
use std::alloc::Global;
use std::test::Fail;
use tal_tree::Program;
use worked_programs::turns::{
    LATE_TURN, TURN_AROUND, TURN_WITHOUT_DISK, TURN_WITHOUT_OUT, TURN_WITHOUT_TOTAL, WHOLE_TURN,
};
use worked_programs::{bank_with, program_of};

/// The numbers of the globals of the bank.
const TOTAL: u16 = 0;

const OUT: u16 = 5;

/// The number of the bank's file of its disc.
const DISK: u8 = 1;

/// More than any number of a statement here.
const NUMBERS: u16 = 20;

/// A program, a reason, and a path that breaks for it where no shorter one does; or none where none of up to 18 numbers
/// does.
struct Sample {
    turn: &'static [u8],
    reason: Reason,
    least: Option<&'static [u16]>,
}

/// The path to the CHECKPOINT of the second turn of the bank.
pub(crate) const SECOND_TURN: &[u16] = &[1, 2, 3, 4, 5, 6, 7, 8, 9, 10, 11, 12, 13, 4, 5, 6, 7];

const BANKS: [Sample; 11] = [
    Sample {
        turn: TURN_WITHOUT_TOTAL,
        reason: Reason::Data(TOTAL),
        least: Some(&[1, 2, 3, 4, 5, 6, 7]),
    },
    Sample {
        turn: TURN_WITHOUT_OUT,
        reason: Reason::Data(OUT),
        least: Some(SECOND_TURN),
    },
    Sample {
        turn: TURN_WITHOUT_OUT,
        reason: Reason::Data(TOTAL),
        least: None,
    },
    Sample {
        turn: TURN_WITHOUT_DISK,
        reason: Reason::SyncBlock(DISK),
        least: Some(SECOND_TURN),
    },
    Sample {
        turn: WHOLE_TURN,
        reason: Reason::Data(TOTAL),
        least: None,
    },
    Sample {
        turn: WHOLE_TURN,
        reason: Reason::Data(OUT),
        least: None,
    },
    Sample {
        turn: WHOLE_TURN,
        reason: Reason::SyncBlock(DISK),
        least: None,
    },
    Sample {
        turn: WHOLE_TURN,
        reason: Reason::Input,
        least: None,
    },
    Sample {
        turn: WHOLE_TURN,
        reason: Reason::Depth(DISK),
        least: None,
    },
    Sample {
        turn: LATE_TURN,
        reason: Reason::Input,
        least: Some(&[1, 2, 3, 4, 5, 6, 7, 8, 9, 10]),
    },
    Sample {
        turn: TURN_AROUND,
        reason: Reason::Input,
        least: Some(&[1, 2, 3, 4, 5, 6, 7, 9, 10, 11, 12]),
    },
];

/// The paths that go on from these by one number.
fn longer(alloc: Global, program: &Program, paths: &[Vec<u16>]) -> Result<Vec<Vec<u16>>, Fail> {
    let mut all = Vec::new(alloc);
    for path in paths {
        for number in 1..NUMBERS {
            let mut more = Vec::from_slice(alloc, path.as_slice())?;
            more.push(number)?;
            if leads_somewhere(alloc, program, more.as_slice())? {
                all.push(more)?;
            }
        }
    }
    Ok(all)
}

/// A path that breaks for a reason, where no shorter one does, among those of at most 18 numbers. All paths of each
/// length are tried, since the front of a path is a path.
fn least(alloc: Global, program: &Program, reason: Reason) -> Result<Option<Vec<u16>>, Fail> {
    let mut paths = Vec::new(alloc);
    paths.push(Vec::new(alloc))?;
    for _ in 0..18 {
        paths = longer(alloc, program, paths.as_slice())?;
        for path in &paths {
            if breaks_there(alloc, program, path.as_slice(), reason)? {
                return Ok(Some(Vec::from_slice(alloc, path.as_slice())?));
            }
        }
    }
    Ok(None)
}

fn is_least(
    alloc: Global,
    program: &Program,
    reason: Reason,
    wanted: Option<&[u16]>,
) -> Result<bool, Fail> {
    let found = least(alloc, program, reason)?;
    Ok(found.as_ref().map(|path| path.as_slice()) == wanted)
}

#[test]
fn banks_break_where_they_should(rt: HostRuntime) -> Result<(), Fail> {
    let alloc = rt.alloc();
    for sample in &BANKS {
        let program = bank_with(alloc, sample.turn)?;
        assert!(rt;
            is_least(alloc, &program, sample.reason, sample.least)?,
            "{:?}",
            sample.turn
        );
    }
    Ok(())
}

#[test]
fn the_third_of_two_kept_asks_breaks(rt: HostRuntime) -> Result<(), Fail> {
    let asker =
        b"INT got, disk; INT out[0:1]; PROC m MAIN; BEGIN CALL CHECKMONITOR; CALL OPEN(\"$DISC\", disk, 2);
out[0] := 1; WHILE 1 DO CALL WRITEREAD(disk, out, 1, 1, got) END;"
            .as_slice();
    let path = [1, 2, 3, 4, 5, 4, 5, 4, 5];
    let program = program_of(rt.alloc(), asker)?;
    assert!(rt; is_least(rt.alloc(), &program, Reason::Depth(0), Some(&path))?);
    assert!(rt; is_least(rt.alloc(), &program, Reason::Input, None)?);
    Ok(())
}

#[test]
fn a_target_is_due_when_its_function_is_left(rt: HostRuntime) -> Result<(), Fail> {
    let wanted: [(&[u8], Option<&[u16]>); 4] = [
        (
            b"INT x; INT PROC f; BEGIN END; PROC m MAIN; BEGIN CALL CHECKMONITOR; x := f; CALL CHECKPOINT END;",
            Some(&[1, 2, 3]),
        ),
        (
            b"INT x; INT PROC f; BEGIN RETURN 0; x := 1 END; PROC m MAIN; BEGIN CALL CHECKMONITOR; x := f; CALL CHECKPOINT END;",
            Some(&[3, 4, 1, 5]),
        ),
        (
            b"INT x; INT PROC f; BEGIN CALL CHECKPOINT END; PROC m MAIN; BEGIN CALL CHECKMONITOR; x := f; CALL CHECKPOINT END;",
            Some(&[2, 3, 1, 4]),
        ),
        (
            b"INT x; INT PROC f; BEGIN CALL STOP END; PROC m MAIN; BEGIN CALL CHECKMONITOR; x := f; CALL CHECKPOINT END;",
            None,
        ),
    ];
    for (text, path) in wanted {
        let program = program_of(rt.alloc(), text)?;
        assert!(rt;
            is_least(rt.alloc(), &program, Reason::Data(0), path)?,
            "{text:?}"
        );
    }
    Ok(())
}

/// The depth of a program's calls, where its procedures are few enough.
fn depth_of(program: &Program) -> Option<u32> {
    if program.procedures.len() <= 64 {
        Some(call_depth(program))
    } else {
        None
    }
}

#[test]
fn calls_go_as_deep_as_their_longest_chain(rt: HostRuntime) -> Result<(), Fail> {
    let wanted: [(&[u8], u32); 4] = [
        (
            b"PROC a; BEGIN END; PROC b; BEGIN END; PROC m MAIN; BEGIN CALL CHECKMONITOR END;",
            1,
        ),
        (
            b"PROC a; BEGIN END; PROC b; BEGIN CALL a END; PROC m MAIN; BEGIN CALL CHECKMONITOR; CALL b END;",
            3,
        ),
        (
            b"PROC a; BEGIN END; PROC m MAIN; BEGIN CALL CHECKMONITOR; WHILE 1 DO IF 1 THEN CALL a END;",
            2,
        ),
        (
            b"INT x; PROC a; BEGIN END; INT PROC b; BEGIN CALL a END; PROC m MAIN; BEGIN CALL CHECKMONITOR; x := b; CALL a END;",
            3,
        ),
    ];
    for (text, depth) in wanted {
        let program = program_of(rt.alloc(), text)?;
        assert!(rt; depth_of(&program) == Some(depth), "{text:?}");
    }
    Ok(())
}
