//! The bank of `texts` with its turn in other forms, for the discipline: whose CHECKPOINT names too little, comes too
//! late, or isn't on each path.

/// The bank up to its turns, the first of whose statements has the number 5.
pub(crate) const BANK_UP_TO_TURNS: &[u8] =
    b"INT total, got, rcv, disk; INT buf[0:0]; INT out[0:2]; PROC bank MAIN; BEGIN CALL CHECKMONITOR;
CALL OPEN(\"$RECEIVE\", rcv, 1); CALL OPEN(\"$DISC\", disk, 1); WHILE 1 DO BEGIN ";

/// What follows a turn.
pub(crate) const BANK_AFTER_TURNS: &[u8] = b" END; END;";

/// A turn whose CHECKPOINT names all but the total.
pub const TURN_WITHOUT_TOTAL: &[u8] =
    b"CALL READUPDATE(rcv, buf, 1, got); total := total + buf[0]; CALL CHECKPOINT(buf, out, got, disk);
out[0] := 2; out[1] := 0; out[2] := total; CALL WRITEREAD(disk, out, 3, 1, got); buf[0] := total; CALL REPLY(buf, 1)";

/// A turn whose CHECKPOINT names all but what goes to the disc.
pub const TURN_WITHOUT_OUT: &[u8] =
    b"CALL READUPDATE(rcv, buf, 1, got); total := total + buf[0]; CALL CHECKPOINT(buf, got, total, disk);
out[0] := 2; out[1] := 0; out[2] := total; CALL WRITEREAD(disk, out, 3, 1, got); buf[0] := total; CALL REPLY(buf, 1)";

/// A turn whose CHECKPOINT names all but the file of the disc.
pub const TURN_WITHOUT_DISK: &[u8] =
    b"CALL READUPDATE(rcv, buf, 1, got); total := total + buf[0]; CALL CHECKPOINT(buf, out, got, total);
out[0] := 2; out[1] := 0; out[2] := total; CALL WRITEREAD(disk, out, 3, 1, got); buf[0] := total; CALL REPLY(buf, 1)";

/// A turn whose CHECKPOINT names all.
pub const WHOLE_TURN: &[u8] =
    b"CALL READUPDATE(rcv, buf, 1, got); total := total + buf[0]; CALL CHECKPOINT(buf, out, got, total, disk);
out[0] := 2; out[1] := 0; out[2] := total; CALL WRITEREAD(disk, out, 3, 1, got); buf[0] := total; CALL REPLY(buf, 1)";

/// A turn that asks the disc before its CHECKPOINT.
pub const LATE_TURN: &[u8] = b"CALL READUPDATE(rcv, buf, 1, got); total := total + buf[0];
out[0] := 2; out[1] := 0; out[2] := total; CALL WRITEREAD(disk, out, 3, 1, got); CALL CHECKPOINT(buf, out, got, total, disk)";

/// A turn with a path around its CHECKPOINT.
pub const TURN_AROUND: &[u8] = b"CALL READUPDATE(rcv, buf, 1, got); total := total + buf[0];
WHILE total < 9 DO CALL CHECKPOINT(buf, out, got, total, disk);
out[0] := 2; out[1] := 0; out[2] := total; CALL WRITEREAD(disk, out, 3, 1, got)";
