/// Adds each request to a total and answers it.
pub const ADDER: &[u8] = b"INT total, got, rcv; INT buf[0:0];
PROC add MAIN;
BEGIN
  CALL CHECKMONITOR;
  CALL OPEN(\"$RECEIVE\", rcv, 1);
  WHILE 1 DO
  BEGIN
    CALL READUPDATE(rcv, buf, 1, got);
    total := total + buf[0];
    buf[0] := total;
    CALL CHECKPOINT(total, got, buf);
    CALL REPLY(buf, 1);
  END;
END;";

/// Adds each request to a total, has the total written to a log, and answers it.
pub const LOGGING_ADDER: &[u8] = b"INT total, got, rcv, log; INT buf[0:0];
PROC add MAIN;
BEGIN
  CALL CHECKMONITOR;
  CALL OPEN(\"$RECEIVE\", rcv, 1);
  CALL OPEN(\"$LOG\", log, 1);
  WHILE 1 DO
  BEGIN
    CALL READUPDATE(rcv, buf, 1, got);
    total := total + buf[0];
    buf[0] := total;
    CALL CHECKPOINT(total, got, buf, log);
    CALL WRITEREAD(log, buf, 1, 1, got);
    CALL REPLY(buf, 1);
  END;
END;";

/// The same with a CHECKPOINT that names the total alone.
pub const RARELY_NAMING_ADDER: &[u8] = b"INT total, got, rcv, log; INT buf[0:0];
PROC add MAIN;
BEGIN
  CALL CHECKMONITOR;
  CALL OPEN(\"$RECEIVE\", rcv, 1);
  CALL OPEN(\"$LOG\", log, 1);
  WHILE 1 DO
  BEGIN
    CALL READUPDATE(rcv, buf, 1, got);
    total := total + buf[0];
    buf[0] := total;
    CALL CHECKPOINT(total);
    CALL WRITEREAD(log, buf, 1, 1, got);
    CALL REPLY(buf, 1);
  END;
END;";

/// Adds each deposit to a total, has the total written to sector 0 of a disc, and answers it.
pub const BANK: &[u8] = b"INT total, got, rcv, disk; INT buf[0:0]; INT out[0:2];
PROC bank MAIN;
BEGIN
  CALL CHECKMONITOR;
  CALL OPEN(\"$RECEIVE\", rcv, 1);
  CALL OPEN(\"$DATA\", disk, 1);
  WHILE 1 DO
  BEGIN
    CALL READUPDATE(rcv, buf, 1, got);
    total := total + buf[0];
    CALL CHECKPOINT(buf, out, got, total, disk);
    out[0] := 2;
    out[1] := 0;
    out[2] := total;
    CALL WRITEREAD(disk, out, 3, 1, got);
    buf[0] := total;
    CALL REPLY(buf, 1);
  END;
END;";
