use gd_words::{List, NoMemory};
use std::alloc::Global;
use std::test::Fail;
use tal_print::print_program;
use tal_reader::read_program;

/// A program with each form of what is printed, up to a value that grows.
const SOURCE: &[u8] =
    b"LITERAL low = -1, far = %100000; ! a LITERAL is the number that it stands for
INT x, y, i, f, g; INT a[low:2];
INT PROC h(k, n); INT n, k; BEGIN INT x; x := k; RETURN x - n END;
INT PROC one; BEGIN RETURN 1 END;
PROC p MAIN; BEGIN CALL CHECKMONITOR; CALL OPEN(\"$receive\", f, 1); CALL OPEN(\"$disk1\", g, 2);
IF x THEN IF y THEN x := 1 ELSE x := 2;
IF x THEN BEGIN IF y THEN x := 1 END ELSE x := 2;
IF x THEN BEGIN END; WHILE y DO; x := 1;
IF NOT NOT (x = y OR NOT x < y) AND x THEN x := 1; y := 2;
WHILE (x >= y) OR ((y <= 1) AND ((x <> y) AND (x > 0))) DO x := 1;
x := x - (y - i); x := (x - y) - i; x := x * (y / i);
x := (x * y) + -(x + i) * i; x := - - 5; x := far + low; a[-1] := a[a[low] + 1];
FOR i := 1 TO x + 1 DO; FOR i := low TO 2 DO BEGIN x := i; FOR y := 1 TO 2 DO y := i END;
FOR i := 5 DOWNTO low BY 2 DO x := i; FOR i := 1 TO 2 BY 1 DO; IF x THEN DO x := 1 UNTIL y ELSE y := 1;
DO x := 1 UNTIL (x = 1) OR y; DO BEGIN x := 1; y := 2 END UNTIL (y); DO BEGIN END UNTIL 1;
x := one; a[x] := h(-x, a[0]); CALL one; CALL h(1, 2);
CALL CHECKPOINT; CALL CHECKPOINT(g); CALL CHECKPOINT(g, x, a);
WHILE 1 DO BEGIN CALL READUPDATE(f, a, 1, i); CALL WRITEREAD(g, a, 3, 1, i); CALL REPLY(a, 1); END;
RETURN; CALL STOP;
x := 1";

const PRINTED: &[u8] = b"INT X;
INT Y;
INT I;
INT F;
INT G;
INT A[%177777:2];
INT PROC H(K, N);
INT K;
INT N;
BEGIN
  INT X;
  X := K;
  RETURN X - N
END;
INT PROC ONE;
BEGIN
  RETURN 1
END;
PROC P MAIN;
BEGIN
  CALL CHECKMONITOR;
  CALL OPEN(\"$RECEIVE\", F, 1);
  CALL OPEN(\"$DISK1\", G, 2);
  IF X THEN IF Y THEN X := 1 ELSE X := 2 ELSE;
  IF X THEN IF Y THEN X := 1 ELSE ELSE X := 2;
  IF X THEN ELSE;
  WHILE Y DO;
  X := 1;
  IF NOT NOT (X = Y OR NOT X < Y) AND X THEN X := 1 ELSE;
  Y := 2;
  WHILE X >= Y OR Y <= 1 AND (X <> Y AND X > 0) DO X := 1;
  X := X - (Y - I);
  X := X - Y - I;
  X := X * (Y / I);
  X := X * Y + - (X + I) * I;
  X := - - 5;
  X := %100000 + %177777;
  A[- 1] := A[A[%177777] + 1];
  FOR I := 1 TO X + 1 DO;
  FOR I := %177777 TO 2 DO BEGIN
    X := I;
    FOR Y := 1 TO 2 DO Y := I
  END;
  FOR I := 5 DOWNTO %177777 BY 2 DO X := I;
  FOR I := 1 TO 2 DO;
  IF X THEN DO X := 1 UNTIL Y ELSE Y := 1;
  DO X := 1 UNTIL X = 1 OR Y;
  DO BEGIN
    X := 1;
    Y := 2
  END UNTIL Y;
  DO UNTIL 1;
  X := ONE;
  A[X] := H(- X, A[0]);
  CALL ONE;
  CALL H(1, 2);
  CALL CHECKPOINT;
  CALL CHECKPOINT(G);
  CALL CHECKPOINT(X, A, G);
  WHILE 1 DO BEGIN
    CALL READUPDATE(F, A, 1, I);
    CALL WRITEREAD(G, A, 3, 1, I);
    CALL REPLY(A, 1)
  END;
  RETURN;
  CALL STOP;
  X := 1";

/// A front, then 300,000 times an operator, 1,900 times a statement, and an end.
fn joined(
    alloc: Global,
    front: &[u8],
    operator: &[u8],
    statement: &[u8],
    end: &[u8],
) -> Result<Vec<u8>, NoMemory> {
    let mut text = Vec::from_slice(alloc, front)?;
    for _ in 0..300_000 {
        text.extend_from_slice(operator)?;
    }
    for _ in 0..1_900 {
        text.extend_from_slice(statement)?;
    }
    text.extend_from_slice(end)?;
    Ok(text)
}

/// What a text is printed as once it was read.
fn printed(alloc: Global, text: &[u8]) -> Result<List<u8>, Fail> {
    if text.len() > 4_000_000 {
        return Err("too long a text".into());
    }
    let program = read_program(alloc, text)?;
    let text = print_program(alloc, &program)?;
    Ok(text)
}

#[test]
fn a_program_is_printed_with_no_more_signs_than_it_needs(rt: HostRuntime) -> Result<(), Fail> {
    let alloc = rt.alloc();
    let source = joined(alloc, SOURCE, b" + y", b"; x := 1", b"\nEND;")?;
    let wanted = joined(alloc, PRINTED, b" + Y", b";\n  X := 1", b"\nEND;\n")?;
    for text in [&source, &wanted] {
        let found = printed(alloc, text.as_slice())?;
        assert!(rt; found.as_slice() == wanted.as_slice());
    }
    Ok(())
}
