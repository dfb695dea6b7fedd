use crate::programs::image_of;
use crate::walks::{ANSWERS, ASKS, ENDS, WAITS, walk};
use checkpoint_image::Behaviour;
use gd_words::{List, NoMemory};
use std::alloc::Global;
use std::test::Fail;
use tal_interp::TalProcess;
use worked_programs::{ADDER, BANK, program_of};

const GLOBALS: &[u8] = b"INT rcv, disk, got, i, x; INT buf[0:3]; INT out[0:3]; INT big[1:20]; ";

const PROLOGUE: &[u8] = b" PROC serve MAIN; BEGIN CALL CHECKMONITOR;
CALL OPEN(\"$RECEIVE\", rcv, 1); CALL OPEN(\"$DATA\", disk, 1); WHILE 1 DO BEGIN CALL READUPDATE(rcv, buf, 4, got); ";

const EPILOGUE: &[u8] = b"; CALL REPLY(buf, 4) END END;";

/// A program that takes requests of up to four words into `buf`, goes through a body with each, and replies with the
/// four words of `buf`: what it declares, its body, the requests and replies that come, and what is told.
type Case = (
    &'static [u8],
    &'static [u8],
    &'static [&'static [i16]],
    &'static [i16],
);

/// An ELSE belongs to the nearest IF.
const ELSES: &[u8] = b"
INT PROC near(a, b); INT a, b; BEGIN IF a THEN IF b THEN RETURN 1 ELSE RETURN 2; RETURN 3 END;
INT PROC far(a, b); INT a, b; BEGIN IF a THEN BEGIN IF b THEN RETURN 1 END ELSE RETURN 2; RETURN 3 END;";

/// A right side that isn't needed can't trap.
const SIDES: &[u8] = b"
IF buf[0] <> 0 AND 10 / buf[0] = 5 THEN buf[1] := 1;
IF buf[0] = 0 OR 10 / buf[0] = 5 THEN buf[2] := 1;
IF NOT (buf[0] = 0 OR 10 / buf[0] < 0) THEN buf[3] := 1";

/// As many words of a reply are read as there is room for.
const ASKING: &[u8] = b"
out[0] := 7; out[1] := 8; out[2] := 0; CALL WRITEREAD(disk, out, 2, 3, got);
buf[0] := got; buf[1] := out[0]; buf[2] := out[1]; buf[3] := out[2]";

/// A reply has from no words to sixteen.
const REPLIES: &[u8] = b"
big[16] := 9; CALL REPLY(big, 16); CALL READUPDATE(rcv, buf, 0, got); CALL REPLY(buf, got); CALL READUPDATE(rcv, buf, 4, got)";

/// The fourth turn from 3 is that of 6.
const FOURTH: &[u8] = b"
INT PROC fourth; BEGIN INT k, n; FOR k := 3 TO k DO BEGIN n := n + 1; IF n = 4 THEN RETURN k END END;";

/// A limit is worked out before each turn: 1 to 5 are each at most 10 less themselves.
const LIMITS: &[u8] = b"
FOR i := 1 TO 10 - i DO x := x + 1; buf[0] := x; buf[1] := i;
buf[2] := fourth;
FOR i := 5 TO 4 DO x := 0; buf[3] := x + i";

/// The eighth turn from 32,760 is that of 32,767, the ninth that of -32,768.
const LEFT: &[u8] = b"
INT PROC left(from); INT from; BEGIN INT k, n;
FOR k := from TO 32767 DO BEGIN n := n + 1; IF n = 20 THEN RETURN k END END;";

/// Loops without a body go to their ends.
const ENDLESS: &[u8] = b"
INT PROC down(a); INT a; BEGIN WHILE a > 3 DO a := a - 1; RETURN a END;
INT PROC inside(a); INT a; BEGIN INT n; WHILE 1 DO BEGIN n := n + a; IF n > 10 THEN RETURN n END END;";

const EMPTY: &[u8] = b"
FOR i := 1 TO 5 DO ; buf[0] := i; WHILE i < 0 DO ; FOR i := 1 TO 0 DO ; buf[1] := i;
buf[2] := down(7); buf[3] := inside(4)";

const PAIRS: &[u8] = b"
INT PROC pairs(n); INT n; BEGIN INT a, b, sum;
FOR a := 1 TO n DO BEGIN b := a; WHILE b <= n DO BEGIN sum := sum + 1; b := b + 1 END END; RETURN sum END;";

/// A FOR that counts down ends below its limit, which is worked out before each turn.
const DOWNWARDS: &[u8] = b"
FOR i := 7 DOWNTO 2 BY 2 DO x := x + i; buf[0] := x; buf[1] := i;
x := 0; FOR i := 5 DOWNTO 10 - i DO x := x + 1; FOR i := i DOWNTO i + 1 DO x := 9; buf[2] := x; buf[3] := i";

/// No word is past the ends of the words: the fourth turn down from -32,766 is that of 32,767, and the fourth up by 2
/// from 32,763 that of -32,767.
const PAST_ENDS: &[u8] = b"
INT PROC lower(from); INT from; BEGIN INT k, n;
FOR k := from DOWNTO %100000 DO BEGIN n := n + 1; IF n = 4 THEN RETURN k END END;
INT PROC upper(from); INT from; BEGIN INT k, n;
FOR k := from TO 32767 BY 2 DO BEGIN n := n + 1; IF n = 4 THEN RETURN k END END;";

/// By 32,767 the turns from 1 are those of 1, -32,768 and -1, and those down from -2 are those of -2, 32,767 and 0.
const GREAT_STEPS: &[u8] = b"
buf[0] := lower(buf[0]); buf[1] := upper(buf[1]);
FOR i := 1 TO 1 BY 32767 DO x := x + 1; buf[2] := i - x;
FOR i := -2 DOWNTO -2 BY 32767 DO x := x + 1; buf[3] := i + x";

/// Procedures that return out of a DO, out of one DO in another, and out of a DO whose test is never reached.
const OUT_OF_LOOPS: &[u8] = b"
INT PROC over(a, n); INT a, n; BEGIN INT k; DO BEGIN k := k + 1; IF k * a > n THEN RETURN k END UNTIL 0 END;
INT PROC both(n); INT n; BEGIN INT a, b; DO BEGIN a := a + 1; b := 0;
DO BEGIN b := b + 1; IF a * b = n THEN RETURN a * 100 + b END UNTIL b = a END UNTIL a > n END;
INT PROC once(a); INT a; BEGIN DO RETURN a + 1 UNTIL 1 END;";

/// A DO is done once at least. The body of one may be another.
const UNTILS: &[u8] = b"
DO i := i + 1 UNTIL 1; DO UNTIL i = 1; DO DO x := x + 1 UNTIL x / 3 * 3 = x UNTIL x >= 10; buf[1] := x * 10 + i;
buf[0] := once(buf[0]); buf[2] := over(3, 10); buf[3] := both(12)";

/// Fifteen procedures: each adds its number to its argument, gives that to the one before, and adds its number to what
/// comes back: of 5 come 5, twice the sum of 2 to 15, and 1.
const CHAIN: &[u8] = b"
INT PROC p1(a); INT a; BEGIN INT b; b := 1; RETURN a + b END;
INT PROC p2(a); INT a; BEGIN INT b; b := 2; a := p1(a + b); RETURN a + b END;
INT PROC p3(a); INT a; BEGIN INT b; b := 3; a := p2(a + b); RETURN a + b END;
INT PROC p4(a); INT a; BEGIN INT b; b := 4; a := p3(a + b); RETURN a + b END;
INT PROC p5(a); INT a; BEGIN INT b; b := 5; a := p4(a + b); RETURN a + b END;
INT PROC p6(a); INT a; BEGIN INT b; b := 6; a := p5(a + b); RETURN a + b END;
INT PROC p7(a); INT a; BEGIN INT b; b := 7; a := p6(a + b); RETURN a + b END;
INT PROC p8(a); INT a; BEGIN INT b; b := 8; a := p7(a + b); RETURN a + b END;
INT PROC p9(a); INT a; BEGIN INT b; b := 9; a := p8(a + b); RETURN a + b END;
INT PROC p10(a); INT a; BEGIN INT b; b := 10; a := p9(a + b); RETURN a + b END;
INT PROC p11(a); INT a; BEGIN INT b; b := 11; a := p10(a + b); RETURN a + b END;
INT PROC p12(a); INT a; BEGIN INT b; b := 12; a := p11(a + b); RETURN a + b END;
INT PROC p13(a); INT a; BEGIN INT b; b := 13; a := p12(a + b); RETURN a + b END;
INT PROC p14(a); INT a; BEGIN INT b; b := 14; a := p13(a + b); RETURN a + b END;
INT PROC p15(a); INT a; BEGIN INT b; b := 15; a := p14(a + b); RETURN a + b END;";

/// A procedure that ends without RETURN gives 0.
const DOUBLED: &[u8] = b"
INT PROC doubled(a); INT a; BEGIN IF a > 0 THEN RETURN a * 2 END;
INT PROC three; BEGIN RETURN 3 END;
PROC add(a); INT a; BEGIN IF a = 0 THEN RETURN; x := x + a END;";

const ADDED: &[u8] = b"
buf[0] := doubled(buf[0]); buf[1] := doubled(buf[1]); CALL add(0); CALL add(7); CALL add(buf[0]);
CALL doubled(5); buf[2] := x; buf[3] := three";

/// Locals hide globals and procedures.
const HIDDEN: &[u8] = b"
INT PROC twice(a); INT a; BEGIN RETURN a + a END;
INT PROC hidden(x, twice); INT x, twice; BEGIN INT buf; buf := 1; x := x + buf; twice := twice + x; RETURN twice END;";

/// The index of what gets a word is that after the call.
const NEXT: &[u8] = b"INT PROC next(a); INT a; BEGIN i := i + 1; RETURN a END;";

/// Arrays begin below 0 and at the ends of the words.
const ARRAYS: &[u8] = b"INT n[-3:2]; INT top[32765:32767]; INT low[%100000:-32767];";

const ENDS_OF_ARRAYS: &[u8] = b"
n[-3] := 5; n[2] := buf[0]; n[buf[0] - 10] := 8;
top[32767] := 3; top[32765] := n[-3]; low[%100000] := 6; low[-32767] := top[32767];
buf[0] := n[-3] + n[2]; buf[1] := top[32765] * top[32767]; buf[2] := low[%100000] - low[-32767]; buf[3] := n[-1]";

/// Words wrap, and quotients are truncated. 257 times 257 is 66,049.
const WORDS: &[u8] = b"
buf[0] := buf[0] + 1; buf[1] := -buf[1]; buf[2] := buf[2] / -1 - 7 / -2; buf[3] := buf[3] * buf[3]";

/// Procedures in whose calls something traps.
const TRAPS: &[u8] = b"
INT PROC same(a); INT a; BEGIN RETURN a END;
INT PROC inverse(a); INT a; BEGIN RETURN 1 / a END;";

const ONE: &[&[i16]] = &[&[7]];

const TRAP: &[i16] = &[ENDS];

/// A trap after a reply of one word.
const LATER_TRAP: &[i16] = &[ANSWERS, 7, ENDS];

const CASES: &[Case] = &[
    (
        ELSES,
        b"buf[2] := near(buf[0], buf[1]); buf[3] := far(buf[0], buf[1])",
        &[&[0, 0], &[0, 1], &[1, 0], &[-1, 1]],
        &[
            ANSWERS, 0, 0, 3, 2, ANSWERS, 0, 1, 3, 2, ANSWERS, 1, 0, 2, 3, ANSWERS, -1, 1, 1, 1,
            WAITS,
        ],
    ),
    (
        b"",
        SIDES,
        &[&[0, 0, 0, 0], &[2, 0, 0, 0], &[-3, 0, 0, 0], &[5, 0, 0, 0]],
        &[
            ANSWERS, 0, 0, 1, 0, ANSWERS, 2, 1, 1, 1, ANSWERS, -3, 0, 0, 0, ANSWERS, 5, 0, 0, 1,
            WAITS,
        ],
    ),
    (
        b"",
        b"buf[0] := got",
        &[&[1, 2, 3, 4, 5, 6], &[7, 8], &[]],
        &[
            ANSWERS, 4, 2, 3, 4, ANSWERS, 2, 8, 3, 4, ANSWERS, 0, 8, 3, 4, WAITS,
        ],
    ),
    (
        b"",
        ASKING,
        &[&[], &[5], &[], &[1, 2, 3, 4], &[], &[]],
        &[
            ASKS, 7, 8, ANSWERS, 1, 5, 8, 0, ASKS, 7, 8, ANSWERS, 3, 1, 2, 3, ASKS, 7, 8, ANSWERS,
            0, 7, 8, 0, WAITS,
        ],
    ),
    (b"", b"CALL WRITEREAD(disk, buf, 0, 4, got)", &[], &[WAITS]),
    (
        b"",
        b"CALL WRITEREAD(disk, buf, 0, 4, got)",
        &[&[1]],
        &[ASKS, WAITS],
    ),
    (
        b"",
        REPLIES,
        &[&[1], &[2], &[3, 4]],
        &[
            ANSWERS, 0, 0, 0, 0, 0, 0, 0, 0, 0, 0, 0, 0, 0, 0, 0, 9, ANSWERS, ANSWERS, 3, 4, 0, 0,
            WAITS,
        ],
    ),
    (FOURTH, LIMITS, &[&[]], &[ANSWERS, 5, 6, 6, 10, WAITS]),
    (
        LEFT,
        b"buf[0] := left(buf[0]); buf[1] := left(32767)",
        &[&[32_760]],
        &[ANSWERS, -32_757, -32_750, 0, 0, WAITS],
    ),
    (ENDLESS, EMPTY, &[&[]], &[ANSWERS, 6, 1, 3, 12, WAITS]),
    (
        PAIRS,
        b"FOR i := 0 TO 3 DO buf[i] := pairs(i + 1)",
        &[&[]],
        &[ANSWERS, 1, 3, 6, 10, WAITS],
    ),
    (b"", DOWNWARDS, &[&[]], &[ANSWERS, 15, 1, 1, 4, WAITS]),
    (
        PAST_ENDS,
        GREAT_STEPS,
        &[&[-32_766, 32_763]],
        &[ANSWERS, 32_767, -32_767, 32_763, -32_761, WAITS],
    ),
    (
        OUT_OF_LOOPS,
        UNTILS,
        &[&[3]],
        &[ANSWERS, 4, 121, 4, 403, WAITS],
    ),
    (
        CHAIN,
        b"buf[0] := p15(buf[0])",
        &[&[5]],
        &[ANSWERS, 244, 0, 0, 0, WAITS],
    ),
    (
        DOUBLED,
        ADDED,
        &[&[21, -1, 9, 9]],
        &[ANSWERS, 42, 0, 49, 3, WAITS],
    ),
    (
        HIDDEN,
        b"x := 5; buf[0] := hidden(10, 20); buf[1] := x; buf[2] := twice(x)",
        &[&[8, 8, 8, 8]],
        &[ANSWERS, 31, 5, 10, 8, WAITS],
    ),
    (
        NEXT,
        b"i := 1; buf[i] := next(9); buf[i - 2] := next(i)",
        &[&[]],
        &[ANSWERS, 0, 2, 9, 0, WAITS],
    ),
    (
        ARRAYS,
        ENDS_OF_ARRAYS,
        &[&[9]],
        &[ANSWERS, 14, 15, 3, 8, WAITS],
    ),
    (
        b"",
        WORDS,
        &[&[32_767, -32_768, -32_768, 257]],
        &[ANSWERS, -32_768, -32_768, -32_765, 513, WAITS],
    ),
    (TRAPS, b"buf[0] := 1 / x", ONE, TRAP),
    (TRAPS, b"buf[4] := 1", ONE, TRAP),
    (TRAPS, b"buf[-1] := 1", ONE, TRAP),
    (TRAPS, b"buf[1 / x] := 1", ONE, TRAP),
    (TRAPS, b"buf[0] := buf[4]", ONE, TRAP),
    (TRAPS, b"buf[0] := buf[buf[0] - 8]", ONE, TRAP),
    (TRAPS, b"IF 1 / x = 0 THEN x := 1 ELSE x := 2", ONE, TRAP),
    (TRAPS, b"IF x = 0 AND 1 / x = 1 THEN x := 1", ONE, TRAP),
    (TRAPS, b"WHILE 1 / x = 0 DO x := 1", ONE, TRAP),
    (TRAPS, b"FOR i := 1 / x TO 3 DO x := 1", ONE, TRAP),
    (TRAPS, b"FOR i := 1 TO 1 / x DO x := 1", ONE, TRAP),
    (TRAPS, b"FOR i := 3 DOWNTO 1 / x DO x := 1", ONE, TRAP),
    (TRAPS, b"DO x := 0 UNTIL 1 / x = 1", ONE, TRAP),
    (TRAPS, b"x := same(1 / x)", ONE, TRAP),
    (TRAPS, b"x := inverse(x)", ONE, TRAP),
    (TRAPS, b"CALL inverse(0)", ONE, TRAP),
    (TRAPS, b"buf[4] := same(1)", ONE, TRAP),
    (TRAPS, b"CALL REPLY(buf, -1)", ONE, TRAP),
    (TRAPS, b"CALL REPLY(buf, 5)", ONE, TRAP),
    (TRAPS, b"CALL REPLY(big, 17)", ONE, TRAP),
    (TRAPS, b"CALL READUPDATE(rcv, buf, 1, got)", ONE, TRAP),
    (TRAPS, b"CALL WRITEREAD(disk, buf, 5, 1, got)", ONE, TRAP),
    (TRAPS, b"CALL WRITEREAD(disk, buf, 1, -1, got)", ONE, TRAP),
    (TRAPS, b"CALL REPLY(buf, 1)", ONE, LATER_TRAP),
    (
        TRAPS,
        b"CALL REPLY(buf, 1); CALL REPLY(buf, 1)",
        ONE,
        LATER_TRAP,
    ),
    (
        TRAPS,
        b"CALL REPLY(buf, 1); CALL READUPDATE(rcv, buf, 5, got)",
        ONE,
        LATER_TRAP,
    ),
    (
        TRAPS,
        b"CALL REPLY(buf, 1); CALL READUPDATE(rcv, big, 17, got)",
        ONE,
        LATER_TRAP,
    ),
];

/// Answers the power of two words, by two procedures that stand in calls.
const POWERS: &[u8] = b"INT rcv, got, answered; INT buf[0:1];
INT PROC times(base, n);
INT base, n;
BEGIN
  INT k, product;
  product := 1;
  FOR k := 1 TO n DO product := product * base;
  RETURN product;
END;
INT PROC power(base, n);
INT base, n;
BEGIN
  INT found;
  IF n < 0 THEN RETURN 0;
  found := times(base, n);
  RETURN found;
END;
PROC serve MAIN;
BEGIN
  CALL CHECKMONITOR;
  CALL OPEN(\"$RECEIVE\", rcv, 1);
  WHILE 1 DO
  BEGIN
    CALL READUPDATE(rcv, buf, 2, got);
    buf[0] := power(buf[0], buf[1]);
    answered := answered + 1;
    CALL CHECKPOINT(answered, got, buf);
    CALL REPLY(buf, 1);
  END;
END;";

/// Counts down by 2, and goes round until tests hold: one DO in another, and one that a procedure returns out of.
const ROUNDS: &[u8] = b"INT rcv, got, i, total; INT buf[0:1];
INT PROC above(a, n);
INT a, n;
BEGIN
  INT k;
  DO BEGIN k := k + 1; IF k * a > n THEN RETURN k END UNTIL k = 100;
END;
PROC serve MAIN;
BEGIN
  CALL CHECKMONITOR;
  CALL OPEN(\"$RECEIVE\", rcv, 1);
  DO
  BEGIN
    CALL READUPDATE(rcv, buf, 2, got);
    total := 0;
    FOR i := buf[0] DOWNTO 1 BY 2 DO total := total + i;
    DO DO total := total + 1 UNTIL total / 3 * 3 = total UNTIL total > 12;
    buf[0] := total;
    buf[1] := above(3, buf[1]);
    CALL CHECKPOINT(buf, got, i, total);
    CALL REPLY(buf, 2);
  END UNTIL 0;
END;";

/// A whole program, the words of its image at its beginning, the requests and replies that come, and what is told.
type Whole = (
    &'static [u8],
    &'static [i16],
    &'static [&'static [i16]],
    &'static [i16],
);

const WHOLES: [Whole; 4] = [
    (
        ADDER,
        &[1, 0, 1, 3, 0, 0, 1, 0, 3, 0],
        &[&[5], &[7]],
        &[ANSWERS, 5, ANSWERS, 12, WAITS],
    ),
    (
        BANK,
        &[1, 0, 1, 4, 0, 0, 1, 0, 4, 0, 5, 0, 0, 0],
        &[&[5], &[0], &[7], &[0]],
        &[
            ASKS, 2, 0, 5, ANSWERS, 5, ASKS, 2, 0, 12, ANSWERS, 12, WAITS,
        ],
    ),
    (
        POWERS,
        &[1, 2, 11, 3, 1, 0, 2, 0, 3, 0, 0],
        &[&[3, 2], &[2, -1], &[-2, 15]],
        &[ANSWERS, 9, ANSWERS, 0, ANSWERS, -32_768, WAITS],
    ),
    (
        ROUNDS,
        &[1, 1, 5, 4, 1, 0, 2, 0, 3, 0, 4, 0, 0],
        &[&[7, 10], &[0, -1]],
        &[ANSWERS, 18, 4, ANSWERS, 15, 1, WAITS],
    ),
];

/// Whether a program goes along with the plain one, and tells this.
fn tells(
    alloc: Global,
    text: &[u8],
    coming: &[&[i16]],
    restores: bool,
    wanted: &[i16],
) -> Result<bool, Fail> {
    let program = program_of(alloc, text)?;
    let mut told = List::new(alloc);
    let agrees = walk(alloc, &program, coming, restores, &mut told)?;
    Ok(agrees && told.as_slice() == wanted)
}

fn text_of(alloc: Global, declared: &[u8], body: &[u8]) -> Result<List<u8>, NoMemory> {
    let mut text = List::new(alloc);
    for part in [GLOBALS, declared, PROLOGUE, body, EPILOGUE] {
        text.extend_from_slice(part)?;
    }
    Ok(text)
}

#[test]
fn programs_go_along_with_the_plain_ones(rt: HostRuntime) -> Result<(), Fail> {
    let alloc = rt.alloc();
    for (row, (declared, body, coming, told)) in CASES.iter().enumerate() {
        let text = text_of(alloc, declared, body)?;
        assert!(rt;
            tells(alloc, text.as_slice(), coming, false, told)?,
            "row {row}"
        );
    }
    Ok(())
}

/// Whether a program at its beginning takes these words as its image, which it then has.
fn takes(alloc: Global, text: &[u8], words: &[i16]) -> Result<bool, Fail> {
    let program = program_of(alloc, text)?;
    let mut process = TalProcess::load(alloc, &program)?;
    let image = image_of(alloc, &process)?;
    Ok(process.apply(words, false) && image.as_slice() == words)
}

#[test]
fn whole_programs_go_along_and_take_no_image_of_another(rt: HostRuntime) -> Result<(), Fail> {
    let alloc = rt.alloc();
    for (row, (text, _, coming, told)) in WHOLES.iter().enumerate() {
        assert!(rt; tells(alloc, text, coming, true, told)?, "row {row}");
        for (other, (_, words, _, _)) in WHOLES.iter().enumerate() {
            assert!(rt;
                takes(alloc, text, words)? == (row == other),
                "row {row} with {other}"
            );
        }
    }
    Ok(())
}

#[test]
fn a_program_may_name_its_words_and_the_files_of_processes(rt: HostRuntime) -> Result<(), Fail> {
    let program = program_of(rt.alloc(), BANK)?;
    let process = TalProcess::load(rt.alloc(), &program)?;
    let everything = process.everything();
    let items: [u16; 4] = [0, 1, 4, 5];
    assert!(rt; everything.items.as_slice() == items.as_slice());
    assert!(rt; everything.files.as_slice() == [1].as_slice());
    Ok(())
}
