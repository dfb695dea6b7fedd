ghost use Rattle.std.specs.Prelude.{◌≡◌, ◌≤◌, ◌++◌, ◌%◌, IfOk, OnOk};
ghost use Rattle.std.specs.Fmt.{decimal};
ghost use Rattle.load_deck.specs.LoadText.{bank_text, banks, line, load_text, program_head, program_middle};
ghost use Rattle.load_deck.specs.LoadText.{program_tail, request_text, requests, terminal_text, terminals};

use gd_words::{NoMemory, decimal_of};
use std::alloc::Global;

/// The text of the load deck in which each terminal has so many requests, 1 to 200.
pub fn load_text(alloc: Global, count: u32) -> Result<Vec<u8>, NoMemory>
    requires { count ≤ 200 }
    ensures { IfOk result (λ text. text.items ≡ load_text count) }
{
    let mut text = Vec::new(alloc);
    put(
        &mut text,
        b"processors 16\ndisc $D0 0 1 64\ndisc $D1 2 3 64\n",
    )?;
    put_banks(&mut text)?;
    put_terminals(&mut text, count)?;
    put(
        &mut text,
        b"schedule\nmix 7 500\nfail 4\ndrain 90000\nEND\n",
    )?;
    Ok(text)
}

fn put_banks(text: &mut Vec<u8>) -> Result<(), NoMemory>
    ensures { OnOk result (text.new.items ≡ text.old.items ++ banks 12) }
{
    for number in 0..12 {
        put_bank(text, number)?;
    }
    Ok(())
}

fn put_bank(text: &mut Vec<u8>, number: u32) -> Result<(), NoMemory>
    requires { number ≤ 100 }
    ensures { OnOk result (text.new.items ≡ text.old.items ++ bank_text number) }
{
    put(text, b"pair $B")?;
    put_number(text, number)?;
    put(text, b" ")?;
    put_number(text, 4 + number)?;
    put(text, b" ")?;
    put_line(text, (5 + number) % 16)?;
    put_program(text, number)
}

fn put_program(text: &mut Vec<u8>, number: u32) -> Result<(), NoMemory>
    ensures { OnOk result (text.new.items ≡ text.old.items ++ program_head ++ decimal (number % 2) ++ program_middle
        ++ decimal number ++ program_tail) }
{
    put_head(text)?;
    put_number(text, number % 2)?;
    put_middle(text)?;
    put_number(text, number)?;
    put_tail(text)
}

fn put_head(text: &mut Vec<u8>) -> Result<(), NoMemory>
    ensures { OnOk result (text.new.items ≡ text.old.items ++ program_head) }
{
    put(
        text,
        b"INT total, got, rcv, disk;\nINT buf[0:0];\nINT out[0:2];\nPROC bank MAIN;\nBEGIN\n  CALL CHECKMONITOR;\n  CALL OPEN(\"$RECEIVE\", rcv, 1);\n  CALL OPEN(\"$D",
    )
}

fn put_middle(text: &mut Vec<u8>) -> Result<(), NoMemory>
    ensures { OnOk result (text.new.items ≡ text.old.items ++ program_middle) }
{
    put(
        text,
        b"\", disk, 1);\n  WHILE 1 DO\n  BEGIN\n    CALL READUPDATE(rcv, buf, 1, got);\n    total := total + buf[0];\n    CALL CHECKPOINT(buf, out, got, total, disk);\n    out[0] := 2;\n    out[1] := ",
    )
}

fn put_tail(text: &mut Vec<u8>) -> Result<(), NoMemory>
    ensures { OnOk result (text.new.items ≡ text.old.items ++ program_tail) }
{
    put(
        text,
        b";\n    out[2] := total;\n    CALL WRITEREAD(disk, out, 3, 1, got);\n    buf[0] := total;\n    CALL REPLY(buf, 1);\n  END;\nEND;\n.\n",
    )
}

fn put_terminals(text: &mut Vec<u8>, count: u32) -> Result<(), NoMemory>
    requires { count ≤ 200 }
    ensures { OnOk result (text.new.items ≡ text.old.items ++ terminals count 16) }
{
    for number in 0..16 {
        put_terminal(text, count, number)?;
    }
    Ok(())
}

fn put_terminal(text: &mut Vec<u8>, count: u32, number: u32) -> Result<(), NoMemory>
    requires few { count ≤ 200 }
    requires low { number ≤ 100 }
    ensures { OnOk result (text.new.items ≡ text.old.items ++ terminal_text count number) }
{
    put(text, b"terminal $T")?;
    put_number(text, number)?;
    put(text, b" $B")?;
    put_line(text, number % 12)?;
    put_requests(text, number, count)
}

fn put_requests(text: &mut Vec<u8>, terminal: u32, count: u32) -> Result<(), NoMemory>
    requires few { count ≤ 200 }
    requires low { terminal ≤ 100 }
    ensures { OnOk result (text.new.items ≡ text.old.items ++ requests terminal count) }
{
    for before in 0..count {
        put_request(text, terminal, before + 1)?;
    }
    Ok(())
}

fn put_request(text: &mut Vec<u8>, terminal: u32, request: u32) -> Result<(), NoMemory>
    requires few { request ≤ 200 }
    requires low { terminal ≤ 100 }
    ensures { OnOk result (text.new.items ≡ text.old.items ++ request_text terminal request) }
{
    put(text, b"send ")?;
    put_line(text, (7 * terminal + 3 * request) % 100)
}

/// A number and the end of its line.
fn put_line(text: &mut Vec<u8>, number: u32) -> Result<(), NoMemory>
    ensures { OnOk result (text.new.items ≡ text.old.items ++ line (decimal number)) }
{
    put_number(text, number)?;
    put(text, b"\n")
}

fn put_number(text: &mut Vec<u8>, number: u32) -> Result<(), NoMemory>
    ensures { OnOk result (text.new.items ≡ text.old.items ++ decimal number) }
{
    put(text, decimal_of(i64::from(number)).bytes())
}

fn put(text: &mut Vec<u8>, bytes: &[u8]) -> Result<(), NoMemory>
    ensures { OnOk result (text.new.items ≡ text.old.items ++ bytes.now) }
{
    text.extend_from_slice(bytes)?;
    Ok(())
}
