ghost use Rattle.std.specs.Prelude.{◌≡◌, ◌≤◌, ◌++◌, ◌*◌, OnOk};
ghost use Rattle.tal_pieces.specs.Spelling.{begins_list, depth_after, depth_at, ending_of, gap, hangs, is_end};
ghost use Rattle.tal_pieces.specs.Spelling.{is_number, is_tight, line_at};

use gd_words::{List, NoMemory};
use tal_pieces::{Ending, Keyword, Piece, Symbol};

/// What a text ends with after a piece.
pub fn ending_of(piece: &Piece) -> Ending
    ensures { result ≡ ending_of piece.now }
{
    match piece {
        Piece::Keyword(Keyword::Begin) => Ending::Line,
        Piece::Symbol(Symbol::Semicolon) => Ending::Line,
        Piece::Symbol(Symbol::Open) => Ending::Bracket,
        Piece::Symbol(Symbol::OpenIndex) => Ending::Bracket,
        Piece::Symbol(Symbol::Colon) => Ending::Colon,
        Piece::System(_) => Ending::Name,
        Piece::Name(_) => Ending::Name,
        _ => Ending::Other,
    }
}

fn is_end(piece: &Piece) -> bool
    ensures { result ≡ is_end piece.now }
{
    match piece {
        Piece::Keyword(Keyword::End) => true,
        _ => false,
    }
}

fn begins_list(piece: &Piece) -> bool
    ensures { result ≡ begins_list piece.now }
{
    match piece {
        Piece::Symbol(Symbol::Open) => true,
        Piece::Symbol(Symbol::OpenIndex) => true,
        _ => false,
    }
}

fn hangs(piece: &Piece) -> bool
    ensures { result ≡ hangs piece.now }
{
    match piece {
        Piece::Symbol(Symbol::Close) => true,
        Piece::Symbol(Symbol::CloseIndex) => true,
        Piece::Symbol(Symbol::Comma) => true,
        Piece::Symbol(Symbol::Semicolon) => true,
        Piece::Symbol(Symbol::Colon) => true,
        _ => false,
    }
}

fn is_number(piece: &Piece) -> bool
    ensures { result ≡ is_number piece.now }
{
    match piece {
        Piece::Number(_) => true,
        _ => false,
    }
}

fn is_tight(ending: Ending, piece: &Piece) -> bool
    ensures { result ≡ is_tight ending piece.now }
{
    match ending {
        Ending::Nothing => true,
        Ending::Line => true,
        Ending::Bracket => true,
        Ending::Name => hangs(piece) || begins_list(piece),
        Ending::Colon => hangs(piece) || is_number(piece),
        Ending::Other => hangs(piece),
    }
}

fn depth_at(depth: usize, piece: &Piece) -> usize
    ensures { result ≡ depth_at depth piece.now }
{
    if is_end(piece) {
        depth.saturating_sub(1)
    } else {
        depth
    }
}

/// How many open BEGINs move the lines in after a piece.
pub fn depth_after(depth: usize, piece: &Piece) -> usize
    requires { depth ≤ 40 }
    ensures value { result ≡ depth_after depth piece.now }
    ensures few { result ≤ 40 }
{
    match piece {
        Piece::Keyword(Keyword::Begin) => { if depth < 40 { depth + 1 } else { 40 } }
        _ => depth_at(depth, piece),
    }
}

#[tactic(auto, using(crate::proofs::Growing::blanks_more))]
fn push_line(text: &mut List<u8>, depth: usize) -> Result<(), NoMemory>
    requires { depth ≤ 40 }
    ensures { OnOk result (text.new ≡ text.old ++ line_at depth) }
{
    text.push(b'\n')?;
    for _ in 0..2 * depth {
        text.push(b' ')?;
    }
    Ok(())
}

/// Writes what stands before a piece.
pub fn push_gap(
    text: &mut List<u8>,
    depth: usize,
    ending: Ending,
    piece: &Piece,
) -> Result<(), NoMemory>
    requires { depth ≤ 40 }
    ensures { OnOk result (text.new ≡ text.old ++ gap depth ending piece.now) }
{
    if ending == Ending::Nothing {
        return Ok(());
    }
    if is_end(piece) || ending == Ending::Line {
        push_line(text, depth_at(depth, piece))?;
        return Ok(());
    }
    if !is_tight(ending, piece) {
        text.push(b' ')?;
    }
    Ok(())
}
