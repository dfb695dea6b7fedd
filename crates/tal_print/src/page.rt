ghost use Rattle.std.specs.Prelude.{◌≡◌, ◌<◌, [], ◌∷◌, ◌++◌, IfOk, OnOk};
ghost use Rattle.tal_pieces.specs.Spelling.{blank, laid, number_text, octal_digit, octal_text, text_of};

use crate::layout::{depth_after, ending_of, push_gap};
use gd_words::{List, NoMemory, decimal_of};
use std::alloc::Global;
use std::marker::Model;
use tal_pieces::{Ending, Piece, system_name};

/// A text that is being written.
#[derive(Drop)]
pub struct Page {
    text: List<u8>,
    depth: usize,
    ending: Ending,
}

impl Model for Page {
    ghost use Rattle.std.specs.Prelude.{◌≤◌};
    ghost use Rattle.tal_pieces.specs.Spelling.{Sheet};

    ghost Value = { Sheet };

    ghost view = { λ page. record { text = page.text; depth = page.depth; ending = page.ending } };

    ghost invariant = { λ page. page.depth ≤ 40 };
}

impl Page {
    /// A page without a piece.
    pub fn new(alloc: Global) -> Page
        ensures { result ≡ blank }
    {
        Page {
            text: List::new(alloc),
            depth: 0,
            ending: Ending::Nothing,
        }
    }

    /// Writes one more piece.
    pub fn put(&mut self, piece: &Piece) -> Result<(), NoMemory>
        ensures { OnOk result (self.new ≡ laid self.old piece.now) }
    {
        push_gap(&mut self.text, self.depth, self.ending, piece)?;
        push_piece(&mut self.text, piece)?;
        self.depth = depth_after(self.depth, piece);
        self.ending = ending_of(piece);
        Ok(())
    }

    /// The whole text, whose last line ends with a line feed.
    pub fn into_text(self) -> Result<List<u8>, NoMemory>
        ensures { IfOk result (λ text. text ≡ self.text ++ 10 ∷ []) }
    {
        let Page {
            text,
            depth: _,
            ending: _,
        } = self;
        let mut text = text;
        text.push(b'\n')?;
        Ok(text)
    }
}

fn octal_digit(pattern: u16, weight: u16) -> u8
    requires { 0 < weight }
    ensures { result ≡ octal_digit pattern weight }
{
    let digit = pattern / weight % 8;
    b'0' + digit as u8
}

fn octal_text(pattern: u16) -> [u8; 6]
    ensures { result ≡ octal_text pattern }
{
    [
        octal_digit(pattern, 32768),
        octal_digit(pattern, 4096),
        octal_digit(pattern, 512),
        octal_digit(pattern, 64),
        octal_digit(pattern, 8),
        octal_digit(pattern, 1),
    ]
}

#[tactic(auto, using(crate::proofs::Growing::one_more))]
fn push_octal(text: &mut List<u8>, pattern: u16) -> Result<(), NoMemory>
    ensures { OnOk result (text.new ≡ text.old ++ 37 ∷ octal_text pattern) }
{
    text.push(b'%')?;
    text.extend_from_slice(&octal_text(pattern))?;
    Ok(())
}

fn push_number(text: &mut List<u8>, number: i16) -> Result<(), NoMemory>
    ensures { OnOk result (text.new ≡ text.old ++ number_text number) }
{
    if number < 0 {
        push_octal(text, number.cast_unsigned())?;
    } else {
        text.extend_from_slice(decimal_of(i64::from(number)).bytes())?;
    }
    Ok(())
}

#[tactic(auto, using(crate::proofs::Growing::quoted_text))]
fn push_process(text: &mut List<u8>, name: &[u8]) -> Result<(), NoMemory>
    ensures { OnOk result (text.new ≡ text.old ++ 34 ∷ name.now ++ 34 ∷ []) }
{
    text.push(b'"')?;
    text.extend_from_slice(name)?;
    text.push(b'"')?;
    Ok(())
}

fn push_piece(text: &mut List<u8>, piece: &Piece) -> Result<(), NoMemory>
    ensures { OnOk result (text.new ≡ text.old ++ text_of piece.now) }
{
    match piece {
        Piece::Keyword(word) => text.extend_from_slice(word.text())?,
        Piece::Symbol(symbol) => text.extend_from_slice(symbol.text())?,
        Piece::System(system) => text.extend_from_slice(system_name(*system))?,
        Piece::Name(name) => text.extend_from_slice(name.text())?,
        Piece::Number(number) => push_number(text, *number)?,
        Piece::Receive => text.extend_from_slice(b"\"$RECEIVE\"")?,
        Piece::Process(name) => push_process(text, name.text())?,
    }
    Ok(())
}
