ghost use Rattle.std.specs.Prelude.{◌≡◌, ◌≤◌, length, true, ℤ, List, drop, IfSome, IfNone, IsTrue, ◌↔◌, ◌<◌, ◌≢◌, ◌^◌};
ghost use Rattle.packet_words.specs.declared.packet.Packet.{Packet};
ghost use Rattle.packet_words.specs.Layout.{is_packet, words_of, kind_number, number_in, shape_of, content_of, filled};
ghost use Rattle.packet_words.specs.Telling.{number_at, piece_told, kind_told, told};

use crate::packet::{Incarnation, Packet, PacketKind};
use crate::piece::{Piece, PieceWords};

impl Packet {
    /// The 16 words of the packet.
    pub fn to_words(&self) -> [i16; 16]
        requires { is_packet self.now ≡ true }
        ensures { result ≡ words_of self.now }
    {
        let address = u16::from(self.sender) * 32 + u16::from(self.receiver);
        let incarnation = u16::from(self.incarnation.sender) * 128
            + u16::from(self.incarnation.receiver);
        let number = number_in(&self.kind);
        let header = [
            address.cast_signed(),
            kind_number(&self.kind).cast_signed(),
            incarnation.cast_signed(),
            ((number / 65_536) as u16).cast_signed(),
            ((number % 65_536) as u16).cast_signed(),
            shape_of(&self.kind).cast_signed(),
        ];
        let content = content_of(&self.kind);
        let mut words = [0; 16];
        words[..6].copy_from_slice(&header);
        words[6..].copy_from_slice(&content);
        words
    }

    /// The packet that has these words; none where no packet within its ranges has them.
    pub fn from_words(words: &[i16; 16]) -> Option<Packet>
        ensures packet { IfSome result (λ packet. is_packet packet ≡ true) }
        ensures words { IfSome result (λ packet. words_of packet ≡ words.now) }
        ensures none { IfNone result ((packet : Packet) → number_in packet.kind < 2 ^ 32 → is_packet packet ≡ true
            → words_of packet ≢ words.now) }
    {
        let packet = told(words);
        if is_told_by(&packet, words) {
            Some(packet)
        } else {
            None
        }
    }
}

/// Whether the packet is within its ranges and has these words.
fn is_told_by(packet: &Packet, words: &[i16; 16]) -> bool
    ensures { IsTrue result ↔ ((is_packet packet.now ≡ true) × (words_of packet.now ≡ words.now)) }
{
    if packet.is_whole() {
        packet.to_words() == *words
    } else {
        false
    }
}

fn kind_number(kind: &PacketKind) -> u16
    ensures { result ≡ kind_number kind.now }
{
    match kind {
        PacketKind::Alive => 0,
        PacketKind::Piece {
            number: _,
            piece: _,
        } => 1,
        PacketKind::Acknowledgement { number: _ } => 2,
    }
}

fn number_in(kind: &PacketKind) -> u32
    ensures { result ≡ number_in kind.now }
{
    match kind {
        PacketKind::Alive => 0,
        PacketKind::Piece { number, piece: _ } => *number,
        PacketKind::Acknowledgement { number } => *number,
    }
}

fn shape_of(kind: &PacketKind) -> u16
    ensures { result ≡ shape_of kind.now }
{
    match kind {
        PacketKind::Alive => 0,
        PacketKind::Piece { number: _, piece } => {
            let count = piece.words.len() as u16;
            if piece.last { count + 16 } else { count }
        }
        PacketKind::Acknowledgement { number: _ } => 0,
    }
}

fn content_of(kind: &PacketKind) -> [i16; 10]
    ensures { result ≡ content_of kind.now }
{
    match kind {
        PacketKind::Alive => filled(&[]),
        PacketKind::Piece { number: _, piece } => filled(piece.words.as_slice()),
        PacketKind::Acknowledgement { number: _ } => filled(&[]),
    }
}

/// Words in ten places, zeros after them.
fn filled(words: &[i16]) -> [i16; 10]
    requires { length words.now ≤ 10 }
    ensures { result ≡ filled words.now }
{
    let mut content = [0; 10];
    content[..words.len()].copy_from_slice(words);
    content
}

/// The number of the pattern at a place, 0 where none is.
fn number_at(place: usize, words: &[i16]) -> u16
    ensures { result ≡ number_at place words.now }
{
    match words.get(place) {
        Some(word) => word.cast_unsigned(),
        None => 0,
    }
}

fn piece_told(shape: u16, content: &[i16]) -> Piece
    ensures { result ≡ piece_told shape content.now }
{
    let count = usize::from(shape % 16).min(content.len());
    let (front, _) = content.split_at(count);
    Piece {
        last: 16 <= shape,
        words: PieceWords::first_of(front),
    }
}

fn kind_told(kind: u16, number: u32, shape: u16, content: &[i16]) -> PacketKind
    ensures { result ≡ kind_told kind number shape content.now }
{
    match kind {
        0 => PacketKind::Alive,
        1 => PacketKind::Piece {
            number,
            piece: piece_told(shape, content),
        },
        _ => PacketKind::Acknowledgement { number },
    }
}

fn told(words: &[i16]) -> Packet
    requires { length words.now ≡ 16 }
    ensures { result ≡ told words.now }
{
    let address = number_at(0, words);
    let incarnation = number_at(2, words);
    let number = u32::from(number_at(3, words)) * 65_536 + u32::from(number_at(4, words));
    let (_, content) = words.split_at(6);
    Packet {
        sender: (address / 32 % 32) as u8,
        receiver: (address % 32) as u8,
        incarnation: Incarnation {
            sender: (incarnation / 128 % 128) as u8,
            receiver: (incarnation % 128) as u8,
        },
        kind: kind_told(number_at(1, words), number, number_at(5, words), content),
    }
}

/// Packets within their ranges are told apart by their words.
pub fn words_tell_their_packet()
    ensures { (one other : Packet) → is_packet one ≡ true → is_packet other ≡ true → number_in one.kind < 2 ^ 32
        → number_in other.kind < 2 ^ 32
        → words_of one ≡ words_of other → one ≡ other }
{}
