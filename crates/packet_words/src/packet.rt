ghost use Rattle.std.specs.Prelude.{◌≡◌};
ghost use Rattle.packet_words.specs.Layout.{is_piece, is_kind, is_packet};

use crate::piece::Piece;
use gd_words::limits::{MOST_RELOADS, TERMINAL_NODE};

/// A packet from a node to a node; nodes are 0 to 16.
#[derive(Drop)]
pub struct Packet {
    pub sender: u8,
    pub receiver: u8,
    pub incarnation: Incarnation,
    pub kind: PacketKind,
}

/// How often the sender and the receiver had been reloaded, each at most 127 times.
#[derive(Clone, Copy, PartialEq, Eq)]
pub struct Incarnation {
    pub sender: u8,
    pub receiver: u8,
}

/// What a packet tells: that its sender is alive, a piece of a message by its number on the channel, or that the piece
/// of this number was kept. Numbers are from 1.
#[derive(Drop)]
pub enum PacketKind {
    Alive,
    Piece { number: u32, piece: Piece },
    Acknowledgement { number: u32 },
}

impl Packet {
    /// Whether nodes, incarnations, numbers and the piece are within their ranges.
    pub fn is_whole(&self) -> bool
        ensures { result ≡ is_packet self.now }
    {
        self.sender <= TERMINAL_NODE
            && self.receiver <= TERMINAL_NODE
            && self.incarnation.sender <= MOST_RELOADS
            && self.incarnation.receiver <= MOST_RELOADS
            && is_kind(&self.kind)
    }

    /// The same packet once more. It takes no memory.
    pub fn copy(&self) -> Packet
        ensures { result ≡ self.now }
    {
        Packet {
            sender: self.sender,
            receiver: self.receiver,
            incarnation: self.incarnation,
            kind: copy_of(&self.kind),
        }
    }
}

fn copy_of(kind: &PacketKind) -> PacketKind
    ensures { result ≡ kind.now }
{
    match kind {
        PacketKind::Alive => PacketKind::Alive,
        PacketKind::Piece { number, piece } => PacketKind::Piece {
            number: *number,
            piece: piece.copy(),
        },
        PacketKind::Acknowledgement { number } => PacketKind::Acknowledgement { number: *number },
    }
}

fn is_kind(kind: &PacketKind) -> bool
    ensures { result ≡ is_kind kind.now }
{
    match kind {
        PacketKind::Alive => true,
        PacketKind::Piece { number, piece } => 0 < *number && is_piece(piece),
        PacketKind::Acknowledgement { number } => 0 < *number,
    }
}

fn is_piece(piece: &Piece) -> bool
    ensures { result ≡ is_piece piece.now }
{
    let count = piece.words.len();
    0 < count && count <= 10 && (piece.last || count == 10)
}
