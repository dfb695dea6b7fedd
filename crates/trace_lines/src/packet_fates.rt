ghost use Rattle.std.specs.Prelude.{◌≡◌, ◌++◌, OnOk};
ghost use Rattle.trace_lines.specs.PacketFates.{fate_text, nodes_text, packet_text, sort_text};

use crate::finding::{Fate, PacketSight, PacketSort};
use crate::names::put_numbered;
use gd_words::{List, NoMemory};
use text_pieces::put;

/// Puts a packet with its fate behind the text.
pub(crate) fn put_packet(
    text: &mut List<u8>,
    packet: PacketSight,
    fate: Fate,
) -> Result<(), NoMemory>
    ensures { OnOk result (text.new ≡ text.old ++ packet_text packet fate) }
{
    put_sort(text, packet.sort)?;
    put_nodes(text, packet.sender, packet.receiver)?;
    put(text, fate_text(fate))
}

fn put_sort(text: &mut List<u8>, sort: PacketSort) -> Result<(), NoMemory>
    ensures { OnOk result (text.new ≡ text.old ++ sort_text sort) }
{
    match sort {
        PacketSort::Alive => put(text, b"an alive packet"),
        PacketSort::Piece(number) => put_numbered(text, b"piece ", u64::from(number), b""),
        PacketSort::LastPiece(number) => {
            put_numbered(text, b"last piece ", u64::from(number), b"")
        }
        PacketSort::Acknowledgement(number) => {
            put_numbered(text, b"acknowledgement ", u64::from(number), b"")
        }
    }
}

/// Puts from which node a packet goes to which behind the text.
pub(crate) fn put_nodes(text: &mut List<u8>, sender: u8, receiver: u8) -> Result<(), NoMemory>
    ensures { OnOk result (text.new ≡ text.old ++ nodes_text sender receiver) }
{
    put_numbered(text, b" from ", u64::from(sender), b"")?;
    put_numbered(text, b" for ", u64::from(receiver), b"")
}

fn fate_text(fate: Fate) -> &'static [u8]
    ensures { result.now ≡ fate_text fate }
{
    match fate {
        Fate::Came => b" comes",
        Fate::CameAgain => b" comes again",
        Fate::Dropped => b" is dropped, since its receiver has stopped",
        Fate::Refused => b" is dropped, since its receiver has marked its sender",
        Fate::Old => b" is dropped, since its sender or its receiver was loaded again",
        Fate::Lost => b" is lost",
        Fate::Repeated => b" goes once more over its bus",
    }
}
