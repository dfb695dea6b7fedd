use gd_words::List;
use link_control::{Arrived, Channel, Resent};
use packet_words::{BusName, Incarnation, Packet, PacketKind, cut};
use std::alloc::AllocError;
use std::test::Fail;

/// What a packet tells, and what happens at an end: such a packet comes, or a tick.
#[derive(Clone, Copy, PartialEq, Eq)]
enum Told {
    Nothing,
    Piece(u32),
    Acknowledgement(u32),
}

fn told_packet(packet: &Option<Packet>) -> Told {
    match packet {
        None => Told::Nothing,
        Some(packet) => match &packet.kind {
            PacketKind::Alive => Told::Nothing,
            PacketKind::Piece { number, piece: _ } => Told::Piece(*number),
            PacketKind::Acknowledgement { number } => Told::Acknowledgement(*number),
        },
    }
}

const FIRST: Incarnation = Incarnation {
    sender: 0,
    receiver: 0,
};

/// The piece of this number of the message, as node 1 sends it to node 2.
fn piece(message: &[i16], number: u32) -> Option<Packet> {
    let piece = cut(message, number.checked_sub(1)?)?;
    Some(Packet {
        sender: 1,
        receiver: 2,
        incarnation: FIRST,
        kind: PacketKind::Piece { number, piece },
    })
}

fn acknowledgement(number: u32) -> Packet {
    Packet {
        sender: 2,
        receiver: 1,
        incarnation: FIRST,
        kind: PacketKind::Acknowledgement { number },
    }
}

fn arrive(channel: &mut Channel, packet: Option<Packet>) -> Result<(Told, usize), Fail> {
    let Some(packet) = packet else {
        return Ok((Told::Nothing, 0));
    };
    if !channel.has_numbers_left() {
        return Err(Fail::from(AllocError));
    }
    let Arrived { send, delivered } = channel.on_packet(&packet)?;
    let words = delivered.map_or(0, |message| message.len());
    Ok((told_packet(&send), words))
}

#[test]
fn a_message_comes_once(rt: HostRuntime) -> Result<(), Fail> {
    let alloc = rt.alloc();
    let mut words = List::new(alloc);
    for k in 0..25 {
        words.push(k)?;
    }
    let mut message = List::new(alloc);
    message.extend_from_slice(words.as_slice())?;
    let mut sender = Channel::new(alloc, 1, 2, FIRST);
    let mut receiver = Channel::new(alloc, 2, 1, FIRST);
    if !sender.has_numbers_left() || message.len() == 0 {
        return Err(Fail::from(AllocError));
    }
    let first = sender.push(message)?;
    assert!(rt; told_packet(&first) == Told::Piece(1));
    for bus in [None, Some(BusName::Y), Some(BusName::X), Some(BusName::Y)] {
        let resent = sender.on_tick();
        assert!(rt; resent.map(|again| again.bus) == bus);
    }
    let rows = [
        (Told::Piece(2), Told::Nothing, 0),
        (Told::Piece(1), Told::Acknowledgement(1), 0),
        (Told::Piece(1), Told::Acknowledgement(1), 0),
        (Told::Acknowledgement(1), Told::Piece(2), 0),
        (Told::Acknowledgement(1), Told::Nothing, 0),
        (Told::Acknowledgement(3), Told::Nothing, 0),
        (Told::Piece(2), Told::Acknowledgement(2), 0),
        (Told::Piece(1), Told::Acknowledgement(1), 0),
        (Told::Acknowledgement(2), Told::Piece(3), 0),
        (Told::Piece(3), Told::Acknowledgement(3), 25),
        (Told::Piece(3), Told::Acknowledgement(3), 0),
        (Told::Acknowledgement(3), Told::Nothing, 0),
    ];
    for (comes, sent, handed) in rows {
        assert!(rt; !sender.is_empty());
        let done = match comes {
            Told::Nothing => (Told::Nothing, 0),
            Told::Piece(number) => arrive(&mut receiver, piece(words.as_slice(), number))?,
            Told::Acknowledgement(number) => arrive(&mut sender, Some(acknowledgement(number)))?,
        };
        assert!(rt; done == (sent, handed));
    }
    assert!(rt; sender.is_empty());
    Ok(())
}
