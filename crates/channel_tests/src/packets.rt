use bus_model::Bus;
use packet_words::{Incarnation, Packet, PacketKind, Piece, PieceWords};
use std::test::Fail;

/// A packet's words, where it is within its ranges.
fn words_of(packet: &Packet) -> Option<[i16; 16]> {
    if packet.is_whole() {
        Some(packet.to_words())
    } else {
        None
    }
}

fn packet(sender: u8, receiver: u8, incarnation: (u8, u8), kind: PacketKind) -> Packet {
    let (here, there) = incarnation;
    Packet {
        sender,
        receiver,
        incarnation: Incarnation {
            sender: here,
            receiver: there,
        },
        kind,
    }
}

fn piece(number: u32, last: bool, words: &[i16]) -> PacketKind {
    PacketKind::Piece {
        number,
        piece: Piece {
            last,
            words: PieceWords::first_of(words),
        },
    }
}

#[test]
fn packets_have_their_words(rt: HostRuntime) {
    let ten = [-1, 2, -3, 4, -5, 6, -7, 8, -9, 32_767];
    let rows = [
        (
            packet(1, 2, (0, 0), PacketKind::Alive),
            [34, 0, 0, 0, 0, 0, 0, 0, 0, 0, 0, 0, 0, 0, 0, 0],
        ),
        (
            packet(16, 1, (0, 0), piece(1, true, &[1, 1, 0, 0, 1, 1, 5])),
            [513, 1, 0, 0, 1, 23, 1, 1, 0, 0, 1, 1, 5, 0, 0, 0],
        ),
        (
            packet(0, 16, (127, 127), piece(4_294_967_295, false, &ten)),
            [
                16, 1, 16_383, -1, -1, 10, -1, 2, -3, 4, -5, 6, -7, 8, -9, 32_767,
            ],
        ),
        (
            packet(2, 1, (1, 2), PacketKind::Acknowledgement { number: 65_537 }),
            [65, 2, 130, 1, 1, 0, 0, 0, 0, 0, 0, 0, 0, 0, 0, 0],
        ),
    ];
    for (packet, words) in &rows {
        assert!(rt; words_of(packet) == Some(*words));
        let again = Packet::from_words(words);
        assert!(rt; again.and_then(|p| words_of(&p)) == Some(*words));
    }
    let faulty = [
        packet(17, 1, (0, 0), PacketKind::Alive),
        packet(1, 17, (0, 0), PacketKind::Alive),
        packet(1, 2, (128, 0), PacketKind::Alive),
        packet(1, 2, (0, 0), piece(0, true, &[1])),
        packet(1, 2, (0, 0), piece(1, false, &[1])),
        packet(1, 2, (0, 0), piece(1, true, &[])),
        packet(1, 2, (0, 0), PacketKind::Acknowledgement { number: 0 }),
    ];
    for packet in &faulty {
        assert!(rt; words_of(packet) == None);
    }
}

/// Each word of a packet is changed in turn: what isn't refused has just the changed words.
#[test]
fn changed_words_are_told(rt: HostRuntime) {
    let words = [513, 1, 0, 0, 1, 23, 1, 1, 0, 0, 1, 1, 5, 0, 0, 0];
    let rows = [
        (1, [1, 13, 14, 15].as_slice()),
        (-1, [1, 2, 4, 5, 13, 14, 15].as_slice()),
    ];
    for (change, refused) in rows {
        for place in 0..16 {
            let mut changed: [i16; 16] = words;
            changed[place] = changed[place].wrapping_add(change);
            match Packet::from_words(&changed) {
                None => assert!(rt; refused.contains(&place), "{place}"),
                Some(packet) => {
                    assert!(rt; !refused.contains(&place), "{place}");
                    assert!(rt; words_of(&packet) == Some(changed), "{place}");
                }
            }
        }
    }
}

#[test]
fn a_bus_has_room_for_4096(rt: HostRuntime) -> Result<(), Fail> {
    let mut bus = Bus::new(rt.alloc())?;
    for k in 0..4_096 {
        let kind = PacketKind::Acknowledgement { number: k };
        assert!(rt; bus.send(packet(1, 2, (0, 0), kind)));
    }
    assert!(rt; bus.len() == 4_096);
    assert!(rt; !bus.send(packet(1, 2, (0, 0), PacketKind::Alive)));
    assert!(rt; bus.repeat(0) == Some(false));
    assert!(rt; bus.repeat(4_096) == None);
    assert!(rt; bus.take(4_096).is_none());
    let rows = [(5, 5), (5, 6), (0, 0), (4_092, 4_095)];
    for (position, number) in rows {
        let taken = bus.take(position);
        assert!(rt; packet_number(taken.as_ref()) == Some(number), "{number}");
    }
    assert!(rt; bus.repeat(0) == Some(true));
    assert!(rt; bus.len() == 4_093);
    assert!(rt; packet_number(bus.get(4_092)) == Some(1));
    Ok(())
}

fn packet_number(packet: Option<&Packet>) -> Option<u32> {
    match &packet?.kind {
        PacketKind::Acknowledgement { number } => Some(*number),
        _ => None,
    }
}
