ghost use Rattle.std.specs.Prelude.{◌≡◌, pos, negsuc, true, false, [], ◌∷◌, replicate, Some, None};
ghost use Rattle.packet_words.specs.declared.packet.PacketKind.TheVariants as kind;
ghost use Rattle.packet_words.specs.Layout.{words_of, is_packet};
ghost use Rattle.packet_words.specs.Pieces.{pieces, piece_at, words_with_piece, message_with_piece};
ghost use Rattle.bus_model.specs.Packets.{sent, has_room};
ghost use Rattle.node_guards.specs.Packets.{alive, packet_of, request_piece, message_of};

/// The words of an alive packet from 1 to 2, of a piece, and of an acknowledgement whose number needs two words.
pub fn packets_have_these_words()
    ensures alive { words_of (alive 1 2) ≡ pos 34 ∷ replicate 15 (pos 0) }
    ensures piece { words_of request_piece ≡ pos 513 ∷ pos 1 ∷ pos 0 ∷ pos 0 ∷ pos 1 ∷ pos 23 ∷ pos 1 ∷ pos 1 ∷ pos 0
        ∷ pos 0 ∷ pos 1 ∷ pos 1 ∷ pos 5 ∷ pos 0 ∷ pos 0 ∷ pos 0 ∷ [] }
    ensures acknowledgement { words_of (packet_of 2 0 (kind.Acknowledgement 131071))
        ≡ pos 64 ∷ pos 2 ∷ pos 0 ∷ pos 1 ∷ negsuc 0 ∷ pos 0 ∷ replicate 10 (pos 0) }
{}

/// Nodes are 0 to 16, numbers are from 1, and a piece has ten words unless it is the last.
pub fn packets_keep_their_ranges()
    ensures node { is_packet (alive 17 2) ≡ false }
    ensures greatest { is_packet (alive 16 16) ≡ true }
    ensures number { is_packet (packet_of 0 1 (kind.Acknowledgement 0)) ≡ false }
    ensures no_words { is_packet (packet_of 0 1 (kind.Piece 1 (record { last = true; words = [] }))) ≡ false }
    ensures nine { is_packet (packet_of 0 1 (kind.Piece 1 (record { last = false; words = message_of 9 }))) ≡ false }
    ensures last_nine { is_packet (packet_of 0 1 (kind.Piece 1 (record { last = true; words = message_of 9 }))) ≡ true }
    ensures eleven { is_packet (packet_of 0 1 (kind.Piece 1 (record { last = true; words = message_of 11 }))) ≡ false }
{}

/// A message of ten words is one piece, one of eleven two, of which the second has one word.
pub fn messages_are_cut_at_ten()
    ensures ten { pieces (message_of 10) ≡ 1 }
    ensures eleven { pieces (message_of 11) ≡ 2 }
    ensures only { piece_at 0 (message_of 10) ≡ Some (record { last = true; words = message_of 10 }) }
    ensures first { piece_at 0 (message_of 11) ≡ Some (record { last = false; words = message_of 10 }) }
    ensures second { piece_at 1 (message_of 11) ≡ Some (record { last = true; words = message_of 1 }) }
    ensures past { piece_at 2 (message_of 11) ≡ None }
{}

/// Pieces are joined in order, and a last one ends its message.
pub fn pieces_are_joined()
    ensures goes_on { words_with_piece (record { last = false; words = pos 2 ∷ [] }) (pos 1 ∷ []) ≡ pos 1 ∷ pos 2 ∷ [] }
    ensures not_yet { message_with_piece (record { last = false; words = pos 2 ∷ [] }) (pos 1 ∷ []) ≡ None }
    ensures whole { message_with_piece (record { last = true; words = pos 2 ∷ [] }) (pos 1 ∷ [])
        ≡ Some (pos 1 ∷ pos 2 ∷ []) }
    ensures next_begins { words_with_piece (record { last = true; words = pos 2 ∷ [] }) (pos 1 ∷ []) ≡ [] }
{}

/// A bus with 4,095 packets has room for one more, and one with 4,096 has none.
pub fn a_bus_has_its_room()
    ensures one_more { has_room (replicate 4095 (alive 0 1)) ≡ true }
    ensures full { has_room (replicate 4096 (alive 0 1)) ≡ false }
    ensures at_the_end { sent (alive 1 0) (alive 0 1 ∷ []) ≡ alive 0 1 ∷ alive 1 0 ∷ [] }
{}
