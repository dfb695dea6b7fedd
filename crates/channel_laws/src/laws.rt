ghost use Rattle.std.specs.Prelude.{◌≡◌, ◌≤◌, ◌<◌, ℕ, ℤ, List, [], ◌∷◌, ◌++◌, length, true};
ghost use Rattle.std.specs.Option.{option_to_list};
ghost use Rattle.gd_words.specs.declared.limits.TheConstants.{MOST_RELOADS, TERMINAL_NODE};
ghost use Rattle.packet_words.specs.declared.packet.Packet.{Packet};
ghost use Rattle.packet_words.specs.declared.piece.Piece.{Piece};
ghost use Rattle.packet_words.specs.Layout.{is_packet};
ghost use Rattle.link_control.specs.Ends.{End, after_push, after_packet, after_tick, after_down, is_empty};
ghost use Rattle.link_control.specs.Ends.{handed_by_packet};
ghost use Rattle.channel_laws.specs.Way.{Way, IsJoint, IsPieceOf, IsReceiptOf, IsOutstanding, IsEnded, IsOneOn};
ghost use Rattle.channel_laws.specs.Way.{way_after_push, way_after_piece, way_after_acknowledgement, way_after_tick};
ghost use Rattle.gd_words.specs.Members.{IsAmong};
ghost use Rattle.channel_laws.specs.Net.{Net, Goes, Leads, IsWhole, Runs, quiet_net, ways_by};
ghost use Rattle.channel_laws.specs.Rounds.{IsRound, IsBroughtOn};

/// Both ends of a way stay together, whatever happens at one of them.
pub fn ends_stay_together()
    ensures push { (message : List ℤ) (w : Way) → 0 < length message → IsJoint w → IsJoint (way_after_push message w) }
    ensures piece { (number : ℕ) (piece : Piece) (w : Way) → IsPieceOf w number piece → IsJoint w
        → IsJoint (way_after_piece number piece w) }
    ensures acknowledgement { (number : ℕ) (w : Way) → IsReceiptOf w number → IsJoint w
        → IsJoint (way_after_acknowledgement number w) }
    ensures tick { (w : Way) → IsJoint w → IsJoint (way_after_tick w) }
{}

/// No call numbers more than one piece or keeps more than one, so numbers are left for as many calls.
pub fn numbers_rise_one_by_one()
    ensures push { (message : List ℤ) (e : End) → IsOneOn e (after_push message e) }
    ensures packet { (p : Packet) (e : End) → IsOneOn e (after_packet p e) }
    ensures tick { (e : End) → IsOneOn e (after_tick e) }
    ensures down { (e : End) → IsOneOn e (after_down e) }
{}

/// A net is whole at its beginning and stays so whatever happens in it, and so it is in each run.
pub fn nets_stay_whole()
    ensures begins { (reloads : ℕ → ℕ) → IsWhole (quiet_net reloads) }
    ensures goes { (n next : Net) → Goes n next → IsWhole n → IsWhole next }
    ensures run { (reloads : ℕ → ℕ) (n : Net) → Leads (quiet_net reloads) n → IsWhole n }
{}

/// In a whole net what was handed over is a front of what was pushed, from each node to each node: whole, in order and
/// once. A packet that comes adds to it just what the end there hands over. Where a node runs and its end with another
/// is empty, all that was pushed there is handed over.
pub fn nets_hand_over_in_order()
    ensures order { (n : Net) (a b : ℕ) → IsWhole n
        → (rest : List (List ℤ)) × ((n.ways a b).pushes ≡ (n.ways a b).out ++ rest) }
    ensures gained { (n : Net) (a b : ℕ) (p : Packet) → IsWhole n → Runs n b a
        → (ways_by b a p.kind n.ways a b).out ≡ (n.ways a b).out ++ option_to_list (handed_by_packet p (n.ends b a)) }
    ensures all { (n : Net) (a b : ℕ) → IsWhole n → Runs n a b → is_empty (n.ends a b) ≡ true
        → (n.ways a b).out ≡ (n.ways a b).pushes }
{}

/// In a whole net each packet in flight between nodes that there may be, reloaded as often as they may be, is within
/// the layout.
pub fn packets_fit_the_layout()
    ensures { (n : Net) (p : Packet) → IsWhole n → IsAmong p n.flight → p.sender ≤ TERMINAL_NODE
        → p.receiver ≤ TERMINAL_NODE → n.reloads p.sender ≤ MOST_RELOADS → n.reloads p.receiver ≤ MOST_RELOADS
        → is_packet p ≡ true }
{}

/// A round from one node to another, of which neither stops or has marked the other down, brings each piece on by one
/// stage.
pub fn a_round_brings_a_piece_on()
    ensures { (n a b : ℕ) (l next : Net) → IsRound a b l next → IsWhole l → Runs l a b → Runs l b a
        → n ≤ (l.ends a b).sending.numbered → IsBroughtOn n a b l next }
{}

/// Four such rounds end a piece that is outstanding.
pub fn four_rounds_end_a_piece()
    ensures { (n a b : ℕ) (l one two three next : Net) → IsWhole l → Runs l a b → Runs l b a
        → IsOutstanding n (l.ends a b).sending
        → IsRound a b l one → IsRound a b one two → IsRound a b two three → IsRound a b three next
        → IsEnded n (next.ends a b).sending }
{}
