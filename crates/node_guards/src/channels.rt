ghost use Rattle.std.specs.Prelude.{◌≡◌, true, false, Some, None};
ghost use Rattle.std.specs.Option.{option_map};
ghost use Rattle.schedule.specs.declared.bus_name.BusName.TheVariants.{X, Y};
ghost use Rattle.packet_words.specs.declared.packet.PacketKind.TheVariants as kind;
ghost use Rattle.link_control.specs.Ends.{after_down, after_packet, after_push, after_tick, alive_of, handed_by_packet};
ghost use Rattle.link_control.specs.Ends.{end_after_reload, is_current, is_empty, new_end, sent_by_packet};
ghost use Rattle.link_control.specs.Ends.{sent_by_push, sent_by_tick};
ghost use Rattle.node_guards.specs.Channels.{acknowledgement, begun, fresh, full_piece, last_piece};
ghost use Rattle.node_guards.specs.Packets.{message_of, packet_of};

/// The first piece of a message goes at once, the next one when it is acknowledged, and another message after them.
pub fn pieces_go_one_by_one()
    ensures first { sent_by_push (message_of 11) fresh
        ≡ Some (packet_of 1 2 (kind.Piece 1 (record { last = false; words = message_of 10 }))) }
    ensures next { sent_by_packet (acknowledgement 1) begun
        ≡ Some (packet_of 1 2 (kind.Piece 2 (record { last = true; words = message_of 1 }))) }
    ensures ahead { sent_by_packet (acknowledgement 2) begun ≡ None }
    ensures again { sent_by_packet (acknowledgement 1) (after_packet (acknowledgement 1) begun) ≡ None }
    ensures waits { sent_by_push (message_of 2) begun ≡ None }
    ensures other { sent_by_packet (acknowledgement 2)
        (after_packet (acknowledgement 1) (after_push (message_of 2) begun))
        ≡ Some (packet_of 1 2 (kind.Piece 3 (record { last = true; words = message_of 2 }))) }
    ensures goes_on { is_empty (after_packet (acknowledgement 1) begun) ≡ false }
    ensures done { is_empty (after_packet (acknowledgement 2) (after_packet (acknowledgement 1) begun)) ≡ true }
{}

/// What is outstanding at two ticks is sent again, over bus Y, X and so on.
pub fn a_piece_is_sent_again_over_either_bus()
    ensures nothing { sent_by_tick fresh ≡ None }
    ensures first { sent_by_tick begun ≡ None }
    ensures second { option_map (λ resent. resent.bus) (sent_by_tick (after_tick begun)) ≡ Some Y }
    ensures third { option_map (λ resent. resent.bus) (sent_by_tick (after_tick (after_tick begun))) ≡ Some X }
    ensures fourth { option_map (λ resent. resent.bus) (sent_by_tick (after_tick (after_tick (after_tick begun))))
        ≡ Some Y }
    ensures next { sent_by_tick (after_packet (acknowledgement 1) (after_tick begun)) ≡ None }
{}

/// A piece is kept once and in order, and acknowledged whenever it comes; the last one hands its message over.
pub fn a_piece_is_kept_once()
    ensures ahead { sent_by_packet (full_piece 2) fresh ≡ None }
    ensures first { sent_by_packet (full_piece 1) fresh ≡ Some (packet_of 1 2 (kind.Acknowledgement 1)) }
    ensures again { sent_by_packet (full_piece 1) (after_packet (full_piece 1) fresh)
        ≡ Some (packet_of 1 2 (kind.Acknowledgement 1)) }
    ensures in_part { handed_by_packet (full_piece 1) fresh ≡ None }
    ensures whole { handed_by_packet (last_piece 2) (after_packet (full_piece 1) fresh) ≡ Some (message_of 11) }
    ensures once { handed_by_packet (last_piece 2) (after_packet (last_piece 2) (after_packet (full_piece 1) fresh))
        ≡ None }
{}

/// To a node that is marked down nothing goes, and nothing comes from it.
pub fn a_node_that_is_down_is_left_alone()
    ensures push { sent_by_push (message_of 1) (after_down begun) ≡ None }
    ensures tick { sent_by_tick (after_tick (after_down begun)) ≡ None }
    ensures packet { sent_by_packet (full_piece 1) (after_down fresh) ≡ None }
    ensures empty { is_empty (after_down begun) ≡ true }
{}

/// A node tells another one that it is alive, unless that one is marked down.
pub fn an_alive_packet_goes_to_who_is_up()
    ensures up { alive_of fresh ≡ Some (packet_of 1 2 kind.Alive) }
    ensures busy { alive_of begun ≡ Some (packet_of 1 2 kind.Alive) }
    ensures down { alive_of (after_down begun) ≡ None }
{}

/// An end of a node that is loaded again, and one with it, is a new one, which bears the next incarnation of that node.
/// Other ends stay as they are.
pub fn an_end_is_new_after_a_reload()
    ensures far { end_after_reload 2 begun ≡ new_end 1 2 (record { sender = 0; receiver = 1 }) }
    ensures near { end_after_reload 1 begun ≡ new_end 1 2 (record { sender = 1; receiver = 0 }) }
    ensures other { end_after_reload 3 begun ≡ begun }
    ensures down { end_after_reload 2 (after_down fresh) ≡ new_end 1 2 (record { sender = 0; receiver = 1 }) }
    ensures both { end_after_reload 1 (end_after_reload 2 begun)
        ≡ new_end 1 2 (record { sender = 1; receiver = 1 }) }
{}

/// A packet is current until its sender or its receiver is loaded again.
pub fn an_old_packet_is_told()
    ensures now { is_current (full_piece 1) fresh ≡ true }
    ensures sender { is_current (full_piece 1) (end_after_reload 2 fresh) ≡ false }
    ensures receiver { is_current (full_piece 1) (end_after_reload 1 fresh) ≡ false }
    ensures other { is_current (full_piece 1) (end_after_reload 3 fresh) ≡ true }
{}
