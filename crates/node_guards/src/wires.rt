ghost use Rattle.std.specs.Prelude.{◌≡◌, [], ◌∷◌, Some, None};
ghost use Rattle.schedule.specs.declared.bus_name.BusName.TheVariants.{X, Y};
ghost use Rattle.message_layout.specs.Messages.{Declaring};
ghost use Rattle.packet_wires.specs.Nodes.{nodes_at_boot};
ghost use Rattle.packet_wires.specs.Wires.{at_end, sends};
ghost use Rattle.event_parts.specs.Parts.{carried_out, completed_by, wires_after_delivery, wires_after_repeat};
ghost use Rattle.node.specs.Calls.{alive_address, arrive_by, both_go};
ghost use Rattle.node_guards.specs.Nodes.{only_piece, receipt, wires_with};
ghost use Rattle.node_guards.specs.Packets.{alive, message_of};

/// A packet that is delivered leaves its bus, and its answer goes behind the others there.
pub fn a_delivered_packet_is_answered()
    ensures over_x { (wires_after_delivery X 0 (Some (only_piece 0 1))
        (wires_with (only_piece 0 1 ∷ alive 2 0 ∷ []) [])).x
        ≡ alive 2 0 ∷ receipt 1 0 ∷ [] }
    ensures over_y { (wires_after_delivery Y 1 (Some (only_piece 0 1))
        (wires_with [] (alive 2 0 ∷ only_piece 0 1 ∷ []))).y
        ≡ alive 2 0 ∷ receipt 1 0 ∷ [] }
    ensures alive { (wires_after_delivery X 0 (Some (alive 1 0)) (wires_with (alive 1 0 ∷ []) [])).x ≡ [] }
    ensures nothing { wires_after_delivery X 1 None (wires_with (alive 1 0 ∷ []) []) ≡ wires_with (alive 1 0 ∷ []) [] }
{}

/// A message is whole with its last piece, once.
pub fn a_message_is_whole_once()
    ensures first { completed_by (Some (only_piece 0 1)) (nodes_at_boot 3) ≡ Some (message_of 1) }
    ensures again { completed_by (Some (only_piece 0 1))
        (wires_after_delivery X 0 (Some (only_piece 0 1)) (wires_with (only_piece 0 1 ∷ []) [])).nodes ≡ None }
    ensures alive { completed_by (Some (alive 0 1)) (nodes_at_boot 3) ≡ None }
    ensures nothing { completed_by None (nodes_at_boot 3) ≡ None }
{}

/// A packet that is repeated goes once more over its bus, behind the others.
pub fn a_repeated_packet_stands_twice()
    ensures there { wires_after_repeat Y (Some (alive 0 1)) (wires_with [] (alive 0 1 ∷ alive 1 0 ∷ []))
        ≡ wires_with [] (alive 0 1 ∷ alive 1 0 ∷ alive 0 1 ∷ []) }
    ensures nothing { wires_after_repeat X None (wires_with [] (alive 0 1 ∷ [])) ≡ wires_with [] (alive 0 1 ∷ []) }
{}

/// An alive packet is told by its receiver and its sender; it goes over both buses, an answer over the one that is
/// named, and a message over bus X.
pub fn packets_take_these_buses()
    ensures address { alive_address (Some (alive 1 0)) ≡ Some (0, 1) }
    ensures piece { alive_address (Some (only_piece 1 0)) ≡ None }
    ensures both { carried_out (both_go (Some (alive 1 0))) (wires_with [] []) ≡ wires_with (alive 1 0 ∷ [])
        (alive 1 0 ∷ []) }
    ensures answer { (carried_out (at_end 1 0 (arrive_by Y (only_piece 0 1))) (wires_with [] [])).y
        ≡ receipt 1 0 ∷ [] }
    ensures message { (carried_out (sends 0 1 (Declaring 2)) (wires_with (alive 2 0 ∷ []) [])).y ≡ [] }
{}
