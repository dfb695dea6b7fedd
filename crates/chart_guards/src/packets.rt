ghost use Rattle.std.specs.Prelude.{◌≡◌, false, [], ◌∷◌, Some, None};
ghost use Rattle.chart_guards.specs.Charts.{answer, layout, message, packet, second_answer, spot, with_alive};
ghost use Rattle.chart_drawing.specs.Packets.{packet_shapes};
ghost use Rattle.chart_drawing.specs.Ways.{begun_at, way_by, ways_by};
ghost use Rattle.svg_text.specs.declared.drawing.Shape.TheVariants.{Circle, Line};
ghost use Rattle.svg_text.specs.declared.looks.Look.TheVariants as look;
ghost use Rattle.trace_lines.specs.declared.finding.Fate.TheVariants as fate;
ghost use Rattle.trace_lines.specs.declared.finding.Finding.TheVariants as finding;
ghost use Rattle.trace_lines.specs.declared.finding.PacketSort.TheVariants as sort;

/// A message begins where it is sent, and an acknowledgement where its piece comes, also if that came before.
pub fn ways_begin_so()
    ensures message { ways_by 6 (finding.Sends 0 1 3 None false ∷ []) ≡ message ∷ [] }
    ensures acknowledgement { ways_by 7 (finding.Packet (packet 0 1 (sort.Piece 1)) fate.Came None ∷ []) ≡ answer ∷ [] }
    ensures again { way_by 7 (finding.Packet (packet 0 1 (sort.LastPiece 1)) fate.CameAgain None) ≡ Some answer }
    ensures lost { way_by 7 (finding.Packet (packet 0 1 (sort.LastPiece 1)) fate.Lost None) ≡ None }
    ensures acknowledged { way_by 7 (finding.Packet (packet 0 1 (sort.Acknowledgement 1)) fate.Came None) ≡ None }
{}

/// A piece goes with its message, and an acknowledgement from where its piece last came. What nobody is told to have
/// sent goes with none.
pub fn packets_go_so()
    ensures first { begun_at (packet 0 1 (sort.Piece 1)) (answer ∷ message ∷ []) ≡ Some 6 }
    ensures last { begun_at (packet 0 1 (sort.LastPiece 3)) (message ∷ []) ≡ Some 6 }
    ensures acknowledgement { begun_at (packet 1 0 (sort.Acknowledgement 1)) (message ∷ answer ∷ []) ≡ Some 7 }
    ensures again { begun_at (packet 1 0 (sort.Acknowledgement 1)) (answer ∷ second_answer ∷ message ∷ []) ≡ Some 9 }
    ensures later { begun_at (packet 0 1 (sort.Piece 4)) (message ∷ []) ≡ None }
    ensures back { begun_at (packet 1 0 (sort.Piece 1)) (message ∷ answer ∷ []) ≡ None }
{}

/// A message is a line from the event that sent it to the one that delivers it, and what is lost ends in a cross
/// between the lanes.
pub fn packets_are_drawn_so()
    ensures comes { packet_shapes layout (message ∷ []) 9 (packet 0 1 (sort.LastPiece 3)) fate.Came
        ≡ Line look.Message (spot 137 80) (spot 239 122) ∷ [] }
    ensures piece { packet_shapes layout (message ∷ []) 7 (packet 0 1 (sort.Piece 1)) fate.Came
        ≡ Line look.Thin (spot 137 80) (spot 239 94) ∷ [] }
    ensures again { packet_shapes layout (message ∷ []) 9 (packet 0 1 (sort.LastPiece 3)) fate.CameAgain
        ≡ Line look.Thin (spot 137 80) (spot 239 122) ∷ [] }
    ensures lost { packet_shapes layout (message ∷ []) 9 (packet 0 1 (sort.LastPiece 3)) fate.Lost
        ≡ Line look.Lost (spot 137 80) (spot 206 122) ∷ Line look.Stroke (spot 202 118) (spot 210 126)
        ∷ Line look.Stroke (spot 202 126) (spot 210 118) ∷ [] }
    ensures over_a_lane { packet_shapes layout [] 9 (packet 16 0 (sort.LastPiece 1)) fate.Lost
        ≡ Line look.Lost (spot 355 122) (spot 206 122) ∷ Line look.Stroke (spot 202 118) (spot 210 126)
        ∷ Line look.Stroke (spot 202 126) (spot 210 118) ∷ [] }
    ensures dropped { packet_shapes layout [] 9 (packet 16 1 (sort.LastPiece 1)) fate.Dropped
        ≡ Line look.Lost (spot 355 122) (spot 246 122) ∷ Line look.Stroke (spot 242 118) (spot 250 126)
        ∷ Line look.Stroke (spot 242 126) (spot 250 118) ∷ [] }
    ensures repeated { packet_shapes layout (message ∷ []) 9 (packet 0 1 (sort.LastPiece 3)) fate.Repeated
        ≡ Circle look.Dot (spot 130 122) 2 ∷ [] }
    ensures alive { packet_shapes layout [] 9 (packet 0 1 sort.Alive) fate.Came ≡ [] }
    ensures asked_for { packet_shapes with_alive (message ∷ []) 9 (packet 0 1 sort.Alive) fate.Came
        ≡ Line look.Alive (spot 137 122) (spot 239 122) ∷ [] }
{}
