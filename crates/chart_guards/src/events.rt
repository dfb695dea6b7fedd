ghost use Rattle.std.specs.Prelude.{◌≡◌, false, [], ◌∷◌, None};
ghost use Rattle.chart_guards.specs.Charts.{layout, pair, spot};
ghost use Rattle.chart_drawing.specs.Groups.{all_found, all_shown};
ghost use Rattle.chart_drawing.specs.Layout.{event_y, lane_x};
ghost use Rattle.process_semantics.specs.declared.point.Point.TheVariants as point;
ghost use Rattle.schedule.specs.declared.bus_name.BusName.TheVariants as bus;
ghost use Rattle.schedule.specs.declared.event.Event.TheVariants as event;
ghost use Rattle.svg_text.specs.declared.drawing.Shape.TheVariants.{Circle, Line, Words};
ghost use Rattle.svg_text.specs.declared.looks.Look.TheVariants as look;
ghost use Rattle.tal_tree.specs.declared.act.Shown.TheVariants.{Reply, Write};
ghost use Rattle.trace_lines.specs.declared.finding.Finding.TheVariants as finding;

/// Lanes are from the left to the right, with that of the terminals last, and events from above to below.
pub fn things_are_there()
    ensures first { lane_x layout 0 ≡ 130 }
    ensures second { lane_x layout 1 ≡ 246 }
    ensures terminals { lane_x layout 16 ≡ 362 }
    ensures before { event_y layout 4 ≡ 52 }
    ensures from { event_y layout 5 ≡ 66 }
    ensures next { event_y layout 6 ≡ 80 }
    ensures last { event_y layout 404 ≡ 5652 }
    ensures behind { event_y layout 405 ≡ 5652 }
{}

/// What an event does is a sign where it does it: a letter, a dot, a cross, or the hold line.
pub fn events_are_drawn_so()
    ensures sends { all_found layout pair [] 5 (event.Run 0) (finding.SendsCheckpoint 1 ∷ [])
        ≡ Circle look.Token (spot 144 66) 6 ∷ Words look.Letter (spot 144 69) (67 ∷ []) ∷ [] }
    ensures applies { all_found layout pair [] 5 (event.Deliver bus.Y 0) (finding.AppliesCheckpoint 0 1 1 ∷ [])
        ≡ Circle look.Token (spot 260 66) 6 ∷ Words look.Letter (spot 260 69) (80 ∷ []) ∷ [] }
    ensures stops { all_found layout pair [] 5 (event.Fail 0) (finding.Stops 0 ∷ [])
        ≡ Line look.Stroke (spot 126 62) (spot 134 70) ∷ Line look.Stroke (spot 126 70) (spot 134 62) ∷ [] }
    ensures pulls { all_found layout pair [] 5 (event.Tick 1) (finding.PullsLine 1 0 ∷ [])
        ≡ Line look.Hold (spot 246 66) (spot 130 66) ∷ [] }
    ensures enters { all_found layout pair [] 5 (event.Enter 0)
        (finding.Enters 1 ∷ finding.Sends 16 0 1 None false ∷ [])
        ≡ Circle look.Token (spot 362 66) 6 ∷ Words look.Letter (spot 362 69) (69 ∷ []) ∷ [] }
    ensures misses { all_found layout pair [] 5 (event.Tick 1) (finding.Misses 1 0 ∷ [])
        ≡ Circle look.Dot (spot 246 66) 2 ∷ [] }
    ensures stands_still { all_found layout pair [] 5 (event.Run 0) (finding.Skipped
        ∷ finding.StandsStill point.Take ∷ []) ≡ [] }
    ensures nobody_acts { all_found layout [] [] 5 (event.Run 0) (finding.PassesCheckpoint ∷ []) ≡ [] }
{}

/// A write is drawn at its process, and a reply at the terminals.
pub fn what_is_shown_is_drawn_so()
    ensures write { all_shown layout pair [] 5 (Write 0 3 [] ∷ [])
        ≡ Circle look.Token (spot 144 66) 6 ∷ Words look.Letter (spot 144 69) (87 ∷ []) ∷ [] }
    ensures reply { all_shown layout pair [] 5 (Reply 0 1 [] ∷ [])
        ≡ Circle look.Token (spot 362 66) 6 ∷ Words look.Letter (spot 362 69) (82 ∷ []) ∷ [] }
{}
