ghost use Rattle.std.specs.Prelude.{◌≡◌, true, false, [], ◌∷◌, map, None, Some};
ghost use Rattle.chart_guards.specs.Charts.{copy, layout, pair, spot};
ghost use Rattle.chart_drawing.specs.Standings.{acting_in, after_all, copy_bar};
ghost use Rattle.svg_text.specs.declared.drawing.Shape.TheVariants.{Bar};
ghost use Rattle.svg_text.specs.declared.looks.Look.TheVariants as look;
ghost use Rattle.trace_lines.specs.declared.finding.Finding.TheVariants as finding;

/// A copy is gone once its processor stops, and the other one acts once it takes over.
pub fn copies_change_so()
    ensures stops { map (after_all (finding.Stops 0 ∷ [])) pair ≡ copy 0 true true ∷ copy 1 false false ∷ [] }
    ensures takes_over { map (after_all (finding.Marks 1 0 ∷ finding.TakesOver 0 1 1 None ∷ [])) pair
        ≡ copy 0 true false ∷ copy 1 true false ∷ [] }
    ensures of_another { map (after_all (finding.TakesOver 1 1 1 None ∷ [])) pair ≡ pair }
    ensures in_turn { map (after_all (finding.Stops 0 ∷ finding.TakesOver 0 1 1 None ∷ [])) pair
        ≡ copy 0 true true ∷ copy 1 true false ∷ [] }
{}

/// The copy that acts isn't gone.
pub fn a_copy_acts_so()
    ensures first { acting_in 0 pair ≡ Some 0 }
    ensures second { acting_in 0 (copy 0 true true ∷ copy 1 true false ∷ []) ≡ Some 1 }
    ensures none { acting_in 0 (copy 0 true true ∷ copy 1 false false ∷ []) ≡ None }
    ensures of_another { acting_in 1 pair ≡ None }
{}

/// A copy that acts is wider than one that watches, and one that is gone is a point.
pub fn copies_are_drawn_so()
    ensures acts { copy_bar layout 5 (copy 0 true false) ≡ Bar look.Acting (spot 140 59) 8 14 }
    ensures watches { copy_bar layout 5 (copy 1 false false) ≡ Bar look.Watching (spot 258 59) 4 14 }
    ensures gone { copy_bar layout 5 (copy 0 true true) ≡ Bar look.Gone (spot 143 65) 2 2 }
{}
