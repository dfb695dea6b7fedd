ghost use Rattle.std.specs.Prelude.{◌≡◌, [], ◌∷◌, codes};
ghost use Rattle.svg_text.specs.Escapes.{escaped_text, worded};
ghost use Rattle.svg_text.specs.Looks.{rule_text};
ghost use Rattle.svg_text.specs.Shapes.{title_text};
ghost use Rattle.svg_text.specs.declared.looks.Look.TheVariants as look;

/// Each sign means itself, and one that no text may have is a question mark.
pub fn words_are_escaped_so()
    ensures markup { escaped_text (codes "a<b & \"c\">d") ≡ codes "a&lt;b &amp; &quot;c&quot;&gt;d" }
    ensures others { escaped_text (9 ∷ 10 ∷ 7 ∷ 126 ∷ 127 ∷ 195 ∷ []) ≡ 9 ∷ 10 ∷ 63 ∷ 126 ∷ 63 ∷ 63 ∷ [] }
    ensures attribute { worded (codes "class") (codes "a\"b") ≡ codes " class=\"a&quot;b\"" }
    ensures title { title_text (codes "1 run $A") ≡ codes "<title>1 run $A</title>" }
    ensures no_title { title_text [] ≡ [] }
    ensures rule { rule_text look.Dot ≡ codes ".dot{fill:#000}\n" }
{}
