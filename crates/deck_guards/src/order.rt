ghost use Rattle.std.specs.Prelude.{[], ◌∷◌, ◌++◌, codes};
ghost use Rattle.deck_grammar.specs.Spells.{Spells};
ghost use Rattle.deck_guards.specs.Texts.{LinesSpell, SpellNone, asking, asking_lines, bare, with_blocks, with_events};

/// The smallest deck has three lines, and its last line may lack the line feed.
pub fn the_smallest_deck_has_three_lines()
    ensures lines { LinesSpell (codes "processors 2" ∷ codes "schedule" ∷ codes "END" ∷ []) (bare 2 []) }
    ensures cut { Spells (codes "processors 2" ++ 10 ∷ codes "schedule" ++ 10 ∷ codes "END") (bare 2 []) }
{}

/// Remarks, empty lines, spaces at either end and zeros before a number say nothing; names are of either case, and are
/// used before their line.
pub fn a_deck_may_have_remarks()
    ensures { LinesSpell asking_lines asking }
{}

/// The processors come first, `schedule` before the event lines, and END last.
pub fn lines_have_their_order()
    ensures no_line { SpellNone [] }
    ensures no_processors { SpellNone (codes "schedule" ∷ codes "END" ∷ []) }
    ensures no_schedule { SpellNone (codes "processors 2" ∷ codes "END" ∷ []) }
    ensures early_event { SpellNone (with_blocks (codes "drain 1" ∷ [])) }
    ensures late_block { SpellNone (with_events (codes "disc $D 0 1 8" ∷ [])) }
    ensures no_end { SpellNone (codes "processors 2" ∷ codes "schedule" ∷ []) }
    ensures after_end { SpellNone (codes "processors 2" ∷ codes "schedule" ∷ codes "END" ∷ codes "END" ∷ []) }
{}

/// Requests stand right below their terminal.
pub fn requests_follow_their_terminal()
    ensures alone { SpellNone (with_blocks (codes "send 1" ∷ [])) }
    ensures after_a_disc { SpellNone (with_blocks
        (codes "terminal $T $D" ∷ codes "disc $D 0 1 8" ∷ codes "send 1" ∷ [])) }
{}

/// A program ends at the first line that is a point alone, and has to end.
pub fn a_program_has_a_point()
    ensures none { SpellNone (with_blocks (codes "pair $P 0 1" ∷ codes "x" ∷ [])) }
    ensures with_a_space { SpellNone (with_blocks (codes "pair $P 0 1" ∷ codes "x" ∷ codes ". " ∷ [])) }
{}
