ghost use Rattle.std.specs.Prelude.{[], ◌∷◌, codes};
ghost use Rattle.deck_guards.specs.Texts.{SpellNone, with_a_disc, with_blocks, with_events};

/// No name is declared twice, as a process or as a terminal, in either case.
pub fn a_name_is_declared_once()
    ensures processes { SpellNone (with_blocks (codes "disc $D 0 1 8" ∷ codes "disc $d 1 2 8" ∷ [])) }
    ensures terminals { SpellNone (with_blocks
        (codes "disc $D 0 1 8" ∷ codes "terminal $T $D" ∷ codes "terminal $T $D" ∷ [])) }
    ensures both { SpellNone (with_blocks (codes "terminal $D $D" ∷ codes "disc $D 0 1 8" ∷ [])) }
{}

/// What is named has to be there: the process that a terminal asks, and what an event is of.
pub fn what_is_named_is_there()
    ensures target { SpellNone (with_blocks (codes "terminal $T $D" ∷ [])) }
    ensures own_terminal { SpellNone (with_blocks (codes "terminal $T $T" ∷ [])) }
    ensures run { SpellNone (with_events (codes "run $D" ∷ [])) }
    ensures run_often { SpellNone (with_events (codes "run $D 2" ∷ [])) }
    ensures enter { SpellNone (with_events (codes "enter $T" ∷ [])) }
    ensures drive { SpellNone (with_events (codes "break $M 0" ∷ [])) }
{}

/// Drives are those of a mirrored disc, and no other disc has them.
pub fn drives_are_of_a_mirror()
    ensures breaks { SpellNone (with_a_disc (codes "break $D 0" ∷ [])) }
    ensures revives { SpellNone (with_a_disc (codes "revive $D 0" ∷ [])) }
    ensures copies { SpellNone (with_a_disc (codes "copy $D 0" ∷ [])) }
    ensures copies_often { SpellNone (with_a_disc (codes "copy $D 0 2" ∷ [])) }
{}
