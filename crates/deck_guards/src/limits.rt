ghost use Rattle.std.specs.Prelude.{[], ◌∷◌, codes};
ghost use Rattle.schedule.specs.declared.event.Event.TheVariants as event;
ghost use Rattle.schedule.specs.declared.line.Line.TheVariants as line;
ghost use Rattle.deck_guards.specs.Texts.{LinesSpell, SpellNone, bare, disc_lines, mirror_lines, mirrored};
ghost use Rattle.deck_guards.specs.Texts.{terminal_lines, with_a_mirror, with_blocks, with_events};

/// There are 2 to 16 processors.
pub fn processors_are_two_to_sixteen()
    ensures one { SpellNone (codes "processors 1" ∷ codes "schedule" ∷ codes "END" ∷ []) }
    ensures most { LinesSpell (codes "processors 16" ∷ codes "schedule" ∷ codes "END" ∷ []) (bare 16 []) }
    ensures more { SpellNone (codes "processors 17" ∷ codes "schedule" ∷ codes "END" ∷ []) }
{}

/// The copies of a process stand in two processors of the site, and a disc has 1 to 64 sectors.
pub fn a_disc_keeps_its_limits()
    ensures same { SpellNone (with_blocks (codes "disc $D 1 1 8" ∷ [])) }
    ensures primary { SpellNone (with_blocks (codes "disc $D 3 1 8" ∷ [])) }
    ensures backup { SpellNone (with_blocks (codes "disc $D 0 3 8" ∷ [])) }
    ensures none { SpellNone (with_blocks (codes "disc $D 0 1 0" ∷ [])) }
    ensures more { SpellNone (with_blocks (codes "disc $D 0 1 65" ∷ [])) }
{}

/// A mirrored disc has the limits of a disc.
pub fn a_mirror_keeps_the_limits_of_a_disc()
    ensures same { SpellNone (with_blocks (codes "mirror $M 1 1 8" ∷ [])) }
    ensures backup { SpellNone (with_blocks (codes "mirror $M 0 3 8" ∷ [])) }
    ensures none { SpellNone (with_blocks (codes "mirror $M 0 1 0" ∷ [])) }
    ensures more { SpellNone (with_blocks (codes "mirror $M 0 1 65" ∷ [])) }
    ensures twice { SpellNone (with_blocks (codes "disc $M 0 1 8" ∷ codes "mirror $M 0 1 8" ∷ [])) }
{}

/// An event of a drive is of the drive 0 or 1, and sectors are copied once or more often.
pub fn a_mirror_has_two_drives()
    ensures both { LinesSpell mirror_lines mirrored }
    ensures third { SpellNone (with_a_mirror (codes "break $M 2" ∷ [])) }
    ensures never { SpellNone (with_a_mirror (codes "copy $M 0 0" ∷ [])) }
    ensures no_drive { SpellNone (with_a_mirror (codes "revive $M" ∷ [])) }
    ensures broken_often { SpellNone (with_a_mirror (codes "break $M 0 1" ∷ [])) }
{}

/// There are at most 16 processes and 16 terminals, and a request has at most 16 words.
pub fn sixteen_are_the_most()
    ensures processes { SpellNone (with_blocks (disc_lines 17)) }
    ensures terminals { SpellNone (with_blocks (codes "disc $D0 0 1 8" ∷ terminal_lines 17)) }
    ensures words { SpellNone (with_blocks (codes "disc $D 0 1 8" ∷ codes "terminal $T $D"
        ∷ codes "send 1 2 3 4 5 6 7 8 9 10 11 12 13 14 15 16 17" ∷ [])) }
{}

/// An event is of a processor of the site, and only a tick is of node 16 too; a process runs once or more often.
pub fn an_event_keeps_its_limits()
    ensures tick { LinesSpell (with_events (codes "tick 2" ∷ codes "tick 16" ∷ []))
        (bare 3 (line.One (event.Tick 2) ∷ line.One (event.Tick 16) ∷ [])) }
    ensures other_tick { SpellNone (with_events (codes "tick 3" ∷ [])) }
    ensures fail { SpellNone (with_events (codes "fail 3" ∷ [])) }
    ensures fail_of_the_terminals { SpellNone (with_events (codes "fail 16" ∷ [])) }
    ensures reload { LinesSpell (with_events (codes "reload 2" ∷ codes "fail 2" ∷ []))
        (bare 3 (line.One (event.Reload 2) ∷ line.One (event.Fail 2) ∷ [])) }
    ensures other_reload { SpellNone (with_events (codes "reload 3" ∷ [])) }
    ensures reload_of_the_terminals { SpellNone (with_events (codes "reload 16" ∷ [])) }
    ensures reload_often { SpellNone (with_events (codes "reload 2 2" ∷ [])) }
    ensures mute { SpellNone (with_events (codes "mute 3 1" ∷ [])) }
    ensures never { SpellNone (codes "processors 3" ∷ codes "disc $D 0 1 8" ∷ codes "schedule" ∷ codes "run $D 0"
        ∷ codes "END" ∷ []) }
{}

/// Lines ask for at most 1,000,000 single events and 100,000 rounds together.
pub fn a_schedule_keeps_its_limits()
    ensures events { SpellNone (codes "processors 3" ∷ codes "disc $D 0 1 8" ∷ codes "schedule"
        ∷ codes "run $D 1000000" ∷ codes "tick 0" ∷ codes "END" ∷ []) }
    ensures rounds { LinesSpell (with_events (codes "drain 99999" ∷ codes "mix 1 1" ∷ []))
        (bare 3 (line.Drain 99999 ∷ line.Mix 1 1 ∷ [])) }
    ensures more_rounds { SpellNone (with_events (codes "drain 99999" ∷ codes "mix 1 1" ∷ codes "mute 0 1" ∷ [])) }
{}
