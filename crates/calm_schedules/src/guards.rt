ghost use Rattle.std.specs.Prelude.{true, false, [], ◌∷◌, ◌++◌};
ghost use Rattle.schedule.specs.declared.bus_name.BusName.TheVariants as bus;
ghost use Rattle.schedule.specs.declared.event.DriveChange.TheVariants.{Break};
ghost use Rattle.schedule.specs.declared.event.Event.TheVariants.{Deliver, Drive, Enter, Fail, Lose, Reload, Repeat};
ghost use Rattle.schedule.specs.declared.event.Event.TheVariants.{Run, Tick};
ghost use Rattle.schedule.specs.declared.line.Line.TheVariants.{Drain, Many, Mix, Mute, One, Until};
ghost use Rattle.calm_schedules.specs.Calm.{IsCalm};
ghost use Rattle.calm_schedules.specs.Examples.{before_rounds, with_a_stop, without_a_stop};

/// Rounds and one stop are calm. The stop may be that of the words, but then none of the lines stops one. Two stops are
/// one too many, even if they name one processor.
pub fn one_stop_is_calm()
    ensures line { IsCalm with_a_stop false }
    ensures words { IsCalm without_a_stop true }
    ensures none { IsCalm without_a_stop false }
    ensures both { IsCalm with_a_stop true → ⊥ }
    ensures two { IsCalm (with_a_stop ++ One (Fail 0) ∷ []) false → ⊥ }
    ensures again { IsCalm (with_a_stop ++ One (Fail 1) ∷ []) false → ⊥ }
{}

/// Each kind of rounds by itself is calm, and so are a stop alone and no line at all.
pub fn each_calm_line_is_calm_alone()
    ensures drain { IsCalm (Drain 0 ∷ []) true }
    ensures writes { IsCalm (Until true 1 4000 ∷ []) true }
    ensures replies { IsCalm (Until false 0 0 ∷ []) true }
    ensures stop { IsCalm (One (Fail 0) ∷ []) false }
    ensures nothing { IsCalm [] true }
{}

/// No other line is calm, even if it is asked for no round or no event: one of mixed rounds, one that mutes a node, and
/// events that the line asks for, once or many times.
pub fn other_lines_are_not_calm()
    ensures mixed { IsCalm (before_rounds (Mix 7 200)) false → ⊥ }
    ensures muted { IsCalm (before_rounds (Mute 1 40)) false → ⊥ }
    ensures no_round { IsCalm (before_rounds (Mute 1 0)) false → ⊥ }
    ensures entry { IsCalm (before_rounds (One (Enter 0))) false → ⊥ }
    ensures step { IsCalm (before_rounds (One (Run 0))) false → ⊥ }
    ensures delivery { IsCalm (before_rounds (One (Deliver bus.X 0))) false → ⊥ }
    ensures loss { IsCalm (before_rounds (One (Lose bus.X 0))) false → ⊥ }
    ensures repeated { IsCalm (before_rounds (One (Repeat bus.Y 0))) false → ⊥ }
    ensures tick { IsCalm (before_rounds (One (Tick 0))) false → ⊥ }
    ensures many { IsCalm (before_rounds (Many (Run 0) 3)) false → ⊥ }
    ensures no_event { IsCalm (before_rounds (Many (Tick 0) 0)) false → ⊥ }
    ensures many_stops { IsCalm (before_rounds (Many (Fail 0) 1)) false → ⊥ }
    ensures loaded { IsCalm (before_rounds (One (Reload 0))) false → ⊥ }
    ensures drive { IsCalm (before_rounds (One (Drive (record { process = 0; drive = 0; change = Break })))) false → ⊥ }
{}
