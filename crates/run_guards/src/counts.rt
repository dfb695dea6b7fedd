ghost use Rattle.std.specs.Prelude.{◌≡◌, [], ◌∷◌, List, ℤ, ℕ, true, false, Some, None};
ghost use Rattle.schedule.specs.declared.event.Event.TheVariants.{Enter, Fail, Run};
ghost use Rattle.schedule.specs.declared.line.Line.TheVariants.{One};
ghost use Rattle.player.specs.declared.player.Player.{Player};
ghost use Rattle.tal_tree.specs.declared.act.Shown.TheVariants.{Reply, Write};
ghost use Rattle.world_semantics.specs.Examples.{bank_site, disc_site};
ghost use Rattle.message_wires.specs.Idle.{is_idle};
ghost use Rattle.message_wires.specs.Play.{MachineState};
ghost use Rattle.message_wires.specs.machine_states.specs.States.{SecondStop};
ghost use Rattle.message_wires.specs.Wires.{Sent};
ghost use Rattle.schedule_runs.specs.Rules.{pair_rules};
ghost use Rattle.schedule_runs.specs.Runs.{counts_of, course_on, sizes_of};
ghost use Rattle.schedule_runs.specs.schedule_loop.specs.Ends.{RunsOutBy, RunsToHarmBy};
ghost use Rattle.schedule_runs.specs.schedule_loop.specs.Rules.{sight_of};
ghost use Rattle.run_guards.specs.Asked.{showing, with_bus};
ghost use Rattle.run_guards.specs.Played.{both_stop, disc_after, skipped_first, stop_of_first};

/// What is counted before an event, wherever a line stands: the packets, which are all on bus X and none an alive one;
/// the writes and the replies that were shown; and whether the machine is idle.
pub fn what_is_there_is_counted()
    ensures anywhere { (s : MachineState) (player : Player) → sight_of pair_rules s player ≡ counts_of s }
    ensures packets { (s : MachineState) (a b : Sent)
        → ((counts_of (with_bus (a ∷ b ∷ []) s)).x ≡ 2) × ((counts_of (with_bus (a ∷ b ∷ []) s)).y ≡ 0) }
    ensures alive { (s : MachineState) → (counts_of s).alive ≡ false }
    ensures shown { (s : MachineState) (words : List ℤ)
        → ((counts_of (showing (Reply 0 2 words ∷ Write 0 3 words ∷ Reply 0 1 words ∷ []) s)).writes ≡ 1)
        × ((counts_of (showing (Reply 0 2 words ∷ Write 0 3 words ∷ Reply 0 1 words ∷ []) s)).replies ≡ 2) }
    ensures idle { (s : MachineState) → (counts_of s).idle ≡ is_idle s }
    ensures sizes { sizes_of bank_site ≡ record { processors = 4; processes = 2; terminals = 1 } }
{}

/// An event that is skipped counts as any other: the stop before the event that one precedes comes after it, and not
/// before.
pub fn a_skipped_event_counts()
    ensures { RunsOutBy pair_rules (course_on disc_site skipped_first stop_of_first) (Run 0 ∷ Fail 0 ∷ Enter 0 ∷ [])
        (disc_after (Run 0 ∷ Fail 0 ∷ Enter 0 ∷ [])) }
{}

/// A run ends before the event that would stop a second processor.
pub fn a_run_ends_before_a_second_stop()
    ensures { RunsToHarmBy pair_rules (course_on disc_site both_stop None) (Fail 1 ∷ []) (disc_after (Fail 1 ∷ []))
        (SecondStop 0) }
{}
