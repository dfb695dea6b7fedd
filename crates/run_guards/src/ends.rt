ghost use Rattle.std.specs.Prelude.{◌≡◌, ◌<◌, ◌+◌, [], ℕ, List, Option, length, map, true, false};
ghost use Rattle.tal_tree.specs.declared.site.Site.{Site};
ghost use Rattle.schedule.specs.declared.event.Event.{Event};
ghost use Rattle.schedule.specs.declared.line.Line.{Line};
ghost use Rattle.player.specs.declared.stop.ProcessorStop.{ProcessorStop};
ghost use Rattle.message_wires.specs.Idle.{is_idle};
ghost use Rattle.message_wires.specs.Play.{MachineState};
ghost use Rattle.message_wires.specs.Wires.{Wires};
ghost use Rattle.message_wires.specs.machine_states.specs.States.{DiscLoss, SecondStop};
ghost use Rattle.schedule_runs.specs.pair_machine.specs.Seen.{closed_state};
ghost use Rattle.world_semantics.specs.Shares.{let_go};
ghost use Rattle.world_semantics.specs.World.{Pair};
ghost use Rattle.schedule_runs.specs.Ends.{IsRunOfPairs};
ghost use Rattle.schedule_runs.specs.Rules.{pair_rules};
ghost use Rattle.schedule_runs.specs.Runs.{course_on};
ghost use Rattle.schedule_runs.specs.declared.ran.Ran.{Ran};
ghost use Rattle.schedule_runs.specs.schedule_loop.specs.Ends.{Course, EndsBy, RunsOutBy, RunsToHarmBy};
ghost use Rattle.schedule_runs.specs.schedule_loop.specs.declared.ran.Ending.TheVariants.{Idle, Cut, Lost, Second};

/// A run that is over asked for the events that it played: where nothing is left to do it ended idle and was closed,
/// and else it was cut. One that ends before a second stop asked for that one too.
pub fn a_run_ends_as_it_says()
    ensures idle { (course : Course Wires) (events : List Event) (s left : MachineState) (asked : ℕ)
        → EndsBy pair_rules course events s left asked Idle
        → RunsOutBy pair_rules course events s × (is_idle s ≡ true) × (left ≡ closed_state s)
        × (asked ≡ length events) }
    ensures cut { (course : Course Wires) (events : List Event) (s left : MachineState) (asked : ℕ)
        → EndsBy pair_rules course events s left asked Cut
        → RunsOutBy pair_rules course events s × (is_idle s ≡ false) × (left ≡ s) × (asked ≡ length events) }
    ensures second { (course : Course Wires) (events : List Event) (s left : MachineState) (asked processor : ℕ)
        → EndsBy pair_rules course events s left asked (Second processor)
        → RunsToHarmBy pair_rules course events s (SecondStop processor) × (left ≡ s) × (asked ≡ length events + 1) }
    ensures lost { (course : Course Wires) (events : List Event) (s left : MachineState) (asked process : ℕ)
        → EndsBy pair_rules course events s left asked (Lost process)
        → RunsToHarmBy pair_rules course events s (DiscLoss process) × (left ≡ s) × (asked ≡ length events + 1) }
{}

/// A run has few events, and its machine is whole.
pub fn a_run_is_short_and_whole()
    ensures { (site : Site) (lines : List Line) (stop : Option ProcessorStop) (ran : Ran) → IsRunOfPairs site lines
        stop ran
        → (events : List Event) × (length events < 4294967295) × (ran.machine.is_broken ≡ false) × (s : MachineState)
        × EndsBy pair_rules (course_on site lines stop) events s ran.machine.state ran.asked ran.ending }
{}

/// Once a run was closed no copy of a process holds an act. All else of the copies stays as it was, and so does what is
/// on the wires.
pub fn a_closed_run_holds_nothing()
    ensures each { (s : MachineState) → (closed_state s).world.processes ≡ map let_go s.world.processes }
    ensures none { (pair : Pair) → ((let_go pair).first.held ≡ []) × ((let_go pair).second.held ≡ []) }
    ensures cores { (pair : Pair) → ((let_go pair).first.core ≡ pair.first.core)
        × ((let_go pair).second.core ≡ pair.second.core) }
    ensures positions { (pair : Pair) → ((let_go pair).first.position ≡ pair.first.position)
        × ((let_go pair).second.position ≡ pair.second.position) }
    ensures wires { (s : MachineState) → (closed_state s).wires ≡ s.wires }
{}
