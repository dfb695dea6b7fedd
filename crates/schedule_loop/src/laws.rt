//! What a schedule plays where what is counted doesn't depend on where its line stands.
ghost use Rattle.std.specs.Prelude.{◌≡◌, List, Option};
ghost use Rattle.schedule.specs.declared.event.Counts.{Counts};
ghost use Rattle.schedule.specs.declared.event.Event.{Event};
ghost use Rattle.schedule.specs.declared.line.Line.{Line};
ghost use Rattle.player.specs.declared.standing.Sizes.{Sizes};
ghost use Rattle.player.specs.declared.stop.ProcessorStop.{ProcessorStop};
ghost use Rattle.agendas.specs.Agendas.{Agenda, PlaysOn};
ghost use Rattle.machine_states.specs.States.{State};
ghost use Rattle.schedule_loop.specs.Rules.{IsPlayBy, PlaysBy, sight_of};

use crate::machine::ScheduleMachine;

/// Where what a machine counts is the same wherever a line stands, the runs of a schedule on it are those of `agendas`.
pub fn counts_of_states_give_the_same_runs<M: ScheduleMachine>()
    ensures there { (counts : State M.Wires → Counts) → sight_of M.rules ≡ (λ one player. counts one) → (sizes : Sizes)
        (start : State M.Wires) (lines : List Line) (stop : Option ProcessorStop) (events : List Event)
        (agenda : Agenda) (s : State M.Wires) → PlaysBy M.rules sizes start lines stop events agenda s
        → PlaysOn sizes counts (IsPlayBy M.rules) start lines stop events agenda s }
    ensures back { (counts : State M.Wires → Counts) → sight_of M.rules ≡ (λ one player. counts one) → (sizes : Sizes)
        (start : State M.Wires) (lines : List Line) (stop : Option ProcessorStop) (events : List Event)
        (agenda : Agenda) (s : State M.Wires)
        → PlaysOn sizes counts (IsPlayBy M.rules) start lines stop events agenda s
        → PlaysBy M.rules sizes start lines stop events agenda s }
{}
