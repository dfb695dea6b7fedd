//! Laws of how many events a schedule asks for.
ghost use Rattle.std.specs.Prelude.{◌≤◌, List, Option, length};
ghost use Rattle.schedule.specs.declared.event.Event.{Event};
ghost use Rattle.schedule.specs.declared.line.Line.{Line};
ghost use Rattle.player.specs.declared.player.Player.{Player};
ghost use Rattle.player.specs.declared.standing.Sizes.{Sizes};
ghost use Rattle.player.specs.declared.stop.ProcessorStop.{ProcessorStop};
ghost use Rattle.agendas.specs.Agendas.{Agenda};
ghost use Rattle.schedule_loop.specs.machine_states.specs.States.{State};
ghost use Rattle.schedule_loop.specs.Rules.{PlaysBy, sight_of};
ghost use Rattle.line_lengths.specs.Lengths.{KeepsTo, Room, most_events};

use schedule_loop::ScheduleMachine;

/// Where no state that a schedule reaches has more packets on its buses than there is room for, it asks for no more
/// events than its lines, their rounds and its stop have at most.
pub fn a_schedule_asks_for_so_many_events<M: ScheduleMachine>()
    ensures { (sizes : Sizes) (room : Room) (start : State M.Wires) (lines : List Line) (stop : Option ProcessorStop)
        → ((events : List Event) (agenda : Agenda) (s : State M.Wires)
        → PlaysBy M.rules sizes start lines stop events agenda s
        → (player : Player) → KeepsTo room (sight_of M.rules s player)) → (events : List Event) (agenda : Agenda)
        (s : State M.Wires) → PlaysBy M.rules sizes start lines stop events agenda s
        → length events ≤ most_events sizes room lines stop }
{}
