//! What a schedule plays, told by the machine's own definition.
ghost use Rattle.std.specs.Prelude.{List, Option};
ghost use Rattle.tal_tree.specs.declared.site.Site.{Site};
ghost use Rattle.schedule.specs.declared.event.Event.{Event};
ghost use Rattle.schedule.specs.declared.line.Line.{Line};
ghost use Rattle.player.specs.declared.stop.ProcessorStop.{ProcessorStop};
ghost use Rattle.pair_machine.specs.message_wires.specs.Play.{MachineState};
ghost use Rattle.pair_machine.specs.message_wires.specs.Runs.{IsPlayed};
ghost use Rattle.schedule_loop.specs.Ends.{Plays};
ghost use Rattle.schedule_runs.specs.Rules.{pair_rules};
ghost use Rattle.schedule_runs.specs.Runs.{Agenda, course_on};

/// The events of a schedule, each played as it came, are events that were played one after the other on the machine.
pub fn events_of_a_schedule_are_played()
    ensures { (site : Site) (lines : List Line) (stop : Option ProcessorStop) (events : List Event) (agenda : Agenda)
        (s : MachineState)
        → Plays pair_rules (course_on site lines stop) events agenda s → IsPlayed site events s }
{}
