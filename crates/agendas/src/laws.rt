//! What the next event of a schedule is.
ghost use Rattle.std.specs.Prelude.{◌≡◌, ℕ, List, Some, None};
ghost use Rattle.schedule.specs.declared.event.Counts.{Counts};
ghost use Rattle.schedule.specs.declared.event.Event.{Event};
ghost use Rattle.schedule.specs.declared.event.Event.TheVariants.{Fail};
ghost use Rattle.schedule.specs.declared.line.Line.{Line};
ghost use Rattle.player.specs.Lines.{next_event};
ghost use Rattle.player.specs.declared.standing.Move.{Move};
ghost use Rattle.player.specs.declared.standing.Sizes.{Sizes};
ghost use Rattle.player.specs.declared.standing.LinePlace.{LinePlace};
ghost use Rattle.agendas.specs.Agendas.{Agenda, Plan, planned_by, stopped_by, next_plan};

/// Where the line at which a schedule stands gives an event, that one comes.
pub fn an_event_of_a_line_comes()
    ensures { (sizes : Sizes) (before : ℕ) (counts : Counts) (standing : LinePlace) (lines : List Line) (move : Move)
        → next_event sizes standing counts ≡ Some move
        → next_plan sizes before counts (record { standing = standing; lines = lines; stop = None; held_back = None })
        ≡ Some (record {
          event = move.event;
          agenda =
              record { standing = move.standing; lines = lines; stop = None; held_back = None };
        }) }
{}

/// A stop comes first, and what was to come is held back.
pub fn a_stop_comes_before_its_event()
    ensures { (processor : ℕ) (plan : Plan) → stopped_by (Some processor) plan
        ≡ record { event = Fail processor; agenda = record plan.agenda { stop = None; held_back = Some plan.event } } }
{}

/// What was held back comes next, whatever is counted then, and nothing is held back any more.
pub fn an_event_that_was_held_back_comes()
    ensures { (sizes : Sizes) (before : ℕ) (counts : Counts) (agenda : Agenda) (event : Event)
        → next_plan sizes before counts (record agenda { held_back = Some event })
        ≡ Some (record { event = event; agenda = record agenda { held_back = None } }) }
{}
