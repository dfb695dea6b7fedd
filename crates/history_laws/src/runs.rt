//! That no run of a schedule over packets reads what was sent, but for the last two checkpoints of each process.
ghost use Rattle.std.specs.Prelude.{◌≡◌, ℕ, Bool, List};
ghost use Rattle.agendas.specs.Agendas.{Agenda};
ghost use Rattle.player.specs.declared.player.Player.{Player};
ghost use Rattle.schedule.specs.declared.event.Event.{Event};
ghost use Rattle.schedule_loop.specs.Ends.{Course, IsRunOn, Plays};
ghost use Rattle.schedule_loop.specs.declared.ran.Ending.{Ending};
ghost use Rattle.packet_runs.specs.Runs.{counts_of, packet_rules};
ghost use Rattle.packet_runs.specs.packet_wires.specs.message_wires.specs.Idle as message_idle;
ghost use Rattle.packet_runs.specs.packet_wires.specs.message_wires.specs.Play.{MachineState};
ghost use Rattle.packet_runs.specs.packet_wires.specs.Idle.{is_idle};
ghost use Rattle.packet_runs.specs.packet_wires.specs.Play.{Packeted};
ghost use Rattle.packet_runs.specs.packet_wires.specs.Wires.{Wires};
ghost use Rattle.packet_runs.specs.site_machine.specs.Seen.{closed_state};
ghost use Rattle.packet_runs.specs.world_copies.specs.Closed.{closed_world};
ghost use Rattle.packet_runs.specs.packet_wires.specs.world_semantics.specs.World.{World};
ghost use Rattle.history_laws.specs.Present.{present, present_state};

/// Whether a state over packets is idle, and what is counted in it before an event, is the same for all states that
/// have one present; and what its close makes of it has one present for all of them. With what an event makes, these
/// are the four parts of `packet_rules`. Over whole messages too, whether a state is idle is the same for all states
/// that have one present. For worlds too, what the close makes of them has one present for all that have one.
pub fn no_count_and_no_close_reads_what_was_sent()
    ensures idle { (s : Packeted) → is_idle s ≡ is_idle (present_state s) }
    ensures counts { (s : Packeted) (player : Player) → counts_of s player ≡ counts_of (present_state s) player }
    ensures close { (s : Packeted) → present_state (closed_state s) ≡ closed_state (present_state s) }
    ensures idle_over_messages { (s : MachineState)
        → message_idle.is_idle s ≡ message_idle.is_idle (present_state s) }
    ensures close_of_worlds { (w : World) → present (closed_world w) ≡ closed_world (present w) }
{}

/// Let a schedule be played over packets from one of two states that have one present. Then the same events of it are
/// played from the other one too. They lead to the same place in the schedule, and to a state with the same present.
/// For each run from the first there is one from the other that plays the same events and ends in the same way; and
/// what both leave has one present.
pub fn no_schedule_reads_what_was_sent()
    ensures played { (course : Course Wires) (other s : Packeted) (events : List Event) (agenda : Agenda)
        → present_state course.start ≡ present_state other → Plays packet_rules course events agenda s
        → (t : Packeted) × Plays packet_rules (record course { start = other }) events agenda t
        × (present_state s ≡ present_state t) }
    ensures ended { (course : Course Wires) (other left : Packeted) (is_broken : Bool) (asked : ℕ) (ending : Ending)
        → present_state course.start ≡ present_state other
        → (run : IsRunOn packet_rules course is_broken left asked ending)
        → (rest : Packeted)
        × (same : IsRunOn packet_rules (record course { start = other }) is_broken rest asked ending)
        × (same.events ≡ run.events) × (present_state left ≡ present_state rest) }
{}
