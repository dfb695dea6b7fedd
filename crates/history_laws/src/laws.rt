//! That no event reads what was sent, but for the last two checkpoints of each process.
ghost use Rattle.std.specs.Prelude.{◌≡◌, List};
ghost use Rattle.schedule.specs.declared.event.Event.{Event};
ghost use Rattle.packet_runs.specs.packet_wires.specs.message_wires.specs.Play as message;
ghost use Rattle.packet_runs.specs.packet_wires.specs.message_wires.specs.Examples as message_run;
ghost use Rattle.packet_runs.specs.packet_wires.specs.Play.{Packeted, play, sent_by};
ghost use Rattle.packet_runs.specs.packet_wires.specs.Sights.{end_of};
ghost use Rattle.history_laws.specs.Present.{present_played, present_state};

/// What an event makes of a state over packets, and what it sends, doesn't depend on what was sent before, but for the
/// last two checkpoints of each process: it is the same for all states that have one present.
pub fn no_event_reads_what_was_sent()
    ensures made { (s : Packeted) (event : Event)
        → present_played (play s event) ≡ present_played (play (present_state s) event) }
    ensures sent { (s : Packeted) (event : Event) → sent_by s event ≡ sent_by (present_state s) event }
    ensures alike { (s other : Packeted) (event : Event) → present_state s ≡ present_state other
        → present_played (play s event) ≡ present_played (play other event) }
{}

/// Whatever events are played over packets from states that have one present, the states at their end have one.
pub fn no_run_reads_what_was_sent()
    ensures { (s other : Packeted) (events : List Event) → present_state s ≡ present_state other
        → present_state (end_of s events) ≡ present_state (end_of other events) }
{}

/// Over whole messages too, what an event makes is the same for all states that have one present. Whatever events are
/// played from them, the states at their end have one.
pub fn no_event_over_whole_messages_reads_what_was_sent()
    ensures made { (s : message.MachineState) (event : Event)
        → present_played (message.play s event) ≡ present_played (message.play (present_state s) event) }
    ensures alike { (s other : message.MachineState) (event : Event) → present_state s ≡ present_state other
        → present_played (message.play s event) ≡ present_played (message.play other event) }
    ensures run { (s other : message.MachineState) (events : List Event) → present_state s ≡ present_state other
        → present_state (message_run.end_of s events) ≡ present_state (message_run.end_of other events) }
{}
