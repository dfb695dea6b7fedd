//! What is told of events of worked runs.
ghost use Rattle.std.specs.Prelude.{◌≡◌, pos, [], ◌∷◌, None, Some};
ghost use Rattle.event_findings.specs.HandedOver.{done_by};
ghost use Rattle.event_findings.specs.Messages.{message_named};
ghost use Rattle.event_findings.specs.Told.{shown_by};
ghost use Rattle.process_semantics.specs.declared.point.Point.TheVariants as point;
ghost use Rattle.mirror.specs.declared.state.DriveState.TheVariants.{Failed, Reviving, Working};
ghost use Rattle.schedule.specs.declared.bus_name.BusName.TheVariants as bus;
ghost use Rattle.schedule.specs.declared.event.DriveChange.TheVariants.{Break, Copy, Revive};
ghost use Rattle.schedule.specs.declared.event.Event.TheVariants as event;
ghost use Rattle.event_findings.specs.site_machine.specs.packet_wires.specs.Examples.{adder_at_boot};
ghost use Rattle.event_findings.specs.site_machine.specs.packet_wires.specs.Examples.{before_third_piece, next_x};
ghost use Rattle.event_findings.specs.site_machine.specs.packet_wires.specs.Examples.{served};
ghost use Rattle.event_findings.specs.site_machine.specs.packet_wires.specs.Examples.{taken_over};
ghost use Rattle.trace_lines.specs.declared.finding.ActName.TheVariants as act;
ghost use Rattle.trace_lines.specs.declared.finding.Fate.TheVariants as fate;
ghost use Rattle.trace_lines.specs.declared.finding.Finding.TheVariants as finding;
ghost use Rattle.trace_lines.specs.declared.finding.MessageName.TheVariants as name;
ghost use Rattle.trace_lines.specs.declared.finding.PacketSort.TheVariants as sort;
ghost use Rattle.trace_lines.specs.declared.finding.WhyIgnored.TheVariants as why;
ghost use Rattle.trace_guards.specs.Runs.{before_taken, copies_of};
ghost use Rattle.trace_guards.specs.Runs.{acknowledged, after_take, at_checkpoint, before_last_piece, before_take};
ghost use Rattle.trace_guards.specs.Runs.{before_takeover, checkpoint_named, checkpoint_sent, doubled, driven, entered};
ghost use Rattle.trace_guards.specs.Runs.{packet, piece, replied, reply_named, request_named, sends, sends_again};
ghost use Rattle.trace_guards.specs.Runs.{take_named, taken_named};
ghost use Rattle.trace_guards.specs.Runs.{after_one_tick, first_silent, told_in, with_drives};
ghost use Rattle.world_semantics.specs.Examples.{reply, run};

/// A terminal enters its first request, and has no second one. A process that can't run is skipped, as is a packet that
/// isn't there.
pub fn entries_and_skips_are_told()
    ensures enters { told_in adder_at_boot (event.Enter 0) ≡ finding.Enters 1 ∷ sends 16 0 1 request_named
        ∷ finding.Keeps (act.Enter 0) ∷ [] }
    ensures again { told_in entered (event.Enter 0) ≡ finding.Skipped ∷ [] }
    ensures nobody { told_in adder_at_boot (event.Run 1) ≡ finding.Skipped ∷ [] }
    ensures no_packet { told_in adder_at_boot next_x ≡ finding.Skipped ∷ [] }
{}

/// A process makes the statement at which it stands, and what that sets is told. At its CHECKPOINT it sends the
/// checkpoint, and once that was acknowledged it goes on. A step is kept, and a take is held back, as is a step behind
/// it.
pub fn steps_are_told()
    ensures first { told_in adder_at_boot run ≡ finding.Makes 0 1 ∷ finding.Keeps (act.Step 0) ∷ [] }
    ensures takes { told_in before_take run
        ≡ finding.Makes 0 4 ∷ finding.Sets 0 1 0 (pos 1) ∷ finding.Sets 0 3 0 (pos 5)
        ∷ finding.HoldsBack take_named ∷ [] }
    ensures adds { told_in after_take run ≡ finding.Makes 0 5 ∷ finding.Sets 0 0 0 (pos 5)
        ∷ finding.HoldsBack (act.Step 0) ∷ [] }
    ensures sends { told_in at_checkpoint run ≡ finding.SendsCheckpoint 1 ∷ sends 0 1 3 checkpoint_named ∷ [] }
    ensures passes { told_in acknowledged run ≡ finding.PassesCheckpoint ∷ [] }
    ensures still { told_in checkpoint_sent run ≡ finding.Skipped ∷ finding.StandsStill point.AtCheckpoint ∷ [] }
{}

/// A packet comes, is lost or goes once more. With its last piece a request waits, and a checkpoint is put in. What
/// comes of a processor that was marked is dropped, and so is what comes to one that has stopped. A piece that came
/// before comes again. The message is named of which a packet is a piece.
pub fn packets_are_told()
    ensures comes { told_in entered next_x
        ≡ piece (sort.LastPiece 1) 16 0 fate.Came request_named ∷ finding.Waits 0 0 1 ∷ [] }
    ensures again { told_in doubled next_x ≡ piece (sort.LastPiece 1) 16 0 fate.CameAgain request_named ∷ [] }
    ensures lost { told_in entered (event.Lose bus.X 0)
        ≡ piece (sort.LastPiece 1) 16 0 fate.Lost request_named ∷ [] }
    ensures repeated { told_in entered (event.Repeat bus.X 0)
        ≡ piece (sort.LastPiece 1) 16 0 fate.Repeated request_named ∷ [] }
    ensures whole { told_in before_last_piece next_x
        ≡ piece (sort.LastPiece 3) 0 1 fate.Came checkpoint_named ∷ finding.AppliesCheckpoint 0 1 1
        ∷ sends 1 0 1 taken_named ∷ finding.Keeps take_named ∷ finding.Keeps (act.Step 0) ∷ finding.Keeps (act.Step 0)
        ∷ finding.Keeps (act.Step 0) ∷ [] }
    ensures refused { told_in taken_over next_x
        ≡ piece (sort.LastPiece 3) 0 1 fate.Refused checkpoint_named ∷ [] }
    ensures dropped { told_in taken_over (event.Deliver bus.X 1) ≡ packet sort.Alive 1 0 fate.Dropped ∷ [] }
{}

/// The copy that acts hears that its checkpoint was taken. One that watches ignores a checkpoint that isn't the next
/// one of its era, and one that acts ignores each. A checkpoint has one name, whole or as what changed.
pub fn checkpoints_are_told()
    ensures taken { told_in before_taken next_x
        ≡ piece (sort.LastPiece 1) 1 0 fate.Came taken_named ∷ finding.HearsTaken 0 0 1 ∷ [] }
    ensures next { done_by 1 (copies_of adder_at_boot) (name.Checkpoint 0 0 1) ≡ None }
    ensures not_next { done_by 1 (copies_of adder_at_boot) (name.Checkpoint 0 0 2)
        ≡ Some (finding.IgnoresCheckpoint 0 1 2 why.NotNext) }
    ensures other_era { done_by 1 (copies_of adder_at_boot) (name.Checkpoint 0 1 1)
        ≡ Some (finding.IgnoresCheckpoint 0 1 1 why.OtherEra) }
    ensures acts { done_by 0 (copies_of adder_at_boot) (name.Checkpoint 0 0 1)
        ≡ Some (finding.IgnoresCheckpoint 0 0 1 why.Acts) }
    ensures not_sent { done_by 0 (copies_of adder_at_boot) (name.Taken 0 0 1) ≡ None }
    ensures whole { message_named adder_at_boot.site (pos 3 ∷ pos 0 ∷ pos 0 ∷ pos 1 ∷ pos 0 ∷ pos 2 ∷ [])
        ≡ Some (name.Checkpoint 0 1 2) }
    ensures changes { message_named adder_at_boot.site (pos 7 ∷ pos 0 ∷ pos 0 ∷ pos 1 ∷ pos 0 ∷ pos 2 ∷ [])
        ≡ Some (name.Checkpoint 0 1 2) }
    ensures no_kind { message_named adder_at_boot.site (pos 8 ∷ pos 0 ∷ []) ≡ None }
{}

/// A reply is shown by the event that prints it, once.
pub fn a_reply_is_shown_as_it_is_printed()
    ensures printed { shown_by replied next_x ≡ reply 0 (pos 5) ∷ [] }
    ensures told { told_in replied next_x ≡ piece (sort.LastPiece 1) 0 16 fate.Came reply_named
        ∷ finding.Keeps (act.Print 0) ∷ [] }
    ensures nothing { shown_by served run ≡ [] }
{}

/// A processor stops. The other one misses it at its second tick, and at its fourth one marks it: it finds it silent,
/// reports that and pulls its hold line. Then the copy there takes over from the beginning. A second processor isn't
/// stopped.
pub fn a_takeover_is_told()
    ensures stops { told_in before_last_piece (event.Fail 0) ≡ finding.Stops 0 ∷ [] }
    ensures takes_over { told_in before_takeover (event.Tick 1)
        ≡ finding.FindsSilent 1 0 ∷ finding.Reports 1 first_silent ∷ finding.PullsLine 1 0 ∷ finding.Marks 1 0
        ∷ finding.TakesOver 0 1 1 (Some 1) ∷ sends 1 16 1 (name.Down 0) ∷ [] }
    ensures asks_again { told_in taken_over (event.Deliver bus.X 6)
        ≡ piece (sort.LastPiece 1) 1 16 fate.Came (name.Down 0) ∷ finding.Marks 16 0
        ∷ sends_again 16 1 1 request_named ∷ [] }
    ensures second { told_in before_third_piece (event.Fail 1) ≡ finding.WouldStopSecond 1 ∷ [] }
    ensures quiet { told_in before_third_piece (event.Tick 1) ≡ [] }
    ensures misses { told_in after_one_tick (event.Tick 1) ≡ finding.Misses 1 0 ∷ [] }
{}

/// How a drive stands after its event is told. A disc's last drive isn't broken, and a process without two drives has
/// none that breaks.
pub fn events_of_drives_are_told()
    ensures breaks { told_in (with_drives (Working ∷ Working ∷ [])) (driven 1 Break) ≡ finding.Drive Failed ∷ [] }
    ensures revives { told_in (with_drives (Failed ∷ Working ∷ [])) (driven 0 Revive)
        ≡ finding.Drive (Reviving 0) ∷ [] }
    ensures lost { told_in (with_drives (Working ∷ Failed ∷ [])) (driven 0 Break) ≡ finding.WouldLoseDisc 0 ∷ [] }
    ensures skipped { told_in (with_drives (Working ∷ Working ∷ [])) (driven 0 Copy) ≡ finding.Skipped ∷ [] }
    ensures program { told_in adder_at_boot (driven 0 Break) ≡ finding.Skipped ∷ [] }
{}
