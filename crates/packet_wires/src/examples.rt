//! Worked runs over packets, packet by packet.
ghost use Rattle.std.specs.Prelude.{◌≡◌, pos, true, false, [], ◌∷◌};
ghost use Rattle.schedule.specs.declared.event.Event.TheVariants as event;
ghost use Rattle.message_layout.specs.world_semantics.specs.Examples.{reply};
ghost use Rattle.message_layout.specs.world_semantics.specs.World.{is_whole};
ghost use Rattle.message_wires.specs.machine_states.specs.States.{SecondStop, Would};
ghost use Rattle.packet_wires.specs.Idle.{is_idle};
ghost use Rattle.packet_wires.specs.Play.{play};
ghost use Rattle.packet_wires.specs.Sights.{acknowledged, alive, buses_from, end_of, last, piece, seen};
ghost use Rattle.packet_wires.specs.Examples.{adder_at_boot, after_four, after_takeover, before_third_piece};
ghost use Rattle.packet_wires.specs.Examples.{buses_alone, buses_held, buses_of_lost, buses_to_checkpoint};
ghost use Rattle.packet_wires.specs.Examples.{buses_to_reply, down_twice, held, lost_piece, rounds, served, taken_over};
ghost use Rattle.packet_wires.specs.Examples.{loaded_0, renewed, renewing, three_at_boot, ticks_alone};
ghost use Rattle.packet_wires.specs.Examples.{up_to_checkpoint};
ghost use Rattle.packet_wires.specs.Examples.{up_to_reply, without_old};

/// A request is served with nothing lost: one piece of the request, three of the checkpoint, one that it was taken, and
/// one of the reply, each acknowledged before the next one of its channel goes. Then nothing is left to do.
pub fn an_adder_serves()
    ensures checkpoint { buses_from adder_at_boot up_to_checkpoint ≡ buses_to_checkpoint }
    ensures answer { buses_from (end_of adder_at_boot up_to_checkpoint) up_to_reply ≡ buses_to_reply }
    ensures shown { served.world.shown ≡ reply 0 (pos 5) ∷ [] }
    ensures idle { is_idle served ≡ true }
{}

/// A piece that is lost goes over bus Y at its sender's second tick and over bus X at the third, with its number. It is
/// handed over once, and each of its packets is acknowledged over the bus on which it came.
pub fn a_lost_piece_is_sent_again()
    ensures { buses_from adder_at_boot lost_piece ≡ buses_of_lost }
{}

/// A processor stops between the pieces of its checkpoint. The other one misses it at two checks, and pulls its line at
/// the second of them; what came of the checkpoint is thrown away, so the takeover begins the program. The reply is
/// printed once.
pub fn a_checkpoint_in_part_is_thrown_away()
    ensures stopped { before_third_piece.world.stopped ≡ true ∷ false ∷ [] }
    ensures alone { buses_from before_third_piece ticks_alone ≡ buses_alone }
    ensures marked { taken_over.world.downs ≡ record { node = 1; down = 0 } ∷ [] }
    ensures shown { (end_of taken_over after_takeover).world.shown ≡ reply 0 (pos 5) ∷ [] }
    ensures idle { is_idle (end_of taken_over after_takeover) ≡ true }
{}

/// A processor is loaded again while packets of before are on bus X: each of them is dropped where it comes, and
/// nothing answers it. The process then sends all that it has over a new channel. Until it came, no other processor
/// stops; and then one may.
pub fn what_was_sent_before_a_reload_is_dropped()
    ensures stopped { loaded_0.world.stopped ≡ false ∷ false ∷ [] }
    ensures marks { loaded_0.world.downs ≡ [] }
    ensures dropped { (seen without_old).x ≡ acknowledged 16 1 1 ∷ last 16 1 1 ∷ [] }
    ensures sends { (seen renewing).x ≡ acknowledged 16 1 1 ∷ last 16 1 1 ∷ piece 1 0 1 ∷ [] }
    ensures second { play renewing (event.Fail 1) ≡ Would (SecondStop 1) }
    ensures whole { is_whole renewed.world ≡ true }
    ensures stops { (end_of renewed (event.Fail 1 ∷ [])).world.stopped ≡ false ∷ true ∷ [] }
{}

/// Of three processors one is muted. At their fourth ticks the others report it, and at its fifth tick processor 0 has
/// the report of processor 2: it stops the muted one by its line, marks it, and tells processor 2 and the node of the
/// terminals, in this order.
pub fn a_muted_processor_is_held()
    ensures before { after_four.world.stopped ≡ false ∷ false ∷ false ∷ [] }
    ensures stopped { held.world.stopped ≡ false ∷ true ∷ false ∷ [] }
    ensures marks { held.world.downs ≡ record { node = 0; down = 1 } ∷ [] }
    ensures buses { seen held ≡ buses_held }
{}

/// Where nobody is muted, as many ticks stop nobody.
pub fn a_heard_processor_is_not_held()
    ensures { (end_of (rounds 3 4 three_at_boot) (event.Tick 0 ∷ [])).world.stopped ≡ false ∷ false ∷ false ∷ [] }
{}

/// That a processor is down comes twice: the second packet is acknowledged again, and no second mark is made.
pub fn a_second_message_marks_nothing()
    ensures marks { (end_of held down_twice).world.downs
        ≡ record { node = 2; down = 1 } ∷ record { node = 0; down = 1 } ∷ [] }
    ensures buses { (seen (end_of held down_twice)).x
        ≡ alive 0 1 ∷ alive 0 2 ∷ last 0 16 1 ∷ acknowledged 2 0 2 ∷ acknowledged 2 0 2 ∷ [] }
{}
