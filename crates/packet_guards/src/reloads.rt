//! Reloads over packets, at telling points.
ghost use Rattle.std.specs.Prelude.{◌≡◌, ◌≢◌, ℕ, true, false, [], ◌∷◌, Some, slice_get};
ghost use Rattle.schedule.specs.declared.event.Event.TheVariants as event;
ghost use Rattle.packet_words.specs.declared.packet.PacketKind.TheVariants.{Alive};
ghost use Rattle.machine_states.specs.States.{Skips, Would, SecondStop};
ghost use Rattle.world_semantics.specs.World.{is_whole};
ghost use Rattle.packet_wires.specs.Play.{Packeted, underway, comes_in, play, sent_by};
ghost use Rattle.packet_wires.specs.Sights.{end_of};
ghost use Rattle.packet_wires.specs.Examples.{adder_at_boot, loaded_0, taken_over};
ghost use Rattle.packet_guards.specs.States.{bears, has_moved, one_gone, packet, packet_of, ticks, told};

/// A processor is loaded again once each node that runs has marked it, the node of the terminals too, and at no other
/// time.
pub fn a_reload_is_made_once_all_have_marked()
    ensures runs { play adder_at_boot (event.Reload 0) ≡ Skips }
    ensures unmarked { play one_gone (event.Reload 0) ≡ Skips }
    ensures terminals { play taken_over (event.Reload 0) ≡ Skips }
    ensures marked { (end_of told (event.Reload 0 ∷ [])).world.reloads ≡ 1 ∷ 0 ∷ [] }
    ensures again { play loaded_0 (event.Reload 0) ≡ Skips }
    ensures nowhere { play told (event.Reload 2) ≡ Skips }
{}

/// It sends nothing, and what is on the buses stays there.
pub fn a_reload_touches_no_bus()
    ensures x { (s : Packeted) (processor : ℕ) → (end_of s (event.Reload processor ∷ [])).wires.x ≡ s.wires.x }
    ensures y { (s : Packeted) (processor : ℕ) → (end_of s (event.Reload processor ∷ [])).wires.y ≡ s.wires.y }
    ensures out { (s : Packeted) (processor : ℕ) → sent_by s (event.Reload processor) ≡ [] }
{}

/// Each end of its node, or with it, is a new one that bears its next incarnation. Other ends stay.
pub fn channels_of_a_loaded_node_begin_anew()
    ensures own { bears loaded_0 0 1 ≡ Some (record { sender = 1; receiver = 0 }) }
    ensures with_it { bears loaded_0 1 0 ≡ Some (record { sender = 0; receiver = 1 }) }
    ensures itself { bears loaded_0 0 0 ≡ Some (record { sender = 1; receiver = 1 }) }
    ensures terminals { bears loaded_0 16 0 ≡ Some (record { sender = 0; receiver = 1 }) }
    ensures thrown { has_moved told 1 0 ≡ Some (1, 2, true) }
    ensures anew { has_moved loaded_0 1 0 ≡ Some (0, 0, false) }
    ensures other { bears loaded_0 1 16 ≡ Some (record { sender = 0; receiver = 0 }) }
    ensures stays { has_moved loaded_0 1 16 ≡ Some (1, 0, false) }
{}

/// A packet comes in if it bears the incarnations that its sender and its receiver have now, and is dropped if it bears
/// another one of either.
pub fn only_packets_of_now_come_in()
    ensures to_it { comes_in (packet_of 0 1 1 0 Alive) (underway loaded_0) ≡ true }
    ensures from_it { comes_in (packet_of 1 0 0 1 Alive) (underway loaded_0) ≡ true }
    ensures old_to_it { comes_in (packet 1 0 Alive) (underway loaded_0) ≡ false }
    ensures old_from_it { comes_in (packet 0 1 Alive) (underway loaded_0) ≡ false }
    ensures early { comes_in (packet_of 0 2 1 0 Alive) (underway loaded_0) ≡ false }
    ensures elsewhere { comes_in (packet 1 16 Alive) (underway loaded_0) ≡ true }
{}

/// Two checks have to miss it as any other: what was missed before is forgotten. The world isn't whole then, so the
/// line that would stop it isn't pulled.
pub fn a_loaded_processor_is_given_two_checks()
    ensures three { (end_of loaded_0 (ticks 1 3)).world.downs ≡ [] }
    ensures four { play (end_of loaded_0 (ticks 1 3)) (event.Tick 1) ≡ Would (SecondStop 0) }
{}

/// In a whole world no stop is a second one; and where the world isn't whole each stop of a processor that runs is.
pub fn a_second_stop_is_one_in_parts()
    ensures whole { (s : Packeted) (processor other : ℕ) → is_whole s.world ≡ true
        → play s (event.Fail processor) ≢ Would (SecondStop other) }
    ensures parts { (s : Packeted) (processor : ℕ) → slice_get s.world.stopped processor ≡ Some false
        → is_whole s.world ≡ false
        → play s (event.Fail processor) ≡ Would (SecondStop processor) }
{}
