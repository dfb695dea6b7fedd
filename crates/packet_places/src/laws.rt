//! Laws of places.
ghost use Rattle.std.specs.Prelude.{◌≡◌, ℕ, Some};
ghost use Rattle.schedule.specs.declared.bus_name.BusName.{BusName};
ghost use Rattle.schedule.specs.declared.event.DriveEvent.{DriveEvent};
ghost use Rattle.schedule.specs.declared.event.Event.TheVariants.{Run, Enter, Deliver, Lose, Repeat, Tick, Fail, Drive};
ghost use Rattle.packet_words.specs.declared.packet.Packet.{Packet};
ghost use Rattle.world_semantics.specs.World.{terminal_node};
ghost use Rattle.machine_states.specs.States.{Makes};
ghost use Rattle.packet_wires.specs.Play.{Packeted, packet_at, play};
ghost use Rattle.packet_places.specs.Places.{StaysElsewhere};

/// An event changes only what is at one node: a run at some node, an entry at that of the terminals, a delivery at the
/// packet's receiver, a tick at its node. What is lost, what is repeated and who fails changes nothing at any other
/// node. A processor that stops loses its copies.
pub fn an_event_stays_at_its_node()
    ensures run { (s next : Packeted) (number : ℕ) → play s (Run number) ≡ Makes next
        → (node : ℕ) × StaysElsewhere node s next }
    ensures enter { (s next : Packeted) (terminal : ℕ) → play s (Enter terminal) ≡ Makes next
        → StaysElsewhere terminal_node s next }
    ensures deliver { (s next : Packeted) (bus : BusName) (k : ℕ) (packet : Packet)
        → packet_at s bus k ≡ Some packet → play s (Deliver bus k) ≡ Makes next
        → StaysElsewhere packet.receiver s next }
    ensures lose { (s next : Packeted) (bus : BusName) (k node : ℕ) → play s (Lose bus k) ≡ Makes next
        → StaysElsewhere node s next }
    ensures repeat { (s next : Packeted) (bus : BusName) (k node : ℕ) → play s (Repeat bus k) ≡ Makes next
        → StaysElsewhere node s next }
    ensures tick { (s next : Packeted) (node : ℕ) → play s (Tick node) ≡ Makes next → StaysElsewhere node s next }
    ensures fail { (s next : Packeted) (processor node : ℕ) → play s (Fail processor) ≡ Makes next
        → StaysElsewhere node s next }
    ensures drive { (s next : Packeted) (event : DriveEvent) (node : ℕ) → play s (Drive event) ≡ Makes next
        → StaysElsewhere node s next }
{}
