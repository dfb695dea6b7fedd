ghost use Rattle.std.specs.Prelude.{◌≡◌, Some, None};
ghost use Rattle.player.specs.Lines.{packet_of};
ghost use Rattle.schedule.specs.declared.bus_name.BusName.TheVariants.{X, Y};
ghost use Rattle.schedule.specs.declared.event.Event.TheVariants.{Deliver, Lose, Repeat, Tick};

/// An event concerns the packet at its position on its bus, if that bus holds so many. Here bus X holds three packets
/// and bus Y one, or the other way round.
pub fn an_event_concerns_a_packet_of_its_bus()
    ensures last_on_x { packet_of 3 1 (Deliver X 2) ≡ Some (X, 2) }
    ensures past_x { packet_of 3 1 (Deliver X 3) ≡ None }
    ensures past_y { packet_of 3 1 (Lose Y 1) ≡ None }
    ensures last_on_y { packet_of 1 3 (Lose Y 2) ≡ Some (Y, 2) }
    ensures repeated { packet_of 1 3 (Repeat X 0) ≡ Some (X, 0) }
    ensures past_repeated { packet_of 1 3 (Repeat X 1) ≡ None }
    ensures none { packet_of 3 3 (Tick 0) ≡ None }
{}
