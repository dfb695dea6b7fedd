//! Laws of the parts of an event.
ghost use Rattle.std.specs.Prelude.{◌≡◌, ℕ, ℤ, Bool, true, List, Some, None, slice_get};
ghost use Rattle.std.specs.Option.{option_and_then, option_map};
ghost use Rattle.schedule.specs.declared.event.Event.TheVariants.{Deliver, Reload, Repeat, Tick};
ghost use Rattle.schedule.specs.declared.bus_name.BusName.{BusName};
ghost use Rattle.packet_words.specs.declared.packet.Packet.{Packet};
ghost use Rattle.alive_regroup.specs.Watching.{Watching, after_tick};
ghost use Rattle.packet_wires.specs.machine_states.specs.States.{Makes};
ghost use Rattle.packet_wires.specs.message_wires.specs.computed_changes.specs.Stopped.{reload_done};
ghost use Rattle.packet_wires.specs.world_semantics.specs.Running.{Done};
ghost use Rattle.packet_wires.specs.world_semantics.specs.World.{is_running};
ghost use Rattle.packet_wires.specs.Parcels.{Parcel};
ghost use Rattle.packet_wires.specs.message_layout.specs.Messages.{NodeMessage};
ghost use Rattle.packet_wires.specs.Lines.{line_pulled};
ghost use Rattle.packet_wires.specs.Nodes.{end_at};
ghost use Rattle.packet_wires.specs.Play.{Packeted, underway, is_current_at, over, packet_at, play};
ghost use Rattle.packet_wires.specs.Wires.{Midst, Wires, all_posted, midst_after_arrival, at_end, cut_off};
ghost use Rattle.packet_wires.specs.Wires.{declares};
ghost use Rattle.packet_wires.specs.Wires.{goes_over, learns, loaded_again, nothing_sent, push_at, sends};
ghost use Rattle.packet_wires.specs.Wires.{midst_after_tick};
ghost use Rattle.event_parts.specs.Numbers.{CanPush, HasNumbersAt};
ghost use Rattle.event_parts.specs.Parts.{OnlyAdds, carried_out, completed_by, wires_after_delivery};
ghost use Rattle.event_parts.specs.Parts.{wires_after_repeat, watch_at};

/// An event that is one part makes of the wires what is made where that part is carried out, after the event took its
/// packet off.
pub fn a_part_may_be_an_event()
    ensures { (s : Packeted) (part : Midst → Midst) (wires : Wires) → wires.nodes ≡ s.wires.nodes
        → (over wires (record (underway s) { wires = part (underway s).wires })).wires ≡ carried_out part wires }
{}

/// What an event makes of the wires where no message is whole with its packet, and where no line is pulled, and what a
/// reload makes of them: the part that is named.
pub fn events_of_packets_are_parts()
    ensures delivers { (s : Packeted) (bus : BusName) (k : ℕ) (packet : Packet) → packet_at s bus k ≡ Some packet
        → is_running s.world.stopped packet.receiver ≡ true
        → is_current_at packet (end_at s.wires.nodes packet.receiver packet.sender) ≡ true
        → completed_by (Some packet) s.wires.nodes ≡ None
        → play s (Deliver bus k) ≡ Makes (record s
        { wires = wires_after_delivery bus k (Some packet) s.wires }) }
    ensures repeats { (s : Packeted) (bus : BusName) (k : ℕ) (packet : Packet) → packet_at s bus k ≡ Some packet
        → play s (Repeat bus k) ≡ Makes (record s { wires = wires_after_repeat bus (Some packet) s.wires }) }
    ensures ticks { (s : Packeted) (node : ℕ) → is_running s.world.stopped node ≡ true
        → option_and_then (line_pulled node) (slice_get
        (midst_after_tick s.site.processors node (nothing_sent s.wires.nodes)).nodes node) ≡ None
        → play s (Tick node) ≡ Makes (record s {
          wires =
              carried_out (midst_after_tick s.site.processors node) s.wires;
        }) }
    ensures reloads { (s : Packeted) (processor : ℕ) (done : Done) → reload_done s.site processor s.world ≡ Some done
        → play s (Reload processor) ≡ Makes (record s {
          world = done.world;
          wires = carried_out (loaded_again s.site.processors processor) s.wires;
        }) }
{}

/// Two parts that are carried out one after the other make of the wires what both make in turn, if the second one only
/// adds to what the first one sent; and then both together only add.
pub fn parts_are_carried_out_in_turn()
    ensures wires { (first second : Midst → Midst) (wires : Wires) → OnlyAdds second
        → carried_out second (carried_out first wires) ≡ carried_out (λ midst. second (first midst)) wires }
    ensures adds { (first second : Midst → Midst) → OnlyAdds first → OnlyAdds second
        → OnlyAdds (λ midst. second (first midst)) }
{}

/// Each thing that a node does in an event only adds to what was sent before it.
pub fn what_nodes_do_only_adds()
    ensures packet { (name : BusName) (packet : Packet) → OnlyAdds (goes_over name packet) }
    ensures learns { (x : ℕ) (change : Watching → Watching) → OnlyAdds (learns x change) }
    ensures pushes { (x y : ℕ) (words : List ℤ) → OnlyAdds (at_end x y (push_at x y words)) }
    ensures sends { (x y : ℕ) (message : NodeMessage) → OnlyAdds (sends x y message) }
    ensures posts { (stopped : List Bool) (parcels : List Parcel) → OnlyAdds (all_posted stopped parcels) }
    ensures arrives { (name : BusName) (packet : Packet) → OnlyAdds (midst_after_arrival name packet) }
    ensures ticks { (processors x : ℕ) → OnlyAdds (midst_after_tick processors x) }
    ensures cuts { (x y : ℕ) → OnlyAdds (cut_off x y) }
    ensures declares { (processors x processor : ℕ) → OnlyAdds (declares processors x processor) }
    ensures loads { (processors x : ℕ) → OnlyAdds (loaded_again processors x) }
{}

/// Where what is pushed finds a number at every end, it does so after each thing that a node does. A packet that comes
/// may take one where its end has numbers left.
pub fn each_push_finds_a_number()
    ensures learns { (x : ℕ) (change : Watching → Watching) (midst : Midst) → CanPush midst.nodes
        → CanPush (learns x change midst).nodes }
    ensures pushes { (x y : ℕ) (words : List ℤ) (midst : Midst) → CanPush midst.nodes
        → CanPush (at_end x y (push_at x y words) midst).nodes }
    ensures posts { (stopped : List Bool) (parcels : List Parcel) (midst : Midst) → CanPush midst.nodes
        → CanPush (all_posted stopped parcels midst).nodes }
    ensures arrives { (name : BusName) (packet : Packet) (midst : Midst)
        → HasNumbersAt packet.receiver packet.sender midst.nodes → CanPush midst.nodes
        → CanPush (midst_after_arrival name packet midst).nodes }
    ensures ticks { (processors x : ℕ) (midst : Midst) → CanPush midst.nodes
        → CanPush (midst_after_tick processors x midst).nodes }
    ensures cuts { (x y : ℕ) (midst : Midst) → CanPush midst.nodes → CanPush (cut_off x y midst).nodes }
    ensures declares { (processors x processor : ℕ) (midst : Midst) → CanPush midst.nodes
        → CanPush (declares processors x processor midst).nodes }
    ensures loads { (processors x : ℕ) (midst : Midst) → CanPush midst.nodes
        → CanPush (loaded_again processors x midst).nodes }
{}

/// What a node knows of the processors changes in its tick as a tick of its watch changes it.
pub fn a_tick_is_one_of_its_watch()
    ensures { (processors x : ℕ) (midst : Midst)
        → watch_at (midst_after_tick processors x midst).nodes x ≡ option_map after_tick (watch_at midst.nodes x) }
{}
