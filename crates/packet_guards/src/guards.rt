//! What is played, at telling points.
ghost use Rattle.std.specs.Prelude.{◌≡◌, ◌≤◌, ◌+◌, ℕ, pos, true, false, List, [], ◌∷◌, ◌++◌, length, Option, Some};
ghost use Rattle.std.specs.Prelude.{None};
ghost use Rattle.schedule.specs.declared.event.DriveChange.TheVariants.{Break};
ghost use Rattle.schedule.specs.declared.event.Event.TheVariants as event;
ghost use Rattle.schedule.specs.declared.bus_name.BusName.{BusName};
ghost use Rattle.schedule.specs.declared.bus_name.BusName.TheVariants.{X, Y};
ghost use Rattle.packet_words.specs.declared.packet.Packet.{Packet};
ghost use Rattle.packet_words.specs.declared.packet.PacketKind.TheVariants as kind;
ghost use Rattle.machine_states.specs.States.{Makes, Skips, Would, SecondStop};
ghost use Rattle.message_layout.specs.Messages.{Carrying, Changing, Declaring};
ghost use Rattle.message_layout.specs.change_layout.specs.Changing.{change_of};
ghost use Rattle.world_semantics.specs.Messages.{Checkpointing};
ghost use Rattle.world_semantics.specs.checkpoint_image.specs.declared.message.ImageMessage.{ImageMessage};
ghost use Rattle.message_layout.specs.Layout.{words_of};
ghost use Rattle.message_layout.specs.Reading.{understood};
ghost use Rattle.letter_guards.specs.Worlds.{bank_asks, disc_tells, user_is_told};
ghost use Rattle.packet_wires.specs.Idle.{is_idle, holds_nothing};
ghost use Rattle.packet_wires.specs.Nodes.{Node, end_at};
ghost use Rattle.world_semantics.specs.World.{has_marked};
ghost use Rattle.packet_wires.specs.Play.{Underway, underway, count_on, handed, kind_at, play, sender_at};
ghost use Rattle.packet_wires.specs.Play.{sent_by};
ghost use Rattle.packet_wires.specs.Sights.{acknowledged, alive, end_of, last, piece, seen};
ghost use Rattle.packet_wires.specs.Wires.{Midst, Wires, all_put, goes_over, nothing_sent, on_bus, packets_over};
ghost use Rattle.packet_wires.specs.Wires.{with_sent};
ghost use Rattle.packet_wires.specs.Examples.{adder_at_boot, after_four, held, served, taken_over, up_to_checkpoint};
ghost use Rattle.packet_wires.specs.Parcels.{form_after};
ghost use Rattle.packet_guards.specs.Checkpoints.{first_one, second_one};
ghost use Rattle.packet_guards.specs.States.{after_three, first_muted, first_piece_again, laden, none_stopped};
ghost use Rattle.packet_guards.specs.States.{one_drive_failed, two_drives};
ghost use Rattle.packet_guards.specs.States.{one_gone, outgoing, queued, second_silent, stray, takeover, ticks, told};

/// An event names a packet by its position on its bus from 0, and takes that one alone; a repeat puts it at the end.
/// Past the last position nothing is done.
pub fn events_name_positions()
    ensures deliver { (end_of laden (event.Deliver X 1 ∷ [])).wires.x ≡ stray 5 ∷ stray 7 ∷ [] }
    ensures lose { (end_of laden (event.Lose X 1 ∷ [])).wires.x ≡ stray 5 ∷ stray 7 ∷ [] }
    ensures repeat { (end_of laden (event.Repeat X 1 ∷ [])).wires.x ≡ stray 5 ∷ stray 6 ∷ stray 7 ∷ stray 6 ∷ [] }
    ensures other_bus { (end_of laden (event.Lose Y 0 ∷ [])).wires.y ≡ [] }
    ensures past { play laden (event.Deliver X 3) ≡ Skips }
    ensures past_lose { play laden (event.Lose Y 1) ≡ Skips }
    ensures past_repeat { play laden (event.Repeat Y 1) ≡ Skips }
{}

/// An event of a drive touches no packet and no node: how the drives stand changes, and nothing else. A program has
/// none.
pub fn an_event_of_a_drive_touches_no_packet()
    ensures breaks { play two_drives (event.Drive (record { process = 0; drive = 1; change = Break }))
        ≡ Makes one_drive_failed }
    ensures program { play laden (event.Drive (record { process = 0; drive = 1; change = Break })) ≡ Skips }
{}

/// What stands at a position is told: its kind and its sender, and how many packets there are.
pub fn positions_are_told()
    ensures count { count_on laden X ≡ 3 }
    ensures count_y { count_on laden Y ≡ 1 }
    ensures kind { kind_at laden X 1 ≡ Some (kind.Acknowledgement 6) }
    ensures kind_y { kind_at laden Y 0 ≡ Some kind.Alive }
    ensures sender { sender_at laden Y 0 ≡ Some 1 }
    ensures past { sender_at laden X 3 ≡ None }
{}

/// A bus has room for 4,096 packets. What an event sends over it goes to its end, each packet in its turn, and what
/// finds the bus full is lost.
pub fn a_bus_has_room_for_4096()
    ensures room { (name : BusName) (midst : Midst) (wires : Wires)
        → length (on_bus name wires) + length (packets_over name midst.out) ≤ 4096
        → on_bus name (with_sent midst wires) ≡ on_bus name wires ++ packets_over name midst.out }
    ensures full { (name : BusName) (midst : Midst) (wires : Wires) → length (on_bus name wires) ≡ 4096
        → on_bus name (with_sent midst wires) ≡ on_bus name wires }
    ensures last { (packet : Packet) (other : Packet) (on : List Packet) → length on ≡ 4095
        → all_put (packet ∷ other ∷ []) on ≡ on ++ packet ∷ [] }
{}

/// What goes over one bus stands in the order in which it was sent, and nothing of it goes over the other one.
pub fn each_packet_takes_its_bus()
    ensures x { (one : Packet) (other : Packet) (nodes : List Node)
        → packets_over X (goes_over X other (goes_over Y other (goes_over X one (nothing_sent nodes)))).out
        ≡ one ∷ other ∷ [] }
    ensures y { (one : Packet) (other : Packet) (nodes : List Node)
        → packets_over Y (goes_over Y other (goes_over X other (goes_over Y one (nothing_sent nodes)))).out
        ≡ one ∷ other ∷ [] }
{}

/// A tick sends I'm-alive packets in rising order of receivers, then its report in the same order, and at last what is
/// outstanding.
pub fn a_tick_sends_in_order()
    ensures report { (seen (end_of after_three (event.Tick 0 ∷ []))).x
        ≡ alive 0 1 ∷ alive 0 2 ∷ last 0 1 1 ∷ last 0 2 1 ∷ [] }
    ensures alive_y { (seen (end_of after_three (event.Tick 0 ∷ []))).y ≡ alive 0 1 ∷ alive 0 2 ∷ [] }
    ensures out { outgoing (sent_by after_three (event.Tick 0))
        ≡ (X, alive 0 1) ∷ (Y, alive 0 1) ∷ (X, alive 0 2) ∷ (Y, alive 0 2) ∷ (X, last 0 1 1) ∷ (X, last 0 2 1) ∷ [] }
    ensures again { (seen first_piece_again).y ≡ alive 0 1 ∷ alive 0 1 ∷ piece 0 1 1 ∷ [] }
    ensures terminals { seen (end_of adder_at_boot (ticks 16 4)) ≡ record { x = []; y = [] } }
{}

/// An acknowledgement goes by the bus on which its piece came, and the piece that it lets go takes bus X.
pub fn answers_take_their_bus()
    ensures acknowledgement { (seen (end_of first_piece_again (event.Deliver Y 2 ∷ []))).y
        ≡ alive 0 1 ∷ alive 0 1 ∷ acknowledged 1 0 1 ∷ [] }
    ensures next { (seen (end_of first_piece_again (event.Deliver Y 2 ∷ event.Deliver Y 2 ∷ []))).x
        ≡ alive 0 1 ∷ alive 0 1 ∷ piece 0 1 2 ∷ [] }
{}

/// Two checks that a processor is missed make it silent, one isn't enough; checks are every second tick.
pub fn two_checks_make_silent()
    ensures three { (end_of one_gone (ticks 1 3)).world.downs ≡ [] }
    ensures four { (end_of one_gone (ticks 1 4)).world.downs ≡ record { node = 1; down = 0 } ∷ [] }
    ensures heard { (end_of (end_of laden (ticks 0 3)) (event.Deliver Y 0 ∷ event.Tick 0 ∷ [])).world.downs ≡ [] }
    ensures unheard { (end_of (end_of laden (ticks 0 3)) (event.Lose Y 0 ∷ event.Tick 0 ∷ [])).world.downs
        ≡ record { node = 0; down = 1 } ∷ [] }
{}

/// The line is pulled by the lowest processor other than the silent one, and when the last reports of all others have
/// it.
pub fn the_coordinator_pulls()
    ensures unreported { (end_of after_three (event.Tick 0 ∷ [])).world.stopped ≡ false ∷ false ∷ false ∷ [] }
    ensures other { (end_of after_four (event.Tick 2 ∷ event.Tick 1 ∷ [])).world.stopped ≡ false ∷ false ∷ false ∷ [] }
    ensures lowest { (end_of after_four (event.Tick 0 ∷ [])).world.stopped ≡ false ∷ true ∷ false ∷ [] }
    ensures next_lowest { (end_of first_muted (event.Tick 2 ∷ [])).world.stopped ≡ false ∷ false ∷ false ∷ [] }
    ensures pulls { (end_of first_muted (event.Tick 1 ∷ [])).world.stopped ≡ true ∷ false ∷ false ∷ [] }
{}

/// The node that pulled a line marks before it tells the others; the node of the terminals is told last, and is told.
pub fn all_others_are_told()
    ensures downs { held.world.downs ≡ record { node = 0; down = 1 } ∷ [] }
    ensures buses { (seen held).x ≡ alive 0 1 ∷ alive 0 2 ∷ last 0 2 2 ∷ last 0 16 1 ∷ [] }
    ensures terminals { told.world.downs ≡ record { node = 16; down = 0 } ∷ record { node = 1; down = 0 } ∷ [] }
{}

/// The acknowledgement goes before what the hand-over sends: told that processor 0 is down, the node of the terminals
/// asks processor 1.
pub fn an_acknowledgement_goes_first()
    ensures { (seen told).x ≡ last 0 1 3 ∷ alive 1 0 ∷ alive 1 0 ∷ alive 1 0 ∷ alive 1 0 ∷ last 1 0 1
        ∷ acknowledged 16 1 1 ∷ last 16 1 1 ∷ [] }
{}

/// What a copy that takes over tells those whose requests waited goes before what its node asks and tells again. What
/// goes to one node goes in that order too: the later message waits in the queue.
pub fn a_takeover_tells_first()
    ensures out { outgoing takeover.wires.out ≡ (X, last 3 16 1) ∷ (X, last 3 3 1) ∷ [] }
    ensures told { queued 16 ≡ words_of (Carrying disc_tells) ∷ [] }
    ensures again { queued 3 ≡ words_of (Carrying bank_asks) ∷ words_of (Carrying user_is_told) ∷ [] }
{}

/// A mark throws the channel away, and packets of the marked node are dropped: no acknowledgement goes.
pub fn a_mark_closes_the_channel()
    ensures thrown { holds_nothing (end_at taken_over.wires.nodes 1 0) ≡ true }
    ensures dropped { (seen (end_of taken_over (event.Deliver X 0 ∷ []))).x
        ≡ alive 1 0 ∷ alive 1 0 ∷ alive 1 0 ∷ alive 1 0 ∷ last 1 0 1 ∷ last 1 16 1 ∷ [] }
    ensures no_more_alive { (seen (end_of taken_over (event.Tick 1 ∷ []))).y
        ≡ alive 1 0 ∷ alive 1 0 ∷ alive 1 0 ∷ alive 1 0 ∷ [] }
{}

/// A line doesn't stop a second processor while one has stopped, and neither does a failure.
pub fn no_second_stop()
    ensures line { play second_silent (event.Tick 0) ≡ Would (SecondStop 2) }
    ensures first { (end_of none_stopped (event.Tick 0 ∷ [])).world.stopped ≡ false ∷ false ∷ true ∷ [] }
    ensures fails { play one_gone (event.Fail 1) ≡ Would (SecondStop 1) }
    ensures again { play one_gone (event.Fail 0) ≡ Skips }
{}

/// A processor that has stopped does nothing, and drops what comes to it.
pub fn who_has_stopped_does_nothing()
    ensures ticks { play one_gone (event.Tick 0) ≡ Skips }
    ensures drops { (end_of one_gone (event.Enter 0 ∷ event.Deliver X 0 ∷ [])).wires.x ≡ [] }
    ensures runs { (seen (end_of one_gone (event.Enter 0 ∷ []))).x ≡ last 16 0 1 ∷ [] }
{}

/// A node marks only what has stopped, and no processor twice.
pub fn no_mark_on_suspicion()
    ensures runs { handed 1 (Declaring 0) (underway adder_at_boot) ≡ underway adder_at_boot }
    ensures twice { (node processor : ℕ) (s : Underway) → has_marked s.world.downs node processor ≡ true
        → handed node (Declaring processor) s ≡ s }
{}

/// Words of no message are dropped, and messages that name what the site hasn't: here two processors, one process and
/// one opener.
pub fn what_is_not_there_is_dropped()
    ensures none { understood adder_at_boot.site (pos 8 ∷ pos 0 ∷ []) ≡ None }
    ensures more { understood adder_at_boot.site (pos 6 ∷ pos 0 ∷ pos 0 ∷ []) ≡ None }
    ensures down { understood adder_at_boot.site (pos 6 ∷ pos 1 ∷ []) ≡ Some (Declaring 1) }
    ensures processor { understood adder_at_boot.site (pos 6 ∷ pos 2 ∷ []) ≡ None }
    ensures terminals { understood adder_at_boot.site (pos 6 ∷ pos 16 ∷ []) ≡ None }
    ensures member { understood adder_at_boot.site (pos 5 ∷ pos 0 ∷ pos 4 ∷ []) ≡ None }
    ensures process { understood adder_at_boot.site (pos 1 ∷ pos 1 ∷ pos 0 ∷ pos 0 ∷ pos 1 ∷ pos 0 ∷ []) ≡ None }
    ensures opener { understood adder_at_boot.site (pos 1 ∷ pos 0 ∷ pos 1 ∷ pos 0 ∷ pos 1 ∷ pos 0 ∷ []) ≡ None }
{}

/// A checkpoint goes whole if it is the first of its era, or its process has sent none before it. Any other goes as
/// what changed since the one before it, in words that begin with 7: here the body, the files, and one opener, with one
/// reply added.
pub fn a_later_checkpoint_goes_as_what_changed()
    ensures none { (message : ImageMessage) → form_after message None ≡ Carrying (Checkpointing message) }
    ensures first { (message : ImageMessage) (before : Option ImageMessage) → message.number ≡ 1
        → form_after message before ≡ Carrying (Checkpointing message) }
    ensures later { (message before : ImageMessage) → (message.number ≡ 1 → ⊥)
        → form_after message (Some before) ≡ Changing (change_of before message) }
    ensures words { words_of (form_after second_one (Some first_one))
        ≡ pos 7 ∷ pos 1 ∷ pos 0 ∷ pos 0 ∷ pos 0 ∷ pos 2 ∷ pos 14 ∷ pos 1 ∷ pos 0 ∷ pos 8 ∷ pos 4 ∷ pos 4 ∷ pos 7
        ∷ pos 5 ∷ pos 0 ∷ pos 0 ∷ pos 5 ∷ pos 1 ∷ pos 1 ∷ pos 0 ∷ pos 12 ∷ pos 1 ∷ pos 1 ∷ pos 0 ∷ pos 2 ∷ pos 1
        ∷ pos 1 ∷ pos 0 ∷ pos 2 ∷ pos 1 ∷ pos 5 ∷ pos 0 ∷ [] }
{}

/// A state isn't idle while a piece is outstanding, or before every node that runs has marked what stopped.
pub fn what_is_left_is_not_idle()
    ensures outstanding { is_idle (end_of adder_at_boot up_to_checkpoint) ≡ false }
    ensures unmarked { is_idle (end_of served (event.Fail 1 ∷ [])) ≡ false }
    ensures idle { is_idle served ≡ true }
{}
