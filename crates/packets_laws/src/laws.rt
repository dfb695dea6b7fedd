//! Laws of what is played over packets.
ghost use Rattle.std.specs.Prelude.{◌≡◌, ◌≤◌, ◌⊎◌, ◌<◌, ℕ, ℤ, true, List, length, slice_get, Some};
ghost use Rattle.gd_words.specs.declared.limits.TheConstants.{MOST_PROCESSORS};
ghost use Rattle.gd_words.specs.Members.{IsAmong};
ghost use Rattle.schedule.specs.declared.bus_name.BusName.{BusName};
ghost use Rattle.packet_words.specs.declared.packet.Packet.{Packet};
ghost use Rattle.tal_tree.specs.declared.site.Site.{Site};
ghost use Rattle.schedule.specs.declared.event.Event.{Event};
ghost use Rattle.schedule.specs.declared.event.Event.TheVariants.{Deliver, Drive, Lose, Reload, Repeat, Tick};
ghost use Rattle.schedule.specs.declared.event.DriveEvent.{DriveEvent};
ghost use Rattle.change_layout.specs.Changing.{change_of};
ghost use Rattle.checkpoint_image.specs.declared.message.ImageMessage.{ImageMessage};
ghost use Rattle.computed_changes.specs.Laws.{IsSent};
ghost use Rattle.checkpoint_chains.specs.Chains.{IsNewest, IsNextTo};
ghost use Rattle.world_semantics.specs.Follows.{IsRun};
ghost use Rattle.world_semantics.specs.Laws.{IsPlaced};
ghost use Rattle.world_semantics.specs.Messages.{Checkpointing};
ghost use Rattle.world_semantics.specs.World.{Down, World, is_running};
ghost use Rattle.message_wires_laws.specs.takeover_laws.specs.Fit.{IsFit};
ghost use Rattle.message_wires_laws.specs.awaited_requests.specs.Seats.{IsLaidOut};
ghost use Rattle.letters.specs.Idle.{IsIdle, OneStops};
ghost use Rattle.letters.specs.Posts.{HasPlayed};
ghost use Rattle.letters.specs.Routes.{Letter};
ghost use Rattle.message_wires_laws.specs.machine_states.specs.States.{Makes};
ghost use Rattle.letters_layout.specs.Fitting.{IsSmall};
ghost use Rattle.channel_laws.specs.Net.{Goes, Net, reloaded_net};
ghost use Rattle.letters_layout.specs.message_layout.specs.Messages.{Carrying, Changing};
ghost use Rattle.packet_nets.specs.packet_wires.specs.Idle.{is_idle};
ghost use Rattle.packet_nets.specs.packet_wires.specs.Nodes.{end_at};
ghost use Rattle.packet_nets.specs.packet_wires.specs.Parcels.{form_of};
ghost use Rattle.packet_nets.specs.packet_wires.specs.Play.{Packeted, underway, comes_in, message_at_end, packet_at};
ghost use Rattle.packet_nets.specs.packet_wires.specs.Play.{packeted_at_boot, play};
ghost use Rattle.packet_nets.specs.packet_wires.specs.Runs.{IsPlayed};
ghost use Rattle.packets_laws.specs.Carried.{WasSentInWords};
ghost use Rattle.packets_laws.specs.Passing.{IsNetOf, IsPassed, IsTickPassed, ReloadsNone};
ghost use Rattle.packets_laws.specs.Pieces.{HandsOver};

/// Whatever fewer than 4,294,967,296 events play over packets, they do to a post of the same world; so it is a run of
/// the world. Where the state is idle, nothing is left to do for that post.
pub fn what_is_played_follows()
    ensures letters { (site : Site) (events : List Event) (s : Packeted) → IsFit site → IsSmall site → IsLaidOut site
        → length events < 4294967296
        → IsPlayed site events s → (owed : List Letter) × (sent : List Letter)
        × HasPlayed site events (record { world = s.world; owed = owed; sent = sent })
        × (is_idle s ≡ true → IsIdle site (record { world = s.world; owed = owed; sent = sent })) }
    ensures run { (site : Site) (events : List Event) (s : Packeted) → IsFit site → IsSmall site → IsLaidOut site
        → length events < 4294967296
        → IsPlayed site events s → IsRun site events s.world }
{}

/// The message that is whole as a packet comes in was pushed by the node that the packet names, to the node where it
/// comes, since both were loaded last: the site understands it. If it carries one of the world, that is of a letter
/// that the post of the state has sent between the two; if it carries a checkpoint as what changed, such a letter
/// carries that checkpoint whole, and the one before it was sent too. And a processor that it declares down has
/// stopped, or it had, and was loaded again.
pub fn what_comes_was_sent()
    ensures { (site : Site) (events : List Event) (s : Packeted) → IsFit site → IsSmall site → IsLaidOut site
        → length events < 4294967296
        → IsPlayed site events s → (owed : List Letter) × (sent : List Letter)
        × HasPlayed site events (record { world = s.world; owed = owed; sent = sent })
        × ((name : BusName) (k : ℕ) (p : Packet) (words : List ℤ) → packet_at s name k ≡ Some p
        → comes_in p (underway s) ≡ true
        → message_at_end p (end_at s.wires.nodes p.receiver p.sender) ≡ Some words
        → WasSentInWords site s.world sent p.sender p.receiver words) }
{}

/// On a site whose processes are each in two of its processors, a checkpoint that was sent last goes whole if it is the
/// first of its era, which has the number 1. Any other goes as what changed since the one before it.
pub fn later_checkpoints_go_as_what_changed()
    ensures first { (site : Site) (events : List Event) (w : World) (message : ImageMessage) → IsPlaced site
        → IsRun site events w → IsNewest w message → message.number ≡ 1
        → form_of w (Checkpointing message) ≡ Carrying (Checkpointing message) }
    ensures later { (site : Site) (events : List Event) (w : World) (message : ImageMessage) → IsPlaced site
        → IsRun site events w → IsNewest w message → (message.number ≡ 1 → ⊥)
        → (before : ImageMessage) × IsSent w (Checkpointing before)
        × IsNextTo before message × (form_of w (Checkpointing message) ≡ Changing (change_of before message)) }
{}

/// A delivery leaves the world as it was, or the packet was the last piece of a message, its receiver runs, and it was
/// sent since both nodes were loaded last. What is lost or repeated leaves the world as it was.
pub fn only_a_last_piece_hands_over()
    ensures deliver { (s next : Packeted) (bus : BusName) (k : ℕ) → play s (Deliver bus k) ≡ Makes next
        → (next.world ≡ s.world) ⊎ HandsOver s bus k }
    ensures lose { (s next : Packeted) (bus : BusName) (k : ℕ) → play s (Lose bus k) ≡ Makes next
        → next.world ≡ s.world }
    ensures repeat { (s next : Packeted) (bus : BusName) (k : ℕ) → play s (Repeat bus k) ≡ Makes next
        → next.world ≡ s.world }
    ensures drive { (s next : Packeted) (event : DriveEvent) → play s (Drive event) ≡ Makes next
        → next.world ≡ s.world }
{}

/// A node has marked only what has stopped, and all marks of a run name one processor.
pub fn only_what_has_stopped_is_marked()
    ensures stopped { (site : Site) (events : List Event) (s : Packeted) (mark : Down) → IsFit site → IsSmall site
        → IsLaidOut site → length events < 4294967296
        → IsPlayed site events s → IsAmong mark s.world.downs → slice_get s.world.stopped mark.down ≡ Some true }
    ensures one { (site : Site) (events : List Event) (s : Packeted) (one : Down) (other : Down) → IsFit site
        → IsSmall site → IsLaidOut site
        → length events < 4294967296 → IsPlayed site events s → IsAmong one s.world.downs → IsAmong other s.world.downs
        → one.down ≡ other.down }
{}

/// Whatever is played, at most one processor has stopped: no second one stops before the first one is loaded again.
pub fn at_most_one_processor_has_stopped()
    ensures { (site : Site) (events : List Event) (s : Packeted) → IsPlayed site events s → OneStops s.world }
{}

/// What is played goes on in the net of channels: at the beginning the wires are those of a net, and each event that
/// loads no processor again leads from the net of its state to that of the next one, by steps of the net between any
/// two nodes that still run after it. One that loads a processor again is the one step of the net that loads it. On the
/// way of a tick each end of its node ticks with a node that runs.
pub fn what_is_played_goes_on_in_the_net()
    ensures begins { (site : Site) → (n : Net) × IsNetOf (packeted_at_boot site) n }
    ensures event { (s : Packeted) (event : Event) (next : Packeted) (n : Net) (a b : ℕ)
        → length s.world.stopped ≤ MOST_PROCESSORS → IsNetOf s n → ReloadsNone event
        → play s event ≡ Makes next → is_running next.world.stopped a ≡ true → is_running next.world.stopped b ≡ true
        → IsPassed a b s event next n }
    ensures reload { (s next : Packeted) (processor : ℕ) (n : Net) → IsNetOf s n
        → play s (Reload processor) ≡ Makes next
        → Goes n (reloaded_net processor n) × IsNetOf next (reloaded_net processor n) }
    ensures tick { (s next : Packeted) (n : Net) (a b : ℕ) → length s.world.stopped ≤ MOST_PROCESSORS → IsNetOf s n
        → play s (Tick a) ≡ Makes next
        → is_running next.world.stopped a ≡ true → is_running next.world.stopped b ≡ true → IsTickPassed a b s next n }
{}
