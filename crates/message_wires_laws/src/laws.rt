//! Laws of what is played.
ghost use Rattle.std.specs.Prelude.{◌≡◌, ◌≢◌, ◌⊎◌, ◌↔◌, ℕ, ◌<◌, true, false, List, length, slice_get, Some};
ghost use Rattle.gd_words.specs.Members.{IsAmong};
ghost use Rattle.tal_tree.specs.declared.site.Site.{Site};
ghost use Rattle.schedule.specs.declared.event.Event.{Event};
ghost use Rattle.schedule.specs.declared.event.Event.TheVariants.{Fail, Tick};
ghost use Rattle.world_semantics.specs.Follows.{IsRun};
ghost use Rattle.world_semantics.specs.World.{is_running, is_whole, has_marked};
ghost use Rattle.computed_changes.specs.Laws.{HasCopiesApart, IsSent};
ghost use Rattle.letter_laws.specs.takeover_laws.specs.Fit.{IsFit};
ghost use Rattle.letters.specs.Idle.{IsIdle, OneStops};
ghost use Rattle.letters.specs.Posts.{HasPlayed};
ghost use Rattle.letters.specs.Routes.{Letter};
ghost use Rattle.message_wires.specs.machine_states.specs.States.{Makes};
ghost use Rattle.message_wires.specs.Idle.{is_idle};
ghost use Rattle.message_wires.specs.Play.{MachineState, play};
ghost use Rattle.message_wires.specs.Runs.{IsPlayed, post_of};
ghost use Rattle.message_wires.specs.Wires.{Sent, has_room, is_on, is_current};
ghost use Rattle.message_wires_laws.specs.Carried.{IsOn};

/// What is played of a fit site, each of whose processes has its copies in two processors, is what its events do to a
/// post: what is owed on the wires is owed by the post, and each packet on the bus that isn't older than the last load
/// of one of its nodes carries a letter that may come. It is a run of the world, and what is on the wires, old packets
/// too, was sent in it.
pub fn what_is_played_follows()
    ensures letters { (site : Site) (events : List Event) (s : MachineState) → IsFit site → HasCopiesApart site
        → length events < 4294967296 → IsPlayed site events s
        → (sent : List Letter) × HasPlayed site events (post_of s sent)
        × ((packet : Sent) → IsAmong packet s.wires.bus → is_current s.wires.before packet ≡ true
        → IsAmong packet.letter sent) }
    ensures run { (site : Site) (events : List Event) (s : MachineState) → IsFit site → HasCopiesApart site
        → length events < 4294967296 → IsPlayed site events s
        → IsRun site events s.world }
    ensures sent { (site : Site) (events : List Event) (s : MachineState) (one : Sent) → IsFit site
        → HasCopiesApart site → length events < 4294967296 → IsPlayed site events s
        → IsOn one s.wires → IsSent s.world one.letter.message }
{}

/// Whatever is played, no second processor stops while one has stopped: it would have to be loaded again before.
pub fn at_most_one_processor_has_stopped()
    ensures { (site : Site) (events : List Event) (s : MachineState) → IsPlayed site events s → OneStops s.world }
{}

/// A world that is whole stays so, whatever is played, until a processor stops.
pub fn a_whole_world_stays_whole()
    ensures { (s next : MachineState) (event : Event) → is_whole s.world ≡ true
        → ((processor : ℕ) → event ≢ Fail processor) → play s event ≡ Makes next
        → is_whole next.world ≡ true }
{}

/// After the tick of a node each letter that it sent, and that is owed to a node that runs, has a packet on the bus,
/// unless the bus is full.
pub fn what_is_owed_is_put_again()
    ensures { (s next : MachineState) (node : ℕ) (one : Sent) → play s (Tick node) ≡ Makes next
        → IsAmong one next.wires.owed → one.letter.sender ≡ node
        → is_running next.world.stopped one.letter.receiver ≡ true
        → (is_on next.wires.bus one.number ≡ true) ⊎ (has_room next.wires.bus ≡ false) }
{}

/// After the tick of a node it has marked each processor that has stopped.
pub fn what_has_stopped_is_marked()
    ensures { (s next : MachineState) (node processor : ℕ) → play s (Tick node) ≡ Makes next
        → slice_get next.world.stopped processor ≡ Some true
        → has_marked next.world.downs node processor ≡ true }
{}

/// Whether a state is idle is computed: it is where nothing is left to do for its post.
pub fn an_idle_state_is_idle()
    ensures { (s : MachineState) (sent : List Letter) → (is_idle s ≡ true ↔ IsIdle s.site (post_of s sent)) }
{}
