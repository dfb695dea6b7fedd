//! What wires owe, change by change.
ghost use Rattle.std.specs.Prelude.{◌≡◌, ◌<◌, ℕ, ◌+◌, Bool, true, false, List, [], ◌++◌, replicate, slice_get};
ghost use Rattle.std.specs.Prelude.{Some, slice_set};
ghost use Rattle.gd_words.specs.Members.{IsAmong};
ghost use Rattle.gd_words.specs.declared.limits.TheConstants.{MOST_PROCESSORS};
ghost use Rattle.tal_tree.specs.declared.site.Site.{Site};
ghost use Rattle.packet_words.specs.declared.packet.Packet.{Packet};
ghost use Rattle.world_semantics.specs.World.{is_running};
ghost use Rattle.message_layout.specs.Layout.{Fits};
ghost use Rattle.packet_wires.specs.Parcels.{Parcel};
ghost use Rattle.packet_wires.specs.Wires.{Midst, Wires, all_posted, cut_off, declares, loaded_again, midst_after_tick};
ghost use Rattle.packet_wires.specs.Wires.{wires_at_boot, with_sent};
ghost use Rattle.packet_nets.specs.Owing.{IsContent, Ties, TiesAtRest, on_both, without_those_between};
ghost use Rattle.packet_nets.specs.Owing.{without_those_of};

/// At the beginning nothing is owed.
pub fn wires_begin_owing_nothing()
    ensures { (site : Site) → TiesAtRest site (replicate site.processors false) (replicate site.processors 0)
        (wires_at_boot site.processors) [] [] }
{}

/// Parcels that are posted are owed behind those that were.
pub fn what_is_posted_is_owed()
    ensures { (site : Site) (stopped : List Bool) (reloads : List ℕ) (on : List Packet) (midst : Midst)
        (owed : List Parcel)
        (sent : List Parcel) (parcels : List Parcel)
        → Ties site stopped reloads on midst owed sent → ((parcel : Parcel) → IsAmong parcel parcels
        → IsContent parcel.content × Fits site parcel.content × IsAmong parcel sent)
        → Ties site stopped reloads on (all_posted stopped parcels midst) (owed ++ parcels) sent }
{}

/// What a node sends at its ticks, and by which it declares a stopped processor down, changes nothing that is owed.
pub fn ticks_owe_nothing_more()
    ensures tick { (site : Site) (stopped : List Bool) (reloads : List ℕ) (on : List Packet) (midst : Midst)
        (owed : List Parcel)
        (sent : List Parcel) (node : ℕ)
        → is_running stopped node ≡ true → Ties site stopped reloads on midst owed sent
        → Ties site stopped reloads on (midst_after_tick site.processors node midst) owed sent }
    ensures declare { (site : Site) (stopped : List Bool) (reloads : List ℕ) (on : List Packet) (midst : Midst)
        (owed : List Parcel)
        (sent : List Parcel) (node processor : ℕ)
        → is_running stopped node ≡ true → processor < MOST_PROCESSORS → slice_get stopped processor ≡ Some true
        → Ties site stopped reloads on midst owed sent
        → Ties site stopped reloads on (declares site.processors node processor midst) owed sent }
{}

/// When a node cuts a stopped processor off, what was owed between both is owed no more.
pub fn what_is_cut_off_is_struck_off()
    ensures { (site : Site) (stopped : List Bool) (reloads : List ℕ) (on : List Packet) (midst : Midst)
        (owed : List Parcel)
        (sent : List Parcel) (node processor : ℕ)
        → is_running stopped node ≡ true → slice_get stopped processor ≡ Some true
        → Ties site stopped reloads on midst owed sent
        → Ties site stopped reloads on (cut_off node processor midst) (without_those_between node processor owed) sent }
{}

/// When an event is over, and what it sent is put on the buses, as much is owed.
pub fn what_is_sent_is_in_flight()
    ensures { (site : Site) (stopped : List Bool) (reloads : List ℕ) (wires : Wires) (midst : Midst)
        (owed : List Parcel)
        (sent : List Parcel)
        → Ties site stopped reloads (on_both wires) midst owed sent
        → TiesAtRest site stopped reloads (with_sent midst wires) owed sent }
{}

/// When a processor that has stopped is loaded again, what was owed from it or to it is owed no more, and what was sent
/// from it or to it before never comes.
pub fn what_was_sent_before_a_reload_is_struck_off()
    ensures { (site : Site) (stopped : List Bool) (reloads : List ℕ) (on : List Packet) (midst : Midst)
        (owed : List Parcel) (sent : List Parcel) (processor times : ℕ)
        → slice_get stopped processor ≡ Some true → slice_get reloads processor ≡ Some times
        → Ties site stopped reloads on midst owed sent
        → Ties site (slice_set stopped processor false) (slice_set reloads processor (times + 1)) on
        (loaded_again site.processors processor midst) (without_those_of processor owed)
        (without_those_of processor sent) }
{}
