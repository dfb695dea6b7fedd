//! Laws of the numbers of what is played over packets.
ghost use Rattle.std.specs.Prelude.{◌≡◌, ◌≤◌, ◌<◌, ℕ, List, length, slice_get, Some};
ghost use Rattle.tal_tree.specs.declared.site.Site.{Site};
ghost use Rattle.schedule.specs.declared.event.Event.{Event};
ghost use Rattle.plain_semantics.specs.SiteLimits.{KeepsSiteLimits};
ghost use Rattle.packets_played.specs.accepted_sites.specs.Premises.{IsAcceptedSite};
ghost use Rattle.number_laws.specs.message_wires.specs.HasRoom.{WorldHasRoom};
ghost use Rattle.computed_changes.specs.Laws.{HasCopiesApart};
ghost use Rattle.packets_played.specs.takeover_laws.specs.Fit.{IsFit};
ghost use Rattle.packets_played.specs.awaited_requests.specs.Seats.{IsLaidOut};
ghost use Rattle.letters.specs.Posts.{Post, HasPlayed};
ghost use Rattle.packets_played.specs.letters_layout.specs.Fitting.{IsSmall};
ghost use Rattle.link_control.specs.Ends.{End};
ghost use Rattle.site_machine.specs.packet_wires.specs.Nodes.{Node};
ghost use Rattle.site_machine.specs.packet_wires.specs.Play.{Packeted};
ghost use Rattle.site_machine.specs.packet_wires.specs.Runs.{IsPlayed};
ghost use Rattle.site_machine.specs.Needs.{HaveNumbersLeft, IsReady, SendsWithin};

/// At each end of each node at most as many pieces were numbered as events were played, and at most as many kept: an
/// event numbers at most one piece at an end, and keeps at most one there. So each end can number one more piece and
/// keep one more after fewer than 4,294,967,295 events.
pub fn numbers_are_left()
    ensures few { (site : Site) (events : List Event) (s : Packeted) (x y : ℕ) (node : Node) (e : End)
        → IsPlayed site events s → slice_get s.wires.nodes x ≡ Some node → slice_get node.ends y ≡ Some e
        → (e.sending.numbered ≤ length events) × (e.receiving.kept ≤ length events) }
    ensures left { (site : Site) (events : List Event) (s : Packeted) → IsPlayed site events s
        → length events < 4294967295 → HaveNumbersLeft s.wires.nodes }
{}

/// In fewer than 4,294,967,294 events of a fit site within its limits, whatever changes the world next sends messages
/// that keep to the layout.
pub fn what_is_sent_is_within()
    ensures { (site : Site) (events : List Event) (post : Post) → IsFit site → IsSmall site → IsLaidOut site
        → length events < 4294967294 → HasPlayed site events post → SendsWithin site post.world }
{}

/// After fewer than 4,294,967,294 events each number in the world of a post has a successor, on a fit site whose
/// processes have their copies in two processors.
pub fn the_world_has_room()
    ensures { (site : Site) (events : List Event) (post : Post) → IsFit site → HasCopiesApart site
        → length events < 4294967294 → HasPlayed site events post → WorldHasRoom post.world }
{}

/// Whatever fewer than 4,294,967,294 events play over packets on a fit site within its limits, the state is ready for
/// the next event: the world has room, each end has numbers left and bears how often its nodes were loaded again, and
/// what is sent next keeps to the layout.
pub fn what_is_played_is_ready()
    ensures { (site : Site) (events : List Event) (s : Packeted) → IsFit site → IsSmall site → IsLaidOut site
        → length events < 4294967294 → IsPlayed site events s → IsReady s }
{}

/// Let each pair of a site run a program that was read and is accepted, and let the site keep the limits and have its
/// processes laid out over its processors. Then whatever fewer than 4,294,967,294 events play, the state is ready for
/// the next event.
pub fn accepted_sites_are_ready()
    ensures { (site : Site) (events : List Event) (s : Packeted) → IsAcceptedSite site → KeepsSiteLimits site
        → IsLaidOut site → length events < 4294967294 → IsPlayed site events s → IsReady s }
{}
