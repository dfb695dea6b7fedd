//! Laws of links and changes.
ghost use Rattle.std.specs.Prelude.{◌≡◌, ◌≢◌, ◌⊎◌, ◌≤◌, ◌<◌, ℕ, ℤ, List, length};
ghost use Rattle.gd_words.specs.Members.{IsAmong};
ghost use Rattle.gd_words.specs.declared.message.Reply.{Reply};
ghost use Rattle.gd_words.specs.declared.message.Request.{Request};
ghost use Rattle.tal_tree.specs.declared.site.Site.{Site};
ghost use Rattle.schedule.specs.declared.event.Event.{Event};
ghost use Rattle.world_semantics.specs.Follows.{IsRun};
ghost use Rattle.world_semantics.specs.Messages.{Asking, Cause, Handing, MarkingDown, Replying, Running, Sending};
ghost use Rattle.world_semantics.specs.Messages.{Reloading, Stopping};
ghost use Rattle.world_semantics.specs.Rules.{Change};
ghost use Rattle.world_semantics.specs.World.{World, terminal_node};
ghost use Rattle.computed_changes.specs.Laws.{HasCopiesApart};
ghost use Rattle.served_requests.specs.letter_laws.specs.takeover_laws.specs.Fit.{IsFit};
ghost use Rattle.letters.specs.Again.{sent_again};
ghost use Rattle.standing_links.specs.Needs.{name_of, nothing};
ghost use Rattle.node_needs.specs.NodeNeeds.{needs_at};
ghost use Rattle.link_laws.specs.Effects.{HasAskedMore, HasHeldMore, IsDropped, StandApart, answered_name};
ghost use Rattle.link_laws.specs.Effects.{request_for};

/// In a run each request that waits at a node has one link there.
pub fn a_request_that_waits_has_one_link()
    ensures { (site : Site) (events : List Event) (w : World) (node : ℕ) → HasCopiesApart site → IsRun site events w
        → StandApart (needs_at site w node).waiting }
{}

/// A request that a copy or a terminal sends is linked at its node, and no other link changes there. What a node sends
/// again as it marks a processor has its link.
pub fn a_request_that_is_sent_is_linked()
    ensures sent { (site : Site) (events : List Event) (w next : World) (cause : Cause) (sendings : List Sending)
        (node : ℕ) (request : Request) → IsFit site → length events < 4294967296 → IsRun site events w
        → Change site w cause sendings next
        → IsAmong (record { node = node; message = Asking request }) sendings
        → HasAskedMore request (needs_at site w node) (needs_at site next node) }
    ensures again { (site : Site) (before next : World) (node processor at : ℕ) (request : Request)
        → IsAmong (record { node = at; message = Asking request }) (sent_again site before next node processor)
        → IsAmong request (needs_at site next at).awaited }
{}

/// A reply ends both links of its request, and no other one: at the node whose copy answers it, and at that where it is
/// got or printed.
pub fn a_reply_ends_the_links_of_its_request()
    ensures server { (site : Site) (events : List Event) (w next : World) (number : ℕ) (sendings : List Sending)
        (node : ℕ) (reply : Reply) → IsFit site → length events < 4294967296 → IsRun site events w
        → Change site w (Running number) sendings next
        → IsAmong (record { node = node; message = Replying reply }) sendings
        → HasHeldMore (answered_name reply) (needs_at site next node) (needs_at site w node) }
    ensures requester { (site : Site) (events : List Event) (w next : World) (node : ℕ) (reply : Reply)
        (sendings : List Sending) → IsFit site → length events < 4294967296 → IsRun site events w
        → Change site w (Handing node (Replying reply)) sendings next
        → (words : List ℤ)
        × HasAskedMore (request_for reply words) (needs_at site next node) (needs_at site w node) }
{}

/// A request that waits has its link until a copy takes it, and then the copy has it in hand.
pub fn a_request_that_waits_keeps_its_link_as_it_is_taken()
    ensures { (site : Site) (events : List Event) (w next : World) (number : ℕ) (sendings : List Sending) (node : ℕ)
        (request : Request) → IsRun site events w → Change site w (Running number) sendings next
        → IsAmong request (needs_at site w node).waiting
        → IsAmong request (needs_at site next node).waiting
        ⊎ IsAmong (name_of request) (needs_at site next node).in_hand }
{}

/// A request that comes to a node ends the link of none that waits there, unless it is a later one of the same opener.
/// And no other request comes to wait.
pub fn a_request_that_comes_leaves_the_links_of_others()
    ensures stays { (site : Site) (events : List Event) (w next : World) (node : ℕ) (request one : Request)
        (sendings : List Sending) → IsRun site events w
        → Change site w (Handing node (Asking request)) sendings next
        → IsAmong one (needs_at site w node).waiting
        → (one.process ≡ request.process → one.opener ≡ request.opener → request.number ≤ one.number)
        → IsAmong one (needs_at site next node).waiting }
    ensures comes { (site : Site) (w next : World) (node : ℕ) (request one : Request) (sendings : List Sending)
        → Change site w (Handing node (Asking request)) sendings next
        → IsAmong one (needs_at site next node).waiting
        → (one ≡ request) ⊎ IsAmong one (needs_at site w node).waiting }
{}

/// A mark leaves the links of all requests that wait, but for those that a copy drops which takes over.
pub fn a_mark_ends_the_links_of_what_is_dropped()
    ensures { (site : Site) (w next : World) (node processor at : ℕ) (one : Request) (sendings : List Sending)
        → Change site w (MarkingDown node processor) sendings next
        → IsAmong one (needs_at site w at).waiting
        → IsAmong one (needs_at site next at).waiting ⊎ IsDropped w one }
{}

/// Where a processor stops, all its links end.
pub fn a_stop_ends_all_links_of_its_processor()
    ensures { (site : Site) (w next : World) (processor : ℕ) (sendings : List Sending)
        → Change site w (Stopping processor) sendings next → processor ≢ terminal_node
        → needs_at site next processor ≡ nothing }
{}

/// A processor that is loaded again has no links.
pub fn a_processor_begins_without_links()
    ensures { (site : Site) (w next : World) (processor : ℕ) (sendings : List Sending)
        → Change site w (Reloading processor) sendings next → processor ≢ terminal_node
        → needs_at site next processor ≡ nothing }
{}
