//! Laws of the messages that come: what may be applied, acknowledged, got and printed, and what waits.
ghost use Rattle.std.specs.Prelude.{◌≡◌, ◌≤◌, ◌⊎◌, ℕ, ◌+◌, ℤ, List, ◌++◌, slice_get, Some, true, false};
ghost use Rattle.checkpoint_image.specs.gd_words.specs.Members.{IsAmong};
ghost use Rattle.checkpoint_image.specs.gd_words.specs.declared.message.Request.{Request};
ghost use Rattle.checkpoint_image.specs.gd_words.specs.declared.message.Reply.{Reply};
ghost use Rattle.checkpoint_image.specs.tal_tree.specs.declared.act.Shown.{Shown};
ghost use Rattle.checkpoint_image.specs.tal_tree.specs.declared.act.Shown.TheVariants as shown;
ghost use Rattle.checkpoint_image.specs.tal_tree.specs.declared.site.Site.{Site};
ghost use Rattle.schedule.specs.declared.event.Event.{Event};
ghost use Rattle.plain_semantics.specs.process_semantics.specs.Process.{after_got};
ghost use Rattle.checkpoint_image.specs.declared.message.ImageMessage.{ImageMessage};
ghost use Rattle.checkpoint_image.specs.declared.message.TakenMessage.{TakenMessage};
ghost use Rattle.checkpoint_image.specs.declared.receive.RequestStanding.TheVariants.{Next, Ahead};
ghost use Rattle.world_semantics.specs.declared.role.Role.TheVariants.{Acting, Watching};
ghost use Rattle.world_semantics.specs.World.{Pair, Terminal, World, Which, copy_of, other_of, receives};
ghost use Rattle.world_semantics.specs.World.{terminal_node};
ghost use Rattle.checkpoint_image.specs.Receive.{request_standing, reply_to};
ghost use Rattle.world_semantics.specs.Follows.{IsRun};
ghost use Rattle.world_semantics.specs.Messages.{Asking, Replying, Checkpointing, Taking, Cause, Sending, Entering};
ghost use Rattle.world_semantics.specs.Messages.{Handing, MarkingDown, Reloading};
ghost use Rattle.world_semantics.specs.Rules.{Change};
ghost use Rattle.world_semantics.specs.Laws.{HasStayed, IsNextFor, HasApplied, Acknowledges, KeepsUp, HasTakenOver};
ghost use Rattle.world_semantics.specs.Laws.{HasSentWhatItHas, Awaits, AwaitsAt, KeepsReplyTo, IsNextOf, IsPlaced};
ghost use Rattle.world_semantics.specs.Laws.{waiting_of};

/// A checkpoint of another era, or of another number than the next, is never applied: what a copy that watches or is
/// blank has, and the number of its last checkpoint, change only by a checkpoint of its process that comes to it, is of
/// its own era and has the number next to its own, or when its processor is loaded again. A checkpoint that comes
/// changes no other copy's.
pub fn checkpoints_are_applied_in_order()
    ensures receiving { (site : Site) (w next : World) (cause : Cause) (sendings : List Sending) (number : ℕ)
        (before after : Pair) (k : Which)
        → Change site w cause sendings next → slice_get w.processes number ≡ Some before
        → slice_get next.processes number ≡ Some after → receives (copy_of k before).role ≡ true
        → HasStayed (copy_of k before) (copy_of k after)
        ⊎ (((message : ImageMessage) × (cause ≡ Handing (copy_of k before).processor (Checkpointing message))
        × IsAmong message before.checkpoints × IsNextFor (copy_of k before) message
        × HasApplied (copy_of k before) message (copy_of k after))
        ⊎ (cause ≡ Reloading (copy_of k before).processor)) }
    ensures others { (site : Site) (w next : World) (node : ℕ) (message : ImageMessage) (sendings : List Sending)
        (number : ℕ) (before after : Pair) (k : Which)
        → Change site w (Handing node (Checkpointing message)) sendings next
        → slice_get w.processes number ≡ Some before → slice_get next.processes number ≡ Some after
        → receives (copy_of k before).role ≡ false → HasStayed (copy_of k before) (copy_of k after) }
{}

/// A copy's checkpoint becomes acknowledged only where the copy acts and has sent it, and a message comes that the
/// checkpoint of just this era and number was taken.
pub fn only_a_sent_checkpoint_is_acknowledged()
    ensures { (site : Site) (w next : World) (cause : Cause) (sendings : List Sending) (number : ℕ)
        (before after : Pair) (k : Which)
        → Change site w cause sendings next → slice_get w.processes number ≡ Some before
        → slice_get next.processes number ≡ Some after
        → (copy_of k before).acknowledged ≡ false → (copy_of k after).acknowledged ≡ true
        → (taken : TakenMessage) × (cause ≡ Handing (copy_of k before).processor (Taking taken))
        × IsAmong taken before.takens × Acknowledges (copy_of k before) taken }
{}

/// In a run a copy that acts and has sent stands at its checkpoint, and that, with what it has, is among those sent; or
/// one of everything is, and it awaits no reply.
pub fn a_copy_has_sent_what_it_has()
    ensures { (site : Site) (events : List Event) (w : World) (number : ℕ) (pair : Pair) (k : Which)
        → IsRun site events w → slice_get w.processes number ≡ Some pair
        → (copy_of k pair).role ≡ Acting → (copy_of k pair).sent ≡ true
        → HasSentWhatItHas number (copy_of k pair) pair.checkpoints }
{}

/// In a run of a site whose processes are each in two of its processors, a copy that watches or is blank is of the
/// other copy's era and at most one checkpoint behind it, and has applied what is acknowledged.
pub fn a_receiving_copy_keeps_up()
    ensures { (site : Site) (events : List Event) (w : World) (number : ℕ) (pair : Pair) (k : Which) → IsPlaced site
        → IsRun site events w → slice_get w.processes number ≡ Some pair
        → receives (copy_of k pair).role ≡ true → KeepsUp (copy_of k pair) (copy_of (other_of k) pair) }
{}

/// A copy that watches acts only where its node marks the other copy's processor: in the next era, with checkpoint
/// number 0, from the base on, and with nothing held.
pub fn a_takeover_begins_an_era()
    ensures { (site : Site) (w next : World) (cause : Cause) (sendings : List Sending) (number : ℕ)
        (before after : Pair) (k : Which)
        → Change site w cause sendings next → slice_get w.processes number ≡ Some before
        → slice_get next.processes number ≡ Some after
        → (copy_of k before).role ≡ Watching → (copy_of k after).role ≡ Acting
        → (cause ≡ MarkingDown (copy_of k before).processor (copy_of (other_of k) before).processor)
        × HasTakenOver before.base (copy_of k before) (copy_of k after) }
{}

/// A reply that comes changes what a copy has only where it comes to a copy that acts and awaits the reply of this
/// number on the file on which it asked, and gives it the reply's words.
pub fn only_the_awaited_reply_is_got()
    ensures { (site : Site) (w next : World) (node : ℕ) (reply : Reply) (sendings : List Sending) (number : ℕ)
        (before after : Pair) (k : Which)
        → Change site w (Handing node (Replying reply)) sendings next → slice_get w.processes number ≡ Some before
        → slice_get next.processes number ≡ Some after
        → ((copy_of k after).core ≡ (copy_of k before).core)
        ⊎ (((copy_of k before).processor ≡ node) × Awaits site number (copy_of k before) reply
        × ((copy_of k after).core.state ≡ after_got (copy_of k before).core.state reply.words)) }
{}

/// A reply is shown only where it comes to a terminal that awaits the reply of this number from its own server, and the
/// terminal then awaits it no more.
pub fn only_the_awaited_reply_is_printed()
    ensures { (site : Site) (w next : World) (cause : Cause) (sendings : List Sending) (more : List Shown)
        (terminal number : ℕ) (words : List ℤ)
        → Change site w cause sendings next → next.shown ≡ more ++ w.shown
        → IsAmong (shown.Reply terminal number words) more
        → (reply : Reply) × (cause ≡ Handing terminal_node (Replying reply)) × (number ≡ reply.number)
        × (words ≡ reply.words) × AwaitsAt site w terminal reply
        × (AwaitsAt site next terminal reply → ⊥) }
{}

/// What is sent where a request comes is the reply to just this request which a copy that acts there keeps.
pub fn only_a_kept_reply_is_sent_again()
    ensures { (site : Site) (w next : World) (node : ℕ) (request : Request) (sendings : List Sending)
        (sending : Sending)
        → Change site w (Handing node (Asking request)) sendings next → IsAmong sending sendings
        → (words : List ℤ) × KeepsReplyTo w node request words
        × (sending ≡ record { node = node; message = Replying (reply_to request words) }) }
{}

/// What a terminal enters is its next request.
pub fn a_terminal_enters_its_next_request()
    ensures { (site : Site) (w next : World) (number : ℕ) (terminal : Terminal) (sendings : List Sending)
        (sending : Sending) → Change site w (Entering number) sendings next
        → slice_get w.terminals number ≡ Some terminal → IsAmong sending sendings
        → (request : Request) × (sending ≡ record { node = terminal_node; message = Asking request })
        × IsNextOf site number terminal request }
{}

/// In a run of one opener at most one request waits at a copy.
pub fn one_request_of_an_opener_waits()
    ensures { (site : Site) (events : List Event) (w : World) (number opener : ℕ) (pair : Pair) (k : Which)
        → IsRun site events w
        → slice_get w.processes number ≡ Some pair → waiting_of opener (copy_of k pair).waiting ≤ 1 }
{}

/// In a run what waits at a copy that acts stands next, or is ahead of the next: what was taken doesn't wait.
pub fn what_was_taken_does_not_wait()
    ensures { (site : Site) (events : List Event) (w : World) (number : ℕ) (pair : Pair) (k : Which)
        (request : Request) → IsRun site events w
        → slice_get w.processes number ≡ Some pair → (copy_of k pair).role ≡ Acting
        → IsAmong request (copy_of k pair).waiting
        → (request_standing (copy_of k pair).core.receive request ≡ Next)
        ⊎ (request_standing (copy_of k pair).core.receive request ≡ Ahead) }
{}

/// In a run a terminal awaits at most one reply: it has printed as many replies as it has entered requests, or one
/// less.
pub fn a_terminal_awaits_one_reply()
    ensures { (site : Site) (events : List Event) (w : World) (number : ℕ) (terminal : Terminal) → IsRun site events w
        → slice_get w.terminals number ≡ Some terminal
        → (terminal.printed ≤ terminal.entered) × (terminal.entered ≤ terminal.printed + 1) }
{}
