ghost use Rattle.std.specs.Prelude.{◌≡◌, ◌≢◌, ℕ, ◌+◌, ℤ, true, false, pos, List, [], ◌∷◌, slice_get, Some, None};
ghost use Rattle.tal_tree.specs.gd_words.specs.declared.message.Request.{Request};
ghost use Rattle.tal_tree.specs.gd_words.specs.declared.message.Reply.{Reply};
ghost use Rattle.tal_tree.specs.declared.site.Site.{Site};
ghost use Rattle.tal_tree.specs.declared.site.Who.TheVariants.{File, Terminal};
ghost use Rattle.world_semantics.specs.process_semantics.specs.declared.point.Point.TheVariants.{Await};
ghost use Rattle.world_semantics.specs.process_semantics.specs.Process.{point, asked_file};
ghost use Rattle.world_semantics.specs.plain_semantics.specs.Machine.{next_request};
ghost use Rattle.world_semantics.specs.plain_semantics.specs.Openers.{opener_of};
ghost use Rattle.world_semantics.specs.checkpoint_image.specs.declared.message.ImageMessage.{ImageMessage};
ghost use Rattle.world_semantics.specs.checkpoint_image.specs.declared.message.TakenMessage.{TakenMessage};
ghost use Rattle.world_semantics.specs.checkpoint_image.specs.declared.receive.RequestStanding.TheVariants.{Kept};
ghost use Rattle.world_semantics.specs.checkpoint_image.specs.Receive.{request_standing, reply_to};
ghost use Rattle.world_semantics.specs.declared.role.Role.TheVariants.{Acting, Watching, Blank, Gone};
ghost use Rattle.world_semantics.specs.Core.{Core, next_on};
ghost use Rattle.world_semantics.specs.declared.which.Which.{Which};
ghost use Rattle.world_semantics.specs.declared.which.Which.TheVariants.{First, Second};
ghost use Rattle.world_semantics.specs.World.{Pair, World, copy_of, terminal_node, is_running, has_marked};
ghost use Rattle.world_semantics.specs.World.{is_marked_by_all, is_whole, Terminal as AtTerminal};
ghost use Rattle.world_semantics.specs.Messages.{Asking, Replying, Checkpointing, Taking};
ghost use Rattle.world_semantics.specs.Running.{Done, sendings_of};
ghost use Rattle.change_layout.specs.declared.message.ChangeMessage.{ChangeMessage};
ghost use Rattle.change_layout.specs.sync_ids.specs.Changes.{fits_change};
ghost use Rattle.computed_changes.specs.Changed.{change_done};
ghost use Rattle.computed_changes.specs.Entered.{enter_done};
ghost use Rattle.computed_changes.specs.Fitting.{depths_of, fits};
ghost use Rattle.computed_changes.specs.Handed.{copy_in, handed_done};
ghost use Rattle.computed_changes.specs.Stopped.{stop_done, down_done, reload_done};
ghost use Rattle.computed_changes.specs.Laws.{IsCopyAt, GoesTo};

/// A process has no copy at a node that is neither of its two processors.
pub fn a_copy_is_in_its_processor()
    ensures first { (pair : Pair) → copy_in pair.first.processor pair ≡ Some First }
    ensures second { (pair : Pair) → pair.first.processor ≢ pair.second.processor
        → copy_in pair.second.processor pair ≡ Some Second }
    ensures none { (node : ℕ) (pair : Pair) → pair.first.processor ≢ node → pair.second.processor ≢ node
        → copy_in node pair ≡ None }
{}

/// A checkpoint of another era or of another number than the next isn't applied, nor is one that doesn't fit, nor does
/// a copy apply any that acts or is gone.
pub fn only_the_next_checkpoint_is_applied()
    ensures era { (site : Site) (w : World) (node : ℕ) (message : ImageMessage) (k : Which) (pair : Pair)
        → IsCopyAt w node message.process k pair
        → message.era ≢ (copy_of k pair).era → handed_done site node (Checkpointing message) w ≡ None }
    ensures number { (site : Site) (w : World) (node : ℕ) (message : ImageMessage) (k : Which) (pair : Pair)
        → IsCopyAt w node message.process k pair
        → message.number ≢ (copy_of k pair).number + 1 → handed_done site node (Checkpointing message) w ≡ None }
    ensures misfit { (site : Site) (w : World) (node : ℕ) (message : ImageMessage) (k : Which) (pair : Pair)
        → IsCopyAt w node message.process k pair
        → fits (depths_of site message.process) (copy_of k pair).core message.image ≡ false
        → handed_done site node (Checkpointing message) w ≡ None }
    ensures acting { (site : Site) (w : World) (node : ℕ) (message : ImageMessage) (k : Which) (pair : Pair)
        → IsCopyAt w node message.process k pair
        → (copy_of k pair).role ≡ Acting → handed_done site node (Checkpointing message) w ≡ None }
    ensures gone { (site : Site) (w : World) (node : ℕ) (message : ImageMessage) (k : Which) (pair : Pair)
        → IsCopyAt w node message.process k pair
        → (copy_of k pair).role ≡ Gone → handed_done site node (Checkpointing message) w ≡ None }
{}

/// A checkpoint that comes as what changed isn't applied if it is of another era or of another number than the next, if
/// the change doesn't fit the table of the copy to which it comes, or if that copy acts or is gone. So one that comes
/// out of order, or after another was missed, does nothing; and what was applied does nothing if it comes again.
pub fn only_the_next_change_is_applied()
    ensures era { (site : Site) (w : World) (node : ℕ) (change : ChangeMessage) (k : Which) (pair : Pair)
        → IsCopyAt w node change.process k pair
        → change.era ≢ (copy_of k pair).era → change_done site node change w ≡ None }
    ensures number { (site : Site) (w : World) (node : ℕ) (change : ChangeMessage) (k : Which) (pair : Pair)
        → IsCopyAt w node change.process k pair
        → change.number ≢ (copy_of k pair).number + 1 → change_done site node change w ≡ None }
    ensures misfit { (site : Site) (w : World) (node : ℕ) (change : ChangeMessage) (k : Which) (pair : Pair)
        → IsCopyAt w node change.process k pair
        → fits_change (record { table = (copy_of k pair).core.receive; depths = depths_of site change.process })
        change.image.receive ≡ false
        → change_done site node change w ≡ None }
    ensures acting { (site : Site) (w : World) (node : ℕ) (change : ChangeMessage) (k : Which) (pair : Pair)
        → IsCopyAt w node change.process k pair
        → (copy_of k pair).role ≡ Acting → change_done site node change w ≡ None }
    ensures gone { (site : Site) (w : World) (node : ℕ) (change : ChangeMessage) (k : Which) (pair : Pair)
        → IsCopyAt w node change.process k pair
        → (copy_of k pair).role ≡ Gone → change_done site node change w ≡ None }
    ensures again { (site : Site) (w : World) (node : ℕ) (change : ChangeMessage) (done : Done)
        → change_done site node change w ≡ Some done → change_done site node change done.world ≡ None }
{}

/// That another checkpoint was taken than the one that a copy sent last tells the copy nothing, nor is a copy told that
/// hasn't sent one or doesn't act.
pub fn only_the_last_checkpoint_is_acknowledged()
    ensures era { (site : Site) (w : World) (node : ℕ) (taken : TakenMessage) (k : Which) (pair : Pair)
        → IsCopyAt w node taken.process k pair
        → taken.era ≢ (copy_of k pair).era → handed_done site node (Taking taken) w ≡ None }
    ensures number { (site : Site) (w : World) (node : ℕ) (taken : TakenMessage) (k : Which) (pair : Pair)
        → IsCopyAt w node taken.process k pair
        → taken.number ≢ (copy_of k pair).number → handed_done site node (Taking taken) w ≡ None }
    ensures unsent { (site : Site) (w : World) (node : ℕ) (taken : TakenMessage) (k : Which) (pair : Pair)
        → IsCopyAt w node taken.process k pair
        → (copy_of k pair).sent ≡ false → handed_done site node (Taking taken) w ≡ None }
    ensures role { (site : Site) (w : World) (node : ℕ) (taken : TakenMessage) (k : Which) (pair : Pair)
        → IsCopyAt w node taken.process k pair
        → (copy_of k pair).role ≢ Acting → handed_done site node (Taking taken) w ≡ None }
{}

/// A copy gets no reply to another request than the one that it asked last on the file, none on a file that goes
/// elsewhere, and none where it doesn't await any or doesn't act.
pub fn an_old_reply_is_not_got()
    ensures number { (site : Site) (w : World) (node number file : ℕ) (reply : Reply) (k : Which) (pair : Pair)
        → GoesTo site reply (File number file)
        → IsCopyAt w node number k pair → reply.number + 1
        ≢ next_on (copy_of k pair).core (asked_file (copy_of k pair).core.state)
        → handed_done site node (Replying reply) w ≡ None }
    ensures file { (site : Site) (w : World) (node number file : ℕ) (reply : Reply) (k : Which) (pair : Pair)
        → GoesTo site reply (File number file)
        → IsCopyAt w node number k pair
        → opener_of site (File number (asked_file (copy_of k pair).core.state))
        ≢ Some (record { server = reply.process; place = reply.opener })
        → handed_done site node (Replying reply) w ≡ None }
    ensures point { (site : Site) (w : World) (node number file : ℕ) (reply : Reply) (k : Which) (pair : Pair)
        → GoesTo site reply (File number file)
        → IsCopyAt w node number k pair → point (copy_of k pair).core.state ≢ Await
        → handed_done site node (Replying reply) w ≡ None }
    ensures role { (site : Site) (w : World) (node number file : ℕ) (reply : Reply) (k : Which) (pair : Pair)
        → GoesTo site reply (File number file)
        → IsCopyAt w node number k pair → (copy_of k pair).role ≢ Acting
        → handed_done site node (Replying reply) w ≡ None }
{}

/// A reply is printed once, to the request that was entered last, and at the node that carries the terminals.
pub fn a_reply_is_printed_once()
    ensures printed { (site : Site) (w : World) (node number : ℕ) (reply : Reply) (terminal : AtTerminal)
        → GoesTo site reply (Terminal number)
        → slice_get w.terminals number ≡ Some terminal → terminal.entered ≢ terminal.printed + 1
        → handed_done site node (Replying reply) w ≡ None }
    ensures old { (site : Site) (w : World) (node number : ℕ) (reply : Reply) (terminal : AtTerminal)
        → GoesTo site reply (Terminal number)
        → slice_get w.terminals number ≡ Some terminal → reply.number ≢ terminal.entered
        → handed_done site node (Replying reply) w ≡ None }
    ensures elsewhere { (site : Site) (w : World) (node number : ℕ) (reply : Reply)
        → GoesTo site reply (Terminal number) → node ≢ terminal_node
        → handed_done site node (Replying reply) w ≡ None }
{}

/// A kept reply is sent again where its request comes to the copy that acts. A copy that watches or is blank sends
/// nothing, and one that is gone does nothing.
pub fn a_kept_reply_is_sent_again()
    ensures kept { (site : Site) (w : World) (node : ℕ) (request : Request) (words : List ℤ) (k : Which) (pair : Pair)
        → IsCopyAt w node request.process k pair
        → (copy_of k pair).role ≡ Acting → request_standing (copy_of k pair).core.receive request ≡ Kept words
        → sendings_of (handed_done site node (Asking request) w)
        ≡ record { node = (copy_of k pair).processor; message = Replying (reply_to request words) } ∷ [] }
    ensures watching { (site : Site) (w : World) (node : ℕ) (request : Request) (k : Which) (pair : Pair)
        → IsCopyAt w node request.process k pair
        → (copy_of k pair).role ≡ Watching → sendings_of (handed_done site node (Asking request) w) ≡ [] }
    ensures blank { (site : Site) (w : World) (node : ℕ) (request : Request) (k : Which) (pair : Pair)
        → IsCopyAt w node request.process k pair
        → (copy_of k pair).role ≡ Blank → sendings_of (handed_done site node (Asking request) w) ≡ [] }
    ensures gone { (site : Site) (w : World) (node : ℕ) (request : Request) (k : Which) (pair : Pair)
        → IsCopyAt w node request.process k pair
        → (copy_of k pair).role ≡ Gone → handed_done site node (Asking request) w ≡ None }
{}

/// A terminal enters nothing while it awaits a reply, nor where it has no request left.
pub fn a_terminal_that_awaits_enters_nothing()
    ensures awaits { (site : Site) (w : World) (number : ℕ) (terminal : AtTerminal)
        → slice_get w.terminals number ≡ Some terminal
        → terminal.entered ≢ terminal.printed → enter_done site number w ≡ None }
    ensures last { (site : Site) (w : World) (number : ℕ) (terminal : AtTerminal)
        → slice_get w.terminals number ≡ Some terminal
        → next_request site number terminal.entered ≡ None → enter_done site number w ≡ None }
{}

/// A processor that has stopped doesn't stop again, one that isn't there doesn't stop, and none stops in a world that
/// isn't whole.
pub fn a_processor_stops_once()
    ensures stopped { (w : World) (processor : ℕ) → slice_get w.stopped processor ≡ Some true
        → stop_done processor w ≡ None }
    ensures absent { (w : World) (processor : ℕ) → slice_get w.stopped processor ≡ None → stop_done processor w ≡ None }
    ensures parts { (w : World) (processor : ℕ) → is_whole w ≡ false → stop_done processor w ≡ None }
{}

/// A processor is loaded again only where it has stopped and each node that runs has marked it, and 127 times at most.
pub fn only_what_all_have_marked_is_loaded_again()
    ensures running { (site : Site) (w : World) (processor : ℕ) → slice_get w.stopped processor ≡ Some false
        → reload_done site processor w ≡ None }
    ensures unmarked { (site : Site) (w : World) (processor : ℕ) → is_marked_by_all w processor ≡ false
        → reload_done site processor w ≡ None }
    ensures often { (site : Site) (w : World) (processor : ℕ) → slice_get w.reloads processor ≡ Some 127
        → reload_done site processor w ≡ None }
{}

/// Only a processor that has stopped is marked, once by a node, which runs.
pub fn only_what_stopped_is_marked()
    ensures running { (w : World) (node processor : ℕ) → slice_get w.stopped processor ≡ Some false
        → down_done node processor w ≡ None }
    ensures node { (w : World) (node processor : ℕ) → is_running w.stopped node ≡ false
        → down_done node processor w ≡ None }
    ensures again { (w : World) (node processor : ℕ) → has_marked w.downs node processor ≡ true
        → down_done node processor w ≡ None }
{}

/// What a checkpoint carries fits a core that has the files which it names, and as many openers, of each of which no
/// more replies are kept than its depth nor than requests were taken, and where what is in hand is unanswered.
pub fn what_fits_is_told()
    ensures fits { (core : Core) → fits (2 ∷ 1 ∷ []) (record core { next = 4 ∷ 1 ∷ [] })
        (record {
          body = [];
          files = record { file = 1; next = 9 } ∷ [];
          receive = record {
            openers = record { taken = 3; kept = [] ∷ (pos 7 ∷ []) ∷ [] } ∷ record { taken = 0; kept = [] } ∷ [];
            in_hand = Some 0;
          };
        }) ≡ true }
    ensures file { (core : Core) → fits [] (record core { next = 4 ∷ 1 ∷ [] })
        (record {
          body = [];
          files = record { file = 2; next = 9 } ∷ [];
          receive = record { openers = []; in_hand = None };
        }) ≡ false }
    ensures openers { (core : Core) → fits (2 ∷ 1 ∷ []) core
        (record {
          body = [];
          files = [];
          receive =
              record { openers = record { taken = 3; kept = [] } ∷ []; in_hand = None };
        }) ≡ false }
    ensures depth { (core : Core) → fits (1 ∷ []) core
        (record {
          body = [];
          files = [];
          receive =
              record { openers = record { taken = 3; kept = [] ∷ [] ∷ [] } ∷ []; in_hand = None };
        }) ≡ false }
    ensures taken { (core : Core) → fits (2 ∷ []) core
        (record {
          body = [];
          files = [];
          receive =
              record { openers = record { taken = 1; kept = [] ∷ [] ∷ [] } ∷ []; in_hand = None };
        }) ≡ false }
    ensures hand { (core : Core) → fits (2 ∷ []) core
        (record {
          body = [];
          files = [];
          receive =
              record { openers = record { taken = 1; kept = [] ∷ [] } ∷ []; in_hand = Some 0 };
        }) ≡ false }
{}
