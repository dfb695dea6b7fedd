ghost use Rattle.std.specs.Prelude.{◌≡◌, ℕ, ◌<◌, true, false, List, [], length, slice_get, Some, None};
ghost use Rattle.tal_tree.specs.gd_words.specs.Members.{IsAmong};
ghost use Rattle.tal_tree.specs.declared.site.Site.{Site};
ghost use Rattle.tal_tree.specs.declared.site.ProcessSpec.{ProcessSpec};
ghost use Rattle.schedule.specs.declared.bus_name.BusName.{BusName};
ghost use Rattle.schedule.specs.declared.event.Event.{Event};
ghost use Rattle.schedule.specs.declared.event.Event.TheVariants.{Enter, Deliver, Fail, Reload};
ghost use Rattle.world_semantics.specs.plain_semantics.specs.Openers.{files_of};
ghost use Rattle.world_semantics.specs.checkpoint_image.specs.declared.message.FileNumber.{FileNumber};
ghost use Rattle.world_semantics.specs.checkpoint_image.specs.declared.message.ImageMessage.{ImageMessage};
ghost use Rattle.world_semantics.specs.declared.which.Which.{Which};
ghost use Rattle.world_semantics.specs.World.{Pair, World, copy_of, is_whole};
ghost use Rattle.world_semantics.specs.Messages.{Message, Sending, Entering, Handing, Stopping, MarkingDown};
ghost use Rattle.world_semantics.specs.Messages.{Reloading};
ghost use Rattle.world_semantics.specs.Rules.{Change};
ghost use Rattle.world_semantics.specs.Follows.{Follows, IsIdleFor, IsRun};
ghost use Rattle.world_semantics.specs.Laws.{WasSent};
ghost use Rattle.world_semantics.specs.Running.{Done, world_after, sendings_of};
ghost use Rattle.computed_changes.specs.Entered.{enter_done};
ghost use Rattle.computed_changes.specs.Fitting.{depths_of, fits};
ghost use Rattle.computed_changes.specs.Handed.{handed_done};
ghost use Rattle.computed_changes.specs.Stopped.{stop_done, down_done, reload_done};
ghost use Rattle.computed_changes.specs.Laws.{HasCopiesApart, IsSent, FitsWhereItComes};

/// A message that was sent makes the change that is computed where it is handed over.
pub fn a_handing_is_computed()
    ensures made { (site : Site) (w : World) (node : ℕ) (message : Message) (done : Done) → IsSent w message
        → handed_done site node message w ≡ Some done
        → Change site w (Handing node message) done.sendings done.world }
    ensures follows { (site : Site) (w : World) (bus : BusName) (k node : ℕ) (message : Message) → IsSent w message
        → Follows site w (Deliver bus k) (sendings_of (handed_done site node message w))
        (world_after w (handed_done site node message w)) }
{}

/// In a run of a site whose processes have their copies in two processors, nothing else than what is computed is
/// permitted where a message is handed over, if it fits there.
pub fn a_handing_has_one_outcome()
    ensures only { (site : Site) (events : List Event) (w next : World) (node : ℕ) (message : Message)
        (sendings : List Sending) → IsRun site events w → HasCopiesApart site
        → FitsWhereItComes site w node message → Change site w (Handing node message) sendings next
        → handed_done site node message w ≡ Some (record { world = next; sendings = sendings }) }
    ensures none { (site : Site) (events : List Event) (w : World) (node : ℕ) (message : Message) → IsRun site events w
        → HasCopiesApart site
        → FitsWhereItComes site w node message → handed_done site node message w ≡ None
        → IsIdleFor site w (Handing node message) }
{}

/// In a run what copies ever sent each other names the process whose copies they are.
pub fn what_copies_send_names_their_process()
    ensures { (site : Site) (events : List Event) (w : World) (message : Message) → IsRun site events w
        → WasSent w message → IsSent w message }
{}

/// In a run what a sent checkpoint carries fits each copy of its process, where the files that it names are the
/// process's.
pub fn a_sent_checkpoint_fits()
    ensures { (site : Site) (events : List Event) (w : World) (number : ℕ) (spec : ProcessSpec) (pair : Pair)
        (k : Which) (message : ImageMessage) → IsRun site events w
        → slice_get site.processes number ≡ Some spec → slice_get w.processes number ≡ Some pair
        → IsAmong message pair.checkpoints
        → ((named : FileNumber) → IsAmong named message.image.files → named.file < length (files_of spec.what))
        → fits (depths_of site number) (copy_of k pair).core message.image ≡ true }
{}

/// A terminal that enters makes the change that is computed, no other, and none where none is.
pub fn an_entry_is_computed()
    ensures made { (site : Site) (w : World) (number : ℕ) (done : Done) → enter_done site number w ≡ Some done
        → Change site w (Entering number) done.sendings done.world }
    ensures only { (site : Site) (w next : World) (number : ℕ) (sendings : List Sending)
        → Change site w (Entering number) sendings next
        → enter_done site number w ≡ Some (record { world = next; sendings = sendings }) }
    ensures none { (site : Site) (w : World) (number : ℕ) → enter_done site number w ≡ None
        → IsIdleFor site w (Entering number) }
    ensures follows { (site : Site) (w : World) (number : ℕ)
        → Follows site w (Enter number) (sendings_of (enter_done site number w))
        (world_after w (enter_done site number w)) }
{}

/// A stop makes the change that is computed, no other, and none where none is. Nothing follows where a processor would
/// stop in a world that isn't whole.
pub fn a_stop_is_computed()
    ensures made { (site : Site) (w : World) (processor : ℕ) (done : Done) → stop_done processor w ≡ Some done
        → Change site w (Stopping processor) done.sendings done.world }
    ensures only { (site : Site) (w next : World) (processor : ℕ) (sendings : List Sending)
        → Change site w (Stopping processor) sendings next
        → stop_done processor w ≡ Some (record { world = next; sendings = sendings }) }
    ensures none { (site : Site) (w : World) (processor : ℕ) → stop_done processor w ≡ None
        → IsIdleFor site w (Stopping processor) }
    ensures follows { (site : Site) (w : World) (processor : ℕ)
        → (slice_get w.stopped processor ≡ Some false → is_whole w ≡ true)
        → Follows site w (Fail processor) (sendings_of (stop_done processor w))
        (world_after w (stop_done processor w)) }
    ensures ends { (site : Site) (w next : World) (processor : ℕ) (sendings : List Sending)
        → slice_get w.stopped processor ≡ Some false → is_whole w ≡ false
        → Follows site w (Fail processor) sendings next → ⊥ }
{}

/// A reload makes the change that is computed, no other, and none where none is.
pub fn a_reload_is_computed()
    ensures made { (site : Site) (w : World) (processor : ℕ) (done : Done) → reload_done site processor w ≡ Some done
        → Change site w (Reloading processor) done.sendings done.world }
    ensures only { (site : Site) (w next : World) (processor : ℕ) (sendings : List Sending)
        → Change site w (Reloading processor) sendings next
        → reload_done site processor w ≡ Some (record { world = next; sendings = sendings }) }
    ensures none { (site : Site) (w : World) (processor : ℕ) → reload_done site processor w ≡ None
        → IsIdleFor site w (Reloading processor) }
    ensures follows { (site : Site) (w : World) (processor : ℕ)
        → Follows site w (Reload processor) [] (world_after w (reload_done site processor w)) }
{}

/// A mark makes the change that is computed, no other, and none where none is.
pub fn a_mark_is_computed()
    ensures made { (site : Site) (w : World) (node processor : ℕ) (done : Done) → down_done node processor w ≡ Some done
        → Change site w (MarkingDown node processor) done.sendings done.world }
    ensures only { (site : Site) (w next : World) (node processor : ℕ) (sendings : List Sending)
        → Change site w (MarkingDown node processor) sendings next
        → down_done node processor w ≡ Some (record { world = next; sendings = sendings }) }
    ensures none { (site : Site) (w : World) (node processor : ℕ) → down_done node processor w ≡ None
        → IsIdleFor site w (MarkingDown node processor) }
    ensures follows { (site : Site) (w : World) (bus : BusName) (k node processor : ℕ)
        → Follows site w (Deliver bus k) (sendings_of (down_done node processor w))
        (world_after w (down_done node processor w)) }
{}
