ghost use Rattle.std.specs.Prelude.{◌≡◌, ◌≤◌, ◌↔◌, ◌⊎◌, ℕ, List, slice_get, Some, None, is_some, true};
ghost use Rattle.checkpoint_image.specs.gd_words.specs.declared.limits.TheConstants.{MOST_PROCESSORS};
ghost use Rattle.checkpoint_image.specs.gd_words.specs.Members.{IsAmong};
ghost use Rattle.checkpoint_image.specs.tal_tree.specs.declared.site.Site.{Site};
ghost use Rattle.schedule.specs.declared.event.Event.{Event};
ghost use Rattle.schedule.specs.declared.event.Event.TheVariants.{Run};
ghost use Rattle.plain_semantics.specs.process_semantics.specs.Process.{in_hand};
ghost use Rattle.world_semantics.specs.declared.role.Role.TheVariants.{Acting, Gone};
ghost use Rattle.world_semantics.specs.World.{Pair, Down, Terminal, World, Which, copy_of};
ghost use Rattle.world_semantics.specs.Kept.{own_acts};
ghost use Rattle.world_semantics.specs.Follows.{Follows, IsIdleFor, Leads, IsRun};
ghost use Rattle.world_semantics.specs.Messages.{Message, Cause, Sending, Running, Handing, Reloading};
ghost use Rattle.world_semantics.specs.Rules.{Change};
ghost use Rattle.world_semantics.specs.Running.{Done, run_done, world_after, sendings_of};
ghost use Rattle.world_semantics.specs.Laws.{IsLater, IsLaterTerminal, HasGrown, IsPlaced, WasSent};

/// In a run only processors that have stopped are marked.
pub fn marked_have_stopped()
    ensures { (site : Site) (events : List Event) (w : World) (mark : Down) → IsRun site events w
        → IsAmong mark w.downs → slice_get w.stopped mark.down ≡ Some true }
{}

/// In a run at most one processor has stopped at any moment, and all marks name it.
pub fn marks_name_one_processor()
    ensures stopped { (site : Site) (events : List Event) (w : World) (x y : ℕ) → IsRun site events w
        → slice_get w.stopped x ≡ Some true → slice_get w.stopped y ≡ Some true → x ≡ y }
    ensures downs { (site : Site) (events : List Event) (w : World) (one other : Down) → IsRun site events w
        → IsAmong one w.downs → IsAmong other w.downs → one.down ≡ other.down }
{}

/// A processor that has stopped stays so until it is loaded again.
pub fn only_a_reload_starts_a_processor()
    ensures { (site : Site) (w next : World) (cause : Cause) (sendings : List Sending) (processor : ℕ)
        → Change site w cause sendings next → slice_get w.stopped processor ≡ Some true
        → (slice_get next.stopped processor ≡ Some true) ⊎ (cause ≡ Reloading processor) }
{}

/// In a run a copy is gone exactly where its processor has stopped.
pub fn copies_go_with_their_processor()
    ensures { (site : Site) (events : List Event) (w : World) (number : ℕ) (pair : Pair) (k : Which)
        → IsRun site events w → slice_get w.processes number ≡ Some pair
        → ((copy_of k pair).role ≡ Gone ↔ slice_get w.stopped (copy_of k pair).processor ≡ Some true) }
{}

/// In a run at most one copy of a process acts.
pub fn one_copy_acts()
    ensures { (site : Site) (events : List Event) (w : World) (number : ℕ) (pair : Pair) → IsRun site events w
        → slice_get w.processes number ≡ Some pair
        → pair.first.role ≡ Acting → pair.second.role ≡ Acting → ⊥ }
{}

/// In a run no position of a copy, and no base, is past the kept acts of its process.
pub fn positions_are_kept()
    ensures position { (site : Site) (events : List Event) (w : World) (number : ℕ) (pair : Pair) (k : Which)
        → IsRun site events w
        → slice_get w.processes number ≡ Some pair → (copy_of k pair).position ≤ own_acts number w.kept }
    ensures base { (site : Site) (events : List Event) (w : World) (number : ℕ) (pair : Pair) → IsRun site events w
        → slice_get w.processes number ≡ Some pair → pair.base ≤ own_acts number w.kept }
{}

/// In a run of a site whose processes are each in two of its processors no era falls, and no number of checkpoints
/// while the era stays. No terminal's numbers fall.
pub fn numbers_never_fall()
    ensures copies { (site : Site) (events more : List Event) (w end : World) (number : ℕ) (before after : Pair)
        (k : Which) → IsPlaced site → IsRun site events w → Leads site w more end
        → slice_get w.processes number ≡ Some before → slice_get end.processes number ≡ Some after
        → IsLater (copy_of k before) (copy_of k after) }
    ensures terminals { (site : Site) (events : List Event) (w end : World) (number : ℕ) (before after : Terminal)
        → Leads site w events end
        → slice_get w.terminals number ≡ Some before → slice_get end.terminals number ≡ Some after
        → IsLaterTerminal before after }
{}

/// The messages ever sent only grow.
pub fn messages_stay()
    ensures requests { (site : Site) (events : List Event) (w end : World) → Leads site w events end
        → HasGrown w.requests end.requests }
    ensures replies { (site : Site) (events : List Event) (w end : World) → Leads site w events end
        → HasGrown w.replies end.replies }
    ensures checkpoints { (site : Site) (events : List Event) (w end : World) (number : ℕ) (before after : Pair)
        → Leads site w events end
        → slice_get w.processes number ≡ Some before → slice_get end.processes number ≡ Some after
        → HasGrown before.checkpoints after.checkpoints }
    ensures takens { (site : Site) (events : List Event) (w end : World) (number : ℕ) (before after : Pair)
        → Leads site w events end
        → slice_get w.processes number ≡ Some before → slice_get end.processes number ≡ Some after
        → HasGrown before.takens after.takens }
{}

/// What was shown and the acts that are kept only grow.
pub fn shown_and_kept_stay()
    ensures shown { (site : Site) (events : List Event) (w end : World) → Leads site w events end
        → HasGrown w.shown end.shown }
    ensures kept { (site : Site) (events : List Event) (w end : World) → Leads site w events end
        → HasGrown w.kept end.kept }
{}

/// A message that is handed over was sent.
pub fn what_comes_was_sent()
    ensures { (site : Site) (w next : World) (node : ℕ) (message : Message) (sendings : List Sending)
        → Change site w (Handing node message) sendings next → WasSent w message }
{}

/// In a run a copy's receive table has a request in hand exactly where the state of its process has.
pub fn hands_agree()
    ensures { (site : Site) (events : List Event) (w : World) (number : ℕ) (pair : Pair) (k : Which)
        → IsRun site events w → slice_get w.processes number ≡ Some pair
        → in_hand (copy_of k pair).core.state ≡ is_some (copy_of k pair).core.receive.in_hand }
{}

/// In a run all that a change sends, or sends again, is among the messages ever sent after it.
pub fn what_is_sent_stays()
    ensures { (site : Site) (events : List Event) (w next : World) (cause : Cause) (sendings : List Sending)
        (sending : Sending) → IsRun site events w
        → Change site w cause sendings next → IsAmong sending sendings → WasSent next sending.message }
{}

/// In a run of a site with no more processors than its limit nothing is handed over at a processor that has stopped.
pub fn nothing_comes_to_a_stopped_node()
    ensures { (site : Site) (events : List Event) (w next : World) (node : ℕ) (message : Message)
        (sendings : List Sending) → IsRun site events w → site.processors ≤ MOST_PROCESSORS
        → Change site w (Handing node message) sendings next → slice_get w.stopped node ≡ Some true → ⊥ }
{}

/// A process that runs makes the change that is computed, and none where none is.
pub fn a_run_is_computed()
    ensures made { (site : Site) (w : World) (number : ℕ) (done : Done) → run_done site number w ≡ Some done
        → Change site w (Running number) done.sendings done.world }
    ensures none { (site : Site) (w : World) (number : ℕ) → run_done site number w ≡ None
        → IsIdleFor site w (Running number) }
    ensures follows { (site : Site) (w : World) (number : ℕ)
        → Follows site w (Run number) (sendings_of (run_done site number w)) (world_after w (run_done site number w)) }
{}

/// In a run nothing else than what is computed follows where a process runs.
pub fn a_run_has_one_outcome()
    ensures { (site : Site) (events : List Event) (w next : World) (number : ℕ) (sendings : List Sending)
        → IsRun site events w
        → Follows site w (Run number) sendings next
        → (next ≡ world_after w (run_done site number w)) × (sendings ≡ sendings_of (run_done site number w)) }
{}
