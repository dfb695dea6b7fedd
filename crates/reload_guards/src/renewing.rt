ghost use Rattle.std.specs.Prelude.{◌≡◌, ◌≢◌, ℕ, true, false, [], ◌∷◌, map, None};
ghost use Rattle.process_semantics.specs.Process.{Runs};
ghost use Rattle.process_semantics.specs.State.{ProgramState};
ghost use Rattle.process_semantics.specs.declared.point.Point.TheVariants.{AtCheckpoint, Await, Inner};
ghost use Rattle.process_images.specs.Images.{all_files_of, everything_of};
ghost use Rattle.world_semantics.specs.Core.{Core, carried_image, carried_by, carried_whole};
ghost use Rattle.world_semantics.specs.Examples.{bank, disc_site};
ghost use Rattle.world_semantics.specs.Messages.{Asking, Checkpointing, Handing, Message, Taking, sent_at};
ghost use Rattle.world_semantics.specs.Passes.{MaySend, point_at};
ghost use Rattle.world_semantics.specs.Rules.{IsFreeFor};
ghost use Rattle.world_semantics.specs.Running.{run_done, sendings_of, world_after};
ghost use Rattle.world_semantics.specs.World.{Copy, is_whole};
ghost use Rattle.computed_changes.specs.Handed.{handed_done};
ghost use Rattle.computed_changes.specs.Stopped.{stopped_world, world_at_down};
ghost use Rattle.tal_tree.specs.declared.act.Act.TheVariants.{Step, Take};
ghost use Rattle.reload_guards.specs.Worlds.{applied, applied_from, everything, everything_sent, firsts, its_taken};
ghost use Rattle.reload_guards.specs.Worlds.{loaded, over, request, seconds, sent_from, three_kept, told};

/// A copy that has to send everything does so where it stands, once, and then waits for it to be taken.
pub fn everything_is_sent_once()
    ensures sent { sendings_of (run_done disc_site 0 loaded) ≡ sent_at 1 (Checkpointing everything ∷ []) }
    ensures waits { run_done disc_site 0 everything_sent ≡ None }
    ensures still { run_done disc_site 0 applied ≡ None }
    ensures number { map (λ copy. copy.number) (seconds everything_sent) ≡ 1 ∷ [] }
{}

/// The blank copy says that it was taken. What tells so ends the need to send everything, and the next run of the
/// process ends the sending, with no act. So does a run of it where its node has marked the other copy's processor.
pub fn everything_is_taken()
    ensures says { sendings_of (handed_done disc_site 0 (Checkpointing everything) everything_sent)
        ≡ sent_at 0 (Taking its_taken ∷ []) }
    ensures needs { map (λ copy. copy.renewal) (seconds told) ≡ false ∷ [] }
    ensures sent { map (λ copy. copy.sent) (seconds told) ≡ true ∷ [] }
    ensures over { map (λ copy. copy.sent) (seconds over) ≡ false ∷ [] }
    ensures nothing { over.kept ≡ [] }
    ensures whole { is_whole over ≡ true }
    ensures alone { map (λ copy. copy.sent) (seconds (world_after (world_at_down 1 0 (stopped_world 0 applied)).world
        (run_done disc_site 0 (world_at_down 1 0 (stopped_world 0 applied)).world))) ≡ false ∷ [] }
{}

/// A request that comes to the blank copy waits there. A reply may come to a copy that has to send everything.
pub fn messages_come_to_both_copies()
    ensures request { map (λ copy. copy.waiting)
        (firsts (world_after loaded (handed_done disc_site 0 (Asking request) loaded))) ≡ (request ∷ []) ∷ [] }
    ensures message { (node : ℕ) (message : Message) (copy : Copy) → IsFreeFor (Handing node message) copy }
{}

/// The base moves to all that the copy which sent everything has done, with what it holds, and that is kept; but where
/// that copy is behind the kept acts the base moves to where it stands, and nothing more is kept.
pub fn the_base_is_moved()
    ensures unmoved { map (λ pair. pair.base) (sent_from 3 []).processes ≡ 0 ∷ [] }
    ensures moved { map (λ pair. pair.base) (applied_from 3 []).processes ≡ 3 ∷ [] }
    ensures held { map (λ pair. pair.base) (applied_from 3 (Step 0 ∷ Take 0 0 ∷ [])).processes ≡ 5 ∷ [] }
    ensures kept { (applied_from 3 (Step 0 ∷ Take 0 0 ∷ [])).kept ≡ Step 0 ∷ Take 0 0 ∷ three_kept }
    ensures stands { map (λ copy. copy.position) (seconds (applied_from 3 (Step 0 ∷ Take 0 0 ∷ []))) ≡ 5 ∷ [] }
    ensures behind { map (λ pair. pair.base) (applied_from 1 []).processes ≡ 1 ∷ [] }
    ensures kept_behind { (applied_from 1 []).kept ≡ three_kept }
    ensures stands_behind { map (λ copy. copy.position) (seconds (applied_from 1 [])) ≡ 1 ∷ [] }
{}

/// It doesn't come twice, nor to the copy that sent it.
pub fn everything_is_applied_once()
    ensures twice { handed_done disc_site 0 (Checkpointing everything) applied ≡ None }
    ensures own { handed_done disc_site 1 (Checkpointing everything) everything_sent ≡ None }
{}

/// Everything is all items that have words and all files that are opened to a process: of the bank its total, its count
/// and both its buffers, and the file of its disc.
pub fn everything_is_named()
    ensures items { (s : ProgramState) → everything_of (Runs bank s) ≡ 0 ∷ 1 ∷ 4 ∷ 5 ∷ [] }
    ensures files { (s : ProgramState) → all_files_of (Runs bank s) ≡ 1 ∷ [] }
    ensures whole { (core : Core) → carried_by true core ≡ carried_whole core }
    ensures named { (core : Core) → carried_by false core ≡ carried_image core }
{}

/// A copy sends no checkpoint where it awaits a reply, and elsewhere than at a checkpoint only if it has to send
/// everything; then it may at each other point.
pub fn checkpoints_are_sent_where_they_may_be()
    ensures awaits { (copy : Copy) → point_at copy ≡ Await → MaySend copy → ⊥ }
    ensures inner { (copy : Copy) → point_at copy ≡ Inner → copy.renewal ≡ false → MaySend copy → ⊥ }
    ensures checkpoint { (copy : Copy) → point_at copy ≡ AtCheckpoint → MaySend copy }
    ensures elsewhere { (copy : Copy) → point_at copy ≢ Await → copy.renewal ≡ true → MaySend copy }
{}
