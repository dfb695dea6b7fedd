ghost use Rattle.std.specs.Prelude.{◌≡◌, ◌≢◌, ℕ, ◌+◌, Bool, true, false, List, slice_get, Some, None};
ghost use Rattle.tal_tree.specs.declared.site.OpenerSpec.{OpenerSpec};
ghost use Rattle.gd_words.specs.declared.message.Request.{Request};
ghost use Rattle.process_semantics.specs.Process.{ProcessState, after_answered, after_took, answer_of};
ghost use Rattle.checkpoint_image.specs.Receive.{after_answering, after_taking};
ghost use Rattle.checkpoint_image.specs.declared.message.ImageMessage.{ImageMessage};
ghost use Rattle.checkpoint_image.specs.declared.message.TakenMessage.{TakenMessage};
ghost use Rattle.checkpoint_image.specs.declared.receive.OpenerBlock.{OpenerBlock};
ghost use Rattle.computed_changes.specs.world_semantics.specs.declared.role.Role.TheVariants.{Blank, Watching};
ghost use Rattle.computed_changes.specs.world_semantics.specs.Core.{Core, carried_image, carried_whole, put_in};
ghost use Rattle.computed_changes.specs.Checkpoints.{is_of_last};
ghost use Rattle.computed_changes.specs.Fitting.{fits};
ghost use Rattle.process_control.specs.Cores.{answering_of, core_answering, core_taking};
ghost use Rattle.process_control.specs.Copies.{CopyState, copy_applying, copy_blank, copy_checkpoint, copy_ending};
ghost use Rattle.process_control.specs.Copies.{copy_renewed, copy_sending, copy_told};

/// A copy applies no checkpoint of another era or of another number than the next, none that doesn't fit, and none
/// where it neither watches nor is blank.
pub fn only_the_next_checkpoint_is_applied()
    ensures role { (message : ImageMessage) (copy : CopyState) → copy.role ≢ Watching → copy.role ≢ Blank
        → copy_applying message copy ≡ None }
    ensures era { (message : ImageMessage) (copy : CopyState) → message.era ≢ copy.era
        → copy_applying message copy ≡ None }
    ensures number { (message : ImageMessage) (copy : CopyState) → message.number ≢ copy.number + 1
        → copy_applying message copy ≡ None }
    ensures misfit { (message : ImageMessage) (copy : CopyState) → fits copy.depths copy.core message.image ≡ false
        → copy_applying message copy ≡ None }
{}

/// The next checkpoint that fits a copy which watches is applied whole, and changes nothing else; one that was blank
/// watches then.
pub fn the_next_checkpoint_is_applied()
    ensures watching { (message : ImageMessage) (copy : CopyState) (core : Core) → copy.role ≡ Watching
        → message.era ≡ copy.era
        → message.number ≡ copy.number + 1
        → fits copy.depths copy.core message.image ≡ true → put_in copy.core message.image ≡ Some core
        → copy_applying message copy ≡ Some (record copy { core = core; number = copy.number + 1 }) }
    ensures blank { (message : ImageMessage) (copy : CopyState) (core : Core) → copy.role ≡ Blank
        → message.era ≡ copy.era
        → message.number ≡ copy.number + 1
        → fits copy.depths copy.core message.image ≡ true → put_in copy.core message.image ≡ Some core
        → copy_applying message copy
        ≡ Some (record copy { role = Watching; core = core; number = copy.number + 1 }) }
{}

/// A blank copy applies no checkpoint but the first of its own era.
pub fn a_blank_copy_applies_the_first_of_its_era()
    ensures number { (message : ImageMessage) (era : ℕ) (state : ProcessState) (files : ℕ) (openers : List OpenerSpec)
        → message.number ≢ 1 → copy_applying message (copy_blank era state files openers) ≡ None }
    ensures era { (message : ImageMessage) (era : ℕ) (state : ProcessState) (files : ℕ) (openers : List OpenerSpec)
        → message.era ≢ era → copy_applying message (copy_blank era state files openers) ≡ None }
{}

/// A copy that has to send everything sends that, as the first checkpoint of the next era, and still has to after it
/// was sent, until it is told that it was taken. It names what its CHECKPOINT names from then on.
pub fn everything_is_sent_until_it_is_taken()
    ensures image { (process : ℕ) (copy : CopyState)
        → (copy_checkpoint process (copy_renewed copy)).image ≡ carried_whole copy.core }
    ensures number { (process : ℕ) (copy : CopyState) → (copy_checkpoint process (copy_renewed copy)).number ≡ 1 }
    ensures era { (process : ℕ) (copy : CopyState) → (copy_checkpoint process (copy_renewed copy)).era ≡ copy.era + 1 }
    ensures sent { (copy : CopyState) → (copy_sending (copy_renewed copy)).renewal ≡ true }
    ensures told { (copy : CopyState) → (copy_told (copy_sending (copy_renewed copy))).renewal ≡ false }
    ensures named { (process : ℕ) (copy : CopyState)
        → (copy_checkpoint process (copy_told copy)).image ≡ carried_image copy.core }
{}

/// What was sent elsewhere than at a checkpoint comes to its end with no step of the process.
pub fn the_end_of_what_is_sent_is_no_step()
    ensures { (copy : CopyState) → copy.sent ≡ false → copy.acknowledged ≡ false
        → copy_ending (copy_told (copy_sending copy)) ≡ record copy { number = copy.number + 1; renewal = false } }
{}

/// Only what a copy has sent, in its era and under its last number, is acknowledged.
pub fn only_the_last_checkpoint_is_acknowledged()
    ensures unsent { (era number : ℕ) (taken : TakenMessage) → is_of_last false era number taken ≡ false }
    ensures era { (sent : Bool) (era number : ℕ) (taken : TakenMessage) → taken.era ≢ era
        → is_of_last sent era number taken ≡ false }
    ensures number { (sent : Bool) (era number : ℕ) (taken : TakenMessage) → taken.number ≢ number
        → is_of_last sent era number taken ≡ false }
{}

/// What is taken and what is answered is noted at its opener, and the last of the kept replies is the answer.
pub fn taking_and_answering_are_noted()
    ensures taking { (request : Request) (core : Core) (block : OpenerBlock)
        → slice_get core.receive.openers request.opener ≡ Some block
        → core_taking request core ≡ Some (record core
        { state = after_took core.state request.words; receive = after_taking request.opener block core.receive }) }
    ensures answer { (core : Core) (place : ℕ) (block : OpenerBlock) → core.receive.in_hand ≡ Some place
        → slice_get core.receive.openers place ≡ Some block
        → answering_of core ≡ Some (record { opener = place; number = block.taken; words = answer_of core.state }) }
    ensures answering { (depths : List ℕ) (core : Core) (place depth : ℕ) (block : OpenerBlock)
        → core.receive.in_hand ≡ Some place
        → slice_get depths place ≡ Some depth → slice_get core.receive.openers place ≡ Some block
        → core_answering depths core ≡ Some (record core {
          state = after_answered core.state;
          receive =
              after_answering depth place block (answer_of core.state) core.receive;
        }) }
{}
