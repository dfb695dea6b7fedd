ghost use Rattle.std.specs.Prelude.{◌≡◌, ◌≤◌, ◌<◌, ℕ, ℤ, true, false, List, length};
ghost use Rattle.process_semantics.specs.gd_words.specs.Ranges.{HasNext};
ghost use Rattle.process_semantics.specs.gd_words.specs.Members.{IsAmong};
ghost use Rattle.process_semantics.specs.tal_tree.specs.declared.site.Kind.{Kind};
ghost use Rattle.process_semantics.specs.declared.disc.DiscState.{DiscState};
ghost use Rattle.process_semantics.specs.declared.point.Point.TheVariants.{Take, Ask, Await, Answer, AtCheckpoint};
ghost use Rattle.process_semantics.specs.declared.point.Point.TheVariants.{Device};
ghost use Rattle.process_semantics.specs.Image.{listed_items, listed_files};
ghost use Rattle.process_semantics.specs.Process.{ProcessState, Serves, start_of, point, in_hand, asked_file};
ghost use Rattle.process_semantics.specs.Process.{after_inner, after_took, after_asked, after_got, after_answered};
ghost use Rattle.process_semantics.specs.Process.{after_checkpoint, after_device};
ghost use Rattle.whole_states.specs.Processes.{IsRegularKind, IsWholeProcess};
ghost use Rattle.whole_states.specs.Listing.{MayList, files_of};
ghost use Rattle.process_semantics.specs.gd_words.specs.declared.limits.TheConstants.{MOST_MESSAGE_WORDS, SECTOR_WORDS};

/// A process of a regular program, and a disc, begins in a whole state and comes to whole states alone. A request has
/// at most 16 words. A disc's sector has 8, and the number of its last write is below the greatest of 32 bits when it
/// does one more.
pub fn states_stay_whole()
    ensures start { (what : Kind) → IsRegularKind what → IsWholeProcess (start_of what) }
    ensures inner { (s : ProcessState) → IsWholeProcess s → IsWholeProcess (after_inner s) }
    ensures took { (s : ProcessState) (words : List ℤ) → point s ≡ Take → length words ≤ MOST_MESSAGE_WORDS
        → IsWholeProcess s → IsWholeProcess (after_took s words) }
    ensures asked { (s : ProcessState) → point s ≡ Ask → IsWholeProcess s → IsWholeProcess (after_asked s) }
    ensures got { (s : ProcessState) (words : List ℤ) → point s ≡ Await → IsWholeProcess s
        → IsWholeProcess (after_got s words) }
    ensures answered { (s : ProcessState) → point s ≡ Answer → IsWholeProcess s → IsWholeProcess (after_answered s) }
    ensures checkpointed { (s : ProcessState) → point s ≡ AtCheckpoint → IsWholeProcess s
        → IsWholeProcess (after_checkpoint s) }
    ensures device { (s : ProcessState) (found : List ℤ) → point s ≡ Device → length found ≤ SECTOR_WORDS
        → ((sectors : ℕ) (disc : DiscState) → s ≡ Serves sectors disc → HasNext disc.last_write) → IsWholeProcess s
        → IsWholeProcess (after_device s found) }
{}

/// What is in hand: nothing at Take, a request from the step at Take until that at Answer, and no other step changes
/// it.
pub fn hands_are_known()
    ensures take { (s : ProcessState) → IsWholeProcess s → point s ≡ Take → in_hand s ≡ false }
    ensures answer { (s : ProcessState) → IsWholeProcess s → point s ≡ Answer → in_hand s ≡ true }
    ensures took { (s : ProcessState) (words : List ℤ) → point s ≡ Take → in_hand (after_took s words) ≡ true }
    ensures answered { (s : ProcessState) → in_hand (after_answered s) ≡ false }
    ensures inner { (s : ProcessState) → in_hand (after_inner s) ≡ in_hand s }
    ensures asked { (s : ProcessState) → in_hand (after_asked s) ≡ in_hand s }
    ensures got { (s : ProcessState) (words : List ℤ) → in_hand (after_got s words) ≡ in_hand s }
    ensures checkpointed { (s : ProcessState) → in_hand (after_checkpoint s) ≡ in_hand s }
    ensures device { (s : ProcessState) (found : List ℤ) → in_hand (after_device s found) ≡ in_hand s }
{}

/// The step at Ask leads to Await, and no other step does.
pub fn only_asking_awaits()
    ensures asked { (s : ProcessState) → IsWholeProcess s → point s ≡ Ask → point (after_asked s) ≡ Await }
    ensures inner { (s : ProcessState) → IsWholeProcess s → point (after_inner s) ≡ Await → ⊥ }
    ensures took { (s : ProcessState) (words : List ℤ) → IsWholeProcess s → point s ≡ Take
        → point (after_took s words) ≡ Await → ⊥ }
    ensures got { (s : ProcessState) (words : List ℤ) → IsWholeProcess s → point s ≡ Await
        → point (after_got s words) ≡ Await → ⊥ }
    ensures answered { (s : ProcessState) → IsWholeProcess s → point s ≡ Answer → point (after_answered s) ≡ Await → ⊥ }
    ensures checkpointed { (s : ProcessState) → IsWholeProcess s → point s ≡ AtCheckpoint
        → point (after_checkpoint s) ≡ Await → ⊥ }
    ensures device { (s : ProcessState) (found : List ℤ) → point s ≡ Device → point (after_device s found) ≡ Await → ⊥ }
{}

/// What a process lists at a checkpoint it may list, and the files that may be listed and the file that is asked are
/// its own.
pub fn what_is_named_is_there()
    ensures listed { (s : ProcessState) → IsWholeProcess s → MayList s (listed_items s) (listed_files s) }
    ensures files { (s : ProcessState) (items files : List ℕ) (file : ℕ) → MayList s items files → IsAmong file files
        → file < files_of s }
    ensures asked { (s : ProcessState) → IsWholeProcess s → point s ≡ Ask → asked_file s < files_of s }
{}
