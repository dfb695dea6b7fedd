ghost use Rattle.std.specs.Prelude.{◌≡◌, ◌≤◌, ◌<◌, ◌+◌, ◌++◌, ◌∷◌, ℕ, ℤ, true, false, List, length, reverse, slice_get};
ghost use Rattle.std.specs.Prelude.{Some, None, is_some};
ghost use Rattle.gd_words.specs.declared.limits.TheConstants.{MOST_MESSAGE_WORDS, SECTOR_WORDS};
ghost use Rattle.gd_words.specs.Members.{IsAmong};
ghost use Rattle.gd_words.specs.declared.device.DeviceCall.{DeviceCall};
ghost use Rattle.gd_words.specs.declared.device.DeviceCall.TheVariants.{Write};
ghost use Rattle.tal_tree.specs.declared.site.Site.{Site};
ghost use Rattle.tal_tree.specs.declared.site.OpenerSpec.{OpenerSpec};
ghost use Rattle.tal_tree.specs.declared.site.ProcessSpec.{ProcessSpec};
ghost use Rattle.world_semantics.specs.process_semantics.specs.declared.point.Point.TheVariants.{Take};
ghost use Rattle.world_semantics.specs.process_semantics.specs.Process.{in_hand, point};
ghost use Rattle.world_semantics.specs.plain_semantics.specs.Openers.{files_of, openers_of};
ghost use Rattle.world_semantics.specs.whole_states.specs.Processes.{IsRegularKind, IsWholeProcess};
ghost use Rattle.world_semantics.specs.disc_device.specs.Sectors.{Stored, is_written};
ghost use Rattle.world_semantics.specs.checkpoint_image.specs.Behaving.{last_write_of};
ghost use Rattle.world_semantics.specs.checkpoint_image.specs.declared.receive.OpenerBlock.{OpenerBlock};
ghost use Rattle.world_semantics.specs.checkpoint_image.specs.Receive.{holds, last_ones};
ghost use Rattle.world_semantics.specs.Core.{Core, Deed, Acted, Advances};
ghost use Rattle.world_semantics.specs.Own.{found_on};
ghost use Rattle.process_histories.specs.Bounds.{AreBounded};
ghost use Rattle.process_histories.specs.Devices.{sectors_after, writes_in};
ghost use Rattle.process_histories.specs.Histories.{HasDone, kind_of, kind_without_mirror};
ghost use Rattle.process_histories.specs.Words.{taken_from, answered_to, requests_on, replies_on, awaits_on, one_if};

/// Deeds determine the core that they leave, and the deeds that came before others were done too, each from the core
/// before it.
pub fn deeds_determine_the_core()
    ensures one { (site : Site) (number : ℕ) (spec : ProcessSpec) (deeds : List Deed) (core other : Core)
        → HasDone site number spec deeds core
        → HasDone site number spec deeds other → core ≡ other }
    ensures before { (site : Site) (number : ℕ) (spec : ProcessSpec) (since deeds : List Deed) (core : Core)
        → HasDone site number spec (since ++ deeds) core
        → (old : Core) × HasDone site number spec deeds old }
    ensures last { (site : Site) (number : ℕ) (spec : ProcessSpec) (deed : Deed) (deeds : List Deed) (core next : Core)
        → HasDone site number spec deeds core
        → HasDone site number spec (deed ∷ deeds) next → Advances (openers_of site number) core deed next }
{}

/// On each file as many replies were got as requests were asked, but for the one that is awaited; of each opener as
/// many requests were answered as were taken, but for the one in hand, which the state and the receive table agree on;
/// at Take there is none.
pub fn requests_and_replies_alternate()
    ensures files { (site : Site) (number : ℕ) (spec : ProcessSpec) (deeds : List Deed) (core : Core) (file : ℕ)
        → IsRegularKind spec.what
        → HasDone site number spec deeds core → length (requests_on file deeds)
        ≡ length (replies_on file deeds) + one_if (awaits_on core.state file) }
    ensures openers { (site : Site) (number : ℕ) (spec : ProcessSpec) (deeds : List Deed) (core : Core) (place : ℕ)
        → HasDone site number spec deeds core
        → length (taken_from place deeds) ≡ length (answered_to place deeds) + one_if (holds core.receive place) }
    ensures in_hand { (site : Site) (number : ℕ) (spec : ProcessSpec) (deeds : List Deed) (core : Core)
        → HasDone site number spec deeds core
        → in_hand core.state ≡ is_some core.receive.in_hand }
    ensures take { (site : Site) (number : ℕ) (spec : ProcessSpec) (deeds : List Deed) (core : Core)
        → HasDone site number spec deeds core
        → point core.state ≡ Take → core.receive.in_hand ≡ None }
{}

/// The number last taken from an opener is how many of its requests were taken, and the next number on a file one more
/// than how many were asked.
pub fn numbers_count_requests()
    ensures taken { (site : Site) (number : ℕ) (spec : ProcessSpec) (deeds : List Deed) (core : Core) (place : ℕ)
        (block : OpenerBlock)
        → HasDone site number spec deeds core → slice_get core.receive.openers place ≡ Some block
        → block.taken ≡ length (taken_from place deeds) }
    ensures next { (site : Site) (number : ℕ) (spec : ProcessSpec) (deeds : List Deed) (core : Core) (file next : ℕ)
        → HasDone site number spec deeds core → slice_get core.next file ≡ Some next
        → next ≡ length (requests_on file deeds) + 1 }
{}

/// The replies that are kept for an opener are the last that were answered to it, the oldest first, as many as its
/// depth.
pub fn the_last_replies_are_kept()
    ensures { (site : Site) (number : ℕ) (spec : ProcessSpec) (deeds : List Deed) (core : Core) (place : ℕ)
        (block : OpenerBlock) (opener : OpenerSpec)
        → HasDone site number spec deeds core → slice_get core.receive.openers place ≡ Some block
        → slice_get (openers_of site number) place ≡ Some opener
        → block.kept ≡ last_ones opener.depth (reverse (answered_to place deeds)) }
{}

/// A process stays of its kind, with a next number for each of its files and a block for each of its openers.
pub fn a_process_stays_of_its_kind()
    ensures kind { (site : Site) (number : ℕ) (spec : ProcessSpec) (deeds : List Deed) (core : Core)
        → HasDone site number spec deeds core → kind_of core.state ≡ kind_without_mirror spec.what }
    ensures files { (site : Site) (number : ℕ) (spec : ProcessSpec) (deeds : List Deed) (core : Core)
        → HasDone site number spec deeds core
        → length core.next ≡ length (files_of spec.what) }
    ensures openers { (site : Site) (number : ℕ) (spec : ProcessSpec) (deeds : List Deed) (core : Core)
        → HasDone site number spec deeds core
        → length core.receive.openers ≡ length (openers_of site number) }
{}

/// The writes of a disc are numbered from 1 on. The number of the last one is how many there were, and no sector has a
/// greater one; each write is new, to a sector that is there, and stands there after it.
pub fn writes_are_numbered()
    ensures last { (site : Site) (number : ℕ) (spec : ProcessSpec) (deeds : List Deed) (core : Core)
        → HasDone site number spec deeds core
        → last_write_of core.state ≡ writes_in deeds }
    ensures next { (site : Site) (number : ℕ) (spec : ProcessSpec) (deeds : List Deed) (core : Core) (sector write : ℕ)
        (words found : List ℤ)
        → HasDone site number spec (Acted (Write sector words write) found ∷ deeds) core → write ≡ writes_in deeds + 1 }
    ensures most { (site : Site) (number : ℕ) (spec : ProcessSpec) (deeds : List Deed) (core : Core) (sector : ℕ)
        (stored : Stored) → HasDone site number spec deeds core
        → slice_get (sectors_after spec.what deeds) sector ≡ Some stored → stored.number ≤ writes_in deeds }
    ensures new { (site : Site) (number : ℕ) (spec : ProcessSpec) (deeds : List Deed) (core : Core) (sector write : ℕ)
        (words found : List ℤ)
        → HasDone site number spec (Acted (Write sector words write) found ∷ deeds) core
        → is_written (sectors_after spec.what deeds) sector write ≡ false }
    ensures there { (site : Site) (number : ℕ) (spec : ProcessSpec) (deeds : List Deed) (core : Core)
        (sector write : ℕ) (words found : List ℤ)
        → HasDone site number spec (Acted (Write sector words write) found ∷ deeds) core
        → sector < length (sectors_after spec.what deeds) }
    ensures written { (site : Site) (number : ℕ) (spec : ProcessSpec) (deeds : List Deed) (core : Core)
        (sector write : ℕ) (words found : List ℤ)
        → HasDone site number spec (Acted (Write sector words write) found ∷ deeds) core
        → is_written (sectors_after spec.what (Acted (Write sector words write) found ∷ deeds)) sector write ≡ true }
{}

/// A process of a regular program that did bounded deeds is in a whole state. What it asks has at most 16 words, and
/// what a call of a disc's device finds has 8.
pub fn a_history_leaves_a_whole_state()
    ensures whole { (site : Site) (number : ℕ) (spec : ProcessSpec) (deeds : List Deed) (core : Core)
        → IsRegularKind spec.what → HasDone site number spec deeds core
        → AreBounded deeds → IsWholeProcess core.state }
    ensures asked { (site : Site) (number : ℕ) (spec : ProcessSpec) (deeds : List Deed) (core : Core) (file : ℕ)
        (words : List ℤ) → HasDone site number spec deeds core
        → IsAmong words (requests_on file deeds) → length words ≤ MOST_MESSAGE_WORDS }
    ensures found { (site : Site) (number : ℕ) (spec : ProcessSpec) (deeds : List Deed) (core : Core)
        (call : DeviceCall) → HasDone site number spec deeds core
        → length (found_on (sectors_after spec.what deeds) call) ≡ SECTOR_WORDS }
{}
