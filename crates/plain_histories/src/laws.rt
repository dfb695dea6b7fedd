ghost use Rattle.std.specs.Prelude.{◌≡◌, ◌≤◌, ◌+◌, ◌∷◌, ◌++◌, ℕ, ℤ, List, length, reverse, slice_get, Some};
ghost use Rattle.gd_words.specs.declared.limits.TheConstants.{MOST_MESSAGE_WORDS};
ghost use Rattle.gd_words.specs.Members.{IsAmong};
ghost use Rattle.tal_tree.specs.declared.act.Act.{Act};
ghost use Rattle.tal_tree.specs.declared.act.Act.TheVariants.{Step, Take};
ghost use Rattle.tal_tree.specs.declared.act.Shown.{Shown};
ghost use Rattle.tal_tree.specs.declared.site.ProcessSpec.{ProcessSpec};
ghost use Rattle.tal_tree.specs.declared.site.Site.{Site};
ghost use Rattle.tal_tree.specs.declared.site.Who.{Who};
ghost use Rattle.plain_semantics.specs.Machine.{Plain, Made, made, made_all, plain_start, IsPossible, shown_by};
ghost use Rattle.plain_semantics.specs.declared.slot.Opener.{Opener};
ghost use Rattle.plain_semantics.specs.declared.slot.Slot.{Slot};
ghost use Rattle.plain_semantics.specs.declared.slot.Slot.TheVariants.{Waiting, Answered};
ghost use Rattle.plain_semantics.specs.Openers.{openers_of, opener_of};
ghost use Rattle.process_histories.specs.world_semantics.specs.Core.{Core, Deed, Took, Advances};
ghost use Rattle.process_histories.specs.world_semantics.specs.Kept.{own_acts};
ghost use Rattle.process_histories.specs.world_semantics.specs.Laws.{HasGrown};
ghost use Rattle.process_histories.specs.Bounds.{AreShort, AreBounded};
ghost use Rattle.process_histories.specs.Histories.{HasDone};
ghost use Rattle.plain_histories.specs.Agreeing.{AreRegular, Agrees};
ghost use Rattle.plain_histories.specs.Booking.{act_of, shown_of, IsAllowed, CanDo, AreBooked, AreShortRequests};
ghost use Rattle.plain_histories.specs.Booking.{AreHeld};
ghost use Rattle.plain_histories.specs.Ledgers.{Ledger, with_deed, with_deeds, with_entered, with_printed, requests_of};
ghost use Rattle.plain_histories.specs.Ledgers.{answered_of};
ghost use Rattle.plain_histories.specs.Slots.{IsSlot, IsEntry};

/// A deed that a process can do and that is allowed is an act of the machine that a ledger describes, and the ledger
/// with it describes the machine after it.
pub fn a_deed_is_an_act()
    ensures { (site : Site) (plain : Plain) (ledger : Ledger) (number : ℕ) (spec : ProcessSpec) (deed : Deed)
        (before after : Core) → AreRegular site
        → Agrees site plain ledger → slice_get site.processes number ≡ Some spec
        → HasDone site number spec (ledger.deeds number) before
        → Advances (openers_of site number) before deed after → IsAllowed site ledger number spec deed
        → (next : Plain) × (made site plain (act_of number deed)
        ≡ Some (record { plain = next; shown = shown_of number deed }))
        × Agrees site next (with_deed number deed ledger) }
{}

/// An act that a process makes on the machine that a ledger describes is a deed that it can do and that is allowed: a
/// step is one other than a take, and a take is of the request that waits.
pub fn an_act_is_a_deed()
    ensures step { (site : Site) (plain : Plain) (ledger : Ledger) (number : ℕ) (spec : ProcessSpec) (m : Made)
        → AreRegular site → Agrees site plain ledger
        → slice_get site.processes number ≡ Some spec → AreBounded (ledger.deeds number)
        → made site plain (Step number) ≡ Some m
        → (deed : Deed) × (act_of number deed ≡ Step number) × CanDo site ledger number spec deed }
    ensures take { (site : Site) (plain : Plain) (ledger : Ledger) (number place : ℕ) (spec : ProcessSpec) (one : Who)
        (m : Made) → Agrees site plain ledger
        → slice_get site.processes number ≡ Some spec
        → opener_of site one ≡ Some (record { server = number; place = place })
        → made site plain (Take number place) ≡ Some m
        → (words : List ℤ) × CanDo site ledger number spec (Took place words) }
{}

/// Booked acts are possible on the machine of single processes and show what is booked; the machine after them is as
/// the ledger says, which has each of a process's acts as a deed.
pub fn booked_acts_are_possible()
    ensures possible { (site : Site) (acts : List Act) (shown : List Shown) (ledger : Ledger) → AreRegular site
        → AreBooked site acts shown ledger → IsPossible site (reverse acts) }
    ensures shown { (site : Site) (acts : List Act) (shown : List Shown) (ledger : Ledger) → AreRegular site
        → AreBooked site acts shown ledger
        → shown_by site (reverse acts) ≡ reverse shown }
    ensures machine { (site : Site) (acts : List Act) (shown : List Shown) (ledger : Ledger) → AreRegular site
        → AreBooked site acts shown ledger
        → (m : Made) × (made_all site (plain_start site) (reverse acts) ≡ Some m) × Agrees site m.plain ledger }
{}

/// A ledger has as many deeds of a process as there are acts of its own.
pub fn deeds_count_acts()
    ensures { (site : Site) (acts : List Act) (shown : List Shown) (ledger : Ledger) (number : ℕ)
        → AreBooked site acts shown ledger
        → own_acts number acts ≡ length (ledger.deeds number) }
{}

/// Where the requests of the terminals have at most 16 words, so has each request, and deeds take in no more words than
/// a request or a sector has.
pub fn booked_words_are_short()
    ensures requests { (site : Site) (acts : List Act) (shown : List Shown) (ledger : Ledger) (one : Who)
        (words : List ℤ) → AreShortRequests site
        → AreBooked site acts shown ledger → IsAmong words (requests_of ledger one)
        → length words ≤ MOST_MESSAGE_WORDS }
    ensures deeds { (site : Site) (acts : List Act) (shown : List Shown) (ledger : Ledger) (number : ℕ)
        → AreShortRequests site
        → AreBooked site acts shown ledger → AreShort (ledger.deeds number) }
{}

/// Held acts can be kept later, and they show nothing.
pub fn held_acts_can_be_kept_later()
    ensures { (site : Site) (kept held : List Act) (shown : List Shown) (ledger : Ledger) (number : ℕ)
        (spec : ProcessSpec) (deeds : List Deed) (core : Core)
        → AreBooked site kept shown ledger → slice_get site.processes number ≡ Some spec
        → AreHeld site ledger number held deeds
        → HasDone site number spec (deeds ++ ledger.deeds number) core
        → AreBooked site (held ++ kept) shown (with_deeds number deeds ledger) }
{}

/// The deeds of other processes, and what terminals enter and print, leave a process's deeds and its held acts as they
/// are.
pub fn others_leave_a_process_alone()
    ensures deeds { (ledger : Ledger) (number other : ℕ) (deed : Deed) → (other ≡ number → ⊥)
        → (with_deed other deed ledger).deeds number ≡ ledger.deeds number }
    ensures deed { (site : Site) (kept held : List Act) (shown : List Shown) (ledger : Ledger) (number other : ℕ)
        (spec : ProcessSpec) (deed : Deed) (deeds : List Deed)
        (before after : Core) → AreRegular site → AreBooked site kept shown ledger
        → slice_get site.processes other ≡ Some spec
        → HasDone site other spec (ledger.deeds other) before → Advances (openers_of site other) before deed after
        → (other ≡ number → ⊥)
        → AreHeld site ledger number held deeds → AreHeld site (with_deed other deed ledger) number held deeds }
    ensures entry { (site : Site) (kept held : List Act) (shown : List Shown) (ledger : Ledger) (number terminal : ℕ)
        (words : List ℤ) (deeds : List Deed) → AreRegular site
        → AreBooked site kept shown ledger → length (ledger.entered terminal) ≡ length (ledger.printed terminal)
        → AreHeld site ledger number held deeds → AreHeld site (with_entered terminal words ledger) number held deeds }
    ensures reply { (site : Site) (held : List Act) (ledger : Ledger) (number terminal : ℕ) (words : List ℤ)
        (deeds : List Deed)
        → AreHeld site ledger number held deeds → AreHeld site (with_printed terminal words ledger) number held deeds }
{}

/// The requests and replies of an opener make one slot. The request with the number after the last that was taken is
/// the one that waits there, the answer to the last request of an opener that lacks one reply is the one that it gets,
/// and all that it got was answered.
pub fn lists_make_one_slot()
    ensures one { (requests taken answered replies : List (List ℤ)) (slot other : Slot)
        → IsSlot requests taken answered replies slot
        → IsSlot requests taken answered replies other → slot ≡ other }
    ensures waits { (requests taken answered replies : List (List ℤ)) (slot : Slot) (words : List ℤ)
        → IsSlot requests taken answered replies slot
        → IsEntry (length taken + 1) words requests → (slot ≡ Waiting words) × (requests ≡ words ∷ taken) }
    ensures answered { (requests taken answered replies : List (List ℤ)) (slot : Slot) (words : List ℤ)
        → IsSlot requests taken answered replies slot
        → length requests ≡ length replies + 1 → IsEntry (length requests) words answered
        → (slot ≡ Answered words) × (answered ≡ words ∷ replies) }
    ensures got { (requests taken answered replies : List (List ℤ)) (slot : Slot)
        → IsSlot requests taken answered replies slot → HasGrown replies answered }
{}

/// A number names one entry at most, none above the length, and the same one in all that the list grows to; what was
/// asked and answered only grows.
pub fn entries_keep_their_numbers()
    ensures one { (number : ℕ) (words other : List ℤ) (all : List (List ℤ)) → IsEntry number words all
        → IsEntry number other all → words ≡ other }
    ensures most { (number : ℕ) (words : List ℤ) (all : List (List ℤ)) → IsEntry number words all
        → number ≤ length all }
    ensures stays { (number : ℕ) (words : List ℤ) (before after : List (List ℤ)) → HasGrown before after
        → IsEntry number words before → IsEntry number words after }
    ensures requests { (number : ℕ) (deed : Deed) (ledger : Ledger) (one : Who)
        → HasGrown (requests_of ledger one) (requests_of (with_deed number deed ledger) one) }
    ensures answered { (number : ℕ) (deed : Deed) (ledger : Ledger) (opener : Opener)
        → HasGrown (answered_of ledger opener) (answered_of (with_deed number deed ledger) opener) }
    ensures entered { (terminal : ℕ) (words : List ℤ) (ledger : Ledger) (one : Who)
        → HasGrown (requests_of ledger one) (requests_of (with_entered terminal words ledger) one) }
{}
