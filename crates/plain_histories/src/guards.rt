ghost use Rattle.std.specs.Prelude.{◌≡◌, ◌≤◌, ℕ, ℤ, pos, List, [], ◌∷◌, length};
ghost use Rattle.tal_tree.specs.declared.act.Act.TheVariants.{Step, Take, Enter};
ghost use Rattle.tal_tree.specs.declared.act.Shown.{Shown};
ghost use Rattle.tal_tree.specs.declared.act.Shown.TheVariants.{Reply, Write};
ghost use Rattle.plain_semantics.specs.declared.slot.Slot.TheVariants.{Empty, Waiting, Taken, Answered};
ghost use Rattle.process_histories.specs.world_semantics.specs.Core.{Deed, Took};
ghost use Rattle.process_histories.specs.Served.{disc_site, sector_with};
ghost use Rattle.plain_histories.specs.Booking.{AreBooked, AreHeld, AreShortRequests};
ghost use Rattle.plain_histories.specs.Ledgers.{Ledger, empty_ledger};
ghost use Rattle.plain_histories.specs.Served.{asked, replied, all_acts};
ghost use Rattle.plain_histories.specs.Slots.{IsSlot, IsEntry};

/// The acts of a disc that a terminal asks once are booked, with the write and the reply that they show. A second
/// request can't be entered before the reply was printed, nor a request be taken that none entered.
pub fn a_served_request_is_booked()
    ensures served { AreBooked disc_site all_acts (Reply 0 1 (pos 0 ∷ []) ∷ Write 0 1 (sector_with (pos 5)) ∷ [])
        replied }
    ensures not_twice { (shown : List Shown) (ledger : Ledger)
        → AreBooked disc_site (Enter 0 ∷ Enter 0 ∷ []) shown ledger → ⊥ }
    ensures not_entered { (shown : List Shown) (ledger : Ledger) → AreBooked disc_site (Take 0 0 ∷ []) shown ledger
        → ⊥ }
    ensures short { AreShortRequests disc_site }
{}

/// The take of a request that waits is held, with steps inside after it; nothing is held without a take, or before a
/// request waits.
pub fn a_take_is_held_while_its_request_waits()
    ensures held { AreHeld disc_site asked 0 (Take 0 0 ∷ []) (Took 0 (pos 2 ∷ pos 1 ∷ pos 5 ∷ []) ∷ []) }
    ensures no_take { (deeds : List Deed) → AreHeld disc_site asked 0 (Step 0 ∷ []) deeds → ⊥ }
    ensures none_waits { (deeds : List Deed) → AreHeld disc_site empty_ledger 0 (Take 0 0 ∷ []) deeds → ⊥ }
    ensures taken { (deeds : List Deed) → AreHeld disc_site replied 0 (Take 0 0 ∷ []) deeds → ⊥ }
{}

/// A slot goes with its request from waiting to taken, answered and empty; numbers of entries count from 1 at the
/// oldest.
pub fn a_slot_goes_with_its_request()
    ensures waits { (words : List ℤ) → IsSlot (words ∷ []) [] [] [] (Waiting words) }
    ensures taken { (words : List ℤ) → IsSlot (words ∷ []) (words ∷ []) [] [] Taken }
    ensures answered { (words reply : List ℤ) → IsSlot (words ∷ []) (words ∷ []) (reply ∷ []) [] (Answered reply) }
    ensures got { (words reply : List ℤ) → IsSlot (words ∷ []) (words ∷ []) (reply ∷ []) (reply ∷ []) Empty }
    ensures first { (words next : List ℤ) → IsEntry 1 words (next ∷ words ∷ []) }
    ensures second { (words next : List ℤ) → IsEntry 2 next (next ∷ words ∷ []) }
{}
