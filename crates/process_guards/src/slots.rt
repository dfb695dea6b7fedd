ghost use Rattle.std.specs.Prelude.{◌≡◌, pos, [], ◌∷◌, Some, None};
ghost use Rattle.tal_tree.specs.declared.act.Act.TheVariants.{Step, Take, Enter, Print};
ghost use Rattle.tal_tree.specs.declared.act.Shown.TheVariants.{Reply};
ghost use Rattle.process_semantics.specs.declared.point.Point.TheVariants as point;
ghost use Rattle.process_semantics.specs.Disc.{disc_start, disc_took};
ghost use Rattle.plain_semantics.specs.declared.slot.Slot.TheVariants.{Empty, Waiting, Taken, Answered};
ghost use Rattle.plain_semantics.specs.Machine.{made};
ghost use Rattle.process_guards.specs.Machines.{disc_site, serving, with_slot};

/// A terminal enters its next request where its slot is empty, and no more than it has.
pub fn a_request_is_entered_where_none_is()
    ensures entered { made disc_site (with_slot disc_start None Empty 0) (Enter 0)
        ≡ Some (record { plain = with_slot disc_start None (Waiting (pos 1 ∷ pos 1 ∷ [])) 1; shown = [] }) }
    ensures none_left { made disc_site (with_slot disc_start None Empty 1) (Enter 0) ≡ None }
    ensures not_printed { made disc_site (with_slot disc_start None (Answered (pos 0 ∷ [])) 0) (Enter 0) ≡ None }
{}

/// A request that waits is taken by a process at Take alone, which can't step there.
pub fn a_request_is_taken_where_one_waits()
    ensures taken { made disc_site (with_slot disc_start None (Waiting (pos 1 ∷ pos 1 ∷ [])) 1) (Take 0 0)
        ≡ Some (record { plain = with_slot (disc_took disc_start (pos 1 ∷ pos 1 ∷ [])) (Some 0) Taken 1; shown = [] }) }
    ensures busy { made disc_site (with_slot (serving point.AtCheckpoint []) (Some 0) (Waiting []) 1) (Take 0 0)
        ≡ None }
    ensures nothing_waits { made disc_site (with_slot disc_start None Taken 1) (Take 0 0) ≡ None }
    ensures no_step { made disc_site (with_slot disc_start None Empty 0) (Step 0) ≡ None }
{}

/// A reply is shown with the number of its request, and leaves the slot empty; without one nothing is printed.
pub fn a_reply_is_printed()
    ensures printed { made disc_site (with_slot disc_start None (Answered (pos 0 ∷ [])) 1) (Print 0)
        ≡ Some (record { plain = with_slot disc_start None Empty 1; shown = Reply 0 1 (pos 0 ∷ []) ∷ [] }) }
    ensures not_yet { made disc_site (with_slot disc_start None Taken 1) (Print 0) ≡ None }
{}
