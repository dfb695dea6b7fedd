ghost use Rattle.std.specs.Prelude.{◌≡◌, true, false, Some, None, [], ◌∷◌};
ghost use Rattle.sync_ids.specs.Tables.{fits};
ghost use Rattle.request_guards.specs.Tables.{deep, fresh, held, remembered, shallow, table, table_in_hand};

/// A table fits a process that has an opener for each of its blocks, and of each depth no fewer than the replies that
/// are kept.
pub fn a_table_fits_its_openers()
    ensures free { fits remembered table ≡ true }
    ensures held { fits remembered table_in_hand ≡ true }
    ensures nothing_kept { fits remembered (record
        { openers = fresh ∷ held ∷ record { taken = 5; kept = [] } ∷ []; in_hand = Some 2 }) ≡ true }
    ensures too_few { fits remembered (record { openers = shallow ∷ deep ∷ []; in_hand = None }) ≡ false }
    ensures too_many { fits remembered (record { openers = shallow ∷ deep ∷ fresh ∷ fresh ∷ []; in_hand = None })
        ≡ false }
    ensures too_deep { fits remembered (record { openers = deep ∷ shallow ∷ fresh ∷ []; in_hand = None }) ≡ false }
    ensures untaken { fits remembered (record
        { openers = record { taken = 0; kept = shallow.kept } ∷ deep ∷ fresh ∷ []; in_hand = None }) ≡ false }
{}

/// What is in hand is the request of an opener, without a reply.
pub fn a_request_in_hand_is_unanswered()
    ensures answered { fits remembered (record
        { openers = record { taken = 1; kept = shallow.kept } ∷ deep ∷ fresh ∷ []; in_hand = Some 0 }) ≡ false }
    ensures not_taken { fits remembered (record { openers = shallow ∷ deep ∷ fresh ∷ []; in_hand = Some 2 }) ≡ false }
    ensures no_opener { fits remembered (record { openers = shallow ∷ deep ∷ fresh ∷ []; in_hand = Some 3 }) ≡ false }
{}
