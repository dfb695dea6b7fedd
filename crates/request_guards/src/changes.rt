ghost use Rattle.std.specs.Prelude.{◌≡◌, true, false, Some, None, [], ◌∷◌};
ghost use Rattle.checkpoint_image.specs.Receive.{after_taking};
ghost use Rattle.sync_ids.specs.Changes.{change_between, table_with_change, fits_change};
ghost use Rattle.request_guards.specs.Tables.{deep, deeper, fresh, remembered, reply, shallow, since, table};
ghost use Rattle.request_guards.specs.Tables.{table_in_hand};

/// What changed from a table to a later one are the openers of which a request was taken or answered, each with the
/// number last taken and the replies that were added. Of more replies than are kept those that are kept go.
pub fn a_change_names_what_was_taken_and_answered()
    ensures untouched { change_between table table ≡ record { changes = []; in_hand = None } }
    ensures taken { change_between table (after_taking 0 shallow table)
        ≡ record { changes = since 0 6 [] ∷ []; in_hand = Some 0 } }
    ensures answered { change_between table_in_hand table
        ≡ record { changes = since 1 7 (reply 7 ∷ []) ∷ []; in_hand = None } }
    ensures both { change_between table_in_hand (record { openers = shallow ∷ deeper ∷ fresh ∷ []; in_hand = None })
        ≡ record { changes = since 1 9 (reply 7 ∷ reply 8 ∷ reply 9 ∷ []) ∷ []; in_hand = None } }
    ensures last { change_between table
        (record { openers = record { taken = 8; kept = reply 8 ∷ [] } ∷ deep ∷ fresh ∷ []; in_hand = None })
        ≡ record { changes = since 0 8 (reply 8 ∷ []) ∷ []; in_hand = None } }
{}

/// A change is put into the openers that it names: the replies that it adds are kept behind the others, of which the
/// oldest go.
pub fn a_change_is_put_into_its_openers()
    ensures added { table_with_change remembered.depths table
        (record { changes = since 1 9 (reply 8 ∷ reply 9 ∷ []) ∷ []; in_hand = None })
        ≡ record { openers = shallow ∷ deeper ∷ fresh ∷ []; in_hand = None } }
    ensures taken { table_with_change remembered.depths table (record { changes = since 0 6 [] ∷ []; in_hand = Some 0 })
        ≡ after_taking 0 shallow table }
{}

/// A change fits if its openers are there and rise, if it adds no more replies than the depth, and if the table that
/// comes of it fits. So one whose openers fall doesn't, nor does one that names an opener twice.
pub fn a_change_fits_openers_that_rise()
    ensures nothing { fits_change remembered (record { changes = []; in_hand = None }) ≡ true }
    ensures rising { fits_change remembered
        (record { changes = since 0 6 (reply 6 ∷ []) ∷ since 1 8 [] ∷ []; in_hand = Some 1 }) ≡ true }
    ensures falling { fits_change remembered
        (record { changes = since 1 8 [] ∷ since 0 6 (reply 6 ∷ []) ∷ []; in_hand = Some 1 }) ≡ false }
    ensures twice { fits_change remembered
        (record { changes = since 1 8 (reply 8 ∷ []) ∷ since 1 9 (reply 9 ∷ []) ∷ []; in_hand = None }) ≡ false }
    ensures nobody { fits_change remembered (record { changes = since 3 1 [] ∷ []; in_hand = None }) ≡ false }
    ensures depth { fits_change remembered
        (record { changes = since 1 11 (reply 8 ∷ reply 9 ∷ reply 10 ∷ reply 11 ∷ []) ∷ []; in_hand = None }) ≡ true }
    ensures too_many { fits_change remembered
        (record { changes = since 0 7 (reply 6 ∷ reply 7 ∷ []) ∷ []; in_hand = None }) ≡ false }
    ensures untaken { fits_change remembered (record { changes = since 2 0 (reply 1 ∷ []) ∷ []; in_hand = None })
        ≡ false }
    ensures answered { fits_change remembered (record { changes = since 2 1 (reply 1 ∷ []) ∷ []; in_hand = Some 2 })
        ≡ false }
    ensures unanswered { fits_change remembered (record { changes = since 2 1 [] ∷ []; in_hand = Some 2 }) ≡ true }
{}
