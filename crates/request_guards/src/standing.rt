ghost use Rattle.std.specs.Prelude.{◌≡◌, Some, None, pos, [], ◌∷◌};
ghost use Rattle.checkpoint_image.specs.declared.receive.RequestStanding.TheVariants.{Next, InHand, Kept, Old, Ahead};
ghost use Rattle.checkpoint_image.specs.Receive.{after_answering, after_taking, standing_at};
ghost use Rattle.request_guards.specs.Tables.{deep, fresh, held, reply, shallow, table, table_in_hand};

/// The number after the last taken is next and later ones are ahead; the last `depth` replies are kept, and what is
/// older is old.
pub fn a_number_stands_by_what_was_taken()
    ensures next { standing_at table 0 6 ≡ Next }
    ensures ahead { standing_at table 0 7 ≡ Ahead }
    ensures kept { standing_at table 0 5 ≡ Kept (reply 5) }
    ensures old { standing_at table 0 4 ≡ Old }
    ensures newest_of_four { standing_at table 1 7 ≡ Kept (reply 7) }
    ensures oldest_of_four { standing_at table 1 4 ≡ Kept (reply 4) }
    ensures older { standing_at table 1 3 ≡ Old }
    ensures first { standing_at table 2 1 ≡ Next }
    ensures nothing_taken { standing_at table 2 0 ≡ Old }
    ensures no_opener { standing_at table 3 1 ≡ Old }
{}

/// While a request is in hand, its number is neither next nor kept, and the replies that are kept are those to the
/// numbers before it.
pub fn what_is_in_hand_has_no_reply_yet()
    ensures in_hand { standing_at table_in_hand 1 7 ≡ InHand }
    ensures next { standing_at table_in_hand 1 8 ≡ Next }
    ensures newest { standing_at table_in_hand 1 6 ≡ Kept (reply 6) }
    ensures oldest { standing_at table_in_hand 1 3 ≡ Kept (reply 3) }
    ensures old { standing_at table_in_hand 1 2 ≡ Old }
    ensures others { standing_at table_in_hand 0 5 ≡ Kept (reply 5) }
{}

/// A request that is taken raises its opener's number by one and is in hand; the others' blocks stay.
pub fn taking_puts_a_request_in_hand()
    ensures { after_taking 0 shallow table ≡ record
        { openers = record { taken = 6; kept = reply 5 ∷ [] } ∷ deep ∷ fresh ∷ []; in_hand = Some 0 } }
{}

/// A reply is kept as the newest, and only where more than the depth would be kept the oldest goes.
pub fn a_depth_of_replies_is_kept()
    ensures shallow { after_answering 1 0 shallow (reply 6) table
        ≡ record { openers = record { taken = 5; kept = reply 6 ∷ [] } ∷ deep ∷ fresh ∷ []; in_hand = None } }
    ensures room { after_answering 2 0 shallow (reply 6) table
        ≡ record { openers = record { taken = 5; kept = reply 5 ∷ reply 6 ∷ [] } ∷ deep ∷ fresh ∷ []; in_hand = None } }
    ensures deep { after_answering 4 1 held (reply 7) table_in_hand ≡ table }
{}
