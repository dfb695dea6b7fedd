ghost use Rattle.std.specs.Prelude.{◌≡◌, Some, None, [], ◌∷◌};
ghost use Rattle.file_calls.specs.declared.waiting.Arrival.TheVariants.{Waits, Dropped, Again};
ghost use Rattle.file_calls.specs.Queue.{arrival_of};
ghost use Rattle.file_calls.specs.Takeover.{settlement_of};
ghost use Rattle.checkpoint_image.specs.Receive.{came, choice_among, reply_to, still_waiting, waits};
ghost use Rattle.request_guards.specs.Tables.{reply, request, table, table_in_hand};

/// Of one opener one request waits: a greater number takes the place of a smaller one and goes to the end, an equal and
/// a smaller one are dropped.
pub fn one_request_of_an_opener_waits()
    ensures first { waits [] (request 0 6) ≡ request 0 6 ∷ [] }
    ensures other { waits (request 0 6 ∷ []) (request 1 8) ≡ request 0 6 ∷ request 1 8 ∷ [] }
    ensures greater { waits (request 0 6 ∷ request 1 8 ∷ []) (request 0 7) ≡ request 1 8 ∷ request 0 7 ∷ [] }
    ensures equal { waits (request 0 6 ∷ request 1 8 ∷ []) (request 0 6) ≡ request 0 6 ∷ request 1 8 ∷ [] }
    ensures smaller { waits (request 0 7 ∷ []) (request 0 6) ≡ request 0 7 ∷ [] }
{}

/// A request that comes to a copy that acts waits where it is next or ahead, has its kept reply sent again, or is
/// dropped.
pub fn a_request_comes_by_its_standing()
    ensures next { arrival_of table [] (request 0 6) ≡ Waits }
    ensures ahead { arrival_of table [] (request 0 9) ≡ Waits }
    ensures again { arrival_of table [] (request 1 6) ≡ Again (reply_to (request 1 6) (reply 6)) }
    ensures in_hand { arrival_of table_in_hand [] (request 1 7) ≡ Dropped }
    ensures old { arrival_of table [] (request 1 3) ≡ Dropped }
    ensures outdone { arrival_of table (request 0 6 ∷ []) (request 0 6) ≡ Dropped }
    ensures kept_waits_not { came table [] (request 1 6) ≡ [] }
{}

/// What is taken is the first request that is next, in the order in which they came, whatever else waits.
pub fn the_first_that_is_next_is_taken()
    ensures first { choice_among table (request 0 7 ∷ request 1 8 ∷ request 2 1 ∷ [])
        ≡ Some (record { request = request 1 8; rest = request 0 7 ∷ request 2 1 ∷ [] }) }
    ensures none { choice_among table (request 0 7 ∷ request 1 9 ∷ []) ≡ None }
{}

/// A takeover sends the kept reply to the first request that has one, drops what is old before it, and leaves the rest.
pub fn a_takeover_settles_in_order()
    ensures kept { settlement_of table (request 0 4 ∷ request 1 6 ∷ request 2 1 ∷ [])
        ≡ record { reply = Some (reply_to (request 1 6) (reply 6)); rest = request 2 1 ∷ [] } }
    ensures none { settlement_of table (request 0 4 ∷ request 2 1 ∷ [])
        ≡ record { reply = None; rest = request 2 1 ∷ [] } }
    ensures still { still_waiting table (request 0 4 ∷ request 1 6 ∷ request 2 1 ∷ []) ≡ request 2 1 ∷ [] }
{}
