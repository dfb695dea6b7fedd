ghost use Rattle.std.specs.Prelude.{◌≡◌, [], ◌∷◌, pos, Some, None};
ghost use Rattle.std.specs.Option.{option_map};
ghost use Rattle.process_semantics.specs.Process.{point};
ghost use Rattle.process_semantics.specs.declared.point.Point.TheVariants.{Await};
ghost use Rattle.computed_changes.specs.Fitting.{depths_of};
ghost use Rattle.computed_changes.specs.Stopped.{down_done};
ghost use Rattle.world_semantics.specs.Messages.{sent_at};
ghost use Rattle.world_semantics.specs.World.{pair_at_boot, terminal_node};
ghost use Rattle.letters.specs.Again.{kept_for, kept_from, of_copies, sent_again};
ghost use Rattle.letters.specs.Posts.{post_after_down, without_those_between};
ghost use Rattle.gd_words.specs.declared.message.Reply.{Reply};
ghost use Rattle.tal_tree.specs.declared.site.Who.TheVariants.{File, Terminal};
ghost use Rattle.letter_guards.specs.Worlds.{asked_by, bank, deeper_site, site, user, awaiting, world_at, world};
ghost use Rattle.letter_guards.specs.Worlds.{keeping_two, two_kept, taking_over, before_takeover, marked_by, bank_asks};
ghost use Rattle.letter_guards.specs.Worlds.{terminal_asks, user_is_told, user_is_told_of, terminal_is_told};
ghost use Rattle.letter_guards.specs.Worlds.{disc_tells, letter, post};

/// A node that marks a processor sends again the requests that its copies await, those of its terminals, and the
/// replies that its copies keep, in this order. So where the bank is on the node of the terminals that sends all three,
/// and else each of both nodes its own. A kept reply to a terminal isn't sent again.
pub fn a_mark_sends_again()
    ensures awaits { point awaiting.state ≡ Await }
    ensures all { sent_again site (world_at 16) (marked_by 16 (world_at 16)) 16 2
        ≡ sent_at 16 (bank_asks ∷ terminal_asks ∷ user_is_told ∷ []) }
    ensures copies { sent_again site world (marked_by 0 world) 0 2 ≡ sent_at 0 (bank_asks ∷ user_is_told ∷ []) }
    ensures terminals { sent_again site world (marked_by 16 world) 16 2 ≡ sent_at 16 (terminal_asks ∷ []) }
{}

/// Nothing is sent again where no route changes: by a node whose copies watch, by the mark of a processor to which no
/// route leads, and by that of one which the node has marked already.
pub fn nothing_is_sent_again_where_no_route_changes()
    ensures watching { sent_again site world (marked_by 1 world) 1 2 ≡ [] }
    ensures elsewhere { sent_again site (world_at 16) (world_at 16) 16 3 ≡ [] }
    ensures marked { sent_again site (marked_by 16 (world_at 16)) (marked_by 16 (world_at 16)) 16 2 ≡ [] }
    ensures other_node { sent_again site (marked_by 1 world) (marked_by 1 world) 0 2
        ≡ sent_at 0 (bank_asks ∷ user_is_told ∷ []) }
{}

/// Of what was owed only that between the node and the processor goes, in both directions; and what is sent again is
/// owed by the new routes.
pub fn what_is_lost_at_a_mark_is_owed_anew()
    ensures left { without_those_between 0 2 post.owed
        ≡ letter terminal_node 2 terminal_asks ∷ letter 0 terminal_node terminal_is_told ∷ letter 0 1 user_is_told
        ∷ [] }
    ensures owed { (post_after_down site 0 2 [] (marked_by 0 world) post).owed
        ≡ letter terminal_node 2 terminal_asks ∷ letter 0 terminal_node terminal_is_told ∷ letter 0 1 user_is_told
        ∷ letter 0 3 bank_asks ∷ letter 0 3 user_is_told ∷ [] }
    ensures sent { (post_after_down site 0 2 [] (marked_by 0 world) post).sent
        ≡ letter 0 3 bank_asks ∷ letter 0 3 user_is_told ∷ [] }
{}

/// The replies that are kept for one opener are sent again the oldest first, each with its number: the last one is that
/// to the request that was answered last, the one before it where that taken last is still in hand.
pub fn kept_replies_are_sent_the_oldest_first()
    ensures sent { sent_again site keeping_two (marked_by 0 keeping_two) 0 2
        ≡ sent_at 0 (bank_asks ∷ user_is_told_of 4 (pos 7) ∷ user_is_told_of 5 (pos 6) ∷ []) }
    ensures answered { kept_for 1 (two_kept None) 0
        ≡ record { process = 1; opener = 0; number = 4; words = pos 7 ∷ [] }
        ∷ record { process = 1; opener = 0; number = 5; words = pos 6 ∷ [] } ∷ [] }
    ensures in_hand { kept_for 1 (two_kept (Some 0)) 0
        ≡ record { process = 1; opener = 0; number = 3; words = pos 7 ∷ [] }
        ∷ record { process = 1; opener = 0; number = 4; words = pos 6 ∷ [] } ∷ [] }
    ensures another_in_hand { kept_for 1 (two_kept (Some 0)) 1
        ≡ record { process = 1; opener = 1; number = 1; words = pos 8 ∷ [] } ∷ [] }
    ensures none { kept_for 1 (two_kept None) 2 ≡ [] }
{}

/// What a copy that takes over tells those whose requests waited goes before what its node asks and tells again.
pub fn a_takeover_tells_first()
    ensures sent { option_map (λ done. (post_after_down site 3 2 done.sendings done.world before_takeover).sent)
        (down_done 3 2 taking_over)
        ≡ Some (letter 3 16 disc_tells ∷ letter 3 3 bank_asks ∷ letter 3 3 user_is_told ∷ []) }
    ensures owed { option_map (λ done. (post_after_down site 3 2 done.sendings done.world before_takeover).owed)
        (down_done 3 2 taking_over)
        ≡ Some (letter 3 16 disc_tells ∷ letter 3 3 bank_asks ∷ letter 3 3 user_is_told ∷ []) }
{}

/// What the copies of several processes send again goes by the processes' numbers, and of one process its first copy
/// goes before its second.
pub fn copies_send_again_in_their_order()
    ensures { of_copies (λ number copy. asked_by number copy.processor ∷ []) 1
        (pair_at_boot site 1 bank ∷ pair_at_boot site 2 user ∷ [])
        ≡ asked_by 1 0 ∷ asked_by 1 1 ∷ asked_by 2 2 ∷ asked_by 2 3 ∷ [] }
{}

/// A process keeps so many replies of each opener as that one's OPEN says, of a terminal one.
pub fn replies_are_kept_by_the_depth_of_the_file()
    ensures depths { depths_of deeper_site 1 ≡ 3 ∷ 1 ∷ [] }
    ensures one { depths_of site 1 ≡ 1 ∷ 1 ∷ [] }
    ensures none { depths_of site 2 ≡ [] }
{}

/// Each opener has its own kept replies, also behind one that stays where it is.
pub fn each_opener_has_its_own_kept_replies()
    ensures both { kept_from world 0 2 1 (two_kept None) 0
        (record { who = File 2 0; depth = 2 } ∷ record { who = File 2 0; depth = 1 } ∷ [])
        ≡ record { process = 1; opener = 0; number = 4; words = pos 7 ∷ [] }
        ∷ record { process = 1; opener = 0; number = 5; words = pos 6 ∷ [] }
        ∷ record { process = 1; opener = 1; number = 1; words = pos 8 ∷ [] } ∷ [] }
    ensures behind { kept_from world 0 2 1 (two_kept None) 0
        (record { who = Terminal 1; depth = 1 } ∷ record { who = File 2 0; depth = 1 } ∷ [])
        ≡ record { process = 1; opener = 1; number = 1; words = pos 8 ∷ [] } ∷ [] }
    ensures stay { kept_from world 0 3 1 (two_kept None) 0 (record { who = File 2 0; depth = 2 } ∷ []) ≡ [] }
{}
