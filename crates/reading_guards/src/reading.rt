ghost use Rattle.std.specs.Prelude.{◌≡◌, [], ◌∷◌, ◌++◌, codes, false, true, Some, None, Ok, Err};
ghost use Rattle.tal_tree.specs.declared.act.Act.TheVariants.{Step, Take, Enter, Print};
ghost use Rattle.report_reader.specs.trace_print.specs.declared.closing.End.TheVariants.{Idle, Cut, Second};
ghost use Rattle.report_reader.specs.DeckEnds.{deck_end};
ghost use Rattle.report_reader.specs.Reading.{read_report};
ghost use Rattle.report_reader.specs.Telling.{may_follow, told_by};
ghost use Rattle.report_reader.specs.declared.told.Told.TheVariants as told;
ghost use Rattle.report_guards.specs.Sites.{site};

/// A line of an act tells it where it is written just so and names what the site has; an opener has to be one of its
/// process.
pub fn an_act_is_told_by_its_line()
    ensures step { told_by site (codes "A step $BANK") ≡ Some (told.Act (Step 1)) }
    ensures take { told_by site (codes "A take $BANK $T1") ≡ Some (told.Act (Take 1 0)) }
    ensures file { told_by site (codes "A take $DATA $BANK/DISK") ≡ Some (told.Act (Take 0 0)) }
    ensures second { told_by site (codes "A take $DATA $T2") ≡ Some (told.Act (Take 0 1)) }
    ensures enter { told_by site (codes "A enter $T2") ≡ Some (told.Act (Enter 1)) }
    ensures print { told_by site (codes "A print $T1") ≡ Some (told.Act (Print 0)) }
    ensures other_opener { told_by site (codes "A take $DATA $T1") ≡ None }
    ensures other_process { told_by site (codes "A step $T1") ≡ None }
    ensures wide { told_by site (codes "A  step $BANK") ≡ None }
    ensures long { told_by site (codes "A step $BANK ") ≡ None }
    ensures short { told_by site (codes "A step $BAN") ≡ None }
{}

/// A write or a sector is of a disc of the site and of one of its sectors, and has eight words.
pub fn a_write_names_a_sector()
    ensures write { told_by site (codes "W $DATA 15: 0 -1 2 3 4 5 6 32767") ≡ Some told.Shown }
    ensures sector { told_by site (codes "D $DATA 0: 0 0 0 0 0 0 0 -32768") ≡ Some told.Sector }
    ensures past { told_by site (codes "W $DATA 16: 0 0 0 0 0 0 0 0") ≡ None }
    ensures pair { told_by site (codes "W $BANK 0: 0 0 0 0 0 0 0 0") ≡ None }
    ensures seven { told_by site (codes "W $DATA 0: 0 0 0 0 0 0 0") ≡ None }
    ensures nine { told_by site (codes "W $DATA 0: 0 0 0 0 0 0 0 0 0") ≡ None }
    ensures zero_before { told_by site (codes "W $DATA 00: 0 0 0 0 0 0 0 0") ≡ None }
    ensures word_zero_before { told_by site (codes "W $DATA 0: 00 0 0 0 0 0 0 0") ≡ None }
    ensures minus_zero { told_by site (codes "W $DATA 0: -0 0 0 0 0 0 0 0") ≡ None }
    ensures too_large { told_by site (codes "D $DATA 0: 0 0 0 0 0 0 0 32768") ≡ None }
    ensures too_small { told_by site (codes "D $DATA 0: 0 0 0 0 0 0 0 -32769") ≡ None }
{}

/// A reply is of a terminal, has a number of 32 bits, and at most 16 words.
pub fn a_reply_names_a_terminal()
    ensures no_word { told_by site (codes "R $T1 1:") ≡ Some told.Shown }
    ensures sixteen { told_by site (codes "R $T2 4294967295: 1 2 3 4 5 6 7 8 9 10 11 12 13 14 15 16")
        ≡ Some told.Shown }
    ensures seventeen { told_by site (codes "R $T2 1: 1 2 3 4 5 6 7 8 9 10 11 12 13 14 15 16 17") ≡ None }
    ensures too_large { told_by site (codes "R $T2 4294967296: 1") ≡ None }
    ensures no_colon { told_by site (codes "R $T1 1 5") ≡ None }
    ensures space { told_by site (codes "R $T1 1: ") ≡ None }
    ensures other { told_by site (codes "R $DATA 1: 5") ≡ None }
{}

/// A stop and an end name a processor of the site.
pub fn a_stop_names_a_processor()
    ensures stop { told_by site (codes "S 2") ≡ Some (told.Stop 2) }
    ensures past { told_by site (codes "S 3") ≡ None }
    ensures zero_before { told_by site (codes "S 02") ≡ None }
    ensures idle { told_by site (codes "END idle") ≡ Some (told.End Idle) }
    ensures cut { told_by site (codes "END cut") ≡ Some (told.End Cut) }
    ensures second { told_by site (codes "END second 1") ≡ Some (told.End (Second 1)) }
    ensures second_past { told_by site (codes "END second 3") ≡ None }
    ensures lost { told_by site (codes "END lost $DATA") ≡ None }
    ensures other { told_by site (codes "END swept") ≡ None }
    ensures empty { told_by site [] ≡ None }
{}

/// How drives stand isn't told of single processes.
pub fn no_line_tells_of_drives()
    ensures working { told_by site (codes "M $DATA working working") ≡ None }
    ensures reviving { told_by site (codes "M $DATA reviving 3 working") ≡ None }
{}

/// Writes and replies come first, in any order, then sectors, then processors rising, then acts, and the end comes
/// last.
pub fn lines_have_their_order()
    ensures shown_after_sector { may_follow (Some told.Sector) told.Shown ≡ false }
    ensures sector_after_shown { may_follow (Some told.Shown) told.Sector ≡ true }
    ensures rising { may_follow (Some (told.Stop 0)) (told.Stop 2) ≡ true }
    ensures falling { may_follow (Some (told.Stop 2)) (told.Stop 0) ≡ false }
    ensures twice { may_follow (Some (told.Stop 2)) (told.Stop 2) ≡ false }
    ensures stop_after_act { may_follow (Some (told.Act (Step 1))) (told.Stop 2) ≡ false }
    ensures act_after_act { may_follow (Some (told.Act (Step 1))) (told.Act (Step 1)) ≡ true }
    ensures after_end { may_follow (Some (told.End Idle)) (told.End Idle) ≡ false }
    ensures first { may_follow None (told.End Cut) ≡ true }
{}

/// A report is read to its end; where a line can't stand, or is missing, its number is told.
pub fn a_report_is_read()
    ensures read { read_report site (codes "S 0" ++ 10 ∷ codes "A enter $T1" ++ 10 ∷ codes "END cut" ++ 10 ∷ [])
        ≡ Ok (record { told = told.Stop 0 ∷ told.Act (Enter 0) ∷ told.End Cut ∷ []; end = Cut }) }
    ensures formless { read_report site (codes "S 0" ++ 10 ∷ codes "A enter $T3" ++ 10 ∷ codes "END cut" ++ 10 ∷ [])
        ≡ Err 2 }
    ensures out_of_order { read_report site
        (codes "A enter $T1" ++ 10 ∷ codes "S 0" ++ 10 ∷ codes "END cut" ++ 10 ∷ []) ≡ Err 2 }
    ensures no_end { read_report site (codes "S 0" ++ 10 ∷ []) ≡ Err 2 }
    ensures nothing { read_report site [] ≡ Err 1 }
    ensures no_feed { read_report site (codes "END cut") ≡ Err 1 }
    ensures goes_on { read_report site (codes "END cut" ++ 10 ∷ 10 ∷ []) ≡ Err 2 }
    ensures goes_on_without_feed { read_report site (codes "END cut" ++ 10 ∷ codes "S 0") ≡ Err 2 }
{}

/// A deck ends after its line END, which may have spaces around it, and not in a program.
pub fn a_deck_ends_after_its_end()
    ensures first { deck_end (codes "a" ++ 10 ∷ codes " END " ++ 10 ∷ codes "END" ++ 10 ∷ []) ≡ 8 }
    ensures in_program { deck_end (codes "pair $A 0 1" ++ 10 ∷ codes "END" ++ 10 ∷ codes "." ++ 10 ∷ codes "END"
        ++ 10 ∷ codes "S 0" ++ 10 ∷ []) ≡ 22 }
    ensures two_words { deck_end (codes "END END" ++ 10 ∷ codes "S" ++ 10 ∷ []) ≡ 10 }
    ensures point_with_a_space { deck_end (codes "pair" ++ 10 ∷ codes ". " ++ 10 ∷ codes "END" ++ 10 ∷ []) ≡ 12 }
    ensures no_end { deck_end (codes "a" ++ 10 ∷ codes "b") ≡ 3 }
    ensures last { deck_end (codes "a" ++ 10 ∷ codes "END") ≡ 5 }
{}
