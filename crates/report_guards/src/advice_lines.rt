ghost use Rattle.std.specs.Prelude.{◌≡◌, [], ◌∷◌, ◌++◌, codes};
ghost use Rattle.std.specs.Fmt.{decimal};
ghost use Rattle.trace_print.specs.AdviceText.{advised_text, depth_line, depth_lines, list_line, pair_text};
ghost use Rattle.report_guards.specs.Sites.{site};

/// A CHECKPOINT's line has its number, its line in the text, and the names: globals, then variables of files.
pub fn what_a_checkpoint_names_has_its_line()
    ensures names { list_line site 1 (record { statement = 7; line = 13; items = 0 ∷ []; files = 1 ∷ [] })
        ≡ codes "C " ++ decimal 7 ++ codes " " ++ decimal 13 ++ codes " RCV" ++ codes " DISK" ++ 10 ∷ [] }
    ensures globals { list_line site 1 (record { statement = 7; line = 13; items = 0 ∷ 1 ∷ []; files = [] })
        ≡ codes "C " ++ decimal 7 ++ codes " " ++ decimal 13 ++ codes " RCV DISK" ++ [] ++ 10 ∷ [] }
    ensures nothing { list_line site 1 (record { statement = 7; line = 13; items = []; files = [] })
        ≡ codes "C " ++ decimal 7 ++ codes " " ++ decimal 13 ++ [] ++ [] ++ 10 ∷ [] }
{}

/// The depth of a file that is opened to a process has a line, and that of `$RECEIVE` none.
pub fn depths_have_their_lines()
    ensures process { depth_line site 1 1 2 ≡ codes "O DISK " ++ decimal 2 ++ 10 ∷ [] }
    ensures receive { depth_line site 1 0 1 ≡ [] }
    ensures no_file { depth_line site 1 2 1 ≡ [] }
    ensures disc { depth_line site 0 1 1 ≡ [] }
    ensures each { depth_lines site 1 0 (1 ∷ 2 ∷ []) ≡ (codes "O DISK " ++ decimal 2 ++ 10 ∷ []) ++ [] }
{}

/// A pair's line comes first, then its lists, then its depths, and the end comes last.
pub fn advice_is_told_pair_by_pair()
    ensures pair { pair_text site (record {
      process = 1;
      advice = record {
        lists = record { statement = 7; line = 13; items = []; files = 1 ∷ [] } ∷ [];
        depths = 1 ∷ 2 ∷ [];
      };
    })
        ≡ codes "ADVICE $BANK" ++ 10 ∷ [] ++ ((codes "C " ++ decimal 7 ++ codes " " ++ decimal 13 ++ []
        ++ codes " DISK" ++ 10 ∷ []) ++ []) ++ ((codes "O DISK " ++ decimal 2 ++ 10 ∷ []) ++ []) }
    ensures alone { advised_text site (record { process = 1; advice = record { lists = []; depths = [] } } ∷ [])
        ≡ codes "ADVICE $BANK" ++ 10 ∷ [] ++ codes "END advised" ++ 10 ∷ [] }
    ensures none { advised_text site [] ≡ codes "END advised" ++ 10 ∷ [] }
{}
