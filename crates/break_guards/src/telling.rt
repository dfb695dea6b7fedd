ghost use Rattle.std.specs.Prelude.{◌≡◌, [], ◌∷◌, ◌++◌, codes, Some, None};
ghost use Rattle.std.specs.Fmt.{decimal};
ghost use Rattle.break_guards.specs.Sites.{replied, site, written};
ghost use Rattle.break_text.specs.BreakText.{kept_text, line_text, search_text, stop_text, wrong_text};
ghost use Rattle.break_text.specs.break_runs.specs.Meanwhile.{sound_runs};
ghost use Rattle.break_text.specs.break_runs.specs.break_progress.specs.Progress.{progress_text, runs_of, told_after};
ghost use Rattle.break_text.specs.break_runs.specs.break_progress.specs.Progress.{tried_line};
ghost use Rattle.break_text.specs.unfailing_judge.specs.declared.wrong.Wrong.TheVariants as wrong;
ghost use Rattle.tal_tree.specs.declared.act.Act.TheVariants.{Step, Take, Enter, Print};

/// It is told how many runs were tried if none breaks: the one with no stop, and one for each processor and place.
pub fn runs_that_dont_break_are_counted()
    ensures runs { runs_of 3 296 ≡ 889 }
    ensures told { search_text site (record { asked = 1200; places = 1000; found = None })
        ≡ codes "no run breaks of those that were tried: " ++ decimal 3001 ++ 10 ∷ []
        ++ (codes "  with each processor stopped before each of the first " ++ decimal 1000
        ++ codes " events; the run with no stop asks for " ++ decimal 1200 ++ 10 ∷ [])
        ++ (codes "  the checker looks at paths and not at values: a refused program may never go wrong" ++ 10 ∷ []) }
{}

/// How far a search is is told after each hundred runs that don't break.
pub fn how_far_a_search_is_is_told()
    ensures few { progress_text 889 99 ≡ [] }
    ensures between { told_after 889 150 ≡ [] }
    ensures hundred { told_after 889 100 ≡ tried_line 889 100 }
    ensures another { told_after 889 800 ≡ tried_line 889 800 }
    ensures line { tried_line 889 100 ≡ ((decimal 100 ++ codes " of ") ++ decimal 889)
        ++ (codes " runs are tried, and none of them breaks" ++ 10 ∷ []) }
{}

/// The runs that don't break are counted up to the one that does: that with no stop comes first, and then those of each
/// processor in turn.
pub fn runs_are_counted_up_to_a_break()
    ensures none { sound_runs 3 296 None ≡ 889 }
    ensures first { sound_runs 3 296 (Some (record { stop = None; wrong = wrong.Left })) ≡ 0 }
    ensures later { sound_runs 3 296 (Some (record {
      stop = Some (record { processor = 1; after = 46 });
      wrong = wrong.Left;
    })) ≡ 343 }
{}

/// A run that breaks is told by its stop.
pub fn a_stop_is_told()
    ensures none { stop_text None ≡ codes "the run breaks with no stop but those of its schedule:" ++ 10 ∷ [] }
    ensures some { stop_text (Some (record { processor = 1; after = 46 }))
        ≡ codes "a run breaks in which processor " ++ decimal 1 ++ codes " stops after " ++ decimal 46
        ++ (codes " events:" ++ 10 ∷ []) }
{}

/// What goes wrong is told beside what unfailing processes show, and by the act that they can't do.
pub fn what_goes_wrong_is_told()
    ensures nothing { line_text site None ≡ codes "nothing more" ++ 10 ∷ [] }
    ensures differs { wrong_text site (wrong.Differs (record {
      before = 2;
      shown = Some (written 0);
      due = Some (replied 5);
    }))
        ≡ codes "  lines that unfailing processes show too: " ++ decimal 2 ++ 10 ∷ []
        ++ (codes "  then this run shows:      " ++ line_text site (Some (written 0))
        ++ codes "  unfailing processes show: " ++ line_text site (Some (replied 5))) }
    ensures stuck { wrong_text site (wrong.Stuck (record { made = 29; act = Step 0; apart = None }))
        ≡ [] ++ (codes "  acts of this run that unfailing processes can do: " ++ decimal 29 ++ 10 ∷ [])
        ++ kept_text site (Step 0) }
    ensures left { wrong_text site wrong.Left
        ≡ codes "  it shows what unfailing processes show, and ends idle" ++ 10 ∷ []
        ++ (codes "  unfailing processes have something left to do there" ++ 10 ∷ []) }
{}

/// An act is named by who does it.
pub fn an_act_is_named()
    ensures step { kept_text site (Step 0)
        ≡ codes "  then comes a step of $DATA, which they can't do there" ++ 10 ∷ [] }
    ensures take { kept_text site (Take 0 0)
        ≡ codes "  then comes the take of a request by $DATA, which they can't do there" ++ 10 ∷ [] }
    ensures enter { kept_text site (Enter 0)
        ≡ codes "  then comes the entry of a request by $T1, which they can't do there" ++ 10 ∷ [] }
    ensures print { kept_text site (Print 0)
        ≡ codes "  then comes the print of a reply by $T1, which they can't do there" ++ 10 ∷ [] }
{}
