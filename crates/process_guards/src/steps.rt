ghost use Rattle.std.specs.Prelude.{◌≡◌, pos, negsuc, true, false, [], ◌∷◌, Some};
ghost use Rattle.tal_tree.specs.declared.statement.What.{Assign, AssignCall, While, For, DoUntil, Call, Return};
ghost use Rattle.tal_tree.specs.declared.statement.What.{ReadUpdate, WriteRead, Stop};
ghost use Rattle.tal_tree.specs.declared.expression.Cond.{Truth};
ghost use Rattle.tal_tree.specs.declared.expression.Expr.{Read, Two};
ghost use Rattle.tal_tree.specs.declared.expression.Op.TheVariants.{Div};
ghost use Rattle.tal_tree.specs.declared.expression.Spot as spot;
ghost use Rattle.tal_tree.specs.declared.expression.Variable.TheVariants.{Simple};
ghost use Rattle.process_semantics.specs.State.{Run, Test, Last, runs_of, zeros};
ghost use Rattle.process_semantics.specs.Steps.{inner};
ghost use Rattle.process_semantics.specs.Calls.{after_got, after_took};
ghost use Rattle.process_guards.specs.States.{code, word, does, at_statement, standing, with_frames, with_array};
ghost use Rattle.process_guards.specs.States.{main_with, function_with, in_hand, over};

/// A WHILE whose test holds comes again after its body; else it is gone.
pub fn a_while_comes_again()
    ensures holds { inner code (at_statement (While (Truth (word (pos 1))) (does Stop ∷ [])))
        ≡ standing (pos 0) (Run (does Stop) ∷ Run (does (While (Truth (word (pos 1))) (does Stop ∷ []))) ∷ []) }
    ensures fails { inner code (at_statement (While (Truth (word (pos 0))) (does Stop ∷ []))) ≡ standing (pos 0) [] }
{}

/// A FOR sets its variable, tests it before each round, goes round at its limit still, and adds 1, which wraps.
pub fn a_for_goes_round_at_its_limit()
    ensures first { inner code
        (at_statement (For (Simple 0) (word (pos 3)) (word (pos 3)) false (pos 1) (does Stop ∷ []) 9))
        ≡ standing (pos 3)
        (Test (does (For (Simple 0) (word (pos 3)) (word (pos 3)) false (pos 1) (does Stop ∷ []) 9)) ∷ []) }
    ensures round { inner code (standing (pos 3)
        (Test (does (For (Simple 0) (word (pos 3)) (word (pos 3)) false (pos 1) (does Stop ∷ []) 9)) ∷ []))
        ≡ standing (pos 3) (Run (does Stop) ∷ Last
        (does (For (Simple 0) (word (pos 3)) (word (pos 3)) false (pos 1) (does Stop ∷ []) 9))
        ∷ Test (does (For (Simple 0) (word (pos 3)) (word (pos 3)) false (pos 1) (does Stop ∷ []) 9)) ∷ []) }
    ensures past { inner code (standing (pos 4)
        (Test (does (For (Simple 0) (word (pos 3)) (word (pos 3)) false (pos 1) (does Stop ∷ []) 9)) ∷ []))
        ≡ standing (pos 4) [] }
    ensures wraps { inner code (standing (pos 32767)
        (Last (does (For (Simple 0) (word (pos 3)) (word (pos 3)) false (pos 1) (does Stop ∷ []) 9)) ∷ []))
        ≡ standing (negsuc 32767) [] }
{}

/// A FOR with BY adds its constant, and the sum wraps.
pub fn a_for_adds_its_constant()
    ensures next { inner code (standing (pos 5)
        (Last (does (For (Simple 0) (word (pos 3)) (word (pos 3)) false (pos 2) (does Stop ∷ []) 9)) ∷ []))
        ≡ standing (pos 7) [] }
    ensures wraps { inner code (standing (pos 32767)
        (Last (does (For (Simple 0) (word (pos 3)) (word (pos 3)) false (pos 2) (does Stop ∷ []) 9)) ∷ []))
        ≡ standing (negsuc 32766) [] }
{}

/// A FOR with DOWNTO goes round at its limit still and not below it, and takes away its constant, which wraps.
pub fn a_for_goes_down_to_its_limit()
    ensures round { inner code (standing (pos 3)
        (Test (does (For (Simple 0) (word (pos 3)) (word (pos 3)) true (pos 2) (does Stop ∷ []) 9)) ∷ []))
        ≡ standing (pos 3) (Run (does Stop) ∷ Last
        (does (For (Simple 0) (word (pos 3)) (word (pos 3)) true (pos 2) (does Stop ∷ []) 9))
        ∷ Test (does (For (Simple 0) (word (pos 3)) (word (pos 3)) true (pos 2) (does Stop ∷ []) 9)) ∷ []) }
    ensures past { inner code (standing (pos 2)
        (Test (does (For (Simple 0) (word (pos 3)) (word (pos 3)) true (pos 2) (does Stop ∷ []) 9)) ∷ []))
        ≡ standing (pos 2) [] }
    ensures next { inner code (standing (pos 5)
        (Last (does (For (Simple 0) (word (pos 3)) (word (pos 3)) true (pos 2) (does Stop ∷ []) 9)) ∷ []))
        ≡ standing (pos 3) [] }
    ensures wraps { inner code (standing (negsuc 32767)
        (Last (does (For (Simple 0) (word (pos 3)) (word (pos 3)) true (pos 2) (does Stop ∷ []) 9)) ∷ []))
        ≡ standing (pos 32766) [] }
{}

/// A DO's body comes first. Where its test holds what follows comes next, else the body and the test again.
pub fn a_do_comes_again_until_its_test_holds()
    ensures first { runs_of (does (DoUntil (does Stop ∷ []) (Truth (word (pos 1)))) ∷ [])
        ≡ Run (does Stop) ∷ Run (does (DoUntil (does Stop ∷ []) (Truth (word (pos 1))))) ∷ [] }
    ensures holds { inner code (at_statement (DoUntil (does Stop ∷ []) (Truth (word (pos 1))))) ≡ standing (pos 0) [] }
    ensures fails { inner code (at_statement (DoUntil (does Stop ∷ []) (Truth (word (pos 0)))))
        ≡ standing (pos 0) (Run (does Stop) ∷ Run (does (DoUntil (does Stop ∷ []) (Truth (word (pos 0))))) ∷ []) }
{}

/// The limit of a FOR is found anew before each round.
pub fn a_limit_is_found_anew()
    ensures { inner code (standing (pos 100)
        (Test (does (For (Simple 0) (word (pos 3)) (Read (spot.Simple 0)) false (pos 1) (does Stop ∷ []) 9)) ∷ []))
        ≡ standing (pos 100) (Run (does Stop) ∷ Last
        (does (For (Simple 0) (word (pos 3)) (Read (spot.Simple 0)) false (pos 1) (does Stop ∷ []) 9))
        ∷ Test (does (For (Simple 0) (word (pos 3)) (Read (spot.Simple 0)) false (pos 1) (does Stop ∷ []) 9)) ∷ []) }
{}

/// A FOR traps where its limit does, and where its variable isn't there.
pub fn a_for_traps_with_its_limit()
    ensures limit { inner code (standing (pos 6) (Test (does (For (Simple 0) (word (pos 3))
        (Two Div (word (pos 1)) (word (pos 0))) false (pos 1) (does Stop ∷ []) 9)) ∷ [])) ≡ over (pos 6) }
    ensures variable { inner code (standing (pos 6)
        (Test (does (For (Simple 2) (word (pos 3)) (word (pos 3)) false (pos 1) (does Stop ∷ []) 9)) ∷ []))
        ≡ over (pos 6) }
    ensures counted { inner code (standing (pos 6)
        (Last (does (For (Simple 2) (word (pos 3)) (word (pos 3)) false (pos 1) (does Stop ∷ []) 9)) ∷ []))
        ≡ over (pos 6) }
{}

/// A call's arguments are the first locals of its frame, and the other locals are 0; the call stays first until its
/// procedure returns.
pub fn a_call_enters_its_procedure()
    ensures { inner code (at_statement (AssignCall (spot.Simple 0) 0 (word (pos 5) ∷ [])))
        ≡ with_frames (pos 0) (function_with (pos 5) (pos 0) []
        ∷ main_with (Run (does (AssignCall (spot.Simple 0) 0 (word (pos 5) ∷ []))) ∷ []) ∷ []) }
{}

/// RETURN gives its word to the target of the call, and a procedure's end gives 0; CALL keeps no word.
pub fn a_return_gives_its_word()
    ensures given { inner code (with_frames (pos 2)
        (function_with (pos 5) (pos 0) (Run (does (Return (Some (word (pos 9))))) ∷ Run (does Stop) ∷ [])
        ∷ main_with (Run (does (AssignCall (spot.Simple 0) 0 (word (pos 5) ∷ []))) ∷ []) ∷ [])) ≡ standing (pos 9) [] }
    ensures at_the_end { inner code (with_frames (pos 2)
        (function_with (pos 5) (pos 0) [] ∷ main_with
        (Run (does (AssignCall (spot.Simple 0) 0 (word (pos 5) ∷ []))) ∷ []) ∷ [])) ≡ standing (pos 0) [] }
    ensures not_kept { inner code (with_frames (pos 2)
        (function_with (pos 5) (pos 0) (Run (does (Return (Some (word (pos 9))))) ∷ [])
        ∷ main_with (Run (does (Call 0 (word (pos 5) ∷ []))) ∷ []) ∷ [])) ≡ standing (pos 2) [] }
{}

/// The target of a call is found when its procedure returns, by what the globals have then.
pub fn a_target_is_found_at_the_return()
    ensures { inner code (with_frames (pos 2)
        (function_with (pos 5) (pos 0) (Run (does (Return (Some (word (pos 9))))) ∷ [])
        ∷ main_with (Run (does (AssignCall (spot.Element 1 (Read (spot.Simple 0))) 0 (word (pos 5) ∷ []))) ∷ []) ∷ []))
        ≡ with_array (pos 0 ∷ pos 0 ∷ pos 9 ∷ zeros 17) (standing (pos 2) []) }
{}

/// Of the words that come as many are kept as there is room for, at the start of the array, and their number is told.
pub fn what_comes_is_cut_to_its_room()
    ensures taken { after_took code (at_statement (ReadUpdate 1 (word (pos 2)) (Simple 0)))
        (pos 5 ∷ pos 6 ∷ pos 7 ∷ []) ≡ in_hand (with_array (pos 5 ∷ pos 6 ∷ zeros 18) (standing (pos 2) [])) }
    ensures got { after_got code (record (at_statement (WriteRead 0 1 (word (pos 1)) (word (pos 2)) (Simple 0)))
        { awaits = true }) (pos 5 ∷ pos 6 ∷ pos 7 ∷ [])
        ≡ with_array (pos 5 ∷ pos 6 ∷ zeros 18) (standing (pos 2) []) }
    ensures fewer { after_took code (at_statement (ReadUpdate 1 (word (pos 16)) (Simple 0))) (pos 5 ∷ [])
        ≡ in_hand (with_array (pos 5 ∷ zeros 19) (standing (pos 1) [])) }
{}

/// STOP, a trap and MAIN's end each end the process, and change nothing else.
pub fn a_process_ends()
    ensures stop { inner code (standing (pos 6) (Run (does Stop) ∷ [])) ≡ over (pos 6) }
    ensures trap { inner code (standing (pos 6)
        (Run (does (Assign (spot.Simple 0) (Two Div (word (pos 1)) (word (pos 0))))) ∷ [])) ≡ over (pos 6) }
    ensures at_the_end { inner code (standing (pos 6) []) ≡ over (pos 6) }
    ensures with_a_request { inner code (in_hand (standing (pos 6) (Run (does Stop) ∷ []))) ≡ in_hand (over (pos 6)) }
{}
