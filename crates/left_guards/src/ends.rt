ghost use Rattle.std.specs.Prelude.{◌≡◌, ℕ, ℤ, Bool, pos, negsuc, List, [], ◌∷◌, replicate, true, false, Option};
ghost use Rattle.std.specs.Prelude.{None, Some, Ok, Err};
ghost use Rattle.process_semantics.specs.State.{Frame, Last, ProgramState, Run, Test};
ghost use Rattle.program_ends.specs.Ends.{at_end, at_entry, at_return, at_statement, by_value, line_of_entry};
ghost use Rattle.program_ends.specs.Ends.{met_or_lacking, of_reading, of_replying, target_in_state, target_of, why};
ghost use Rattle.program_ends.specs.Traps.{trap_among, trap_in_statement, trap_in_test, trap_of_call};
ghost use Rattle.program_ends.specs.Traps.{trap_of_number, trap_of_target};
ghost use Rattle.program_ends.specs.declared.ending.LastStep.TheVariants.{MainEnded, Returned, Stopped, Trapped};
ghost use Rattle.program_ends.specs.declared.ending.LastStep.TheVariants.{TrappedAtEnd};
ghost use Rattle.program_ends.specs.declared.ending.Trap.{Trap};
ghost use Rattle.program_ends.specs.declared.ending.Trap.TheVariants as trap;
ghost use Rattle.program_ends.specs.declared.ending.WordTarget.{WordTarget};
ghost use Rattle.value_traps.specs.Memories.{an_array_and_a_word, by_zero, out_of_bounds};
ghost use Rattle.value_traps.specs.declared.trap.ValueTrap.{ValueTrap};
ghost use Rattle.value_traps.specs.declared.trap.ValueTrap.TheVariants.{Index, NotThere};
ghost use Rattle.value_traps.specs.declared.trap.ValueTrap.TheVariants.{ZeroDivisor};
ghost use Rattle.value_traps.specs.tal_values.specs.Value.{Memory};
ghost use Rattle.tal_tree.specs.declared.expression.Cond.{Truth};
ghost use Rattle.tal_tree.specs.declared.expression.Expr.{Expr, Number};
ghost use Rattle.tal_tree.specs.declared.expression.Spot.{Element};
ghost use Rattle.tal_tree.specs.declared.expression.Variable.{Variable};
ghost use Rattle.tal_tree.specs.declared.expression.Variable.TheVariants.{Simple};
ghost use Rattle.tal_tree.specs.declared.program.Program.{Program};
ghost use Rattle.tal_tree.specs.declared.statement.Statement.{Statement};
ghost use Rattle.tal_tree.specs.declared.statement.What.{What-F, out-What};

/// A program ends at STOP, wherever that stands, and at the end of MAIN and its RETURN; in another procedure these two
/// are no end, nor is a RETURN whose word has no value.
pub fn a_program_ends_as_it_asks()
    ensures stop { (m : Memory) (target : Option WordTarget) (line : ℕ) (in_hand : Bool)
        → at_statement m target in_hand line What-F.Stop ≡ Stopped line }
    ensures main { at_end None ≡ MainEnded }
    ensures called { (target : WordTarget) → at_end (Some target) ≡ TrappedAtEnd target }
    ensures returns { at_return None 9 None ≡ Returned 9 }
    ensures gives { (target : WordTarget) → at_return (Some target) 9 None ≡ Trapped 9 (trap.Target target.met) }
    ensures lacks { (met : ValueTrap) → at_return None 9 (Some met) ≡ Trapped 9 (trap.Value met) }
    ensures lacks_first { (target : WordTarget) (met : ValueTrap)
        → at_return (Some target) 9 (Some met) ≡ Trapped 9 (trap.Value met) }
    ensures nothing_next { (m : Memory) (in_hand : Bool) → at_entry m None in_hand None ≡ MainEnded }
{}

/// REPLY needs a request in hand, and READUPDATE none; else the trap of their count is told.
pub fn hands_and_counts_are_told_apart()
    ensures none { (met : Option Trap) → of_replying false met ≡ trap.NothingInHand }
    ensures has { (met : Trap) → of_replying true (Some met) ≡ met }
    ensures still { (met : Option Trap) → of_reading true met ≡ trap.RequestInHand }
    ensures read { (met : Trap) → of_reading false (Some met) ≡ met }
    ensures reads { (m : Memory) (buffer : ℕ) (most : Expr) (got : Variable)
        → why m true (What-F.ReadUpdate buffer most got) ≡ trap.RequestInHand }
    ensures replies { (m : Memory) (buffer : ℕ) (count : Expr)
        → why m false (What-F.Reply buffer count) ≡ trap.NothingInHand }
    ensures statement { (m : Memory) (target : Option WordTarget) (line buffer : ℕ) (count : Expr)
        → at_statement m target false line (What-F.Reply buffer count) ≡ Trapped line trap.NothingInHand }
{}

/// A count is told that is below 0, or above 16 or the words of its array, with the lower of these two; and so is why
/// it has no value. Of the two counts of a WRITEREAD the one of the words that are sent is told first.
pub fn a_bad_count_is_told_with_its_bounds()
    ensures above { trap_of_number (pos 20 ∷ pos 30 ∷ pos 40 ∷ []) (Ok (pos 4)) ≡ Some (trap.Count (pos 4) (pos 3)) }
    ensures below { trap_of_number (pos 20 ∷ pos 30 ∷ pos 40 ∷ []) (Ok (negsuc 0))
        ≡ Some (trap.Count (negsuc 0) (pos 3)) }
    ensures many { trap_of_number (replicate 20 (pos 5)) (Ok (pos 17)) ≡ Some (trap.Count (pos 17) (pos 16)) }
    ensures all { trap_of_number (pos 20 ∷ pos 30 ∷ pos 40 ∷ []) (Ok (pos 3)) ≡ None }
    ensures sixteen { trap_of_number (replicate 20 (pos 5)) (Ok (pos 16)) ≡ None }
    ensures no_value { (words : List ℤ) (met : ValueTrap) → trap_of_number words (Err met) ≡ Some (trap.Value met) }
    ensures sent_first { why an_array_and_a_word false (What-F.WriteRead 0 1 (Number (pos 5)) by_zero (Simple 0))
        ≡ trap.Count (pos 5) (pos 3) }
    ensures got { why an_array_and_a_word false (What-F.WriteRead 0 1 (Number (pos 3)) by_zero (Simple 0))
        ≡ trap.Value ZeroDivisor }
{}

/// The word of a procedure goes to the target of its call, by the words of the procedure that made it: the index of
/// that target is told, and the line of the call. A call that keeps no word has no target, nor has MAIN.
pub fn a_target_is_told_with_its_index()
    ensures main { (program : Program) (s : ProgramState) (frame : Frame)
        → target_in_state program (record s { frames = frame ∷ [] }) ≡ None }
    ensures caller { (program : Program) (s : ProgramState) (frame caller : Frame) (statement : Statement)
        → target_in_state program
        (record s { frames = frame ∷ record caller { rest = Run statement ∷ [] } ∷ [] })
        ≡ Some (target_of (record { items = program.items; globals = s.globals; locals = caller.locals })
        (Some (Run statement))) }
    ensures call { (m : Memory) (statement : Statement) → target_of m (Some (Run statement))
        ≡ record { line = Some statement.line; met = met_or_lacking (trap_of_target m (out-What statement.what)) } }
    ensures index { trap_of_target an_array_and_a_word (What-F.AssignCall (Element 1 (Number (pos 9))) 1 [])
        ≡ Some (Index (pos 9) (negsuc 0) (pos 1)) }
    ensures kept { trap_of_target an_array_and_a_word (What-F.AssignCall (Element 1 (Number (pos 1))) 1 []) ≡ None }
    ensures dropped { trap_of_target an_array_and_a_word (What-F.Call 1 []) ≡ None }
    ensures none { trap_of_call an_array_and_a_word None ≡ None }
{}

/// Of an assignment the trap of the value is told before that of the element which gets it; of a call's arguments the
/// first one, and of a FOR's test that of its limit.
pub fn a_trap_of_a_value_is_told()
    ensures value { trap_in_statement an_array_and_a_word (What-F.Assign (Element 1 (Number (pos 9))) by_zero)
        ≡ Some ZeroDivisor }
    ensures element { trap_in_statement an_array_and_a_word
        (What-F.Assign (Element 1 (Number (pos 9))) (Number (pos 1))) ≡ Some (Index (pos 9) (negsuc 0) (pos 1)) }
    ensures test { trap_in_statement an_array_and_a_word (What-F.If (Truth by_zero) [] []) ≡ Some ZeroDivisor }
    ensures arguments { trap_among an_array_and_a_word (Number (pos 1) ∷ out_of_bounds ∷ by_zero ∷ [])
        ≡ Some (Index (pos 9) (negsuc 0) (pos 1)) }
    ensures limit { trap_in_test an_array_and_a_word
        (What-F.For (Simple 0) (Number (pos 1)) by_zero false (pos 1) [] 3) ≡ Some ZeroDivisor }
    ensures begins { trap_in_statement an_array_and_a_word
        (What-F.For (Simple 0) (Number (pos 1)) by_zero false (pos 1) [] 3) ≡ None }
    ensures told { by_value (Some ZeroDivisor) ≡ trap.Value ZeroDivisor }
    ensures not_there { by_value None ≡ trap.Value NotThere }
{}

/// The line of a statement is its own, also of the test and of the last assignment of a FOR.
pub fn the_line_is_of_the_statement()
    ensures run { (statement : Statement) → line_of_entry (Run statement) ≡ statement.line }
    ensures test { (statement : Statement) → line_of_entry (Test statement) ≡ statement.line }
    ensures last { (statement : Statement) → line_of_entry (Last statement) ≡ statement.line }
{}
