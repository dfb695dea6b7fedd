ghost use Rattle.std.specs.Prelude.{◌≡◌, ℕ, suc, pos, [], ◌∷◌, Some, None, true, false};
ghost use Rattle.tal_tree.specs.declared.expression.Cond.{Truth, Compare, Not, And, Or};
ghost use Rattle.tal_tree.specs.declared.expression.Expr.{Read, Minus, Two};
ghost use Rattle.tal_tree.specs.declared.expression.Op.TheVariants.{Add, Mul};
ghost use Rattle.tal_tree.specs.declared.expression.Rel.TheVariants.{Less};
ghost use Rattle.tal_tree.specs.declared.expression.Spot.{Local, Simple, Element};
ghost use Rattle.tal_tree.specs.declared.expression.Variable.TheVariants as variable;
ghost use Rattle.tal_tree.specs.declared.statement.What.{What-F};
ghost use Rattle.tal_code.specs.Room.{IsLow};
ghost use Rattle.tal_code.specs.Waiting.{waiting_of, waiting_of_test, waiting_at, WaitsBelow};
ghost use Rattle.code_room.specs.Steps.{steps_of};
ghost use Rattle.code_room.specs.Examples.{one, differences, sum_of_products, nested, chained_tests, nested_tests};
ghost use Rattle.code_room.specs.Examples.{deep_inside};

/// In a chain to the left no more wait the longer it is: none beside numbers, one beside products, one beside AND.
pub fn a_chain_makes_few_wait()
    ensures numbers { (n : ℕ) → waiting_of (differences n) ≡ 0 }
    ensures products { (n : ℕ) → waiting_of (sum_of_products (suc n)) ≡ 1 }
    ensures tests { (n : ℕ) → waiting_of_test (chained_tests (suc n)) ≡ 1 }
{}

/// Of right sides in one another each makes one more wait.
pub fn right_sides_in_one_another_make_more_wait()
    ensures values { (n : ℕ) → waiting_of (nested n) ≡ n }
    ensures tests { (n : ℕ) → waiting_of_test (nested_tests n) ≡ n }
{}

/// There is room for 79 that wait, and not for 80.
pub fn seventy_nine_may_wait()
    ensures most { IsLow (steps_of (nested 79)) }
    ensures over { IsLow (steps_of (nested 80)) → ⊥ }
{}

/// None waits for a number or a simple variable, and one for any other right side.
pub fn none_waits_for_what_is_ready()
    ensures number { waiting_of (Two Add one one) ≡ 0 }
    ensures local { waiting_of (Two Add one (Read (Local 0))) ≡ 0 }
    ensures simple { waiting_of (Two Add one (Read (Simple 0))) ≡ 0 }
    ensures element { waiting_of (Two Add one (Read (Element 0 one))) ≡ 1 }
    ensures minus { waiting_of (Two Add one (Minus one)) ≡ 1 }
    ensures product { waiting_of (Two Add one (Two Mul one one)) ≡ 1 }
    ensures left { waiting_of (Two Add (Two Mul one one) one) ≡ 0 }
    ensures compared { waiting_of_test (Compare Less one one) ≡ 0 }
    ensures compared_minus { waiting_of_test (Compare Less one (Minus one)) ≡ 1 }
{}

/// Minus, an index, NOT and a value as a condition leave those that wait.
pub fn what_has_one_side_leaves_those_that_wait()
    ensures minus { waiting_of (Minus (nested 2)) ≡ 2 }
    ensures index { waiting_of (Read (Element 0 (nested 2))) ≡ 2 }
    ensures truth { waiting_of_test (Truth (nested 2)) ≡ 2 }
    ensures not { waiting_of_test (Not (nested_tests 2)) ≡ 2 }
    ensures left { waiting_of (Two Add (nested 2) one) ≡ 2 }
    ensures compared { waiting_of_test (Compare Less (nested 2) one) ≡ 2 }
    ensures and { waiting_of_test (And (nested_tests 2) (Truth one)) ≡ 2 }
    ensures or { waiting_of_test (Or (nested_tests 2) (Truth one)) ≡ 2 }
{}

/// AND and OR compute both sides, whatever they are.
pub fn a_side_waits_for_what_may_be_unseen()
    ensures and { waiting_of_test (And (Truth one) (Truth one)) ≡ 1 }
    ensures or { waiting_of_test (Or (Truth one) (Truth one)) ≡ 1 }
{}

/// Each part that a statement computes counts, wherever it stands.
pub fn each_part_of_a_statement_counts()
    ensures target { waiting_at (What-F.Assign (Element 0 (nested 2)) one) ≡ 2 }
    ensures value { waiting_at (What-F.Assign (Local 0) (nested 2)) ≡ 2 }
    ensures call_target { waiting_at (What-F.AssignCall (Element 0 (nested 2)) 0 []) ≡ 2 }
    ensures call_argument { waiting_at (What-F.AssignCall (Local 0) 0 (one ∷ nested 2 ∷ [])) ≡ 2 }
    ensures if_test { waiting_at (What-F.If (nested_tests 2) [] []) ≡ 2 }
    ensures while_test { waiting_at (What-F.While (nested_tests 2) []) ≡ 2 }
    ensures from { waiting_at (What-F.For (variable.Local 0) (nested 2) one false (pos 1) [] 3) ≡ 2 }
    ensures to { waiting_at (What-F.For (variable.Local 0) one (nested 2) true (pos 1) [] 3) ≡ 3 }
    ensures do_test { waiting_at (What-F.DoUntil [] (nested_tests 2)) ≡ 2 }
    ensures argument { waiting_at (What-F.Call 0 (one ∷ nested 2 ∷ [])) ≡ 2 }
    ensures answer { waiting_at (What-F.Return (Some (nested 2))) ≡ 2 }
    ensures most { waiting_at (What-F.ReadUpdate 0 (nested 2) (variable.Local 0)) ≡ 2 }
    ensures count { waiting_at (What-F.Reply 0 (nested 2)) ≡ 2 }
    ensures sent { waiting_at (What-F.WriteRead 0 0 (nested 2) one (variable.Local 0)) ≡ 2 }
    ensures room { waiting_at (What-F.WriteRead 0 0 one (nested 2) (variable.Local 0)) ≡ 2 }
{}

/// Statements inside others count as well, and those of each procedure.
pub fn statements_inside_others_count()
    ensures { WaitsBelow 1 deep_inside → ⊥ }
{}
