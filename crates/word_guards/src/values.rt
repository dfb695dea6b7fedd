ghost use Rattle.std.specs.Prelude.{◌≡◌, pos, negsuc, [], ◌∷◌, true, false, Some, None};
ghost use Rattle.tal_tree.specs.declared.expression.Expr.{Expr, Number, Read, Minus, Two};
ghost use Rattle.tal_tree.specs.declared.expression.Op.TheVariants.{Add, Sub, Mul, Div};
ghost use Rattle.tal_tree.specs.declared.expression.Spot.{Local, Simple, Element};
ghost use Rattle.tal_tree.specs.declared.expression.Cond.{Truth, And, Or, Not};
ghost use Rattle.tal_tree.specs.declared.expression.Rel.TheVariants.{Equal, Differs, Less, AtMost, Greater, AtLeast};
ghost use Rattle.tal_values.specs.Value.{value_of, truth_of, holds};
ghost use Rattle.word_guards.specs.Memories.{one_of_each, zero_divided};

/// 7 - 9 is -2: the left operand comes first.
pub fn a_difference_is_left_less_right()
    ensures { value_of one_of_each (Two Sub (Number (pos 7)) (Number (pos 9))) ≡ Some (negsuc 1) }
{}

/// A value reads its local, its global, and the element that its index names from the array's low bound, -2, on.
pub fn a_value_is_read()
    ensures local { value_of one_of_each (Read (Local 0)) ≡ Some (pos 8) }
    ensures global { value_of one_of_each (Read (Simple 0)) ≡ Some (pos 7) }
    ensures lowest { value_of one_of_each (Read (Element 1 (Number (negsuc 1)))) ≡ Some (pos 10) }
    ensures highest { value_of one_of_each (Read (Element 1 (Number (pos 0)))) ≡ Some (pos 30) }
    ensures below { value_of one_of_each (Read (Element 1 (Number (negsuc 2)))) ≡ None }
    ensures above { value_of one_of_each (Read (Element 1 (Number (pos 1)))) ≡ None }
{}

/// A divisor that is 0 traps, also inside another operand.
pub fn a_zero_divisor_traps()
    ensures alone { value_of one_of_each zero_divided ≡ None }
    ensures inside { value_of one_of_each (Two Add (Number (pos 1)) (Minus zero_divided)) ≡ None }
{}

/// AND and OR look at their right side only where the left one leaves the answer open.
pub fn a_right_side_may_be_unseen()
    ensures and { truth_of one_of_each (And (Truth (Number (pos 0))) (Truth zero_divided)) ≡ Some false }
    ensures or { truth_of one_of_each (Or (Truth (Number (pos 2))) (Truth zero_divided)) ≡ Some true }
    ensures and_seen { truth_of one_of_each (And (Truth (Number (pos 2))) (Truth zero_divided)) ≡ None }
    ensures or_seen { truth_of one_of_each (Or (Truth (Number (pos 0))) (Truth zero_divided)) ≡ None }
{}

/// Relations compare as signed numbers do.
pub fn a_relation_is_signed()
    ensures less { holds Less (negsuc 0) (pos 0) ≡ true }
    ensures not_less { holds Less (pos 2) (pos 2) ≡ false }
    ensures equal { holds Equal (pos 2) (pos 2) ≡ true }
    ensures not_equal { holds Equal (negsuc 1) (pos 2) ≡ false }
    ensures at_most { holds AtMost (pos 2) (pos 2) ≡ true }
    ensures not_at_most { holds AtMost (pos 3) (pos 2) ≡ false }
    ensures greater { holds Greater (negsuc 0) (pos 0) ≡ false }
    ensures greater_so { holds Greater (pos 0) (negsuc 0) ≡ true }
    ensures at_least { holds AtLeast (pos 2) (pos 2) ≡ true }
    ensures at_least_so { holds AtLeast (pos 3) (pos 2) ≡ true }
    ensures not_at_least { holds AtLeast (pos 2) (pos 3) ≡ false }
    ensures differs { holds Differs (pos 2) (pos 2) ≡ false }
    ensures differs_so { holds Differs (negsuc 1) (pos 2) ≡ true }
{}
