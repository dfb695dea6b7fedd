ghost use Rattle.std.specs.Prelude.{◌≡◌, pos, negsuc, [], ◌∷◌, false, Ok, Err, Some, None};
ghost use Rattle.tal_tree.specs.declared.expression.Cond.{And, Compare, Truth};
ghost use Rattle.tal_tree.specs.declared.expression.Expr.{Number, Read, Two};
ghost use Rattle.tal_tree.specs.declared.expression.Op.TheVariants.{Add, Div};
ghost use Rattle.tal_tree.specs.declared.expression.Rel.TheVariants.{Less};
ghost use Rattle.tal_tree.specs.declared.expression.Spot.{Local, Simple, Element};
ghost use Rattle.value_traps.specs.Memories.{an_array_and_a_word, by_zero, out_of_bounds};
ghost use Rattle.value_traps.specs.Traps.{cell_or_trap, trap_of, truth_or_trap, value_or_trap};
ghost use Rattle.value_traps.specs.declared.trap.ValueTrap.TheVariants.{Index, NotThere, ZeroDivisor};

/// An index is told with the bounds of its array, out of which it is, above or below; within them no trap is.
pub fn an_index_is_told_with_its_bounds()
    ensures above { value_or_trap an_array_and_a_word (Read (Element 1 (Number (pos 2))))
        ≡ Err (Index (pos 2) (negsuc 0) (pos 1)) }
    ensures below { value_or_trap an_array_and_a_word (Read (Element 1 (Number (negsuc 1))))
        ≡ Err (Index (negsuc 1) (negsuc 0) (pos 1)) }
    ensures highest { value_or_trap an_array_and_a_word (Read (Element 1 (Number (pos 1)))) ≡ Ok (pos 40) }
    ensures set { cell_or_trap an_array_and_a_word (Element 1 (Number (pos 2)))
        ≡ Err (Index (pos 2) (negsuc 0) (pos 1)) }
{}

/// A divisor that is 0 is told as such, also inside an index, whose own bounds aren't looked at then.
pub fn a_zero_divisor_is_told()
    ensures alone { value_or_trap an_array_and_a_word by_zero ≡ Err ZeroDivisor }
    ensures inside { value_or_trap an_array_and_a_word (Read (Element 1 by_zero)) ≡ Err ZeroDivisor }
    ensures zero { value_or_trap an_array_and_a_word (Two Div (Number (pos 0)) (Number (pos 3))) ≡ Ok (pos 0) }
{}

/// Of two traps the left one is told; and a divisor's own trap comes before that it is 0.
pub fn the_first_trap_is_told()
    ensures left { trap_of an_array_and_a_word (Two Add by_zero out_of_bounds) ≡ Some ZeroDivisor }
    ensures right { trap_of an_array_and_a_word (Two Add out_of_bounds by_zero)
        ≡ Some (Index (pos 9) (negsuc 0) (pos 1)) }
    ensures none { trap_of an_array_and_a_word (Two Add (Read (Simple 0)) (Number (pos 1))) ≡ None }
    ensures compared { truth_or_trap an_array_and_a_word (Compare Less out_of_bounds by_zero)
        ≡ Err (Index (pos 9) (negsuc 0) (pos 1)) }
{}

/// A right side that isn't looked at has no trap.
pub fn no_trap_is_met_unseen()
    ensures { truth_or_trap an_array_and_a_word (And (Truth (Number (pos 0))) (Truth by_zero)) ≡ Ok false }
{}

/// What isn't there is told as that: a local, an item, and an element of what is no array.
pub fn what_is_not_there_is_told()
    ensures local { value_or_trap an_array_and_a_word (Read (Local 0)) ≡ Err NotThere }
    ensures item { value_or_trap an_array_and_a_word (Read (Element 5 (Number (pos 0)))) ≡ Err NotThere }
    ensures simple { value_or_trap an_array_and_a_word (Read (Element 0 (Number (pos 0)))) ≡ Err NotThere }
{}
