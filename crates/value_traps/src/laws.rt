ghost use Rattle.std.specs.Prelude.{◌≡◌, IsSome, None, Some};
ghost use Rattle.std.specs.Result.{result_ok};
ghost use Rattle.tal_tree.specs.declared.expression.Cond.{Cond};
ghost use Rattle.tal_tree.specs.declared.expression.Expr.{Expr};
ghost use Rattle.tal_tree.specs.declared.expression.Spot.{Spot};
ghost use Rattle.tal_values.specs.Value.{Memory, cell_of, truth_of, value_of};
ghost use Rattle.value_traps.specs.Traps.{cell_or_trap, trap_of, truth_or_trap, value_or_trap};
ghost use Rattle.value_traps.specs.declared.trap.ValueTrap.{ValueTrap};

/// A trap is met exactly where there is no value, no cell or no truth; and where none is met, it is just that value,
/// that cell or that truth.
pub fn a_trap_is_met_where_no_value_is()
    ensures value { (m : Memory) (e : Expr) → result_ok (value_or_trap m e) ≡ value_of m e }
    ensures cell { (m : Memory) (spot : Spot) → result_ok (cell_or_trap m spot) ≡ cell_of m spot }
    ensures truth { (m : Memory) (cond : Cond) → result_ok (truth_or_trap m cond) ≡ truth_of m cond }
    ensures trap { (m : Memory) (e : Expr) (trap : ValueTrap) → trap_of m e ≡ Some trap → value_of m e ≡ None }
    ensures none { (m : Memory) (e : Expr) → value_of m e ≡ None → IsSome (trap_of m e) }
{}
