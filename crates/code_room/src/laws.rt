ghost use Rattle.std.specs.Prelude.{◌≡◌, ◌↔◌, ℕ, ℤ, List, ◌+◌, ◌<◌, length};
ghost use Rattle.tal_tree.specs.declared.expression.Cond.{Cond, Compare};
ghost use Rattle.tal_tree.specs.declared.expression.Expr.{Expr, Number, Read, Two};
ghost use Rattle.tal_tree.specs.declared.expression.Op.{Op};
ghost use Rattle.tal_tree.specs.declared.expression.Rel.{Rel};
ghost use Rattle.tal_tree.specs.declared.expression.Variable.{Variable};
ghost use Rattle.tal_tree.specs.declared.program.Program.{Program};
ghost use Rattle.tal_values.specs.Spots.{spot_of};
ghost use Rattle.tal_code.specs.Parts.{Valued, Tested, PartStack, nothing, built, with_part};
ghost use Rattle.tal_code.specs.Room.{LowFrom, RoomFrom, IsLow};
ghost use Rattle.tal_laws.specs.tal_reader.specs.Reads.{Reads};
ghost use Rattle.tal_code.specs.Waiting.{waiting_of, waiting_for, waiting_of_test, WaitsBelow};
ghost use Rattle.code_room.specs.Steps.{steps_of, steps_of_test};

/// The steps of an expression compute it, and those of a condition that.
pub fn steps_compute_what_they_are_of()
    ensures value { (e : Expr) → built (steps_of e) ≡ with_part (Valued e) nothing }
    ensures test { (c : Cond) → built (steps_of_test c) ≡ with_part (Tested c) nothing }
{}

/// There is room for each of the steps just where fewer than 80 left sides wait at one time.
pub fn there_is_room_where_few_wait()
    ensures value { (e : Expr) → IsLow (steps_of e) ↔ (waiting_of e < 80) }
    ensures test { (c : Cond) → IsLow (steps_of_test c) ↔ (waiting_of_test c < 80) }
    ensures value_room { (e : Expr) → waiting_of e < 80 → RoomFrom 0 (steps_of e) }
    ensures test_room { (c : Cond) → waiting_of_test c < 80 → RoomFrom 0 (steps_of_test c) }
{}

/// Where words stand below the top already, they count with those that wait.
pub fn there_is_room_above_others()
    ensures value { (e : Expr) (s : PartStack) → LowFrom s (steps_of e) ↔ (length s.below + waiting_of e < 80) }
    ensures test { (c : Cond) (s : PartStack)
        → LowFrom s (steps_of_test c) ↔ (length s.below + waiting_of_test c < 80) }
{}

/// For the test of a FOR as many wait as for its limit, and for what its variable becomes after a turn none.
pub fn a_loop_waits_for_its_limit()
    ensures limit { (variable : Variable) (rel : Rel) (to : Expr)
        → waiting_of_test (Compare rel (Read (spot_of variable)) to) ≡ waiting_for to }
    ensures next { (variable : Variable) (op : Op) (step : ℤ)
        → waiting_of (Two op (Read (spot_of variable)) (Number step)) ≡ 0 }
{}

/// While a program that a text reads as is run, fewer than 80 left sides wait at one time.
pub fn what_is_read_has_room()
    ensures { (text : List ℕ) (program : Program) → Reads text program → WaitsBelow 80 program }
{}
