ghost use Rattle.std.specs.Option.{option_or};
ghost use Rattle.std.specs.Prelude.{◌≡◌, ◌⊎◌, ℕ, ℤ, Bool, true, false, List, Option, None, Some, IsSome};
ghost use Rattle.process_semantics.specs.Changes.{left};
ghost use Rattle.process_semantics.specs.Points.{point_in};
ghost use Rattle.process_semantics.specs.State.{ProgramState, count_of, memory_of, next_of};
ghost use Rattle.process_semantics.specs.Steps.{state_after_count_in, inner, inner_entry, inner_in, state_after_return};
ghost use Rattle.process_semantics.specs.Steps.{tested_in};
ghost use Rattle.process_semantics.specs.declared.point.Point.TheVariants as point;
ghost use Rattle.tal_tree.specs.declared.expression.Expr.{Expr};
ghost use Rattle.tal_tree.specs.declared.expression.Variable.{Variable};
ghost use Rattle.tal_tree.specs.declared.program.Program.{Program};
ghost use Rattle.tal_tree.specs.declared.statement.Statement.{Statement};
ghost use Rattle.tal_tree.specs.declared.statement.What.{What, What-F};
ghost use Rattle.value_traps.specs.declared.trap.ValueTrap.{ValueTrap};
ghost use Rattle.program_ends.specs.Ends.{at_entry, is_trap, target_in_state};
ghost use Rattle.program_ends.specs.Traps.{WorksOut, trap_in_count, trap_in_statement, trap_in_test, trap_of_call};
ghost use Rattle.program_ends.specs.Traps.{trap_of_count, trap_of_result};
ghost use Rattle.program_ends.specs.declared.ending.Trap.{Trap};

/// Where a step ends a program and isn't the end of MAIN, STOP, or RETURN in MAIN, nothing comes of the step: what
/// comes next has trapped. And a trap ends the program.
pub fn a_program_ends_so()
    ensures traps { (program : Program) (s : ProgramState) (in_hand : Bool) → s.ended ≡ false
        → (inner program s).ended ≡ true
        → is_trap (at_entry (memory_of program s) (target_in_state program s) in_hand (next_of s.frames)) ≡ true
        → inner_entry program s (next_of s.frames) ≡ None }
    ensures ends { (program : Program) (s : ProgramState) → inner_entry program s (next_of s.frames) ≡ None
        → (inner program s).ended ≡ true }
{}

/// A READUPDATE, REPLY or WRITEREAD that traps does so for its count, unless it lacks a request in hand, or has one.
pub fn a_call_traps_for_its_hand_or_its_count()
    ensures reads { (program : Program) (s : ProgramState) (buffer : ℕ) (most : Expr) (got : Variable)
        → s.in_hand ≡ false → point_in program s (What-F.ReadUpdate buffer most got) ≡ point.Inner
        → count_of program s buffer most ≡ None }
    ensures replies { (program : Program) (s : ProgramState) (buffer : ℕ) (count : Expr)
        → s.in_hand ≡ true → point_in program s (What-F.Reply buffer count) ≡ point.Inner
        → count_of program s buffer count ≡ None }
    ensures asks { (program : Program) (s : ProgramState) (file buffer : ℕ) (send room : Expr) (got : Variable)
        → point_in program s (What-F.WriteRead file buffer send room got) ≡ point.Inner
        → (count_of program s buffer send ≡ None) ⊎ (count_of program s buffer room ≡ None) }
{}

/// If a trap is told of a statement, of the test of a FOR or of its last assignment, nothing comes of that step. If one
/// is told of the target of a call, nothing comes of a word that goes back to it; and if one is told of a count, it is
/// none.
pub fn a_trap_that_is_told_is_one()
    ensures statement { (program : Program) (s : ProgramState) (statement : Statement) (layer : What-F What Statement)
        (trap : ValueTrap) → trap_in_statement (memory_of program s) layer ≡ Some trap
        → inner_in program s statement layer ≡ None }
    ensures test { (program : Program) (s : ProgramState) (statement : Statement) (layer : What-F What Statement)
        (trap : ValueTrap) → trap_in_test (memory_of program s) layer ≡ Some trap
        → tested_in program s statement layer ≡ None }
    ensures last { (program : Program) (s : ProgramState) (layer : What-F What Statement) (trap : ValueTrap)
        → trap_in_count (memory_of program s) layer ≡ Some trap → state_after_count_in program s layer ≡ None }
    ensures word { (program : Program) (s : ProgramState) (word : Option ℤ) (trap : ValueTrap)
        → trap_of_call (memory_of program (left s)) (next_of (left s).frames) ≡ Some trap
        → state_after_return program s word ≡ None }
    ensures count { (program : Program) (s : ProgramState) (buffer : ℕ) (count : Expr) (trap : Trap)
        → trap_of_count (memory_of program s) buffer count ≡ Some trap → count_of program s buffer count ≡ None }
{}

/// If nothing comes of a statement that works out values, a trap is told of it, and so it is of the test of a FOR and
/// of its last assignment. If nothing comes of a RETURN, a trap is told of its word or of the target of the call; and
/// if nothing comes of a procedure's end, of that target.
pub fn each_trap_is_told()
    ensures statement { (program : Program) (s : ProgramState) (statement : Statement) (layer : What-F What Statement)
        → WorksOut program layer → inner_in program s statement layer ≡ None
        → IsSome (trap_in_statement (memory_of program s) layer) }
    ensures test { (program : Program) (s : ProgramState) (statement : Statement) (variable : Variable) (from to : Expr)
        (down : Bool) (step : ℤ) (body : List Statement) (last : ℕ)
        → tested_in program s statement (What-F.For variable from to down step body last) ≡ None
        → IsSome (trap_in_test (memory_of program s) (What-F.For variable from to down step body last)) }
    ensures last { (program : Program) (s : ProgramState) (variable : Variable) (from to : Expr) (down : Bool)
        (step : ℤ) (body : List Statement) (last : ℕ)
        → state_after_count_in program s (What-F.For variable from to down step body last) ≡ None
        → IsSome (trap_in_count (memory_of program s) (What-F.For variable from to down step body last)) }
    ensures word { (program : Program) (s : ProgramState) (statement : Statement) (value : Option Expr)
        → inner_in program s statement (What-F.Return value) ≡ None
        → IsSome (trap_of_result (memory_of program s) value)
        ⊎ IsSome (trap_of_call (memory_of program (left s)) (next_of (left s).frames)) }
    ensures at_end { (program : Program) (s : ProgramState) → inner_entry program s None ≡ None
        → IsSome (trap_of_call (memory_of program (left s)) (next_of (left s).frames)) }
{}

/// If a READUPDATE, REPLY or WRITEREAD traps and doesn't lack a request in hand, nor has one, a trap of its count is
/// told, or of one of its two.
pub fn a_bad_count_is_told()
    ensures reads { (program : Program) (s : ProgramState) (buffer : ℕ) (most : Expr) (got : Variable)
        → s.in_hand ≡ false → point_in program s (What-F.ReadUpdate buffer most got) ≡ point.Inner
        → IsSome (trap_of_count (memory_of program s) buffer most) }
    ensures replies { (program : Program) (s : ProgramState) (buffer : ℕ) (count : Expr)
        → s.in_hand ≡ true → point_in program s (What-F.Reply buffer count) ≡ point.Inner
        → IsSome (trap_of_count (memory_of program s) buffer count) }
    ensures asks { (program : Program) (s : ProgramState) (file buffer : ℕ) (send room : Expr) (got : Variable)
        → point_in program s (What-F.WriteRead file buffer send room got) ≡ point.Inner
        → IsSome (option_or (trap_of_count (memory_of program s) buffer send)
        (trap_of_count (memory_of program s) buffer room)) }
{}
