ghost use Rattle.std.specs.Prelude.{◌≡◌, ◌+◌, ℕ, ℤ, Bool, List, length};
ghost use Rattle.tal_tree.specs.gd_words.specs.Members.{IsAmong};
ghost use Rattle.tal_tree.specs.Ordered.{IsNumbered, numbers_in_all};
ghost use Rattle.tal_tree.specs.Statements.{all_of};
ghost use Rattle.tal_tree.specs.declared.expression.Expr.{Expr};
ghost use Rattle.tal_tree.specs.declared.expression.Variable.{Variable};
ghost use Rattle.tal_tree.specs.declared.program.Procedure.{Procedure};
ghost use Rattle.tal_tree.specs.declared.program.Program.{Program};
ghost use Rattle.tal_tree.specs.declared.statement.Statement.{Statement};
ghost use Rattle.tal_tree.specs.declared.statement.What.{What-F, out-What};
ghost use Rattle.statement_lines.specs.Lines.{lines_of, line_of};

/// The lines of a program are those of its statements, one for each number. Where the numbers stand in order, the line
/// of a statement's number is the statement's, and so is that of the number of a FOR's test and of its last assignment.
pub fn lines_are_of_statements()
    ensures each { (program : Program) → length (lines_of program) ≡ length (numbers_in_all program.procedures) }
    ensures own { (program : Program) (procedure : Procedure) (statement : Statement) → IsNumbered program
        → IsAmong procedure program.procedures
        → IsAmong statement (all_of procedure.body) → line_of program statement.number ≡ statement.line }
    ensures for_test { (program : Program) (procedure : Procedure) (statement : Statement) (variable : Variable)
        (from to : Expr) (down : Bool) (step : ℤ) (body : List Statement) (last : ℕ)
        → IsNumbered program → IsAmong procedure program.procedures → IsAmong statement (all_of procedure.body)
        → out-What statement.what ≡ What-F.For variable from to down step body last
        → line_of program (statement.number + 1) ≡ statement.line }
    ensures for_last { (program : Program) (procedure : Procedure) (statement : Statement) (variable : Variable)
        (from to : Expr) (down : Bool) (step : ℤ) (body : List Statement) (last : ℕ)
        → IsNumbered program → IsAmong procedure program.procedures → IsAmong statement (all_of procedure.body)
        → out-What statement.what ≡ What-F.For variable from to down step body last
        → line_of program last ≡ statement.line }
{}
