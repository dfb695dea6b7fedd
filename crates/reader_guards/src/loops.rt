ghost use Rattle.std.specs.Prelude.{pos, true, false, []};
ghost use Rattle.tal_reader.specs.Reads.{Reads, IsRefused};
ghost use Rattle.tal_tree.specs.declared.expression.Cond.TheVariants.{Truth};
ghost use Rattle.tal_tree.specs.declared.expression.Expr.TheVariants.{Number, Read};
ghost use Rattle.tal_tree.specs.declared.expression.Spot.TheVariants as spot;
ghost use Rattle.tal_tree.specs.declared.expression.Variable.TheVariants as variable;
ghost use Rattle.tal_tree.specs.declared.fault.TalFault.TheVariants.{WrongKind};
ghost use Rattle.tal_tree.specs.declared.statement.What.TheVariants as what;
ghost use Rattle.reader_guards.specs.Programs.{main_of, numbered, place};
ghost use Rattle.reader_guards.specs.Texts.{downward, upward, repeated, by_zero, by_less};

/// FOR counts down by its constant. Its assignment and its test have numbers before its body's, and its last assignment
/// has the one after them.
pub fn a_for_counts_down_by_its_constant()
    ensures { Reads downward
        (main_of (numbered 2 1 (what.For (variable.Simple 0) (Number (pos 5)) (Number (pos 1)) true (pos 2)
        (numbered 4 1 what.Stop) 5))) }
{}

/// Without BY it counts by 1.
pub fn a_for_counts_by_one_where_nothing_is_said()
    ensures { Reads upward
        (main_of (numbered 2 1 (what.For (variable.Simple 0) (Number (pos 1)) (Number (pos 5)) false (pos 1) [] 4))) }
{}

/// DO has the number after those of its body, on the line of its UNTIL.
pub fn a_do_is_numbered_after_its_body()
    ensures { Reads repeated
        (main_of (numbered 3 2 (what.DoUntil (numbered 2 1 what.Stop) (Truth (Read (spot.Simple 0)))))) }
{}

/// A FOR counts by 1 or more: else the fault stands at the first token of its constant.
pub fn a_for_counts_by_one_or_more()
    ensures none { IsRefused by_zero (WrongKind (place 1 60)) }
    ensures below { IsRefused by_less (WrongKind (place 1 60)) }
{}
