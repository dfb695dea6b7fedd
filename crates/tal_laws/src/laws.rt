ghost use Rattle.std.specs.Prelude.{ℕ, List};
ghost use Rattle.tal_tree.specs.Ordered.{IsNumbered, IsOrdered};
ghost use Rattle.tal_tree.specs.Limits.{IsWithinLimits};
ghost use Rattle.tal_tree.specs.Regular.{IsRegular};
ghost use Rattle.tal_reader.specs.Reads.{Reads};
ghost use Rattle.tal_tree.specs.declared.program.Program.{Program};

/// The numbers of a program that a text reads as, in the order of the text, are 1, 2, 3 and so on.
pub fn what_is_read_is_numbered()
    ensures { (text : List ℕ) (program : Program) → Reads text program → IsNumbered program }
{}

/// Each number of a program that a text reads as is that of one statement alone, and its procedures call only earlier
/// ones.
pub fn what_is_read_is_ordered()
    ensures { (text : List ℕ) (program : Program) → Reads text program → IsOrdered program }
{}

/// A program that a text reads as keeps the limits.
pub fn what_is_read_keeps_the_limits()
    ensures { (text : List ℕ) (program : Program) → Reads text program → IsWithinLimits program }
{}

/// A program that a text reads as is regular: its main procedure is there, each procedure's numbers are distinct and at
/// least 1, and what its statements name is there and of its kind.
pub fn what_is_read_is_regular()
    ensures { (text : List ℕ) (program : Program) → Reads text program → IsRegular program }
{}
