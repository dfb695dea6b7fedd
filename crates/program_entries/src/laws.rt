ghost use Rattle.std.specs.Prelude.{◌≡◌, ◌∷◌, List, map, Some};
ghost use Rattle.gd_words.specs.Members.{IsAmong};
ghost use Rattle.process_semantics.specs.Rests.{entry_number, rests_of};
ghost use Rattle.process_semantics.specs.State.{Entry};
ghost use Rattle.tal_tree.specs.Ordered.{IsNumbered, numbers_in_all};
ghost use Rattle.tal_tree.specs.declared.program.Procedure.{Procedure};
ghost use Rattle.tal_tree.specs.declared.program.Program.{Program};
ghost use Rattle.program_entries.specs.Entries.{entries_of, entry_at};

/// The entries of a program have its numbers in their order. So the number of what comes next in a procedure tells what
/// that is, where the numbers stand in order.
pub fn numbers_tell_what_comes_next()
    ensures each { (program : Program) → map entry_number (entries_of program) ≡ numbers_in_all program.procedures }
    ensures next { (program : Program) (procedure : Procedure) (entry : Entry) (rest : List Entry) → IsNumbered program
        → IsAmong procedure program.procedures → IsAmong (entry ∷ rest) (rests_of procedure.body)
        → entry_at program (entry_number entry) ≡ Some entry }
{}
