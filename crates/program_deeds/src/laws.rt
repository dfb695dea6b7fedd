ghost use Rattle.std.specs.Prelude.{◌≡◌, ℤ, List, drop, Option};
ghost use Rattle.tal_tree.specs.declared.program.Program.{Program};
ghost use Rattle.process_semantics.specs.tal_values.specs.declared.memory.Cell.{Cell};
ghost use Rattle.process_semantics.specs.Calls.{after_took, asked_file, asked_words, after_got, answer_of};
ghost use Rattle.process_semantics.specs.Changes.{done};
ghost use Rattle.process_semantics.specs.Image.{listed_items, listed_files};
ghost use Rattle.process_semantics.specs.Points.{point_of};
ghost use Rattle.process_semantics.specs.Process.{Runs};
ghost use Rattle.process_semantics.specs.State.{ProgramState, rest_of};
ghost use Rattle.process_semantics.specs.Steps.{inner, or_ends, state_after_assigning};
ghost use Rattle.program_deeds.specs.Deed.{deed_of};
ghost use Rattle.program_deeds.specs.Doing.{going_on, state_after_store, deed_inner, deed_point, deed_took, deed_file};
ghost use Rattle.program_deeds.specs.Doing.{deed_asked};
ghost use Rattle.program_deeds.specs.Doing.{deed_got, deed_answer, deed_items, deed_files};

/// The steps of a program at each point, and what it tells there, are what the deed of what remains does: of all
/// programs in all states. A deed that reads a FOR's test or last assignment otherwise, or goes on with other entries,
/// is refused.
///
/// What is done goes on with the entries after its own, as `done` and `state_after_assigning` say: so a layer above may
/// keep places in the text instead of entries, also where a call gives a word back.
pub fn steps_are_deeds()
    ensures inner { (program : Program) (s : ProgramState)
        → inner program s ≡ or_ends s (deed_inner program s (deed_of (rest_of s.frames))) }
    ensures done { (s : ProgramState) → done s ≡ going_on (drop 1 (rest_of s.frames)) s }
    ensures assigned { (s : ProgramState) (to : Option Cell) (word : Option ℤ)
        → state_after_assigning s to word ≡ state_after_store (drop 1 (rest_of s.frames)) s to word }
    ensures point { (program : Program) (s : ProgramState)
        → point_of program s ≡ deed_point program s (deed_of (rest_of s.frames)) }
    ensures took { (program : Program) (s : ProgramState) (words : List ℤ)
        → after_took program s words ≡ deed_took program s words (deed_of (rest_of s.frames)) }
    ensures file { (s : ProgramState) → asked_file s ≡ deed_file (deed_of (rest_of s.frames)) }
    ensures asked { (program : Program) (s : ProgramState)
        → asked_words program s ≡ deed_asked program s (deed_of (rest_of s.frames)) }
    ensures got { (program : Program) (s : ProgramState) (words : List ℤ)
        → after_got program s words ≡ deed_got program s words (deed_of (rest_of s.frames)) }
    ensures answer { (program : Program) (s : ProgramState)
        → answer_of program s ≡ deed_answer program s (deed_of (rest_of s.frames)) }
    ensures items { (program : Program) (s : ProgramState)
        → listed_items (Runs program s) ≡ deed_items (deed_of (rest_of s.frames)) }
    ensures files { (program : Program) (s : ProgramState)
        → listed_files (Runs program s) ≡ deed_files (deed_of (rest_of s.frames)) }
{}
