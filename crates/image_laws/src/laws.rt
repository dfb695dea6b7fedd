ghost use Rattle.std.specs.Prelude.{◌≡◌, ℕ, List};
ghost use Rattle.std.specs.Option.{option_map};
ghost use Rattle.image_places.specs.Memories.{memory_in};
ghost use Rattle.image_places.specs.Running.{next_in};
ghost use Rattle.process_images.specs.Images.{listable_from};
ghost use Rattle.process_semantics.specs.Changes.{ends};
ghost use Rattle.process_semantics.specs.Image.{program_words};
ghost use Rattle.process_semantics.specs.Rests.{next_number};
ghost use Rattle.process_semantics.specs.State.{ProgramState, memory_of, next_of, rest_of};
ghost use Rattle.program_ends.specs.Ends.{at_entry, coming_in, end_of_program, line_of_entry, line_of_number};
ghost use Rattle.program_ends.specs.Ends.{target_in, target_in_state};
ghost use Rattle.tal_tree.specs.Ordered.{IsNumbered};
ghost use Rattle.tal_tree.specs.declared.program.Program.{Program};
ghost use Rattle.whole_states.specs.Whole.{IsWhole};

use program_entries::numbers_tell_what_comes_next;

/// What is read off the words of a state that a program may be in, whatever items they have, is what comes next in the
/// procedure that runs. With the words of the end that a trap makes of it, and of all its items, it is also what the
/// statements of that procedure read, and the target of the call for which it runs. So the step with which a program is
/// told to have ended is that of the state in which it stood.
pub fn an_image_tells_what_comes_next()
    ensures number { (program : Program) (s : ProgramState) (items : List ℕ) → IsWhole program s
        → next_in program (program_words items s) ≡ next_number (rest_of s.frames) }
    ensures next { (program : Program) (s : ProgramState) (items : List ℕ) → IsNumbered program → IsWhole program s
        → coming_in program (program_words items s) ≡ next_of s.frames }
    ensures memory { (program : Program) (s : ProgramState) (items : List ℕ) → IsWhole program s
        → memory_in program (program_words items s) (program_words (listable_from 0 program.items) (ends s))
        ≡ memory_of program s }
    ensures target { (program : Program) (s : ProgramState) (items : List ℕ) → IsNumbered program → IsWhole program s
        → target_in program (program_words items s) s.globals ≡ target_in_state program s }
    ensures end { (program : Program) (s : ProgramState) (items : List ℕ) → IsNumbered program → IsWhole program s
        → end_of_program program (program_words items s) s.in_hand
        (program_words (listable_from 0 program.items) (ends s))
        ≡ at_entry (memory_of program s) (target_in_state program s) s.in_hand (next_of s.frames) }
{
    numbers_tell_what_comes_next();
}

/// The line of the number of what comes next in a state that a program may be in is the line of what comes next.
pub fn a_number_tells_the_line_of_what_comes_next()
    ensures { (program : Program) (s : ProgramState) → IsNumbered program → IsWhole program s
        → line_of_number program (next_number (rest_of s.frames)) ≡ option_map line_of_entry (next_of s.frames) }
{
    numbers_tell_what_comes_next();
}
