ghost use Rattle.std.specs.Prelude.{◌≡◌, ◌<◌, false, true, List, ℤ};
ghost use Rattle.tal_tree.specs.declared.program.Program.{Program};
ghost use Rattle.process_semantics.specs.declared.point.Point.TheVariants.{Take, Ask, Await, Answer, AtCheckpoint};
ghost use Rattle.process_semantics.specs.State.{ProgramState};
ghost use Rattle.process_semantics.specs.Points.{point_of};
ghost use Rattle.process_semantics.specs.Steps.{inner};
ghost use Rattle.process_semantics.specs.Calls.{after_took, asked_file, after_asked, after_got, after_answered};
ghost use Rattle.process_semantics.specs.Calls.{after_checkpoint};
ghost use Rattle.path_semantics.specs.declared.dues.Dues.{Dues};
ghost use Rattle.path_semantics.specs.Dues.{no_dues};
ghost use Rattle.path_semantics.specs.Break.{asked_count};
ghost use Rattle.path_steps.specs.Step.{stand_of, StaysOrGoesOn, FollowsPath, HasRoom};

/// Each step that doesn't end the program follows a path: the program stays at its stand or goes on where its next
/// entry leads, and what the step changes is due there. Once READUPDATE took a request, a request was read. WRITEREAD
/// asks with room for the reply, and once it got that, one more is due on its file. After CHECKPOINT nothing is due but
/// the targets of the calls that end with it.
///
/// This holds of all programs and of all that is due before the step. It refuses dues that forget what a step changes:
/// the variable of a FOR at its beginning or at its last assignment, the buffer or the count of READUPDATE and
/// WRITEREAD, the target of a call. It also refuses an entry that doesn't lead where the program goes.
pub fn steps_follow_paths()
    ensures inner { (program : Program) (dues : Dues) (s : ProgramState) → (inner program s).ended ≡ false
        → (later : Dues) × FollowsPath program dues later s (inner program s) }
    ensures took { (program : Program) (dues : Dues) (s : ProgramState) (words : List ℤ) → point_of program s ≡ Take
        → (later : Dues) × FollowsPath program dues later s (after_took program s words) × (later.read ≡ true) }
    ensures asked { (program : Program) (dues : Dues) (s : ProgramState)
        → FollowsPath program dues dues s (after_asked s) }
    ensures got { (program : Program) (dues : Dues) (s : ProgramState) (words : List ℤ) → point_of program s ≡ Await
        → HasRoom program s
        → (later : Dues) × FollowsPath program dues later s (after_got program s words)
        × (asked_count (asked_file s) dues < asked_count (asked_file s) later) }
    ensures answered { (program : Program) (dues : Dues) (s : ProgramState) → point_of program s ≡ Answer
        → (later : Dues) × FollowsPath program dues later s (after_answered s) }
    ensures checkpointed { (program : Program) (dues : Dues) (s : ProgramState) → point_of program s ≡ AtCheckpoint
        → StaysOrGoesOn program (stand_of dues s) (stand_of no_dues (after_checkpoint s)) }
    ensures room { (program : Program) (s : ProgramState) → point_of program s ≡ Ask → HasRoom program (after_asked s) }
{}
