ghost use Rattle.std.specs.Prelude.{◌≡◌, ◌⊎◌, ⊤, Result, Ok, Err};
ghost use Rattle.gd_words.specs.Memory.{no_memory};
ghost use Rattle.tal_tree.specs.declared.program.Program.{Program};
ghost use Rattle.path_semantics.specs.declared.reason.RefusalFault.{RefusalFault};
ghost use Rattle.path_semantics.specs.declared.reason.RefusalFault.TheVariants.{NoMemory};
ghost use Rattle.path_semantics.specs.Accepted.{IsAccepted};
ghost use Rattle.discipline.specs.Verdict.{IsVerdict, Agree};

/// The verdict on an accepted program is that it is accepted, or that memory ran out.
pub fn accepted_is_ok()
    ensures { (program : Program) (result : Result ⊤ RefusalFault) → IsVerdict program result → IsAccepted program
        → (result ≡ Ok tt) ⊎ (result ≡ Err (NoMemory no_memory)) }
{}

/// Two verdicts on one program, neither of them that memory ran out, are one but for the path, and their paths are as
/// long.
pub fn one_verdict()
    ensures { (program : Program) (one other : Result ⊤ RefusalFault) → IsVerdict program one → IsVerdict program other
        → Agree one other }
{}
