ghost use Rattle.std.specs.Prelude.{◌≡◌, ℕ, Bool, false, List};
ghost use Rattle.tal_tree.specs.Regular.{IsRegular};
ghost use Rattle.tal_tree.specs.declared.program.Program.{Program};
ghost use Rattle.tal_tree.specs.declared.site.Kind.TheVariants.{Disc, Pair};
ghost use Rattle.tal_tree.specs.declared.site.ProcessSpec.{ProcessSpec};
ghost use Rattle.tal_tree.specs.declared.site.Site.{Site};
ghost use Rattle.process_semantics.specs.Process.{Runs};
ghost use Rattle.process_semantics.specs.State.{ProgramState};
ghost use Rattle.checkpoint_laws.specs.world_semantics.specs.Core.{Core, Deed};
ghost use Rattle.path_steps.specs.path_semantics.specs.Accepted.{IsAccepted};
ghost use Rattle.process_histories.specs.Histories.{HasDone};
ghost use Rattle.discipline_laws.specs.Covered.{IsCovered};
ghost use Rattle.discipline_laws.specs.Disciplined.{IsDisciplined};

/// What a program did since its last checkpoint is due on some path to where it stands.
pub fn what_was_done_is_due()
    ensures { (site : Site) (number : ℕ) (spec : ProcessSpec) (program : Program) (deeds : List Deed) (core : Core)
        (s : ProgramState) → spec.what ≡ Pair program
        → IsRegular program → HasDone site number spec deeds core → core.state ≡ Runs program s → s.ended ≡ false
        → IsCovered site number spec program deeds s }
{}

/// An accepted program that is regular keeps the checkpoint discipline.
pub fn accepted_programs_are_disciplined()
    ensures { (site : Site) (number : ℕ) (spec : ProcessSpec) (program : Program) → spec.what ≡ Pair program
        → IsRegular program → IsAccepted program
        → IsDisciplined site number spec }
{}

/// A disc keeps the checkpoint discipline.
pub fn discs_are_disciplined()
    ensures { (site : Site) (number sectors : ℕ) (mirrored : Bool) (spec : ProcessSpec)
        → spec.what ≡ Disc sectors mirrored → IsDisciplined site number spec }
{}
