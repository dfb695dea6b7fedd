ghost use Rattle.std.specs.Prelude.{◌≡◌, ◌↔◌, ℕ, List};
ghost use Rattle.tal_tree.specs.Named.{IsProcess};
ghost use Rattle.tal_tree.specs.Regular.{IsRegular, MayBeListed};
ghost use Rattle.tal_tree.specs.declared.program.Program.{Program};
ghost use Rattle.path_semantics.specs.declared.reason.Reason.{Reason};
ghost use Rattle.path_semantics.specs.declared.reason.Reason.TheVariants.{Input};
ghost use Rattle.path_semantics.specs.Accepted.{IsAccepted};
ghost use Rattle.path_semantics.specs.Bounds.{IsWithinBounds};
ghost use Rattle.path_semantics.specs.Break.{Breaks};
ghost use Rattle.path_semantics.specs.Path.{Leads};
ghost use Rattle.path_semantics.specs.Place.{Stand};
ghost use Rattle.advice.specs.declared.answer.Advice.{Advice};
ghost use Rattle.advice.specs.Advice.{IsAdvice};
ghost use Rattle.advice.specs.Answer.{choice_of, IsAnswer, IsUnmendable};
ghost use Rattle.advice.specs.Choice.{Choice, with_choice, IsChoice, IsContained};
ghost use Rattle.advice.specs.Due.{IsItemDue, IsFileDue, IsAskedAfter};
ghost use Rattle.advice_laws.specs.Stands.{stand_with};

/// What the CHECKPOINTs name, and how many replies are kept, changes neither which paths there are nor what is due
/// along them, and neither how deep calls go nor how large a program is.
pub fn choices_change_no_path()
    ensures leads { (program : Program) (choice : Choice) (path : List ℕ) (stand : Stand) → Leads program path stand
        → Leads (with_choice program choice) path (stand_with choice stand) }
    ensures only { (program : Program) (choice : Choice) (path : List ℕ) (there : Stand)
        → Leads (with_choice program choice) path there
        → (stand : Stand) × Leads program path stand × (there ≡ stand_with choice stand) }
    ensures bounds { (program : Program) (choice : Choice)
        → IsWithinBounds program ↔ IsWithinBounds (with_choice program choice) }
{}

/// So the answer to a program is that to it with whatever lists and depths.
pub fn choices_change_no_answer()
    ensures { (program : Program) (choice : Choice) (advice : Advice)
        → IsAnswer program advice ↔ IsAnswer (with_choice program choice) advice }
{}

/// In a regular program only globals that have words are due, and only files that are opened to a process are due or
/// asked: what is due may be named.
pub fn what_is_due_may_be_named()
    ensures items { (program : Program) (number item : ℕ) → IsRegular program → IsItemDue program number item
        → MayBeListed program item }
    ensures files { (program : Program) (number file : ℕ) → IsRegular program → IsFileDue program number file
        → IsProcess program file }
    ensures asked { (program : Program) (file count : ℕ) → IsRegular program → IsAskedAfter program file count
        → IsProcess program file }
{}

/// The advice for a program within bounds, of which no path breaks for its input, makes it accepted.
pub fn advice_is_accepted()
    ensures { (program : Program) (choice : Choice) → IsWithinBounds program
        → ((path : List ℕ) → Breaks program path Input → ⊥) → IsAdvice program choice
        → IsAccepted (with_choice program choice) }
{}

/// Every choice that makes a program accepted contains the advice.
pub fn accepted_choices_contain_advice()
    ensures { (program : Program) (advice other : Choice) → IsAdvice program advice → IsChoice program other
        → IsAccepted (with_choice program other)
        → IsContained program advice other }
{}

/// A choice that contains one which makes a program accepted makes it accepted too: to name more than is due does no
/// harm.
pub fn longer_lists_are_accepted()
    ensures { (program : Program) (one other : Choice) → IsAccepted (with_choice program one)
        → IsContained program one other → IsAccepted (with_choice program other) }
{}

/// The answer to a regular program is a choice, makes the program accepted, and is contained in every choice that does.
pub fn advice_is_least()
    ensures choice { (program : Program) (advice : Advice) → IsRegular program → IsAnswer program advice
        → IsChoice program (choice_of advice) }
    ensures accepted { (program : Program) (advice : Advice) → IsRegular program → IsAnswer program advice
        → IsAccepted (with_choice program (choice_of advice)) }
    ensures least { (program : Program) (advice : Advice) (other : Choice) → IsRegular program
        → IsAnswer program advice → IsChoice program other
        → IsAccepted (with_choice program other) → IsContained program (choice_of advice) other }
{}

/// There is one answer to a program at most.
pub fn answers_are_one()
    ensures { (program : Program) (one other : Advice) → IsAnswer program one → IsAnswer program other → one ≡ other }
{}

/// What is unmendable no choice makes accepted, nor a program that isn't within bounds. So a program that has an answer
/// isn't unmendable.
pub fn what_is_unmendable_stays_refused()
    ensures unmendable { (program : Program) (reason : Reason) (path : List ℕ) (choice : Choice)
        → IsUnmendable program reason path → IsChoice program choice
        → IsAccepted (with_choice program choice) → ⊥ }
    ensures bounds { (program : Program) (choice : Choice) → IsAccepted (with_choice program choice)
        → IsWithinBounds program }
    ensures answered { (program : Program) (advice : Advice) (reason : Reason) (path : List ℕ) → IsRegular program
        → IsAnswer program advice → IsUnmendable program reason path → ⊥ }
{}
