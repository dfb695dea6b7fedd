ghost use Rattle.std.specs.Prelude.{◌≡◌, ◌↔◌, ℕ, false, List, [], ◌∷◌, ◌++◌, slice_get, Some};
ghost use Rattle.tal_tree.specs.declared.program.Program.{Program};
ghost use Rattle.tal_tree.specs.declared.program.Procedure.{Procedure};
ghost use Rattle.tal_tree.specs.declared.statement.Statement.{Statement};
ghost use Rattle.tal_tree.specs.declared.statement.What.{What-F, out-What};
ghost use Rattle.process_semantics.specs.State.{Entry, Run};
ghost use Rattle.path_semantics.specs.declared.dues.Dues.{Dues};
ghost use Rattle.path_semantics.specs.declared.reason.Reason.{Reason};
ghost use Rattle.path_semantics.specs.Dues.{no_dues, targets_of};
ghost use Rattle.path_semantics.specs.Place.{Place, Stand, successors, stand_at, calls_ended};
ghost use Rattle.gd_words.specs.Members.{IsAmong};
ghost use Rattle.path_semantics.specs.Path.{number_at, Leads, IsPath};
ghost use Rattle.path_semantics.specs.Break.{Breaks, breaks_at};
ghost use Rattle.path_semantics.specs.Bounds.{depth_from, size_from, depths, sizes, IsWithinBounds};
ghost use Rattle.tal_tree.specs.Ordered.{IsOrdered};
ghost use Rattle.tal_tree.specs.Regular.{IsRegular};
ghost use Rattle.path_semantics.specs.Quiet.{IsQuiet};
ghost use Rattle.path_semantics.specs.Told.{RemainsAt, next_numbers, HasDistinctNumbers};
ghost use Rattle.path_semantics.specs.Accepted.{IsAccepted};

/// The front of a path is a path.
pub fn front_is_path()
    ensures { (program : Program) (front path : List ℕ) → IsPath program (front ++ path) → IsPath program front }
{}

/// Where a path leads, the next entry leads to stands whose next entries have different numbers, or to one stand.
pub fn successors_differ()
    ensures { (program : Program) (path : List ℕ) (here one other : Stand) → IsOrdered program
        → Leads program path here → IsAmong one (successors program here) → IsAmong other (successors program here)
        → number_at one ≡ number_at other → one ≡ other }
{}

/// A path fixes the place and the dues at each of its entries: where its front leads and its next number stands.
pub fn path_fixes_its_stand()
    ensures { (program : Program) (path : List ℕ) (one other : Stand) → IsOrdered program → Leads program path one
        → Leads program path other → number_at one ≡ number_at other → one ≡ other }
{}

/// Wherever a path leads, each frame remains in the body of the procedure that the frame below it has called, and the
/// last in MAIN's. Two such places with the same next numbers are one, where within each procedure each number stands
/// once and none is 0, as in a regular program: so a place is told by its numbers alone.
pub fn places_are_told()
    ensures remains { (program : Program) (path : List ℕ) (stand : Stand) → Leads program path stand
        → RemainsAt program stand.place }
    ensures told { (program : Program) (one other : Place) → HasDistinctNumbers program → RemainsAt program one
        → RemainsAt program other
        → next_numbers one ≡ next_numbers other → one ≡ other }
    ensures regular { (program : Program) → IsRegular program → HasDistinctNumbers program }
{}

/// What breaks is a path.
pub fn break_is_path()
    ensures { (program : Program) (path : List ℕ) (reason : Reason) → Breaks program path reason → IsPath program path }
{}

/// Wherever a path of an accepted program leads, the next entry breaks for no reason.
pub fn accepted_breaks_nowhere()
    ensures { (program : Program) (path : List ℕ) (stand : Stand) (reason : Reason) → IsAccepted program
        → Leads program path stand → breaks_at program reason stand ≡ false }
{}

/// A CHECKPOINT leads on alone, past the procedures that end with it. Of globals only the targets of the calls of these
/// procedures are due after it, each of them, and neither an ask nor a request is: so nothing at all where none ends.
pub fn checkpoint_clears()
    ensures after { (program : Program) (dues : Dues) (statement : Statement) (items files : List ℕ)
        (rest : List Entry) (callers : Place) → out-What statement.what ≡ What-F.Checkpoint items files
        → successors program (record { place = (Run statement ∷ rest) ∷ callers; dues = dues })
        ≡ stand_at rest callers no_dues ∷ [] }
    ensures due { (program : Program) (dues : Dues) (statement : Statement) (items files : List ℕ) (rest : List Entry)
        (callers : Place) (stand : Stand) → out-What statement.what ≡ What-F.Checkpoint items files
        → IsAmong stand (successors program (record { place = (Run statement ∷ rest) ∷ callers; dues = dues }))
        → stand.dues ≡ record { globals = targets_of (calls_ended rest callers); asked = []; read = false } }
{}

/// A program without CHECKPOINT, READUPDATE, WRITEREAD and REPLY is accepted exactly where its calls are within bounds.
pub fn quiet_programs_are_bounded()
    ensures { (program : Program) → IsQuiet program → IsWithinBounds program ↔ IsAccepted program }
{}

/// The depth and the size of each procedure come from those of the procedures that it calls.
pub fn bounds_follow_calls()
    ensures depth { (program : Program) (k : ℕ) (procedure : Procedure) → IsOrdered program
        → slice_get program.procedures k ≡ Some procedure
        → slice_get (depths program) k ≡ Some (depth_from (depths program) procedure.body) }
    ensures size { (program : Program) (k : ℕ) (procedure : Procedure) → IsOrdered program
        → slice_get program.procedures k ≡ Some procedure
        → slice_get (sizes program) k ≡ Some (size_from (sizes program) procedure.body) }
{}
