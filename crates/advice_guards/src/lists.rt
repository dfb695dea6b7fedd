ghost use Rattle.std.specs.Prelude.{◌↔◌, ℕ, IsTrue, [], ◌∷◌};
ghost use Rattle.gd_words.specs.Members.{is_among};
ghost use Rattle.advice.specs.Due.{IsItemDue, IsFileDue};
ghost use Rattle.advice_guards.specs.Programs.{two_lists, unreached, calling, targeting, shared, elements, branching};
ghost use Rattle.advice_guards.specs.Programs.{again, until, asking_once};

/// Each CHECKPOINT has what is due since the one before it, and the second of two in a row nothing.
pub fn checkpoints_have_lists_of_their_own()
    ensures first { (item : ℕ) → IsTrue (is_among item (0 ∷ [])) ↔ IsItemDue two_lists 2 item }
    ensures second { (item : ℕ) → IsTrue (is_among item []) ↔ IsItemDue two_lists 3 item }
    ensures third { (item : ℕ) → IsTrue (is_among item (1 ∷ [])) ↔ IsItemDue two_lists 5 item }
    ensures none { (item : ℕ) → IsTrue (is_among item []) ↔ IsItemDue two_lists 1 item }
{}

/// What stands behind a STOP adds nothing, and at a CHECKPOINT that no path reaches nothing is due.
pub fn what_no_path_reaches_adds_nothing()
    ensures reached { (item : ℕ) → IsTrue (is_among item (0 ∷ [])) ↔ IsItemDue unreached 5 item }
    ensures unreached { (item : ℕ) → IsTrue (is_among item []) ↔ IsItemDue unreached 7 item }
{}

/// What a called procedure changes is due behind the call; and where a CHECKPOINT is the last statement of a procedure,
/// the target of its call is due at the next one, and not there.
pub fn calls_add_what_they_change()
    ensures called { (item : ℕ) → IsTrue (is_among item (0 ∷ 1 ∷ [])) ↔ IsItemDue calling 4 item }
    ensures inside { (item : ℕ) → IsTrue (is_among item []) ↔ IsItemDue targeting 1 item }
    ensures target { (item : ℕ) → IsTrue (is_among item (0 ∷ [])) ↔ IsItemDue targeting 3 item }
{}

/// A CHECKPOINT of a procedure that is called from two places has one list, with what is due at either call.
pub fn a_checkpoint_has_one_list()
    ensures { (item : ℕ) → IsTrue (is_among item (0 ∷ 1 ∷ [])) ↔ IsItemDue shared 1 item }
{}

/// A global array is one item, whichever of its elements are set.
pub fn an_array_is_one_item()
    ensures { (item : ℕ) → IsTrue (is_among item (2 ∷ [])) ↔ IsItemDue elements 3 item }
{}

/// What is due on either branch is due behind both.
pub fn branches_come_together()
    ensures { (item : ℕ) → IsTrue (is_among item (0 ∷ 1 ∷ [])) ↔ IsItemDue branching 4 item }
{}

/// In a loop a global that is set behind the CHECKPOINT is due there in the next round.
pub fn a_loop_comes_back()
    ensures { (item : ℕ) → IsTrue (is_among item (0 ∷ [])) ↔ IsItemDue again 2 item }
{}

/// A DO's body is done before its test: its CHECKPOINT names what was set before the DO, which then isn't due behind
/// the DO, and what the body sets behind it is due there in the next round.
pub fn a_body_is_done_before_its_test()
    ensures inside { (item : ℕ) → IsTrue (is_among item (0 ∷ 1 ∷ [])) ↔ IsItemDue until 2 item }
    ensures behind { (item : ℕ) → IsTrue (is_among item (1 ∷ [])) ↔ IsItemDue until 5 item }
{}

/// After a WRITEREAD its buffer, its count and its file are due, and no other file.
pub fn an_ask_is_due()
    ensures items { (item : ℕ) → IsTrue (is_among item (5 ∷ 6 ∷ [])) ↔ IsItemDue asking_once 2 item }
    ensures files { (file : ℕ) → IsTrue (is_among file (1 ∷ [])) ↔ IsFileDue asking_once 2 file }
{}
