ghost use Rattle.std.specs.Prelude.{◌≡◌, ◌≤◌, ℕ, List, ◌∷◌, map, Some};
ghost use Rattle.tal_values.specs.gd_words.specs.Members.{IsAmong, AreDistinct};
ghost use Rattle.tal_values.specs.tal_tree.specs.Statements.{numbers_of};
ghost use Rattle.tal_values.specs.tal_tree.specs.declared.statement.Statement.{Statement};
ghost use Rattle.process_semantics.specs.Remains.{Remains, leads_to, ComesTo};
ghost use Rattle.process_semantics.specs.Rests.{next_number, rests_of, rest_from};
ghost use Rattle.process_semantics.specs.State.{Entry, runs_of};

/// What remains in a procedure is told by the number of the entry that comes next, where each number of its body stands
/// once there and none is 0: so an image has to say no more of it, and a number that neither is 0 nor stands in the
/// body restores nothing. What remains is exactly the whole body and whatever entries lead to within the procedure, one
/// for each number of the body in the order of the text, and nothing at its end.
pub fn what_remains_is_told()
    ensures told { (body : List Statement) (rest : List Entry) → AreDistinct (numbers_of body)
        → ((n : ℕ) → IsAmong n (numbers_of body) → 1 ≤ n)
        → Remains body rest → rest_from body (next_number rest) ≡ Some rest }
    ensures found { (body : List Statement) (number : ℕ) (rest : List Entry) → rest_from body number ≡ Some rest
        → Remains body rest }
    ensures number { (body : List Statement) (number : ℕ) (rest : List Entry) → rest_from body number ≡ Some rest
        → next_number rest ≡ number }
    ensures first { (body : List Statement) → Remains body (runs_of body) }
    ensures leads { (body : List Statement) (entry : Entry) (tail way : List Entry) → Remains body (entry ∷ tail)
        → IsAmong way (leads_to entry tail)
        → Remains body way }
    ensures only { (body : List Statement) (rest : List Entry) → Remains body rest → ComesTo body rest }
    ensures order { (body : List Statement) → map next_number (rests_of body) ≡ numbers_of body }
{}
