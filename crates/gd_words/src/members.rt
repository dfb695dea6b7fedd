ghost use Rattle.std.specs.Prelude.{◌↔◌, ℕ, List, IsTrue};
ghost use Rattle.gd_words.specs.Members.{IsAmong, is_among};

/// The test of membership says what the relation does.
pub fn is_among_tells_members()
    ensures { (n : ℕ) (ns : List ℕ) → IsTrue (is_among n ns) ↔ IsAmong n ns }
{}
