ghost use Rattle.std.specs.Prelude.{◌≡◌, Some, None, codes, ◌∷◌, replicate};
ghost use Rattle.gd_words.specs.Spelling.{name_of, ident_of};

/// A name is kept in upper case, and has one to five letters or digits after `$`, a letter first.
pub fn a_name_is_spelled()
    ensures kept { name_of (codes "$add") ≡ Some (codes "$ADD") }
    ensures longest { name_of (codes "$B1z45") ≡ Some (codes "$B1Z45") }
    ensures digit_first { name_of (codes "$1add") ≡ None }
    ensures too_long { name_of (codes "$abcdef") ≡ None }
    ensures sign_alone { name_of (codes "$") ≡ None }
    ensures no_sign { name_of (codes "add") ≡ None }
    ensures other_sign { name_of (codes "$a_b") ≡ None }
    ensures empty { name_of (codes "") ≡ None }
{}

/// An identifier has letters, digits, `_` and `^`, no digit first, and is kept in upper case.
pub fn an_identifier_is_spelled()
    ensures kept { ident_of (codes "got_1^x") ≡ Some (codes "GOT_1^X") }
    ensures digit_first { ident_of (codes "1got") ≡ None }
    ensures dollar { ident_of (codes "a$") ≡ None }
    ensures sign_first { ident_of (codes "^_1a") ≡ Some (codes "^_1A") }
    ensures other_first { ident_of (codes "$a") ≡ None }
    ensures empty { ident_of (codes "") ≡ None }
{}

/// An identifier has at most 31 signs.
pub fn an_identifier_is_short()
    ensures longest { ident_of (replicate 31 65) ≡ Some (replicate 31 65) }
    ensures too_long { ident_of (replicate 32 65) ≡ None }
{}
