ghost use Rattle.std.specs.Prelude.{◌≡◌, [], ◌∷◌, ◌++◌, codes, replicate, Some, None};
ghost use Rattle.tal_tree.specs.declared.fault.TalFault.TheVariants.{BadCharacter, NumberTooLarge, OpenString};
ghost use Rattle.tal_tree.specs.declared.fault.TalFault.TheVariants.{NameTooLong};
ghost use Rattle.token_guards.specs.Texts.{fault_in, place};

/// A `%` needs an octal digit, and a carriage return begins no token.
pub fn a_byte_may_begin_no_token()
    ensures percent { fault_in (codes "%8") ≡ Some (BadCharacter (place 1 1)) }
    ensures carriage_return { fault_in (97 ∷ 13 ∷ []) ≡ Some (BadCharacter (place 1 2)) }
    ensures next_line { fault_in (97 ∷ 10 ∷ 32 ∷ 36 ∷ []) ≡ Some (BadCharacter (place 2 2)) }
{}

/// A decimal number is at most 32,767, an octal one at most %177777.
pub fn a_number_may_be_too_large()
    ensures greatest { fault_in (codes "32767") ≡ None }
    ensures decimal { fault_in (codes "32768") ≡ Some (NumberTooLarge (place 1 1)) }
    ensures greatest_octal { fault_in (codes "%177777") ≡ None }
    ensures octal { fault_in (codes " %200000") ≡ Some (NumberTooLarge (place 1 2)) }
{}

/// A string ends on its line.
pub fn a_string_may_have_no_end()
    ensures cut_off { fault_in (34 ∷ 97 ∷ []) ≡ Some (OpenString (place 1 1)) }
    ensures next_line { fault_in (34 ∷ 10 ∷ 34 ∷ []) ≡ Some (OpenString (place 1 1)) }
    ensures closed { fault_in (34 ∷ 34 ∷ []) ≡ None }
{}

/// A name has at most 31 signs.
pub fn a_name_may_be_too_long()
    ensures longest { fault_in (replicate 31 97) ≡ None }
    ensures too_long { fault_in (replicate 32 97) ≡ Some (NameTooLong (place 1 1)) }
{}

/// A comment holds any byte and ends at the next `!` or at the end of its line.
pub fn a_comment_holds_any_byte()
    ensures to_its_sign { fault_in (codes "!%$! $") ≡ Some (BadCharacter (place 1 6)) }
    ensures to_its_line { fault_in (codes "!%$" ++ 10 ∷ 36 ∷ []) ≡ Some (BadCharacter (place 2 1)) }
    ensures to_the_end { fault_in (codes "!%$") ≡ None }
{}
