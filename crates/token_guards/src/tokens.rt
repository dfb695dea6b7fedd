ghost use Rattle.std.specs.Prelude.{◌≡◌, pos, negsuc, [], ◌∷◌, codes};
ghost use Rattle.tal_tokens.specs.declared.token.Token.TheVariants as tok;
ghost use Rattle.token_guards.specs.Texts.{tokens_in, on_first_line};

/// Tokens need nothing between them: `12ab` is a number and a name, which is kept in upper case.
pub fn a_number_and_a_name_may_touch()
    ensures { tokens_in (codes "12ab") ≡ tok.Number (on_first_line 0 2) (pos 12)
        ∷ tok.Name (on_first_line 2 4) (codes "AB") ∷ tok.Finish (on_first_line 4 4) ∷ [] }
{}

/// A keyword is written in either case, and a longer word is a name.
pub fn a_keyword_is_whole()
    ensures keyword { tokens_in (codes "wHiLe") ≡ tok.While (on_first_line 0 5) ∷ tok.Finish (on_first_line 5 5) ∷ [] }
    ensures longer { tokens_in (codes "ifs")
        ≡ tok.Name (on_first_line 0 3) (codes "IFS") ∷ tok.Finish (on_first_line 3 3) ∷ [] }
{}

/// Octal digits stand for the word of their pattern.
pub fn an_octal_number_is_a_pattern()
    ensures least { tokens_in (codes "%177777")
        ≡ tok.Number (on_first_line 0 7) (negsuc 0) ∷ tok.Finish (on_first_line 7 7) ∷ [] }
    ensures ten { tokens_in (codes "%10") ≡ tok.Number (on_first_line 0 3) (pos 8) ∷ tok.Finish (on_first_line 3 3)
        ∷ [] }
{}

/// The longest symbol is taken.
pub fn a_symbol_is_the_longest()
    ensures { tokens_in (codes "<>=") ≡ tok.Differs (on_first_line 0 2) ∷ tok.Equal (on_first_line 2 3)
        ∷ tok.Finish (on_first_line 3 3) ∷ [] }
{}

/// A string is `$RECEIVE`, a process's name, or another text, in either case.
pub fn a_string_is_one_of_three()
    ensures receive { tokens_in (34 ∷ 36 ∷ 114 ∷ 69 ∷ 99 ∷ 101 ∷ 105 ∷ 118 ∷ 101 ∷ 34 ∷ [])
        ≡ tok.Receive (on_first_line 0 10) ∷ tok.Finish (on_first_line 10 10) ∷ [] }
    ensures process { tokens_in (34 ∷ 36 ∷ 112 ∷ 34 ∷ [])
        ≡ tok.Process (on_first_line 0 4) (codes "$P") ∷ tok.Finish (on_first_line 4 4) ∷ [] }
    ensures other { tokens_in (34 ∷ 63 ∷ 34 ∷ []) ≡ tok.Text (on_first_line 0 3) ∷ tok.Finish (on_first_line 3 3) ∷ [] }
{}
