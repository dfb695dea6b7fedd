ghost use Rattle.std.specs.Prelude.{◌≡◌, pos, true, false, [], ◌∷◌, codes};
ghost use Rattle.tal_names.specs.Faults.{fault_at};
ghost use Rattle.tal_names.specs.declared.fault.Rule.TheVariants.{WrongKind, Limit};
ghost use Rattle.tal_rules.specs.Statements.{step_faults, statement_faults};
ghost use Rattle.tal_syntax.specs.Grammar as g;
ghost use Rattle.tal_tokens.specs.declared.token.Token.TheVariants as tok;
ghost use Rattle.token_guards.specs.Loops.{one_global, numbered_from, number_alone, name_alone, open_if};
ghost use Rattle.token_guards.specs.Loops.{counted_loop, tested_loop};
ghost use Rattle.token_guards.specs.Texts.{tokens_in, on_first_line};
ghost use Rattle.tal_tree.specs.declared.limit.ProgramLimit.TheVariants as program_limit;

/// The words of loops are keywords, in either case.
pub fn a_loop_has_words_of_its_own()
    ensures by_step { tokens_in (codes "by") ≡ tok.By (on_first_line 0 2) ∷ tok.Finish (on_first_line 2 2) ∷ [] }
    ensures down { tokens_in (codes "DownTo") ≡ tok.DownTo (on_first_line 0 6) ∷ tok.Finish (on_first_line 6 6) ∷ [] }
    ensures until { tokens_in (codes "uNTIL") ≡ tok.Until (on_first_line 0 5) ∷ tok.Finish (on_first_line 5 5) ∷ [] }
    ensures longer { tokens_in (codes "downtoo")
        ≡ tok.Name (on_first_line 0 7) (codes "DOWNTOO") ∷ tok.Finish (on_first_line 7 7) ∷ [] }
{}

/// FOR says which way it counts, and by how much where that isn't 1.
pub fn a_for_counts_up_or_down()
    ensures up { tokens_in (codes "FOR I:=1 TO 5 DO") ≡ g.of_statement counted_loop (tok.Finish (on_first_line 16 16)
        ∷ []) }
    ensures down { tokens_in (codes "FOR I:=5 DOWNTO 1 BY 2 DO") ≡ g.of_statement
        (g.for_do (on_first_line 0 3) (on_first_line 4 5) (codes "I") (on_first_line 5 7)
        (number_alone (on_first_line 7 8) (pos 5)) (g.down (on_first_line 9 15))
        (number_alone (on_first_line 16 17) (pos 1))
        (g.step_by (on_first_line 18 20) (g.positive (g.digits (on_first_line 21 22) (pos 2))))
        (on_first_line 23 25) g.nothing) (tok.Finish (on_first_line 25 25) ∷ []) }
{}

/// DO has its test behind its statement, and ends it: an ELSE behind that belongs to an IF outside.
pub fn a_do_ends_with_its_test()
    ensures tokens { tokens_in (codes "DO RETURN UNTIL I") ≡ g.of_statement tested_loop
        (tok.Finish (on_first_line 17 17) ∷ []) }
    ensures within { g.is_open open_if ≡ true }
    ensures ended { g.is_open (g.do_until (on_first_line 0 2) open_if (on_first_line 13 18)
        (name_alone (on_first_line 19 20) (codes "I"))) ≡ false }
{}

/// What a FOR counts by is 1 or more: else the fault stands at the constant's first token.
pub fn a_for_counts_by_one_or_more()
    ensures least { step_faults one_global
        (g.step_by (on_first_line 0 2) (g.positive (g.digits (on_first_line 3 4) (pos 1)))) ≡ [] }
    ensures zero { step_faults one_global
        (g.step_by (on_first_line 0 2) (g.positive (g.digits (on_first_line 3 4) (pos 0))))
        ≡ fault_at (on_first_line 3 4) WrongKind }
    ensures negative { step_faults one_global
        (g.step_by (on_first_line 0 2) (g.negative (on_first_line 3 4) (g.digits (on_first_line 4 5) (pos 2))))
        ≡ fault_at (on_first_line 3 4) WrongKind }
{}

/// DO has one number, after those of its body. FOR has three, the last one after its body.
pub fn a_loop_may_have_a_number_too_many()
    ensures two { statement_faults one_global (numbered_from 1999) tested_loop ≡ [] }
    ensures after_body { statement_faults one_global (numbered_from 2000) tested_loop
        ≡ fault_at (on_first_line 0 2) (Limit program_limit.Statements) }
    ensures three { statement_faults one_global (numbered_from 1998) counted_loop ≡ [] }
    ensures last { statement_faults one_global (numbered_from 1999) counted_loop
        ≡ fault_at (on_first_line 0 3) (Limit program_limit.Statements) }
{}
