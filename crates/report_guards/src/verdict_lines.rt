ghost use Rattle.std.specs.Prelude.{◌≡◌, [], ◌∷◌, ◌++◌, codes, ℕ, List};
ghost use Rattle.std.specs.Fmt.{decimal};
ghost use Rattle.path_semantics.specs.declared.reason.Reason.TheVariants.{Data, SyncBlock, Input, Depth};
ghost use Rattle.path_semantics.specs.declared.reason.RefusalFault.TheVariants.{TooDeep, TooLarge, Broken};
ghost use Rattle.tal_tree.specs.declared.site.ProcessSpec.{ProcessSpec};
ghost use Rattle.trace_print.specs.VerdictText.{accepted_line, accepted_lines, accepted_text, refusal_text};
ghost use Rattle.trace_print.specs.VerdictText.{refused_line, step_line};
ghost use Rattle.report_guards.specs.Sites.{site};

/// Where every program is accepted each pair has a line, in the order of the deck, and a disc none.
pub fn what_is_accepted_has_its_lines()
    ensures all { accepted_text site ≡ codes "ACCEPTED $BANK" ++ 10 ∷ [] ++ codes "END checked" ++ 10 ∷ [] }
    ensures order { (one : ProcessSpec) (rest : List ProcessSpec)
        → accepted_lines (one ∷ rest) ≡ accepted_line one ++ accepted_lines rest }
{}

/// A refusal is told by the program's process and its cause: a global by its name, and a file by that of its variable.
pub fn what_is_refused_has_its_line()
    ensures data { (path : List ℕ) → refused_line site 1 (Broken (Data 0) path)
        ≡ codes "REFUSED $BANK Data RCV" ++ 10 ∷ [] }
    ensures sync_block { (path : List ℕ) → refused_line site 1 (Broken (SyncBlock 1) path)
        ≡ codes "REFUSED $BANK SyncBlock DISK" ++ 10 ∷ [] }
    ensures input { (path : List ℕ) → refused_line site 1 (Broken Input path) ≡ codes "REFUSED $BANK Input" ++ 10 ∷ [] }
    ensures depth { (path : List ℕ) → refused_line site 1 (Broken (Depth 1) path)
        ≡ codes "REFUSED $BANK Depth DISK" ++ 10 ∷ [] }
    ensures too_deep { refused_line site 1 TooDeep ≡ codes "REFUSED $BANK TooDeep" ++ 10 ∷ [] }
    ensures too_large { refused_line site 1 (TooLarge 8193)
        ≡ codes "REFUSED $BANK TooLarge " ++ decimal 8193 ++ 10 ∷ [] }
{}

/// Each statement of the path has a line, in the path's order, with its number and its line in the program's text, and
/// the end comes last.
pub fn a_path_has_its_lines()
    ensures step { step_line (4 ∷ 5 ∷ 9 ∷ []) 3 ≡ codes "P " ++ decimal 3 ++ codes " " ++ decimal 9 ++ 10 ∷ [] }
    ensures first { step_line (4 ∷ 5 ∷ 9 ∷ []) 1 ≡ codes "P " ++ decimal 1 ++ codes " " ++ decimal 4 ++ 10 ∷ [] }
    ensures path { (lines : List ℕ) → refusal_text site 1 (Broken Input (2 ∷ 1 ∷ [])) lines
        ≡ refused_line site 1 (Broken Input []) ++ (step_line lines 2 ++ (step_line lines 1 ++ []))
        ++ (codes "END refused" ++ 10 ∷ []) }
    ensures no_path { (lines : List ℕ) → refusal_text site 1 TooDeep lines
        ≡ codes "REFUSED $BANK TooDeep" ++ 10 ∷ [] ++ codes "END refused" ++ 10 ∷ [] }
{}
