ghost use Rattle.std.specs.Prelude.{◌≡◌, [], ◌∷◌, ◌++◌, codes, map, ℕ, List};
ghost use Rattle.std.specs.Fmt.{decimal};
ghost use Rattle.tal_tree.specs.declared.fault.DeckFault.TheVariants as deck;
ghost use Rattle.tal_tree.specs.declared.fault.TalFault.TheVariants as tal;
ghost use Rattle.tal_tree.specs.declared.limit.DeckLimit.{DeckLimit};
ghost use Rattle.tal_tree.specs.declared.limit.DeckLimit.TheVariants as most;
ghost use Rattle.tal_tree.specs.declared.limit.ProgramLimit.{ProgramLimit};
ghost use Rattle.tal_tree.specs.declared.limit.ProgramLimit.TheVariants as limit;
ghost use Rattle.tal_tree.specs.LimitNumbers.{deck_limit_number, program_limit_number};
ghost use Rattle.trace_print.specs.declared.closing.End.TheVariants.{Idle, Cut, Second, Checked, Refused, Swept};
ghost use Rattle.trace_print.specs.EndLine.{end_line, usage_line};
ghost use Rattle.trace_print.specs.FaultLine.{fault_line, fault_numbers};
ghost use Rattle.trace_print.specs.LoadLines.{load_lines};
ghost use Rattle.trace_print.specs.NumbersText.{numbers_text};
ghost use Rattle.trace_print.specs.RowLine.{row_line, sweep_text};
ghost use Rattle.run_table.specs.declared.table.ProcessorRow.{ProcessorRow};
ghost use Rattle.trace_print.specs.StopLine.{stop_lines};
ghost use Rattle.trace_print.specs.VerdictLine.{rejected_line, verified_line};

/// A fault of the deck is told by its line in the deck, 0 for none, and its number; a limit has its own number after
/// these.
pub fn a_fault_has_its_numbers()
    ensures of_no_form { (line : ℕ) → fault_numbers (deck.Line line) ≡ line ∷ 1 ∷ [] }
    ensures name_twice { (line : ℕ) → fault_numbers (deck.NameTwice line) ≡ line ∷ 3 ∷ [] }
    ensures unknown_name { (line : ℕ) → fault_numbers (deck.UnknownName line) ≡ line ∷ 4 ∷ [] }
    ensures same_processor { (line : ℕ) → fault_numbers (deck.SameProcessor line) ≡ line ∷ 5 ∷ [] }
    ensures no_processor { (line : ℕ) → fault_numbers (deck.NoProcessor line) ≡ line ∷ 6 ∷ [] }
    ensures limit { (line : ℕ) (passed : DeckLimit)
        → fault_numbers (deck.Limit line passed) ≡ line ∷ 7 ∷ deck_limit_number passed ∷ [] }
    ensures no_end { (line : ℕ) → fault_numbers (deck.NoEnd line) ≡ line ∷ 8 ∷ [] }
    ensures opens_itself { (line : ℕ) → fault_numbers (deck.OpensItself line) ≡ line ∷ 9 ∷ [] }
    ensures too_long { fault_numbers deck.TooLong ≡ 0 ∷ 10 ∷ [] }
{}

/// A program's fault has its own number, line and column after the deck's line and the number 2.
pub fn a_fault_of_a_program_has_its_place()
    ensures bad_character { (n line column : ℕ)
        → fault_numbers (deck.Program n (tal.BadCharacter (record { line = line; column = column })))
        ≡ n ∷ 2 ∷ 1 ∷ line ∷ column ∷ [] }
    ensures number_too_large { (n line column : ℕ)
        → fault_numbers (deck.Program n (tal.NumberTooLarge (record { line = line; column = column })))
        ≡ n ∷ 2 ∷ 2 ∷ line ∷ column ∷ [] }
    ensures open_string { (n line column : ℕ)
        → fault_numbers (deck.Program n (tal.OpenString (record { line = line; column = column })))
        ≡ n ∷ 2 ∷ 3 ∷ line ∷ column ∷ [] }
    ensures name_too_long { (n line column : ℕ)
        → fault_numbers (deck.Program n (tal.NameTooLong (record { line = line; column = column })))
        ≡ n ∷ 2 ∷ 4 ∷ line ∷ column ∷ [] }
    ensures expected { (n line column : ℕ) → fault_numbers
        (deck.Program n (tal.Expected (record { line = line; column = column }))) ≡ n ∷ 2 ∷ 5 ∷ line ∷ column ∷ [] }
    ensures unknown { (n line column : ℕ) → fault_numbers
        (deck.Program n (tal.Unknown (record { line = line; column = column }))) ≡ n ∷ 2 ∷ 6 ∷ line ∷ column ∷ [] }
    ensures twice { (n line column : ℕ) → fault_numbers
        (deck.Program n (tal.Twice (record { line = line; column = column }))) ≡ n ∷ 2 ∷ 7 ∷ line ∷ column ∷ [] }
    ensures wrong_kind { (n line column : ℕ)
        → fault_numbers (deck.Program n (tal.WrongKind (record { line = line; column = column })))
        ≡ n ∷ 2 ∷ 8 ∷ line ∷ column ∷ [] }
    ensures not_before { (n line column : ℕ)
        → fault_numbers (deck.Program n (tal.NotBefore (record { line = line; column = column })))
        ≡ n ∷ 2 ∷ 9 ∷ line ∷ column ∷ [] }
    ensures prologue { (n line column : ℕ) → fault_numbers
        (deck.Program n (tal.Prologue (record { line = line; column = column }))) ≡ n ∷ 2 ∷ 10 ∷ line ∷ column ∷ [] }
    ensures limit { (n line column : ℕ) (passed : ProgramLimit)
        → fault_numbers (deck.Program n (tal.Limit passed (record { line = line; column = column })))
        ≡ n ∷ 2 ∷ 11 ∷ line ∷ column ∷ program_limit_number passed ∷ [] }
    ensures no_main { (n line column : ℕ) → fault_numbers
        (deck.Program n (tal.NoMain (record { line = line; column = column }))) ≡ n ∷ 2 ∷ 12 ∷ line ∷ column ∷ [] }
{}

/// Each limit of a deck and of a program has its own number.
pub fn a_limit_has_its_number()
    ensures decks { map deck_limit_number (most.Processes ∷ most.Terminals ∷ most.Requests ∷ most.RequestWords
        ∷ most.Sectors ∷ most.Singles ∷ most.Rounds ∷ most.Processors ∷ [])
        ≡ 1 ∷ 2 ∷ 3 ∷ 4 ∷ 5 ∷ 6 ∷ 7 ∷ 8 ∷ [] }
    ensures programs { map program_limit_number (limit.Globals ∷ limit.GlobalWords ∷ limit.ArrayWords ∷ limit.Files
        ∷ limit.Procedures ∷ limit.Locals ∷ limit.Statements ∷ limit.Levels ∷ limit.KeptReplies ∷ [])
        ≡ 1 ∷ 2 ∷ 3 ∷ 4 ∷ 5 ∷ 6 ∷ 7 ∷ 8 ∷ 9 ∷ [] }
{}

/// These numbers stand behind `DECK`, each after a space.
pub fn a_fault_has_its_line()
    ensures limit { fault_line (deck.Limit 4 most.Terminals)
        ≡ codes "DECK" ++ numbers_text (4 ∷ 7 ∷ 2 ∷ []) ++ 10 ∷ [] }
    ensures too_long { fault_line deck.TooLong ≡ codes "DECK" ++ numbers_text (0 ∷ 10 ∷ []) ++ 10 ∷ [] }
    ensures numbers { (number : ℕ) (rest : List ℕ)
        → numbers_text (number ∷ rest) ≡ codes " " ++ decimal number ++ numbers_text rest }
    ensures no_number { numbers_text [] ≡ [] }
{}

/// A load is told by the number of requests of each terminal, and how much it shows.
pub fn a_load_has_its_lines()
    ensures { load_lines (record { requests = 50; writes = 800; replies = 799 })
        ≡ (codes "LOAD " ++ decimal 50 ++ 10 ∷ []) ++ (codes "W " ++ decimal 800 ++ 10 ∷ [])
        ++ (codes "R " ++ decimal 799 ++ 10 ∷ []) }
{}

/// A row of a sweep is told by its processor, how many runs there were, and how many of them were idle, cut, and before
/// a second stop. The rows come in their order, and the end comes last.
pub fn a_sweep_has_its_lines()
    ensures row { row_line (record { processor = 2; row = record { runs = 9; idle = 4; cut = 3; second = 5 } })
        ≡ codes "F" ++ numbers_text (2 ∷ 9 ∷ 4 ∷ 3 ∷ 5 ∷ []) ++ 10 ∷ [] }
    ensures more { (one : ProcessorRow) (rest : List ProcessorRow)
        → sweep_text (one ∷ rest) ≡ row_line one ++ sweep_text rest }
    ensures end { sweep_text [] ≡ codes "END swept" ++ 10 ∷ [] }
{}

/// Processors that have stopped have a line each.
pub fn stops_have_their_lines()
    ensures none { stop_lines [] ≡ [] }
    ensures two { stop_lines (4 ∷ 15 ∷ []) ≡ (codes "S " ++ decimal 4 ++ 10 ∷ [])
        ++ (codes "S " ++ decimal 15 ++ 10 ∷ []) }
{}

/// A run ends with one line, and so does a command that isn't understood.
pub fn an_end_has_its_line()
    ensures idle { end_line Idle ≡ codes "END idle" ++ 10 ∷ [] }
    ensures cut { end_line Cut ≡ codes "END cut" ++ 10 ∷ [] }
    ensures second { end_line (Second 15) ≡ codes "END second " ++ decimal 15 ++ 10 ∷ [] }
    ensures checked { end_line Checked ≡ codes "END checked" ++ 10 ∷ [] }
    ensures refused { end_line Refused ≡ codes "END refused" ++ 10 ∷ [] }
    ensures swept { end_line Swept ≡ codes "END swept" ++ 10 ∷ [] }
    ensures usage { usage_line ≡ codes "USAGE guardian MODE [N] [--acts] [--fail P:K]" ++ 10 ∷ [] }
{}

/// A report that was judged has one line: how many acts it tells, or at which line and for the cause of which number it
/// is rejected.
pub fn a_verdict_has_its_line()
    ensures verified { verified_line 11 ≡ codes "VERIFIED " ++ decimal 11 ++ 10 ∷ [] }
    ensures rejected { rejected_line 3 2 ≡ codes "REJECTED " ++ decimal 3 ++ codes " " ++ decimal 2 ++ 10 ∷ [] }
{}
