ghost use Rattle.std.specs.Prelude.{◌≡◌, [], ◌∷◌, ◌++◌, codes, ℕ, ℤ, List};
ghost use Rattle.std.specs.Fmt.{decimal, signed_decimal};
ghost use Rattle.shown_sectors.specs.declared.sectors.SectorWords.{SectorWords};
ghost use Rattle.tal_tree.specs.declared.act.Act.{Act};
ghost use Rattle.tal_tree.specs.declared.act.Shown.{Shown};
ghost use Rattle.tal_tree.specs.declared.act.Shown.TheVariants.{Write, Reply};
ghost use Rattle.trace_print.specs.declared.closing.End.{End};
ghost use Rattle.trace_print.specs.declared.load.LoadCounts.{LoadCounts};
ghost use Rattle.trace_print.specs.ActLine.{act_line, act_lines};
ghost use Rattle.trace_print.specs.EndLine.{end_line};
ghost use Rattle.trace_print.specs.LoadLines.{load_lines};
ghost use Rattle.trace_print.specs.NumbersText.{words_text};
ghost use Rattle.trace_print.specs.ReportText.{load_report_text, report_text, run_text};
ghost use Rattle.trace_print.specs.EndLine.{closing_line};
ghost use Rattle.trace_print.specs.MirrorLine.{mirror_line, mirror_lines};
ghost use Rattle.trace_print.specs.declared.closing.Closing.{Closing};
ghost use Rattle.trace_print.specs.declared.closing.Closing.TheVariants.{Ended, Lost};
ghost use Rattle.trace_print.specs.declared.mirrors.MirrorDrives.{MirrorDrives};
ghost use Rattle.trace_print.specs.mirror.specs.declared.state.DriveState.TheVariants.{Failed, Reviving, Working};
ghost use Rattle.trace_print.specs.SectorLine.{sector_line, sector_lines};
ghost use Rattle.trace_print.specs.ShownLine.{shown_line, shown_lines};
ghost use Rattle.trace_print.specs.StopLine.{stop_lines};
ghost use Rattle.report_guards.specs.Sites.{site};

/// A write is told by its disc and sector, a reply by its terminal and number, and a sector as a write is; then come
/// the words, each after a space.
pub fn what_is_shown_has_its_line()
    ensures write { (words : List ℤ) → shown_line site (Write 0 3 words)
        ≡ codes "W $DATA " ++ decimal 3 ++ codes ":" ++ words_text words ++ 10 ∷ [] }
    ensures reply { (words : List ℤ) → shown_line site (Reply 1 4 words)
        ≡ codes "R $T2 " ++ decimal 4 ++ codes ":" ++ words_text words ++ 10 ∷ [] }
    ensures sector { (words : List ℤ) → sector_line site (record { process = 0; sector = 3; words = words })
        ≡ codes "D $DATA " ++ decimal 3 ++ codes ":" ++ words_text words ++ 10 ∷ [] }
    ensures words { (word : ℤ) (rest : List ℤ)
        → words_text (word ∷ rest) ≡ codes " " ++ signed_decimal word ++ words_text rest }
    ensures no_words { words_text [] ≡ [] }
{}

/// Lines stand in the order of what they tell. What a run shows comes first, or a load's counts in its place, then the
/// sectors, the drives of mirrored discs, the stops, the acts and the end.
pub fn a_report_is_in_order()
    ensures run { (all : List Shown) (sectors : List SectorWords) (stopped : List ℕ) (acts : List Act) (end : End)
        → report_text site all sectors stopped acts end
        ≡ shown_lines site all ++ sector_lines site sectors ++ stop_lines stopped ++ act_lines site acts
        ++ end_line end }
    ensures whole { (all : List Shown) (sectors : List SectorWords) (mirrors : List MirrorDrives) (stopped : List ℕ)
        (acts : List Act) (closing : Closing) → run_text site all sectors mirrors stopped acts closing
        ≡ shown_lines site all ++ sector_lines site sectors ++ mirror_lines site mirrors ++ stop_lines stopped
        ++ act_lines site acts ++ closing_line site closing }
    ensures plain { (all : List Shown) (sectors : List SectorWords) (stopped : List ℕ) (acts : List Act) (end : End)
        → run_text site all sectors [] stopped acts (Ended end) ≡ report_text site all sectors stopped acts end }
    ensures mirror { (next : ℕ) → mirror_line site (record { process = 0; first = Reviving next; second = Working })
        ≡ codes "M $DATA reviving " ++ decimal next ++ codes " " ++ codes "working" ++ 10 ∷ [] }
    ensures failed { mirror_lines site (record { process = 0; first = Working; second = Failed } ∷ [])
        ≡ codes "M $DATA working failed" ++ 10 ∷ [] }
    ensures lost { closing_line site (Lost 0) ≡ codes "END lost $DATA" ++ 10 ∷ [] }
    ensures load { (counts : LoadCounts) (sectors : List SectorWords) (stopped : List ℕ) (closing : Closing)
        → load_report_text site counts sectors stopped closing
        ≡ load_lines counts ++ sector_lines site sectors ++ stop_lines stopped ++ closing_line site closing }
    ensures shown { (one : Shown) (rest : List Shown)
        → shown_lines site (one ∷ rest) ≡ shown_line site one ++ shown_lines site rest }
    ensures sectors { (one : SectorWords) (rest : List SectorWords)
        → sector_lines site (one ∷ rest) ≡ sector_line site one ++ sector_lines site rest }
    ensures acts { (one : Act) (rest : List Act)
        → act_lines site (one ∷ rest) ≡ act_line site one ++ act_lines site rest }
{}
