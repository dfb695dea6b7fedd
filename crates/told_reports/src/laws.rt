//! The laws.
ghost use Rattle.std.specs.Prelude.{◌≡◌, ◌<◌, ℕ, List, Ok, Some, length};
ghost use Rattle.plain_semantics.specs.Openers.{openers_of};
ghost use Rattle.report_reader.specs.Names.{opener_named, process_named, terminal_named};
ghost use Rattle.report_reader.specs.Reading.{acts_in, read_report, stops_in};
ghost use Rattle.report_reader.specs.declared.reading.Reading.{Reading};
ghost use Rattle.report_reader.specs.declared.told.Told.TheVariants as told;
ghost use Rattle.shown_sectors.specs.declared.sectors.SectorWords.{SectorWords};
ghost use Rattle.tal_tree.specs.declared.act.Act.{Act};
ghost use Rattle.tal_tree.specs.declared.act.Shown.{Shown};
ghost use Rattle.tal_tree.specs.declared.site.Site.{Site};
ghost use Rattle.trace_print.specs.ActLine.{act_line, opener_name};
ghost use Rattle.trace_print.specs.ReportText.{report_text};
ghost use Rattle.trace_print.specs.ShownLine.{process_name, terminal_name};
ghost use Rattle.trace_print.specs.declared.closing.End.{End};
ghost use Rattle.told_reports.specs.InForm.{IsInForm};
ghost use Rattle.told_reports.specs.NamesApart.{IsNamedAct, TellsNamesApart};
ghost use Rattle.told_reports.specs.ToldLine.{IsToldBy};

/// A process, a terminal, and an opener of a process is found by its name, where no two have one name.
pub fn a_name_tells_its_bearer()
    ensures process { (site : Site) (process : ℕ) → TellsNamesApart site → process < length site.processes
        → process_named site (process_name site process) ≡ Some process }
    ensures terminal { (site : Site) (terminal : ℕ) → TellsNamesApart site → terminal < length site.terminals
        → terminal_named site (terminal_name site terminal) ≡ Some terminal }
    ensures opener { (site : Site) (process opener : ℕ) → TellsNamesApart site
        → opener < length (openers_of site process)
        → opener_named site process (opener_name site process opener) ≡ Some opener }
{}

/// The line of an act is a text with a line feed, and this text tells the act.
pub fn an_act_is_told_by_its_line()
    ensures { (site : Site) (act : Act) → TellsNamesApart site → IsNamedAct site act
        → IsToldBy site (act_line site act) (told.Act act) }
{}

/// A report that tells what is in form is read back: its lines tell just its acts, its processors and its end.
pub fn a_report_is_read_back()
    ensures { (site : Site) (shown : List Shown) (sectors : List SectorWords) (stopped : List ℕ) (acts : List Act)
        (how : End)
        → TellsNamesApart site → IsInForm site shown sectors stopped acts how
        → (reading : Reading) × (read_report site (report_text site shown sectors stopped acts how) ≡ Ok reading)
        × (acts_in reading.told ≡ acts) × (stops_in reading.told ≡ stopped) × (reading.end ≡ how) }
{}
