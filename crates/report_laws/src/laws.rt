//! The laws.
ghost use Rattle.std.specs.Prelude.{◌≡◌, ℕ, List, Result, Ok, length};
ghost use Rattle.report_judge.specs.Reported.{IsReported};
ghost use Rattle.report_judge.specs.Verdicts.{IsVerdict};
ghost use Rattle.report_judge.specs.declared.judge.VerifyFault.{VerifyFault};
ghost use Rattle.report_judge.specs.report_reader.specs.Reading.{acts_in, read_report, stops_in};
ghost use Rattle.report_judge.specs.report_reader.specs.declared.reading.Reading.{Reading};
ghost use Rattle.tal_tree.specs.declared.site.Site.{Site};
ghost use Rattle.report_laws.specs.OneVerdict.{IsSameVerdict};

/// A report has one verdict, unless memory runs out: so it is rejected at one line for one cause, and never where it is
/// verified.
pub fn a_report_has_one_verdict()
    ensures { (site : Site) (report : List ℕ) (one other : Result ℕ VerifyFault) → IsVerdict site report one
        → IsVerdict site report other
        → IsSameVerdict one other }
{}

/// A report each line of which has its form, and that is one of the acts that its lines tell, is verified, unless
/// memory runs out.
pub fn what_is_reported_is_verified()
    ensures { (site : Site) (report : List ℕ) (reading : Reading) (verdict : Result ℕ VerifyFault)
        → read_report site report ≡ Ok reading
        → IsReported site report (acts_in reading.told) (stops_in reading.told) reading.end
        → IsVerdict site report verdict
        → IsSameVerdict verdict (Ok (length (acts_in reading.told))) }
{}
