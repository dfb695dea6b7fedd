//! The law.
ghost use Rattle.std.specs.Prelude.{List};
ghost use Rattle.plain_semantics.specs.Machine.{IsPossible, shown_by};
ghost use Rattle.shown_forms.specs.Sites.{IsTellable};
ghost use Rattle.shown_sectors.specs.Sectors.{sectors_after};
ghost use Rattle.tal_tree.specs.declared.act.Act.{Act};
ghost use Rattle.tal_tree.specs.declared.site.Site.{Site};
ghost use Rattle.told_reports.specs.InForm.{AreEach, IsSectorOf, IsShownOn};
ghost use Rattle.told_reports.specs.NamesApart.{IsNamedAct};

/// What possible acts show is in the form of reports, and so is what stands on sectors after them; they name what the
/// site has.
pub fn what_possible_acts_show_is_in_form()
    ensures shown { (site : Site) (acts : List Act) → IsTellable site → IsPossible site acts
        → AreEach (IsShownOn site) (shown_by site acts) }
    ensures sectors { (site : Site) (acts : List Act) → IsTellable site → IsPossible site acts
        → AreEach (IsSectorOf site) (sectors_after site (shown_by site acts)) }
    ensures acts { (site : Site) (acts : List Act) → IsTellable site → IsPossible site acts
        → AreEach (IsNamedAct site) acts }
{}
