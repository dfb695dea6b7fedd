ghost use Rattle.std.specs.Prelude.{◌≡◌};
ghost use Rattle.machine_views.specs.declared.views.View.{View};
ghost use Rattle.tal_tree.specs.declared.site.Site.{Site};
ghost use Rattle.left_findings.specs.Left.{IsLeft};
ghost use Rattle.left_findings.specs.declared.finding.Left.{Left};

use wait_rings::each_ring_is_told_once;

/// What is left of a site is one answer, by the view of its machine.
pub fn what_is_left_is_one()
    ensures { (site : Site) (view : View) (left other : Left) → IsLeft site view left → IsLeft site view other
        → left ≡ other }
{
    each_ring_is_told_once();
}
