//! What a run of a schedule leaves on an accepted site.
ghost use Rattle.std.specs.Prelude.{List, Option};
ghost use Rattle.tal_tree.specs.declared.site.Site.{Site};
ghost use Rattle.schedule.specs.declared.line.Line.{Line};
ghost use Rattle.player.specs.declared.stop.ProcessorStop.{ProcessorStop};
ghost use Rattle.packet_lengths.specs.awaited_requests.specs.Seats.{IsLaidOut};
ghost use Rattle.packet_lengths.specs.accepted_sites.specs.Premises.{IsAcceptedSite};
ghost use Rattle.plain_semantics.specs.SiteLimits.{KeepsSiteLimits};
ghost use Rattle.packet_lengths.specs.packet_runs.specs.Ends.{IsRunOf};
ghost use Rattle.packet_lengths.specs.packet_runs.specs.declared.ran.Ran.{Ran};
ghost use Rattle.accepted_decks.specs.Left.{KeepsPossibleActs};

use packet_lengths::{
    an_idle_end_that_is_played_leaves_none, events_of_a_schedule_are_played,
    what_is_played_is_possible,
};

/// Whatever its schedule, a run of an accepted site within the limits keeps possible acts, and none is left at an idle
/// end.
pub fn a_run_of_an_accepted_site_keeps_possible_acts()
    ensures { (site : Site) (lines : List Line) (stop : Option ProcessorStop) (ran : Ran) → IsAcceptedSite site
        → KeepsSiteLimits site → IsLaidOut site → IsRunOf site lines stop ran
        → KeepsPossibleActs site ran }
{
    what_is_played_is_possible();
    an_idle_end_that_is_played_leaves_none();
    events_of_a_schedule_are_played();
}
