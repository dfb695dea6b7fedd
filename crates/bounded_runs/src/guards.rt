//! What the definitions of drain rounds and of clear stretches say at telling points.
ghost use Rattle.std.specs.Prelude.{◌≡◌, ℕ, Bool, true, false, List, Option};
ghost use Rattle.tal_tree.specs.declared.site.Site.{Site};
ghost use Rattle.schedule.specs.declared.event.Event.{Event};
ghost use Rattle.schedule.specs.declared.line.Line.{Line};
ghost use Rattle.player.specs.declared.standing.Place.{Place};
ghost use Rattle.player.specs.declared.standing.MixedPlace.{MixedPlace};
ghost use Rattle.player.specs.declared.standing.Rule.TheVariants as rule;
ghost use Rattle.player.specs.declared.standing.LinePlace.TheVariants as standing;
ghost use Rattle.player.specs.declared.stop.ProcessorStop.{ProcessorStop};
ghost use Rattle.machine_states.specs.States.{Harm, Makes, Skips, Would};
ghost use Rattle.packet_wires.specs.Play.{Packeted};
ghost use Rattle.bounded_runs.specs.Moments.{AreClear, state_after};
ghost use Rattle.bounded_runs.specs.Places.{is_in_drain_round};

/// Drain rounds are those of the lines `drain` and `until`. Those of `mute` are none, nor are mixed ones. A line that
/// asks for an event, or has ended, makes no round.
pub fn drain_and_until_make_drain_rounds()
    ensures drain { (left : ℕ) (place : Place) → is_in_drain_round (standing.Rounds rule.Drain left place) ≡ true }
    ensures until { (left count : ℕ) (writes : Bool) (place : Place)
        → is_in_drain_round (standing.Rounds (rule.Until writes count) left place) ≡ true }
    ensures mute { (left node : ℕ) (place : Place)
        → is_in_drain_round (standing.Rounds (rule.Mute node) left place) ≡ false }
    ensures mixed { (left draws : ℕ) (place : MixedPlace)
        → is_in_drain_round (standing.Mixed left place draws) ≡ false }
    ensures event { (event : Event) (left : ℕ) → is_in_drain_round (standing.Event event left) ≡ false }
    ensures ended { is_in_drain_round standing.Ended ≡ false }
{}

/// Between a time and itself nothing is asked, and what is clear up to a time and from it on is clear throughout.
pub fn clear_stretches_join()
    ensures none { (site : Site) (lines : List Line) (stop : Option ProcessorStop) (at : ℕ)
        → AreClear site lines stop at at }
    ensures joined { (site : Site) (lines : List Line) (stop : Option ProcessorStop) (from between to : ℕ)
        → AreClear site lines stop from between → AreClear site lines stop between to
        → AreClear site lines stop from to }
{}

/// An event that is skipped leaves the state, and so does one that isn't played since it would stop a second processor.
pub fn what_is_not_played_changes_nothing()
    ensures made { (s next : Packeted) → state_after s (Makes next) ≡ next }
    ensures skipped { (s : Packeted) → state_after s Skips ≡ s }
    ensures harm { (s : Packeted) (harm : Harm) → state_after s (Would harm) ≡ s }
{}
