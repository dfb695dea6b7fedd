ghost use Rattle.std.specs.Prelude.{◌≡◌, IfSome};
ghost use Rattle.player.specs.declared.standing.LinePlace.TheVariants as standing;
ghost use Rattle.player.specs.Lines.{event_of, is_before, is_before_mixed, next_event, proposed, stands_after};

use crate::mixed::next_mixed;
use crate::round::next_turn;
use crate::rule::spared;
use crate::standing::{LinePlace, MixedPlace, Place, Rule, Sizes};
use schedule::{Counts, Event};

impl LinePlace {
    /// The next event of a line that stands here; then the line stands behind it.
    pub fn step(&mut self, sizes: Sizes, counts: &Counts) -> Option<Event>
        ensures event { result ≡ event_of (next_event sizes self.old counts.now) }
        ensures standing { IfSome result (λ event. self.new ≡ stands_after (next_event sizes self.old counts.now)) }
    {
        match self {
            LinePlace::Ended => None,
            LinePlace::Event { event, left } => {
                *left = left.checked_sub(1)?;
                Some(*event)
            }
            LinePlace::Rounds { rule, left, place } => turn(sizes, *rule, left, place, counts),
            LinePlace::Mixed { left, place, draws } => {
                let event = mixed_turn(sizes, left, place, draws, counts.x, counts.y)?;
                Some(spared(counts, event))
            }
        }
    }
}

/// The next event of a line of rounds, and where its round stands then.
fn turn(
    sizes: Sizes,
    rule: Rule,
    left: &mut u32,
    place: &mut Place,
    counts: &Counts,
) -> Option<Event>
    ensures event { result ≡ event_of (next_event sizes (standing.Rounds rule left.old place.old) counts.now) }
    ensures standing { IfSome result (λ event. standing.Rounds rule left.new place.new
        ≡ stands_after (next_event sizes (standing.Rounds rule left.old place.old) counts.now)) }
{
    let begins = is_before(*place);
    if rule.is_reached(counts) || (rule.minds_idle() && begins && counts.idle) {
        return None;
    }
    if begins {
        *left = left.checked_sub(1)?;
    }
    let next = next_turn(sizes, counts.x, counts.y, *place);
    *place = next.place;
    Some(rule.decided(counts, next.event))
}

/// The next event of a line of mixed rounds if its packet isn't an alive one, where `x` and `y` packets are on the
/// buses; and where its round stands then.
#[inline(never)]
fn mixed_turn(
    sizes: Sizes,
    left: &mut u32,
    place: &mut MixedPlace,
    draws: &mut u64,
    x: u32,
    y: u32,
) -> Option<Event>
    ensures event { result ≡ event_of (proposed sizes x y (standing.Mixed left.old place.old draws.old)) }
    ensures standing { IfSome result (λ event. standing.Mixed left.new place.new draws.new
        ≡ stands_after (proposed sizes x y (standing.Mixed left.old place.old draws.old))) }
{
    if is_before_mixed(*place) {
        *left = left.checked_sub(1)?;
    }
    let next = next_mixed(sizes, x, y, *place, *draws);
    *place = next.place;
    *draws = next.draws;
    Some(next.event)
}

/// Whether a round is to begin.
pub fn is_before(place: Place) -> bool
    ensures { result ≡ is_before place }
{
    matches!(place, Place::Before)
}

/// Whether a mixed round is to begin.
pub fn is_before_mixed(place: MixedPlace) -> bool
    ensures { result ≡ is_before_mixed place }
{
    matches!(place, MixedPlace::Before)
}
