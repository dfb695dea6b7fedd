ghost use Rattle.std.specs.Prelude.{◌≡◌, ℕ};
ghost use Rattle.player.specs.declared.standing.LinePlace.TheVariants as standing;
ghost use Rattle.player.specs.declared.standing.Place.{Place};
ghost use Rattle.player.specs.Lines.{event_by_counts, minds_idle, is_reached, event_when_muted, event_when_spared};

use crate::standing::Rule;
use schedule::{Counts, Event};

impl Rule {
    /// Whether a line of this rule ends where the machine is idle before a round.
    pub fn minds_idle(self) -> bool
        ensures { result ≡ minds_idle self }
    {
        match self {
            Rule::Mute(_) => false,
            Rule::Drain | Rule::Until { .. } => true,
        }
    }

    /// Whether the count of writes or replies is reached.
    pub fn is_reached(self, counts: &Counts) -> bool
        ensures { result ≡ is_reached self counts.now }
    {
        match self {
            Rule::Until {
                writes: true,
                count,
            } => count <= counts.writes,
            Rule::Until {
                writes: false,
                count,
            } => count <= counts.replies,
            Rule::Drain | Rule::Mute(_) => false,
        }
    }

    /// What comes of an event in a line of this rule, where the packet that it concerns is counted.
    pub fn decided(self, counts: &Counts, event: Event) -> Event
        ensures { (left : ℕ) (place : Place) → result
            ≡ event_by_counts (standing.Rounds self left place) counts.now event }
    {
        match self {
            Rule::Mute(node) => muted(node, counts, event),
            Rule::Drain | Rule::Until { .. } => event,
        }
    }
}

/// The event in a line that mutes a node: an alive packet of it is lost.
pub fn muted(node: u8, counts: &Counts, event: Event) -> Event
    ensures { result ≡ event_when_muted node counts.now event }
{
    match event {
        Event::Deliver { bus, k } if counts.alive && counts.sender == node => Event::Lose {
            bus,
            k,
        },
        other => other,
    }
}

/// The event in a mixed line: an alive packet isn't lost.
pub fn spared(counts: &Counts, event: Event) -> Event
    ensures { result ≡ event_when_spared counts.now event }
{
    match event {
        Event::Lose { bus, k } if counts.alive => Event::Deliver { bus, k },
        other => other,
    }
}
