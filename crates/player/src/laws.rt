ghost use Rattle.std.specs.Prelude.{ℕ, ◌≡◌, ◌≤◌, List as Items, Some};
ghost use Rattle.gd_words.specs.declared.limits.TheConstants.{MOST_PROCESSORS};
ghost use Rattle.schedule.specs.declared.event.Counts.{Counts};
ghost use Rattle.schedule.specs.declared.line.Line.TheVariants.{Drain, Mix, Mute};
ghost use Rattle.player.specs.declared.standing.Sizes.{Sizes};
ghost use Rattle.player.specs.declared.standing.LinePlace.{LinePlace};
ghost use Rattle.player.specs.declared.standing.Move.{Move};
ghost use Rattle.player.specs.Ended.{rounds_ended, rounds_left};
ghost use Rattle.player.specs.Played.{events_from, events_of};
ghost use Rattle.player.specs.Lines.{next_event, packet_of, packet_aimed_at};

/// The packet that is aimed at is the one that the next event concerns, whether it is an alive packet or not and
/// whoever sent it.
pub fn the_aimed_packet_is_concerned()
    ensures { (sizes : Sizes) (standing : LinePlace) (counts : Counts) (move : Move)
        → next_event sizes standing counts ≡ Some move
        → packet_aimed_at sizes counts.x counts.y standing ≡ packet_of counts.x counts.y move.event }
{}

/// Whatever happens, a line of rounds ends at most so many, from its beginning or from wherever it stands. There are at
/// most as many processors as a site may have, since the tick of the terminals' node tells the end of a round.
pub fn a_line_ends_its_rounds_at_most()
    ensures standing { (sizes : Sizes) (standing : LinePlace) (counts : Items Counts)
        → sizes.processors ≤ MOST_PROCESSORS → rounds_ended (events_from sizes standing counts) ≤ rounds_left standing }
    ensures drained { (sizes : Sizes) (rounds : ℕ) (counts : Items Counts) → sizes.processors ≤ MOST_PROCESSORS
        → rounds_ended (events_of sizes (Drain rounds) counts) ≤ rounds }
    ensures muted { (sizes : Sizes) (node rounds : ℕ) (counts : Items Counts) → sizes.processors ≤ MOST_PROCESSORS
        → rounds_ended (events_of sizes (Mute node rounds) counts) ≤ rounds }
    ensures mixed { (sizes : Sizes) (start rounds : ℕ) (counts : Items Counts) → sizes.processors ≤ MOST_PROCESSORS
        → rounds_ended (events_of sizes (Mix start rounds) counts) ≤ rounds }
{}
