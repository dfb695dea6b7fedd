ghost use Rattle.std.specs.Prelude.{◌≡◌, ◌≤◌, ℕ, ◌+◌, true, List, Some};
ghost use Rattle.gd_words.specs.declared.limits.TheConstants.{MOST_PROCESSORS};
ghost use Rattle.tal_tree.specs.declared.site.Site.{Site};
ghost use Rattle.schedule.specs.declared.bus_name.BusName.{BusName};
ghost use Rattle.schedule.specs.declared.event.Counts.{Counts};
ghost use Rattle.schedule.specs.declared.event.Event.{Event};
ghost use Rattle.schedule.specs.declared.line.Line.{Line};
ghost use Rattle.player.specs.declared.standing.Sizes.{Sizes};
ghost use Rattle.player.specs.declared.standing.Rule.{Rule};
ghost use Rattle.agendas.specs.Agendas.{Agenda};
ghost use Rattle.link_control.specs.Ends.{End};
ghost use Rattle.world_semantics.specs.World.{is_running};
ghost use Rattle.channel_laws.specs.Way.{IsOutstanding};
ghost use Rattle.packet_wires.specs.Nodes.{end_at};
ghost use Rattle.packet_wires.specs.Play.{Packeted};
ghost use Rattle.packet_wires.specs.Runs.{IsPlayed};
ghost use Rattle.round_laws.specs.Buses.{IsGrown};
ghost use Rattle.round_laws.specs.Rounds.{IsWholeRound};
ghost use Rattle.round_laws.specs.Stretches.{BeginsRound, CountsBuses, EndsRound, GoesOn, is_drain};
ghost use Rattle.packet_rounds.specs.Pieces.{IsAcknowledged};
ghost use Rattle.packet_rounds.specs.Played.{IsClearPlay, IsPlay, buses_of, sizes_of};

/// A whole round delivers all that was on both buses as it began, whatever is lost for want of room on the way: what
/// comes off a bus begins with what was on it.
pub fn a_round_over_packets_delivers_all()
    ensures { (sizes : Sizes) (start next : Packeted) → (r : IsWholeRound sizes buses_of IsPlay start next)
        → (bus : BusName) → IsGrown (buses_of start bus) (r.came bus) }
{}

/// Four whole rounds in a row of one `drain` or `until` line, or more, end each piece that was outstanding as they
/// began: its sender's end has its acknowledgement, and its receiver's end has kept it. All events of the rounds are
/// clear, and both nodes of the piece still run as they end. Whatever was played before.
pub fn four_clear_rounds_end_a_piece()
    ensures { (site : Site) → site.processors ≤ MOST_PROCESSORS → (events : List Event) (start : Packeted)
        → IsPlayed site events start
        → (counts : Packeted → Counts) → CountsBuses buses_of counts → (rule : Rule) → is_drain rule ≡ true
        → (left more : ℕ) (rest : List Line) (before now : ℕ) (agenda there : Agenda) (s : Packeted)
        → BeginsRound (sizes_of site) (counts start) agenda rule (left + more + 4) rest
        → GoesOn (sizes_of site) counts IsClearPlay before agenda start now there s → EndsRound there rule left rest
        → (a b n : ℕ) → is_running s.world.stopped a ≡ true → is_running s.world.stopped b ≡ true → (e : End)
        → end_at start.wires.nodes a b ≡ Some e → IsOutstanding n e.sending → IsAcknowledged s a b n }
{}

/// So do six.
pub fn six_clear_rounds_end_a_piece()
    ensures { (site : Site) → site.processors ≤ MOST_PROCESSORS → (events : List Event) (start : Packeted)
        → IsPlayed site events start
        → (counts : Packeted → Counts) → CountsBuses buses_of counts → (rule : Rule) → is_drain rule ≡ true
        → (left : ℕ) (rest : List Line) (before now : ℕ) (agenda there : Agenda) (s : Packeted)
        → BeginsRound (sizes_of site) (counts start) agenda rule (left + 6) rest
        → GoesOn (sizes_of site) counts IsClearPlay before agenda start now there s → EndsRound there rule left rest
        → (a b n : ℕ) → is_running s.world.stopped a ≡ true → is_running s.world.stopped b ≡ true → (e : End)
        → end_at start.wires.nodes a b ≡ Some e → IsOutstanding n e.sending → IsAcknowledged s a b n }
{}
