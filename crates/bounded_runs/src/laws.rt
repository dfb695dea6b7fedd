//! Bounded delivery, and that no running processor is stopped, in runs over packets.
ghost use Rattle.std.specs.Prelude.{◌≡◌, ◌≤◌, ◌<◌, ◌++◌, ℕ, true, false, List, Option, Some, length};
ghost use Rattle.std.specs.Option.{is_some};
ghost use Rattle.packet_words.specs.gd_words.specs.declared.limits.TheConstants.{MOST_PROCESSORS};
ghost use Rattle.tal_tree.specs.declared.site.Site.{Site};
ghost use Rattle.schedule.specs.declared.bus_name.BusName.{BusName};
ghost use Rattle.schedule.specs.declared.event.Event.{Event};
ghost use Rattle.schedule.specs.declared.line.Line.{Line};
ghost use Rattle.player.specs.declared.stop.ProcessorStop.{ProcessorStop};
ghost use Rattle.agendas.specs.Agendas.{Plan};
ghost use Rattle.calm_schedules.specs.Calm.{IsCalm, is_stop};
ghost use Rattle.channel_laws.specs.Way.{IsOutstanding};
ghost use Rattle.link_control.specs.Ends.{End};
ghost use Rattle.world_semantics.specs.World.{is_running};
ghost use Rattle.packet_wires.specs.Nodes.{end_at};
ghost use Rattle.packet_wires.specs.Play.{Packeted};
ghost use Rattle.round_laws.specs.Buses.{IsGrown};
ghost use Rattle.calm_runs.specs.packet_rounds.specs.Pieces.{IsAcknowledged};
ghost use Rattle.calm_runs.specs.packet_rounds.specs.Played.{buses_of};
ghost use Rattle.schedule_loop.specs.Rules.{IsPlayBy};
ghost use Rattle.schedule_loop.specs.declared.ran.Ending.TheVariants.{Lost, Second};
ghost use Rattle.packet_lengths.specs.packet_runs.specs.Ends.{IsRunOf};
ghost use Rattle.packet_lengths.specs.packet_runs.specs.Runs.{packet_rules};
ghost use Rattle.packet_lengths.specs.packet_runs.specs.declared.ran.Ran.{Ran};
ghost use Rattle.bounded_runs.specs.Moments.{AreClear, AreDrainRounds, ComesNext, Moment, delivered_by};

/// What a run has played is a moment of its schedule.
pub fn a_run_is_played_to_a_moment()
    ensures { (site : Site) (lines : List Line) (stop : Option ProcessorStop) (ran : Ran)
        → (run : IsRunOf site lines stop ran) → (moment : Moment site lines stop) × (moment.events ≡ run.events)
        × (moment.state ≡ run.state) }
{}

/// Six whole drain rounds in a row of one line, all clear, end each piece that is outstanding as they begin: as they
/// end, its sender's end has its acknowledgement, and its receiver's end has kept it. Both nodes of the piece still run
/// then. Whatever was played before.
pub fn six_clear_rounds_of_a_run_end_a_piece()
    ensures { (site : Site) → site.processors ≤ MOST_PROCESSORS → (lines : List Line) (stop : Option ProcessorStop)
        (first last : Moment site lines stop) → AreDrainRounds site lines stop 6 first last
        → AreClear site lines stop (length first.events) (length last.events) → (a b n : ℕ)
        → is_running last.state.world.stopped a ≡ true → is_running last.state.world.stopped b ≡ true → (e : End)
        → end_at first.state.wires.nodes a b ≡ Some e → IsOutstanding n e.sending → IsAcknowledged last.state a b n }
{}

/// A whole drain round delivers each packet that is on a bus as it begins, and these first of all, whatever is lost for
/// want of room on the way.
pub fn a_drain_round_of_a_run_delivers_all()
    ensures { (site : Site) (lines : List Line) (stop : Option ProcessorStop) (first last : Moment site lines stop)
        → AreDrainRounds site lines stop 1 first last → (between : List Event)
        → last.events ≡ first.events ++ between → (bus : BusName)
        → IsGrown (buses_of first.state bus) (delivered_by bus first.state between) }
{}

/// In a run of a calm schedule whose drain rounds are all clear, no processor that runs is held: whatever is played but
/// a stop leaves it running. And the run doesn't end before the stop of a second processor.
pub fn a_clear_run_of_a_calm_schedule_stops_nobody()
    ensures held { (site : Site) → site.processors ≤ MOST_PROCESSORS → (lines : List Line) (stop : Option ProcessorStop)
        → IsCalm lines (is_some stop) → (ran : Ran) → (run : IsRunOf site lines stop ran)
        → AreClear site lines stop 0 (length run.events) → (moment : Moment site lines stop)
        → length moment.events < length run.events → (plan : Plan) → ComesNext site lines stop moment plan
        → (next : Packeted) → IsPlayBy packet_rules moment.state plan.event next → is_stop plan.event ≡ false
        → (p : ℕ) → p < site.processors → is_running moment.state.world.stopped p ≡ true
        → is_running next.world.stopped p ≡ true }
    ensures second { (site : Site) → site.processors ≤ MOST_PROCESSORS → (lines : List Line)
        (stop : Option ProcessorStop) → IsCalm lines (is_some stop) → (ran : Ran) → (run : IsRunOf site lines stop ran)
        → AreClear site lines stop 0 (length run.events) → (p : ℕ) → ran.ending ≡ Second p → ⊥ }
    ensures lost { (site : Site) → site.processors ≤ MOST_PROCESSORS → (lines : List Line) (stop : Option ProcessorStop)
        → IsCalm lines (is_some stop) → (ran : Ran) → (run : IsRunOf site lines stop ran)
        → AreClear site lines stop 0 (length run.events) → (p : ℕ) → ran.ending ≡ Lost p → ⊥ }
{}
