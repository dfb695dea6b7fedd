ghost use Rattle.std.specs.Prelude.{◌≤◌, ◌<◌, List, Option, length};
ghost use Rattle.tal_tree.specs.gd_words.specs.declared.limits.TheConstants.{MOST_PACKETS};
ghost use Rattle.tal_tree.specs.declared.site.Site.{Site};
ghost use Rattle.schedule.specs.declared.event.Event.{Event};
ghost use Rattle.schedule.specs.declared.line.Line.{Line};
ghost use Rattle.player.specs.declared.stop.ProcessorStop.{ProcessorStop};
ghost use Rattle.schedule_runs.specs.message_wires.specs.Play.{MachineState};
ghost use Rattle.schedule_runs.specs.message_wires.specs.Runs.{IsPlayed};
ghost use Rattle.schedule_runs.specs.Rules.{pair_rules};
ghost use Rattle.schedule_runs.specs.Runs.{Agenda, course_on};
ghost use Rattle.schedule_runs.specs.schedule_loop.specs.Ends.{Plays};
ghost use Rattle.deck_reader.specs.Limits.{IsWithinDeckLimits};
ghost use Rattle.deck_reader.specs.declared.deck.Deck.{Deck};
ghost use Rattle.schedule_runs.specs.Lengths.{AsksForFewEvents, most_events};

/// No more packets are on the bus than it has room for.
pub fn a_bus_has_room_for_its_packets()
    ensures { (site : Site) (events : List Event) (s : MachineState) → IsPlayed site events s
        → length s.wires.bus ≤ MOST_PACKETS }
{}

/// However a schedule is played, on whatever site, it asks for no more events than its lines, their rounds and its stop
/// have at most.
pub fn a_schedule_asks_for_so_many_events()
    ensures { (site : Site) (lines : List Line) (stop : Option ProcessorStop) (events : List Event) (agenda : Agenda)
        (s : MachineState)
        → Plays pair_rules (course_on site lines stop) events agenda s → length events ≤ most_events site lines stop }
{}

/// The schedule of a deck asks for few events: at most 8,273 in each of 100,000 rounds, 1,000,000 single ones, and the
/// stop.
pub fn a_schedule_asks_for_few_events()
    ensures most { (deck : Deck) (stop : Option ProcessorStop) (events : List Event) (agenda : Agenda)
        (s : MachineState) → IsWithinDeckLimits deck
        → Plays pair_rules (course_on deck.site deck.lines stop) events agenda s → length events ≤ 828300001 }
    ensures few { (deck : Deck) (stop : Option ProcessorStop) (events : List Event) (agenda : Agenda)
        (s : MachineState) → IsWithinDeckLimits deck
        → Plays pair_rules (course_on deck.site deck.lines stop) events agenda s → length events < 4294967294 }
    ensures asks { (deck : Deck) (stop : Option ProcessorStop) → IsWithinDeckLimits deck
        → AsksForFewEvents deck.site deck.lines stop }
{}
