//! Laws of how many events a schedule asks for over packets.
ghost use Rattle.std.specs.Prelude.{◌≤◌, ◌<◌, List, Option, length};
ghost use Rattle.packet_words.specs.gd_words.specs.declared.limits.TheConstants.{MOST_PACKETS};
ghost use Rattle.tal_tree.specs.declared.site.Site.{Site};
ghost use Rattle.schedule.specs.declared.event.Event.{Event};
ghost use Rattle.schedule.specs.declared.line.Line.{Line};
ghost use Rattle.player.specs.declared.stop.ProcessorStop.{ProcessorStop};
ghost use Rattle.agendas.specs.Agendas.{Agenda};
ghost use Rattle.plain_semantics.specs.SiteLimits.{KeepsSiteLimits};
ghost use Rattle.packet_numbers.specs.accepted_sites.specs.Premises.{IsAcceptedSite};
ghost use Rattle.packet_numbers.specs.awaited_requests.specs.Seats.{IsLaidOut};
ghost use Rattle.schedule.specs.declared.bus_name.BusName.{BusName};
ghost use Rattle.packet_numbers.specs.packet_wires.specs.Play.{Packeted, count_on};
ghost use Rattle.packet_numbers.specs.packet_wires.specs.Runs.{IsPlayed};
ghost use Rattle.line_lengths.specs.schedule_loop.specs.Ends.{CanBePlayed, Plays};
ghost use Rattle.packet_runs.specs.site_machine.specs.Needs.{IsReady};
ghost use Rattle.packet_runs.specs.Runs.{course_on, packet_rules};
ghost use Rattle.deck_reader.specs.Limits.{IsWithinDeckLimits};
ghost use Rattle.deck_reader.specs.declared.deck.Deck.{Deck};
ghost use Rattle.packet_lengths.specs.Lengths.{AsksForFewEvents, most_events};

/// No bus holds more packets than it has room for.
pub fn a_bus_has_room_for_its_packets()
    ensures { (site : Site) (events : List Event) (s : Packeted) (bus : BusName) → IsPlayed site events s
        → count_on s bus ≤ MOST_PACKETS }
{}

/// However a schedule is played, on whatever site, it asks for no more events than its lines, their rounds and its stop
/// have at most.
pub fn a_schedule_asks_for_so_many_events()
    ensures { (site : Site) (lines : List Line) (stop : Option ProcessorStop) (events : List Event) (agenda : Agenda)
        (s : Packeted) → Plays packet_rules (course_on site lines stop) events agenda s
        → length events ≤ most_events site lines stop }
{}

/// The schedule of a deck asks for few events: at most 16,465 in each of 100,000 rounds, 1,000,000 single ones, and the
/// stop.
pub fn a_schedule_asks_for_few_events()
    ensures most { (deck : Deck) (stop : Option ProcessorStop) → IsWithinDeckLimits deck
        → most_events deck.site deck.lines stop ≤ 1647500001 }
    ensures few { (deck : Deck) (stop : Option ProcessorStop) → IsWithinDeckLimits deck
        → AsksForFewEvents deck.site deck.lines stop }
{}

/// Let each pair of a site run a program that was read and is accepted, and let the site keep the limits and have its
/// processes laid out over its processors. Then a schedule that asks for few events can be played: each state that it
/// reaches is ready for the next event.
pub fn an_accepted_site_can_be_played()
    ensures { (site : Site) (lines : List Line) (stop : Option ProcessorStop) → IsAcceptedSite site
        → KeepsSiteLimits site → IsLaidOut site → AsksForFewEvents site lines stop
        → CanBePlayed packet_rules IsReady (course_on site lines stop) }
{}
