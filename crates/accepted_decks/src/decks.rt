//! What a deck whose programs are accepted is.
ghost use Rattle.std.specs.Prelude.{ℕ, List, Option};
ghost use Rattle.packet_lengths.specs.deck_reader.specs.Decks.{Decks};
ghost use Rattle.packet_lengths.specs.deck_reader.specs.declared.deck.Deck.{Deck};
ghost use Rattle.verdicts.specs.Judgeable.{AreJudgeable};
ghost use Rattle.verdicts.specs.Refused.{AreAccepted};
ghost use Rattle.packet_lengths.specs.awaited_requests.specs.Seats.{IsLaidOut};
ghost use Rattle.packet_lengths.specs.accepted_sites.specs.Premises.{IsAcceptedSite};
ghost use Rattle.player.specs.declared.stop.ProcessorStop.{ProcessorStop};
ghost use Rattle.packet_lengths.specs.process_copies.specs.Starting.{IsStartable};
ghost use Rattle.packet_lengths.specs.packet_runs.specs.Runs.{course_on, packet_rules};
ghost use Rattle.plain_semantics.specs.SiteLimits.{KeepsSiteLimits};
ghost use Rattle.packet_lengths.specs.schedule_loop.specs.Ends.{CanBePlayed};
ghost use Rattle.packet_lengths.specs.site_machine.specs.Needs.{IsReady};

use packet_lengths::{
    a_deck_keeps_the_limits, a_deck_reads_its_programs, a_schedule_asks_for_few_events,
    an_accepted_site_can_be_played, requests_of_a_deck_are_short,
};

/// The programs of a deck that bytes spell can be judged, the machine of copies starts on its site, which keeps the
/// limits, and its processes are laid out over its processors. Where all its programs are accepted, its site is an
/// accepted one, and its schedule can be played with any stop.
pub fn an_accepted_deck_meets_the_premises()
    ensures judgeable { (bytes : List ℕ) (deck : Deck) → Decks bytes deck → AreJudgeable deck.site.processes }
    ensures startable { (bytes : List ℕ) (deck : Deck) → Decks bytes deck → IsStartable deck.site }
    ensures laid_out { (bytes : List ℕ) (deck : Deck) → Decks bytes deck → IsLaidOut deck.site }
    ensures limits { (bytes : List ℕ) (deck : Deck) → Decks bytes deck → KeepsSiteLimits deck.site }
    ensures accepted { (bytes : List ℕ) (deck : Deck) → Decks bytes deck → AreAccepted deck.site.processes
        → IsAcceptedSite deck.site }
    ensures can { (bytes : List ℕ) (deck : Deck) (stop : Option ProcessorStop) → Decks bytes deck
        → AreAccepted deck.site.processes
        → CanBePlayed packet_rules IsReady (course_on deck.site deck.lines stop) }
{
    a_deck_keeps_the_limits();
    a_deck_reads_its_programs();
    requests_of_a_deck_are_short();
    a_schedule_asks_for_few_events();
    an_accepted_site_can_be_played();
}
