ghost use Rattle.std.specs.Prelude.{ℕ, ◌≤◌};
ghost use Rattle.load_deck.specs.LoadText.{load_text};
ghost use Rattle.deck_reader.specs.Decks.{Decks};
ghost use Rattle.verdicts.specs.Refused.{AreAccepted};
ghost use Rattle.load_laws.specs.LoadDeck.{load_deck};

/// The text of the load deck in which each terminal has at most 200 requests spells that deck, and the programs of its
/// banks are accepted.
pub fn the_load_text_is_a_deck()
    ensures deck { (count : ℕ) → count ≤ 200 → Decks (load_text count) (load_deck count) }
    ensures accepted { (count : ℕ) → AreAccepted (load_deck count).site.processes }
{}
