//! The law.
ghost use Rattle.std.specs.Prelude.{ℕ, List};
ghost use Rattle.deck_reader.specs.Decks.{Decks};
ghost use Rattle.deck_reader.specs.declared.deck.Deck.{Deck};
ghost use Rattle.told_reports.specs.NamesApart.{TellsNamesApart};

/// The names of a deck tell its processes, its terminals and the openers of each process apart.
pub fn names_of_a_deck_tell_apart()
    ensures { (bytes : List ℕ) (deck : Deck) → Decks bytes deck → TellsNamesApart deck.site }
{}
