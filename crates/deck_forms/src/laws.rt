//! The law.
ghost use Rattle.std.specs.Prelude.{ℕ, List};
ghost use Rattle.deck_reader.specs.Decks.{Decks};
ghost use Rattle.deck_reader.specs.declared.deck.Deck.{Deck};
ghost use Rattle.shown_forms.specs.Sites.{IsTellable};

/// A report can tell what the processes of a deck show.
pub fn a_deck_is_tellable()
    ensures { (bytes : List ℕ) (deck : Deck) → Decks bytes deck → IsTellable deck.site }
{}
