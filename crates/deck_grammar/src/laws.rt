ghost use Rattle.std.specs.Prelude.{◌≡◌, ◌↔◌, ℕ, List};
ghost use Rattle.deck_reader.specs.Decks.{Decks};
ghost use Rattle.deck_reader.specs.declared.deck.Deck.{Deck};
ghost use Rattle.deck_grammar.specs.Spells.{Spells};

/// The grammar spells a deck exactly where the reader takes the bytes for it.
pub fn the_grammar_spells_the_decks()
    ensures { (bytes : List ℕ) (deck : Deck) → Spells bytes deck ↔ Decks bytes deck }
{}

/// The grammar spells one deck at most.
pub fn the_grammar_spells_one_deck()
    ensures { (bytes : List ℕ) (a b : Deck) → Spells bytes a → Spells bytes b → a ≡ b }
{}
