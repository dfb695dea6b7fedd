ghost use Rattle.std.specs.Prelude.{◌≡◌, ℕ, List, slice_get, Some};
ghost use Rattle.std.specs.List.{All};
ghost use Rattle.deck_reader.specs.Decks.{Decks};
ghost use Rattle.deck_reader.specs.Limits.{HasShortRequests, IsWithinDeckLimits};
ghost use Rattle.deck_reader.specs.Refusals.{IsRefusalOf};
ghost use Rattle.deck_reader.specs.declared.deck.Deck.{Deck};
ghost use Rattle.tal_laws.specs.tal_reader.specs.Reads.{Reads};
ghost use Rattle.tal_tree.specs.declared.fault.DeckFault.{DeckFault};
ghost use Rattle.tal_tree.specs.declared.program.Program.{Program};
ghost use Rattle.tal_tree.specs.declared.site.Kind.TheVariants.{Pair};
ghost use Rattle.tal_tree.specs.declared.site.ProcessSpec.{ProcessSpec};

/// Bytes spell one deck at most.
pub fn bytes_spell_one_deck()
    ensures { (bytes : List ℕ) (a b : Deck) → Decks bytes a → Decks bytes b → a ≡ b }
{}

/// Bytes are refused for one fault at most.
pub fn bytes_are_refused_for_one_fault()
    ensures { (bytes : List ℕ) (a b : DeckFault) → IsRefusalOf bytes a → IsRefusalOf bytes b → a ≡ b }
{}

/// Bytes that are refused spell no deck.
pub fn what_is_refused_spells_no_deck()
    ensures { (bytes : List ℕ) (fault : DeckFault) (deck : Deck) → IsRefusalOf bytes fault → Decks bytes deck → ⊥ }
{}

/// A deck keeps the limits.
pub fn a_deck_keeps_the_limits()
    ensures { (bytes : List ℕ) (deck : Deck) → Decks bytes deck → IsWithinDeckLimits deck }
{}

/// No request of a deck's terminals has more than 16 words.
pub fn requests_of_a_deck_are_short()
    ensures { (bytes : List ℕ) (deck : Deck) → Decks bytes deck → All HasShortRequests deck.site.terminals }
{}

/// The program of each pair of a deck is what some text reads as.
pub fn a_deck_reads_its_programs()
    ensures { (bytes : List ℕ) (deck : Deck) (number : ℕ) (spec : ProcessSpec) (program : Program) → Decks bytes deck
        → slice_get deck.site.processes number ≡ Some spec → spec.what ≡ Pair program
        → (text : List ℕ) × Reads text program }
{}
