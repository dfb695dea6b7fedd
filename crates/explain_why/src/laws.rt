ghost use Rattle.std.specs.Prelude.{◌≡◌, false, ℕ, List};
ghost use Rattle.deck_reader.specs.Decks.{Decks};
ghost use Rattle.deck_reader.specs.declared.deck.Deck.{Deck};
ghost use Rattle.tal_tree.specs.declared.site.ProcessSpec.{ProcessSpec};
ghost use Rattle.finding_text.specs.verdicts.specs.Judgeable.{AreJudgeable};
ghost use Rattle.finding_text.specs.verdicts.specs.Refused.{AreAccepted};
ghost use Rattle.explain_why.specs.Judged.{IsJudgedDeck};
ghost use Rattle.explain_why.specs.declared.judged.JudgedDeck.{JudgedDeck};

use deck_reader::a_deck_reads_its_programs;

/// The programs of a deck that bytes spell can be judged.
pub fn programs_of_a_deck_can_be_judged()
    ensures { (bytes : List ℕ) (deck : Deck) → Decks bytes deck → AreJudgeable deck.site.processes }
{
    a_deck_reads_its_programs();
}

/// Where no program is told to be refused, all are accepted.
pub fn unrefused_programs_are_accepted()
    ensures { (bytes : List ℕ) (specs : List ProcessSpec) (judged : JudgedDeck) → IsJudgedDeck bytes specs judged
        → judged.refused ≡ false → AreAccepted specs }
{}
