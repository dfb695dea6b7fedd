ghost use Rattle.std.specs.Prelude.{◌≡◌, pos, true, false, [], ◌∷◌};
ghost use Rattle.message_layout.specs.Layout.{words_of};
ghost use Rattle.message_words.specs.Seen.{message_of};
ghost use Rattle.message_words.specs.declared.message.NodeMessage.TheVariants as message;
ghost use Rattle.node_guards.specs.Watches.{only};

/// A message of the code has the words of the message that it is.
pub fn messages_of_the_code_have_these_words()
    ensures request { words_of (message_of (message.Asking
        (record { process = 1; opener = 2; number = 3; words = pos 4 ∷ [] })))
        ≡ pos 1 ∷ pos 1 ∷ pos 2 ∷ pos 0 ∷ pos 3 ∷ pos 1 ∷ pos 4 ∷ [] }
    ensures reply { words_of (message_of (message.Replying
        (record { process = 1; opener = 2; number = 3; words = [] })))
        ≡ pos 2 ∷ pos 1 ∷ pos 2 ∷ pos 0 ∷ pos 3 ∷ pos 0 ∷ [] }
    ensures taken { words_of (message_of (message.Taking (record { process = 1; era = 65536; number = 2 })))
        ≡ pos 4 ∷ pos 1 ∷ pos 1 ∷ pos 0 ∷ pos 0 ∷ pos 2 ∷ [] }
    ensures report { words_of (message_of (message.Reporting 2 (only true false true))) ≡ pos 5 ∷ pos 2 ∷ pos 5 ∷ [] }
    ensures down { words_of (message_of (message.Declaring 3)) ≡ pos 6 ∷ pos 3 ∷ [] }
{}
