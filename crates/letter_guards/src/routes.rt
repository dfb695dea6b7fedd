ghost use Rattle.std.specs.Prelude.{◌≡◌, [], ◌∷◌, Some, None};
ghost use Rattle.world_semantics.specs.Messages.{Asking, Replying, Checkpointing, Taking, sent_at};
ghost use Rattle.world_semantics.specs.Passes.{taken_of};
ghost use Rattle.world_semantics.specs.World.{terminal_node};
ghost use Rattle.letters.specs.Routes.{route_to, receiver_of, letters_of};
ghost use Rattle.letter_guards.specs.Worlds.{site, world, marked_by, bank_asks, user_is_told, terminal_is_told};
ghost use Rattle.letter_guards.specs.Worlds.{checkpoint, led_by_second, letter};

/// A node sends to the copy of a process that leads, at first the first one, and once it has marked that one's
/// processor to the other one; other nodes still send to the one that leads.
pub fn routes_change_where_marks_are_made()
    ensures before { route_to world 0 0 ≡ Some 2 }
    ensures after { route_to (marked_by 0 world) 0 0 ≡ Some 3 }
    ensures other_node { route_to (marked_by 0 world) 1 0 ≡ Some 2 }
    ensures other_process { route_to (marked_by 0 world) 0 1 ≡ Some 0 }
    ensures missing { route_to world 0 3 ≡ None }
    ensures second { route_to (led_by_second 0 []) 0 0 ≡ Some 3 }
    ensures other_marked { route_to (led_by_second 0 (2 ∷ [])) 0 0 ≡ Some 3 }
    ensures led_marked { route_to (led_by_second 0 (3 ∷ [])) 0 0 ≡ Some 2 }
{}

/// Requests and replies to files go by the routes, replies to terminals to their node, and what is between two copies
/// to the other one.
pub fn messages_have_their_receivers()
    ensures request { receiver_of site world 0 bank_asks ≡ Some 2 }
    ensures rerouted { receiver_of site (marked_by 0 world) 0 bank_asks ≡ Some 3 }
    ensures reply { receiver_of site world 0 user_is_told ≡ Some 2 }
    ensures moved { receiver_of site (marked_by 0 world) 0 user_is_told ≡ Some 3 }
    ensures terminal { receiver_of site world 0 terminal_is_told ≡ Some terminal_node }
    ensures terminal_stays { receiver_of site (marked_by 0 world) 0 terminal_is_told ≡ Some terminal_node }
    ensures nobody { receiver_of site world 0 (Replying (record { process = 1; opener = 2; number = 1; words = [] }))
        ≡ None }
    ensures checkpoint { receiver_of site world 0 (Checkpointing checkpoint) ≡ Some 1 }
    ensures taken { receiver_of site world 1 (Taking (taken_of checkpoint)) ≡ Some 0 }
{}

/// What is sent becomes letters in order, and a message to nobody none.
pub fn sendings_become_letters()
    ensures both { letters_of site world (sent_at 0
        (bank_asks ∷ Asking (record { process = 3; opener = 0; number = 1; words = [] }) ∷ user_is_told ∷ []))
        ≡ letter 0 2 bank_asks ∷ letter 0 2 user_is_told ∷ [] }
{}
