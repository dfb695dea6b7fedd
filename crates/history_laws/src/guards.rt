//! What the present of a world and of a state has.
ghost use Rattle.std.specs.Prelude.{◌≡◌, [], ◌∷◌};
ghost use Rattle.checkpoint_image.specs.declared.message.ImageMessage.{ImageMessage};
ghost use Rattle.schedule_loop.specs.world_semantics.specs.World.{Pair, World};
ghost use Rattle.schedule_loop.specs.machine_states.specs.States.{Harm, Makes, Skips, Would};
ghost use Rattle.packet_runs.specs.packet_wires.specs.Play.{Packeted};
ghost use Rattle.packet_runs.specs.packet_wires.specs.Wires.{Wires};
ghost use Rattle.history_laws.specs.Present.{present, present_played, present_state};

/// The present of a world has of each process its copies, its base, its sectors, the copy that leads and its last two
/// checkpoints, and all else of the world but the requests and replies that were sent. That of a state has its site,
/// its wires and its drives too. Of what an event makes it is that of the state; that none is made, and for which harm,
/// stays as it is.
pub fn the_present_has_all_but_what_was_sent()
    ensures world { (w : World) (pair other : Pair) (newest before oldest only : ImageMessage)
        → present (record w {
          processes =
              record pair { checkpoints = newest ∷ before ∷ oldest ∷ [] } ∷ record other { checkpoints = only ∷ [] }
              ∷ [];
        })
        ≡ record w {
          requests = [];
          replies = [];
          processes =
              record pair { checkpoints = newest ∷ before ∷ []; takens = [] }
              ∷ record other { checkpoints = only ∷ []; takens = [] } ∷ [];
        } }
    ensures state { (s : Packeted) → present_state s ≡ record s { world = present s.world } }
    ensures made { (s : Packeted) → present_played (Makes s) ≡ Makes (present_state s) }
    ensures skipped { present_played {Wires = Wires} Skips ≡ Skips }
    ensures harm { (harm : Harm) → present_played {Wires = Wires} (Would harm) ≡ Would harm }
{}
