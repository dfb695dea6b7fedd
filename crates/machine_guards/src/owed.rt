ghost use Rattle.std.specs.Prelude.{◌≡◌, ◌∷◌, [], pos, replicate};
ghost use Rattle.schedule.specs.declared.bus_name.BusName.TheVariants as bus;
ghost use Rattle.schedule.specs.declared.event.Event.TheVariants.{Deliver, Enter, Fail, Lose, Repeat, Run, Tick};
ghost use Rattle.tal_tree.specs.declared.site.Site.{Site};
ghost use Rattle.machine_states.specs.States.{Skips};
ghost use Rattle.letters.specs.Routes.{Letter};
ghost use Rattle.world_semantics.specs.Examples.{adder_for};
ghost use Rattle.world_semantics.specs.Messages.{Asking, Message};
ghost use Rattle.message_wires.specs.Examples.{end_of};
ghost use Rattle.message_wires.specs.Play.{play, machine_at_boot};
ghost use Rattle.message_wires.specs.Wires.{wires_after_posts, paid, paid_between};
ghost use Rattle.machine_guards.specs.States.{between, discs_at_boot, owing, sent_to};

/// At the beginning nothing was sent. What is sent is numbered from 0 in its order, on the bus and among what is owed.
pub fn what_is_sent_is_numbered()
    ensures boot { (site : Site) → (machine_at_boot site).wires
        ≡ record { count = 0; bus = []; owed = []; before = replicate site.processors 0 } }
    ensures posted { (one other : Letter) → wires_after_posts (one ∷ other ∷ [])
        (record { count = 0; bus = []; owed = []; before = [] }) ≡ record {
          count = 2;
          bus = record { number = 0; letter = one } ∷ record { number = 1; letter = other } ∷ [];
          owed = record { number = 0; letter = one } ∷ record { number = 1; letter = other } ∷ [];
          before = [];
        } }
{}

/// What is handed over is owed no more, by its number; and at a mark what is between the node and the processor, in
/// both directions.
pub fn what_is_paid_is_owed_no_more()
    ensures paid { (message : Message) → paid 5
        (owing (sent_to 0 4 message ∷ sent_to 0 5 message ∷ sent_to 0 6 message ∷ []))
        ≡ owing (sent_to 0 4 message ∷ sent_to 0 6 message ∷ []) }
    ensures unpaid { (message : Message) → paid 7 (owing (sent_to 0 4 message ∷ sent_to 0 5 message ∷ []))
        ≡ owing (sent_to 0 4 message ∷ sent_to 0 5 message ∷ []) }
    ensures between { (message : Message) → paid_between 1 2
        (owing (between 1 2 message ∷ between 1 3 message ∷ between 2 1 message ∷ between 3 2 message
        ∷ between 1 1 message ∷ []))
        ≡ owing (between 1 3 message ∷ between 3 2 message ∷ between 1 1 message ∷ []) }
{}

/// The tick of a node marks the processor that has stopped, be it the first, one between or the last.
pub fn a_tick_marks_what_stopped()
    ensures first { (end_of discs_at_boot (Fail 0 ∷ Tick 16 ∷ [])).world.downs ≡ record { node = 16; down = 0 } ∷ [] }
    ensures second { (end_of discs_at_boot (Fail 1 ∷ Tick 0 ∷ [])).world.downs ≡ record { node = 0; down = 1 } ∷ [] }
    ensures last { (end_of discs_at_boot (Fail 2 ∷ Tick 1 ∷ [])).world.downs ≡ record { node = 1; down = 2 } ∷ [] }
    ensures once { (end_of discs_at_boot (Fail 2 ∷ Tick 1 ∷ Tick 1 ∷ [])).world.downs
        ≡ record { node = 1; down = 2 } ∷ [] }
{}

/// An event is skipped that can't be: a run with nothing to do, an entry of a terminal that awaits a reply, and what
/// isn't there, a packet too.
pub fn what_can_not_be_is_skipped()
    ensures run { play discs_at_boot (Run 0) ≡ Skips }
    ensures enter { play (end_of discs_at_boot (Enter 0 ∷ [])) (Enter 0) ≡ Skips }
    ensures deliver { play discs_at_boot (Deliver bus.X 0) ≡ Skips }
    ensures repeat { play discs_at_boot (Repeat bus.X 0) ≡ Skips }
    ensures no_process { play discs_at_boot (Run 2) ≡ Skips }
    ensures no_terminal { play discs_at_boot (Enter 2) ≡ Skips }
    ensures no_processor { play discs_at_boot (Fail 3) ≡ Skips }
    ensures no_node { play discs_at_boot (Tick 3) ≡ Skips }
    ensures stopped { play (end_of discs_at_boot (Fail 1 ∷ [])) (Fail 1) ≡ Skips }
{}

/// Where both terminals await a process whose processor stopped, the node of the terminals asks its other copy for
/// both, in the order of the deck.
pub fn a_mark_asks_in_deck_order()
    ensures { (end_of (machine_at_boot (adder_for (pos 5 ∷ pos 7 ∷ [])))
        (Enter 0 ∷ Enter 1 ∷ Lose bus.X 0 ∷ Lose bus.X 0 ∷ Fail 0 ∷ Tick 16 ∷ [])).wires.bus
        ≡ record {
          number = 2;
          letter = record {
            sender = 16;
            receiver = 1;
            message = Asking (record { process = 0; opener = 0; number = 1; words = pos 5 ∷ [] });
          };
        }
        ∷ record {
          number = 3;
          letter = record {
            sender = 16;
            receiver = 1;
            message = Asking
                (record { process = 0; opener = 1; number = 1; words = pos 7 ∷ [] });
          };
        }
        ∷ [] }
{}
