ghost use Rattle.std.specs.Prelude.{◌≡◌, ◌∷◌, [], ℕ, true, false};
ghost use Rattle.schedule.specs.declared.bus_name.BusName.TheVariants as bus;
ghost use Rattle.schedule.specs.declared.event.Event.TheVariants.{Deliver, Enter, Fail};
ghost use Rattle.world_semantics.specs.declared.role.Role.TheVariants.{Acting, Blank, Gone, Watching};
ghost use Rattle.world_semantics.specs.Messages.{Message};
ghost use Rattle.world_semantics.specs.World.{Pair, World};
ghost use Rattle.message_wires.specs.Examples.{end_of};
ghost use Rattle.message_wires.specs.Idle.{all_marked, has_marked_all, is_idle, none_enters, none_owed, none_runs};
ghost use Rattle.message_wires.specs.Idle.{none_awaits_taking};
ghost use Rattle.machine_guards.specs.States.{awaiting_taking, between, discs_at_boot, marking, nothing_owed, standing};

/// A terminal can enter that has a request left and awaits no reply, whichever it is; and a process can run to which a
/// request came.
pub fn who_can_go_on_is_told()
    ensures both_enter { none_enters discs_at_boot.site discs_at_boot.world ≡ false }
    ensures first_enters { none_enters discs_at_boot.site (end_of discs_at_boot (Enter 1 ∷ [])).world ≡ false }
    ensures second_enters { none_enters discs_at_boot.site (end_of discs_at_boot (Enter 0 ∷ [])).world ≡ false }
    ensures none_enters { none_enters discs_at_boot.site (end_of discs_at_boot (Enter 0 ∷ Enter 1 ∷ [])).world ≡ true }
    ensures none_runs { none_runs discs_at_boot.site (end_of discs_at_boot (Enter 0 ∷ Enter 1 ∷ [])).world ≡ true }
    ensures first_runs { none_runs discs_at_boot.site
        (end_of discs_at_boot (Enter 0 ∷ Enter 1 ∷ Deliver bus.X 0 ∷ [])).world ≡ false }
    ensures second_runs { none_runs discs_at_boot.site
        (end_of discs_at_boot (Enter 0 ∷ Enter 1 ∷ Deliver bus.X 1 ∷ [])).world ≡ false }
{}

/// A copy waits for what it has sent to be taken that acts, whichever of the two and of whichever process it is.
pub fn who_awaits_taking_is_told()
    ensures first { (pair other : Pair) → none_awaits_taking
        (standing Acting true Watching false pair ∷ other ∷ []) ≡ false }
    ensures second { (pair other : Pair) → none_awaits_taking
        (standing Gone true Acting true pair ∷ other ∷ []) ≡ false }
    ensures later { (pair : Pair) → none_awaits_taking
        (standing Acting false Watching true pair ∷ standing Acting true Watching true pair ∷ []) ≡ false }
    ensures none { (pair : Pair) → none_awaits_taking
        (standing Acting false Watching true pair ∷ standing Gone true Acting false pair ∷ []) ≡ true }
    ensures blank { (pair : Pair) → none_awaits_taking (standing Blank true Acting false pair ∷ []) ≡ true }
{}

/// What is owed counts between nodes that run: not to or from a processor that has stopped, and to a node from itself.
pub fn what_is_owed_counts_between_nodes_that_run()
    ensures owed { (message : Message) → none_owed (false ∷ true ∷ [])
        (between 0 1 message ∷ between 16 0 message ∷ []) ≡ false }
    ensures to_itself { (message : Message) → none_owed (false ∷ true ∷ []) (between 0 0 message ∷ []) ≡ false }
    ensures to_stopped { (message : Message) → none_owed (false ∷ true ∷ []) (between 0 1 message ∷ []) ≡ true }
    ensures from_stopped { (message : Message) → none_owed (false ∷ true ∷ []) (between 1 16 message ∷ []) ≡ true }
{}

/// Each node that runs has to mark each processor that has stopped: the first, the last and the node of the terminals
/// too.
pub fn who_has_not_marked_is_told()
    ensures unmarked { (w : World) → has_marked_all (marking (false ∷ true ∷ false ∷ []) [] w) 0 ≡ false }
    ensures lowest { (w : World) → has_marked_all (marking (true ∷ false ∷ false ∷ []) [] w) 1 ≡ false }
    ensures marked { (w : World) → has_marked_all (marking (false ∷ true ∷ false ∷ []) (0 ∷ []) w) 0 ≡ true }
    ensures stopped { (w : World) → has_marked_all (marking (false ∷ true ∷ false ∷ []) [] w) 1 ≡ true }
    ensures all { (w : World) → all_marked (marking (false ∷ true ∷ false ∷ []) (0 ∷ 2 ∷ 16 ∷ []) w) ≡ true }
    ensures not_the_first { (w : World) → all_marked (marking (false ∷ true ∷ false ∷ []) (2 ∷ 16 ∷ []) w) ≡ false }
    ensures not_the_last { (w : World) → all_marked (marking (false ∷ true ∷ false ∷ []) (0 ∷ 16 ∷ []) w) ≡ false }
    ensures not_the_terminals { (w : World) → all_marked (marking (false ∷ true ∷ false ∷ []) (0 ∷ 2 ∷ []) w) ≡ false }
{}

/// A state is idle where none of the five is left: an entry, a run, a wait at a checkpoint, a letter that is owed, and
/// a mark.
pub fn a_state_is_idle_where_nothing_is_left()
    ensures idle { is_idle (nothing_owed (end_of discs_at_boot (Enter 0 ∷ Enter 1 ∷ []))) ≡ true }
    ensures entry { is_idle discs_at_boot ≡ false }
    ensures run { is_idle (nothing_owed (end_of discs_at_boot (Enter 0 ∷ Enter 1 ∷ Deliver bus.X 0 ∷ []))) ≡ false }
    ensures wait { is_idle (awaiting_taking (nothing_owed (end_of discs_at_boot (Enter 0 ∷ Enter 1 ∷ [])))) ≡ false }
    ensures owed { is_idle (end_of discs_at_boot (Enter 0 ∷ Enter 1 ∷ [])) ≡ false }
    ensures mark { is_idle (nothing_owed (end_of discs_at_boot (Enter 0 ∷ Enter 1 ∷ Fail 0 ∷ []))) ≡ false }
{}
