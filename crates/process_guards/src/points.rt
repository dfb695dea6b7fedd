ghost use Rattle.std.specs.Prelude.{◌≡◌, pos, negsuc, true, [], ◌∷◌};
ghost use Rattle.tal_tree.specs.declared.statement.What.{ReadUpdate, Reply, WriteRead, Checkpoint, DoUntil, Stop};
ghost use Rattle.tal_tree.specs.declared.expression.Cond.{Truth};
ghost use Rattle.tal_tree.specs.declared.expression.Variable.TheVariants.{Simple};
ghost use Rattle.process_semantics.specs.declared.point.Point.TheVariants.{Inner, Take, Ask, Await, Answer};
ghost use Rattle.process_semantics.specs.declared.point.Point.TheVariants.{AtCheckpoint, Ended};
ghost use Rattle.process_semantics.specs.Points.{point_of};
ghost use Rattle.process_guards.specs.States.{code, word, at_statement, in_hand, over};

/// A count is from 0 to 16, and no more than its array has words; any other traps, in an inner step.
pub fn a_count_is_within_bounds()
    ensures sixteen { point_of code (at_statement (ReadUpdate 1 (word (pos 16)) (Simple 0))) ≡ Take }
    ensures none { point_of code (at_statement (ReadUpdate 1 (word (pos 0)) (Simple 0))) ≡ Take }
    ensures seventeen { point_of code (at_statement (ReadUpdate 1 (word (pos 17)) (Simple 0))) ≡ Inner }
    ensures below { point_of code (at_statement (ReadUpdate 1 (word (negsuc 0)) (Simple 0))) ≡ Inner }
    ensures past_the_array { point_of code (at_statement (ReadUpdate 0 (word (pos 2)) (Simple 0))) ≡ Inner }
{}

/// READUPDATE traps with a request in hand, REPLY with none.
pub fn a_request_is_taken_and_answered_in_turn()
    ensures second_take { point_of code (in_hand (at_statement (ReadUpdate 1 (word (pos 1)) (Simple 0)))) ≡ Inner }
    ensures answer { point_of code (in_hand (at_statement (Reply 1 (word (pos 16))))) ≡ Answer }
    ensures answer_of_none { point_of code (at_statement (Reply 1 (word (pos 1)))) ≡ Inner }
{}

/// WRITEREAD asks where both its counts are good, and awaits its reply once it has asked.
pub fn an_ask_is_awaited()
    ensures asked { point_of code (at_statement (WriteRead 0 1 (word (pos 1)) (word (pos 16)) (Simple 0))) ≡ Ask }
    ensures awaited { point_of code (record (at_statement (WriteRead 0 1 (word (pos 1)) (word (pos 16)) (Simple 0)))
        { awaits = true }) ≡ Await }
    ensures too_many_there { point_of code (at_statement (WriteRead 0 1 (word (pos 17)) (word (pos 1)) (Simple 0)))
        ≡ Inner }
    ensures too_many_back { point_of code (at_statement (WriteRead 0 1 (word (pos 1)) (word (pos 17)) (Simple 0)))
        ≡ Inner }
{}

/// CHECKPOINT stands at the point of checkpoints, a DO's test at that of inner steps, and an ended process at its own.
pub fn a_checkpoint_is_a_point()
    ensures checkpoint { point_of code (at_statement (Checkpoint [] [])) ≡ AtCheckpoint }
    ensures ended { point_of code (over (pos 1)) ≡ Ended }
    ensures stop { point_of code (at_statement Stop) ≡ Inner }
    ensures until { point_of code (at_statement (DoUntil [] (Truth (word (pos 1))))) ≡ Inner }
{}
