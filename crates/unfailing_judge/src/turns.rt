//! Which acts one process or one terminal does.
ghost use Rattle.std.specs.Prelude.{◌≡◌};
ghost use Rattle.std.specs.List.{list_any};
ghost use Rattle.unfailing_judge.specs.Turns.{is_of_process, is_of_terminal, is_same_actor};

use tal_tree::Act;

/// Whether one of these acts is of the process or terminal that does an act.
pub(crate) fn has_actor(acts: &[Act], act: Act) -> bool
    ensures { result ≡ list_any (is_same_actor act) acts.now }
{
    acts.iter().any(|other| is_same_actor(act, *other))
}

/// Whether one process or one terminal does both acts.
fn is_same_actor(act: Act, other: Act) -> bool
    ensures { result ≡ is_same_actor act other }
{
    match act {
        Act::Step(number) => is_of_process(number, other),
        Act::Take { process, .. } => is_of_process(process, other),
        Act::Enter(terminal) => is_of_terminal(terminal, other),
        Act::Print(terminal) => is_of_terminal(terminal, other),
    }
}

fn is_of_process(process: u8, act: Act) -> bool
    ensures { result ≡ is_of_process process act }
{
    match act {
        Act::Step(number) => number == process,
        Act::Take {
            process: number,
            ..
        } => number == process,
        Act::Enter(_) => false,
        Act::Print(_) => false,
    }
}

fn is_of_terminal(terminal: u8, act: Act) -> bool
    ensures { result ≡ is_of_terminal terminal act }
{
    match act {
        Act::Step(_) => false,
        Act::Take { .. } => false,
        Act::Enter(number) => number == terminal,
        Act::Print(number) => number == terminal,
    }
}
