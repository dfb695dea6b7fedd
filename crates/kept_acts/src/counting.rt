ghost use Rattle.std.specs.Prelude.{◌≡◌, reverse, take};
ghost use Rattle.kept_acts.specs.Counts.{Counts, owner};

use tal_tree::Act;

/// Whose act it is, if it is a process's own.
pub fn owner(act: Act) -> Option<u8>
    ensures { result ≡ owner act }
{
    match act {
        Act::Step(process) => Some(process),
        Act::Take { process, opener: _ } => Some(process),
        Act::Enter(_) => None,
        Act::Print(_) => None,
    }
}

/// Counts the acts from a place on, where those before it are counted.
pub fn count_from(table: &mut [u64], acts: &[Act], from: usize)
    requires { Counts table.old (reverse (take from acts.now)) }
    ensures { Counts table.new (reverse acts.now) }
{
    let mut place = from;
    while place < acts.len() {
        if let Some(process) = owner(acts[place]) {
            table[usize::from(process)] += 1;
        }
        place += 1;
    }
}
