ghost use Rattle.std.specs.Prelude.{◌≡◌, ◌↔◌, IsTrue, count_by};
ghost use Rattle.std.specs.List.{list_all};
ghost use Rattle.calm_schedules.specs.Calm.{IsCalm, is_calm_line, stops_one};

use schedule::{Event, Line};

/// Whether all these lines are `drain`, `until` and `fail` lines, and one processor stops at most. `stop` tells that
/// the words stop one too. It takes no memory.
pub fn is_calm(lines: &[Line], stop: bool) -> bool
    ensures { IsTrue result ↔ IsCalm lines.now stop }
{
    let most = if stop { 0 } else { 1 };
    has_calm_lines(lines) && stops(lines) <= most
}

fn has_calm_lines(lines: &[Line]) -> bool
    ensures { result ≡ list_all is_calm_line lines.now }
{
    lines.iter().all(|line| is_calm_line(line))
}

/// How many lines stop a processor.
fn stops(lines: &[Line]) -> usize
    ensures { result ≡ count_by stops_one lines.now }
{
    lines.iter().filter(|line| stops_one(line)).count()
}

/// Whether a line is a `fail` line.
fn stops_one(line: &Line) -> bool
    ensures { result ≡ stops_one line.now }
{
    matches!(line, Line::One(Event::Fail(_)))
}

fn is_calm_line(line: &Line) -> bool
    ensures { result ≡ is_calm_line line.now }
{
    match line {
        Line::Drain(_) | Line::Until { .. } => true,
        other => stops_one(other),
    }
}
