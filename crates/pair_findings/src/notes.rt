ghost use Rattle.std.specs.Prelude.{◌≡◌, ◌↔◌, IsTrue};
ghost use Rattle.pair_findings.specs.Notes.{IsSince, deed_at, has_note};

use statement_dues::Deed;

/// What the statement of a number, from 1, does.
fn deed_at(deeds: &[Deed], number: u16) -> Deed
    ensures { result ≡ deed_at deeds.now number }
{
    if number == 0 {
        return Deed::Nothing;
    }
    match deeds.get(usize::from(number - 1)) {
        None => Deed::Nothing,
        Some(deed) => *deed,
    }
}

/// The place on a path behind the last CHECKPOINT that stands before its last statement; 0 where none does.
pub fn since_checkpoint(deeds: &[Deed], path: &[u16]) -> usize
    ensures { IsSince deeds.now path.now result }
{
    let mut since = 0;
    for (place, number) in path.iter().enumerate() {
        if place + 1 < path.len() && clears(deed_at(deeds, *number)) {
            since = place + 1;
        }
    }
    since
}

fn clears(deed: Deed) -> bool
    ensures { IsTrue result ↔ (deed ≡ Deed.Clears) }
{
    match deed {
        Deed::Clears => true,
        _ => false,
    }
}

/// Whether the statement at a place of a path made due what breaks at its end: by its own step since the last
/// CHECKPOINT, or by the return from its call.
pub fn has_note(deeds: &[Deed], since: usize, place: usize, number: u16) -> bool
    ensures { result ≡ has_note deeds.now since place number }
{
    match deed_at(deeds, number) {
        Deed::MakesDue => since <= place,
        Deed::GivesDue => true,
        _ => false,
    }
}
