ghost use Rattle.std.specs.Prelude.{◌≡◌};
ghost use Rattle.event_findings.specs.Drives as spec;

use machine_views::Machine;
use schedule::Event;
use trace_lines::Finding;

/// How the drive stands that an event names.
pub(crate) fn drive_found(event: Event, machine: &Machine) -> Option<Finding>
    ensures { result ≡ spec.drive_found event machine.now.state }
{
    match event {
        Event::Drive(one) => Some(Finding::Drive(machine.standing(one.process, one.drive))),
        Event::Run(_) => None,
        Event::Enter(_) => None,
        Event::Deliver { bus: _, k: _ } => None,
        Event::Lose { bus: _, k: _ } => None,
        Event::Repeat { bus: _, k: _ } => None,
        Event::Tick(_) => None,
        Event::Fail(_) => None,
        Event::Reload(_) => None,
    }
}
