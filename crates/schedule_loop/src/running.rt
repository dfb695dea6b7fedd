ghost use Rattle.std.specs.Prelude.{◌≡◌, false, IfOk};
ghost use Rattle.schedule_loop.specs.Ends.{CanBePlayed, IsEndBy, IsRunOn, IsTriedBy};

use crate::agenda::Schedule;
use crate::machine::ScheduleMachine;
use crate::ran::{Ending, Ran};
use machine_states::{Effect, NoMemory};
use player::{ProcessorStop, Sizes};
use schedule::{Event, Line};

/// Plays a schedule on a machine of a site of these sizes, with a stop of a processor where one is given.
pub fn run<M: ScheduleMachine>(
    machine: M,
    sizes: Sizes,
    lines: &[Line],
    stop: Option<ProcessorStop>,
) -> Result<Ran<M>, NoMemory>
    requires whole { M.is_broken machine ≡ false }
    requires can { CanBePlayed M.rules M.is_ready (record {
      sizes = sizes;
      start = M.state machine;
      lines = lines.now;
      stop = stop;
    }) }
    ensures { IfOk result (λ ran. IsRunOn M.rules (record {
      sizes = sizes;
      start = M.state machine;
      lines = lines.now;
      stop = stop;
    }) (M.is_broken ran.machine) (M.state ran.machine) ran.asked ran.ending) }
{
    let mut machine = machine;
    let mut schedule = Schedule::new(sizes, lines, stop);
    let mut played: u32 = 0;
    while let Some(event) = schedule.next(played, &machine) {
        let next = played + 1;
        match tried(&mut machine, event)? {
            None => {
                let delivered = schedule.deliver_at_once(next, &mut machine);
                played = schedule.drain_on(delivered, &mut machine)?;
            }
            Some(ending) => {
                return Ok(Ran {
                    machine,
                    asked: u64::from(next),
                    ending,
                });
            }
        }
    }
    ended(machine, played)
}

/// Plays an event. Answers how the run ends before it, where it would do harm, and then nothing changes.
#[inline(always)]
pub fn tried<M: ScheduleMachine>(machine: &mut M, event: Event) -> Result<Option<Ending>, NoMemory>
    requires { M.is_ready (M.state machine.old) }
    ensures tried { IfOk result (λ ending. IsTriedBy M.rules (M.state machine.old) event (M.state machine.new)
        ending) }
    ensures whole { IfOk result (λ ending. M.is_broken machine.new ≡ false) }
{
    match machine.event(event)? {
        Effect::Done => Ok(None),
        Effect::Skipped => Ok(None),
        Effect::WouldStopSecond(processor) => Ok(Some(Ending::Second(processor))),
        Effect::WouldLoseDisc(process) => Ok(Some(Ending::Lost(process))),
    }
}

/// The end of a run that is over.
fn ended<M: ScheduleMachine>(machine: M, played: u32) -> Result<Ran<M>, NoMemory>
    requires { M.is_broken machine ≡ false }
    ensures end { IfOk result (λ ran. IsEndBy M.rules (M.state machine) played (M.rules.is_idle (M.state machine))
        (M.state ran.machine) ran.asked ran.ending) }
    ensures whole { IfOk result (λ ran. M.is_broken ran.machine ≡ false) }
{
    let mut machine = machine;
    let asked = u64::from(played);
    if !machine.is_idle() {
        return Ok(Ran {
            machine,
            asked,
            ending: Ending::Cut,
        });
    }
    machine.close()?;
    Ok(Ran {
        machine,
        asked,
        ending: Ending::Idle,
    })
}
