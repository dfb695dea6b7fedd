ghost use Rattle.std.specs.Prelude.{◌≡◌, false, IfOk};
ghost use Rattle.chart_drawing.specs.Chart.{chart_after};
ghost use Rattle.charted_runs.specs.Charts.{charted_by, drawn_by};
ghost use Rattle.traced_runs.specs.event_findings.specs.Told.{found, shown_after};
ghost use Rattle.traced_runs.specs.packet_runs.specs.Runs.{packet_rules};
ghost use Rattle.schedule_loop.specs.Ends.{IsTriedBy};
ghost use Rattle.traced_runs.specs.site_machine.specs.Needs.{IsReady};

use chart_drawing::Chart;
use gd_words::NoMemory;
use machine_states::Effect;
use schedule::Event;
use schedule_loop::Ending;
use std::alloc::Global;
use tal_tree::Site;
use trace_lines::{EventTold, Places};
use traced_runs::{Machine, Noted, ending_of, findings, note, shown_since, what_is_found_is_told};

/// Plays the event of a number, and tells it to the chart, unless it is behind the last one that is drawn. Answers how
/// the run ends before the event, where that would do harm, and then nothing changes in the machine.
pub(crate) fn tried_and_drawn(
    alloc: Global,
    site: &Site,
    places: &Places,
    to: u32,
    number: u32,
    event: Event,
    machine: &mut Machine,
    chart: &mut Chart,
) -> Result<Option<Ending>, NoMemory>
    requires { IsReady machine.old.state }
    ensures tried { IfOk result (λ ending. IsTriedBy packet_rules machine.old.state event machine.new.state ending) }
    ensures whole { IfOk result (λ ending. machine.new.is_broken ≡ false) }
    ensures drawn { IfOk result (λ ending. chart.new
        ≡ charted_by site.now places.now to number machine.old.state event chart.old) }
{
    if to < number {
        return undrawn(machine, event);
    }
    drawn(alloc, site, places, number, event, machine, chart)
}

/// Plays an event that isn't drawn.
fn undrawn(machine: &mut Machine, event: Event) -> Result<Option<Ending>, NoMemory>
    requires { IsReady machine.old.state }
    ensures tried { IfOk result (λ ending. IsTriedBy packet_rules machine.old.state event machine.new.state ending) }
    ensures whole { IfOk result (λ ending. machine.new.is_broken ≡ false) }
{
    let effect = machine.event(event)?;
    Ok(ending_of(effect))
}

/// Plays the event of a number, and tells it to the chart.
fn drawn(
    alloc: Global,
    site: &Site,
    places: &Places,
    number: u32,
    event: Event,
    machine: &mut Machine,
    chart: &mut Chart,
) -> Result<Option<Ending>, NoMemory>
    requires { IsReady machine.old.state }
    ensures tried { IfOk result (λ ending. IsTriedBy packet_rules machine.old.state event machine.new.state ending) }
    ensures whole { IfOk result (λ ending. machine.new.is_broken ≡ false) }
    ensures drawn { IfOk result (λ ending. chart.new
        ≡ drawn_by site.now places.now number machine.old.state event chart.old) }
{
    what_is_found_is_told();
    let noted = note(alloc, machine, event)?;
    let effect = machine.event(event)?;
    tell_chart(
        alloc, site, places, number, event, &noted, effect, machine, chart,
    )?;
    Ok(ending_of(effect))
}

/// Tells the chart an event that has this answer, by what was noted before it and the machine after it.
fn tell_chart(
    alloc: Global,
    site: &Site,
    places: &Places,
    number: u32,
    event: Event,
    noted: &Noted,
    effect: Effect,
    machine: &Machine,
    chart: &mut Chart,
) -> Result<(), NoMemory>
    ensures { IfOk result (λ done. chart.new ≡ chart_after site.now places.now chart.old number event
        (found site.now noted.now event effect machine.now.state) (shown_after noted.now machine.now.state)) }
{
    let found = findings(alloc, site, noted, event, effect, machine)?;
    let told = EventTold {
        number: u64::from(number),
        event,
        findings: found.as_slice(),
        shown: shown_since(noted, machine),
    };
    chart.tell(alloc, site, places, told)
}
