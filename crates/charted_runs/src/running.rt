ghost use Rattle.std.specs.Prelude.{◌≡◌, ◌≤◌, ◌<◌, ◌+◌, false, IfErr, IfOk, IsTrue};
ghost use Rattle.chart_drawing.specs.Chart.{chart_at_boot};
ghost use Rattle.charted_runs.specs.Charts.{Charts, IsTooLong, IsWantOfMemory};
ghost use Rattle.traced_runs.specs.packet_runs.specs.Runs.{course_on, packet_rules};
ghost use Rattle.schedule_loop.specs.Ends.{CanBePlayed, IsEndBy};
ghost use Rattle.traced_runs.specs.site_machine.specs.Needs.{IsReady};
ghost use Rattle.traced_runs.specs.site_machine.specs.packet_wires.specs.Idle.{is_idle};
ghost use Rattle.traced_runs.specs.site_machine.specs.packet_wires.specs.Play.{packeted_at_boot};
ghost use Rattle.traced_runs.specs.site_machine.specs.process_copies.specs.Starting.{IsStartable};

use crate::charted::{ChartFault, Charted};
use crate::events::tried_and_drawn;
use chart_drawing::{Chart, Layout};
use logs::Shared;
use player::ProcessorStop;
use schedule::Line;
use schedule_loop::{Ending, Schedule, ScheduleMachine};
use std::alloc::Global;
use tal_tree::Site;
use trace_lines::Places;
use traced_runs::{PlayedPackets, Ran, sizes_of};

/// Plays a schedule on a site, with a stop of a processor where one is given, and makes the chart of its events from
/// the first one that the layout names to one of a number.
pub fn chart_run(
    alloc: Global,
    site: &Shared<Site>,
    places: &Places,
    lines: &[Line],
    stop: Option<ProcessorStop>,
    layout: Layout,
    to: u32,
) -> Result<Charted, ChartFault>
    requires startable { IsStartable site.now }
    requires can { CanBePlayed packet_rules IsReady (course_on site.now lines.now stop) }
    ensures { Charts site.now places.now lines.now stop layout to result }
{
    match PlayedPackets::boot(alloc, site) {
        Ok(packets) => played(alloc, site.get(), places, lines, stop, layout, to, packets),
        Err(memory) => Err(ChartFault::NoMemory(memory)),
    }
}

/// The same on a machine at the beginning.
fn played(
    alloc: Global,
    site: &Site,
    places: &Places,
    lines: &[Line],
    stop: Option<ProcessorStop>,
    layout: Layout,
    to: u32,
    packets: PlayedPackets,
) -> Result<Charted, ChartFault>
    requires startable { IsStartable site.now }
    requires can { CanBePlayed packet_rules IsReady (course_on site.now lines.now stop) }
    requires booted { packets.machine ≡ record { is_broken = false; state = packeted_at_boot site.now } }
    ensures { Charts site.now places.now lines.now stop layout to result }
{
    match Chart::at_boot(alloc, layout, site) {
        Ok(chart) => drawn(alloc, site, places, lines, stop, layout, to, packets, chart),
        Err(memory) => Err(ChartFault::NoMemory(memory)),
    }
}

/// The same with a chart before the first event.
fn drawn(
    alloc: Global,
    site: &Site,
    places: &Places,
    lines: &[Line],
    stop: Option<ProcessorStop>,
    layout: Layout,
    to: u32,
    packets: PlayedPackets,
    chart: Chart,
) -> Result<Charted, ChartFault>
    requires startable { IsStartable site.now }
    requires can { CanBePlayed packet_rules IsReady (course_on site.now lines.now stop) }
    requires booted { packets.machine ≡ record { is_broken = false; state = packeted_at_boot site.now } }
    requires begun { chart ≡ chart_at_boot layout site.now }
    ensures { Charts site.now places.now lines.now stop layout to result }
{
    let mut chart = chart;
    let mut packets = packets;
    let mut schedule = Schedule::new(sizes_of(site), lines, stop);
    let mut played: u32 = 0;
    while let Some(event) = schedule.next(played, &packets) {
        let next = played + 1;
        if is_too_long(layout, to, next) {
            return Err(ChartFault::TooLong);
        }
        let machine = &mut packets.machine;
        match tried_and_drawn(alloc, site, places, to, next, event, machine, &mut chart) {
            Err(memory) => return Err(ChartFault::NoMemory(memory)),
            Ok(None) => played = next,
            Ok(Some(ending)) => {
                let ran = Ran {
                    machine: packets.machine,
                    asked: u64::from(next),
                    ending,
                };
                return Ok(Charted { ran, chart });
            }
        }
    }
    ended(packets, played, chart)
}

/// Whether the event of a number is drawn and the chart has no room for it.
fn is_too_long(layout: Layout, to: u32, number: u32) -> bool
    ensures long { IsTrue result → IsTooLong layout to number }
    ensures room { result ≡ false → number ≤ to → number < layout.from + 400 }
{
    number <= to && layout.from <= u64::from(number) && u64::from(number) - layout.from >= 400
}

/// The end of a run that is over, with its chart.
fn ended(packets: PlayedPackets, played: u32, chart: Chart) -> Result<Charted, ChartFault>
    requires { packets.machine.is_broken ≡ false }
    ensures end { IfOk result (λ charted. IsEndBy packet_rules packets.machine.state played
        (is_idle packets.machine.state) charted.ran.machine.state charted.ran.asked charted.ran.ending) }
    ensures whole { IfOk result (λ charted. charted.ran.machine.is_broken ≡ false) }
    ensures same { IfOk result (λ charted. charted.chart ≡ chart) }
    ensures fault { IfErr result IsWantOfMemory }
{
    let mut packets = packets;
    let asked = u64::from(played);
    if !packets.machine.is_idle() {
        let ran = Ran {
            machine: packets.machine,
            asked,
            ending: Ending::Cut,
        };
        return Ok(Charted { ran, chart });
    }
    match packets.machine.close() {
        Ok(()) => {
            let ran = Ran {
                machine: packets.machine,
                asked,
                ending: Ending::Idle,
            };
            Ok(Charted { ran, chart })
        }
        Err(memory) => Err(ChartFault::NoMemory(memory)),
    }
}
