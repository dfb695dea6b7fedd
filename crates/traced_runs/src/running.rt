ghost use Rattle.std.specs.Prelude.{◌≡◌, false, IfErr, IfOk};
ghost use Rattle.packet_runs.specs.Runs.{course_on, packet_rules};
ghost use Rattle.schedule_loop.specs.Ends.{CanBePlayed, IsEndBy};
ghost use Rattle.packet_runs.specs.site_machine.specs.Needs.{IsReady};
ghost use Rattle.packet_runs.specs.site_machine.specs.packet_wires.specs.Idle.{is_idle};
ghost use Rattle.packet_runs.specs.site_machine.specs.packet_wires.specs.Play.{packeted_at_boot};
ghost use Rattle.packet_runs.specs.site_machine.specs.process_copies.specs.Starting.{IsStartable};
ghost use Rattle.traced_runs.specs.Traces.{IsWantOfMemory, Traces};

use crate::fault::TraceFault;
use crate::lines::{Asked, tried_and_told};
use crate::manner::Manner;
use gd_io::Sink;
use logs::Shared;
use packet_runs::{PlayedPackets, Ran, sizes_of};
use player::ProcessorStop;
use schedule::Line;
use schedule_loop::{Ending, Schedule, ScheduleMachine};
use std::alloc::Global;
use tal_tree::Site;
use trace_lines::Places;

/// Plays a schedule on a site, with a stop of a processor where one is given, and writes the line of each event that
/// this manner tells to the sink, before the next one is played.
pub fn run<K: Sink>(
    alloc: Global,
    site: &Shared<Site>,
    places: &Places,
    lines: &[Line],
    stop: Option<ProcessorStop>,
    manner: Manner,
    sink: &mut K,
) -> Result<Ran, TraceFault>
    requires startable { IsStartable site.now }
    requires can { CanBePlayed packet_rules IsReady (course_on site.now lines.now stop) }
    ensures { Traces K.held K.faults K.sure sink.old sink.new site.now places.now lines.now stop manner result }
{
    match PlayedPackets::boot(alloc, site) {
        Ok(packets) => played(
            alloc,
            site.get(),
            places,
            lines,
            stop,
            manner,
            packets,
            sink,
        ),
        Err(memory) => Err(TraceFault::NoMemory(memory)),
    }
}

/// The same on a machine at the beginning.
fn played<K: Sink>(
    alloc: Global,
    site: &Site,
    places: &Places,
    lines: &[Line],
    stop: Option<ProcessorStop>,
    manner: Manner,
    packets: PlayedPackets,
    sink: &mut K,
) -> Result<Ran, TraceFault>
    requires startable { IsStartable site.now }
    requires can { CanBePlayed packet_rules IsReady (course_on site.now lines.now stop) }
    requires booted { packets.machine ≡ record { is_broken = false; state = packeted_at_boot site.now } }
    ensures { Traces K.held K.faults K.sure sink.old sink.new site.now places.now lines.now stop manner result }
{
    let mut packets = packets;
    let mut schedule = Schedule::new(sizes_of(site), lines, stop);
    let mut played: u32 = 0;
    while let Some(event) = schedule.next(played, &packets) {
        let next = played + 1;
        let asked = Asked {
            number: next,
            event,
        };
        let machine = &mut packets.machine;
        match tried_and_told(alloc, site, places, manner, asked, machine, sink) {
            Err(fault) => return Err(fault),
            Ok(None) => played = next,
            Ok(Some(ending)) => {
                return Ok(Ran {
                    machine: packets.machine,
                    asked: u64::from(next),
                    ending,
                });
            }
        }
    }
    ended(packets, played)
}

/// The end of a run that is over.
fn ended(packets: PlayedPackets, played: u32) -> Result<Ran, TraceFault>
    requires { packets.machine.is_broken ≡ false }
    ensures end { IfOk result (λ ran. IsEndBy packet_rules packets.machine.state played
        (is_idle packets.machine.state) ran.machine.state ran.asked ran.ending) }
    ensures whole { IfOk result (λ ran. ran.machine.is_broken ≡ false) }
    ensures fault { IfErr result IsWantOfMemory }
{
    let mut packets = packets;
    let asked = u64::from(played);
    if !packets.machine.is_idle() {
        return Ok(Ran {
            machine: packets.machine,
            asked,
            ending: Ending::Cut,
        });
    }
    match packets.machine.close() {
        Ok(()) => Ok(Ran {
            machine: packets.machine,
            asked,
            ending: Ending::Idle,
        }),
        Err(memory) => Err(TraceFault::NoMemory(memory)),
    }
}
