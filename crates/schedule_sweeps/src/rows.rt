ghost use Rattle.std.specs.Prelude.{◌≡◌, ◌≤◌, IfOk, Some};
ghost use Rattle.gd_words.specs.declared.limits.TheConstants.{MOST_PROCESSORS};
ghost use Rattle.packet_runs.specs.Runs.{course_on, packet_rules};
ghost use Rattle.player.specs.declared.stop.ProcessorStop.{ProcessorStop};
ghost use Rattle.packet_runs.specs.process_copies.specs.Starting.{IsStartable};
ghost use Rattle.schedule_loop.specs.Ends.{CanBePlayed};
ghost use Rattle.schedule_sweeps.specs.Sweeps.{IsKindOf, IsRowOf, IsSweepOf, kind_of};
ghost use Rattle.packet_runs.specs.site_machine.specs.Needs.{IsReady};

use gd_words::NoMemory;
use logs::Shared;
use packet_runs::run;
use player::ProcessorStop;
use run_table::{ProcessorRow, Row, RunKind, Table};
use schedule::Line;
use schedule_loop::Ending;
use std::alloc::Global;
use tal_tree::Site;

/// Runs the schedule so many times for each processor of the site, with a stop of that processor after 0, 1, 2 and more
/// events. The runs are made one after the other, and none is kept.
pub fn sweep(
    alloc: Global,
    site: &Shared<Site>,
    lines: &[Line],
    runs: u32,
) -> Result<Table, NoMemory>
    requires startable { IsStartable site.now }
    requires few { site.now.processors ≤ MOST_PROCESSORS }
    requires can { (stop : ProcessorStop)
        → CanBePlayed packet_rules IsReady (course_on site.now lines.now (Some stop)) }
    ensures { IfOk result (IsSweepOf site.now lines.now runs) }
{
    let mut table = Table::new();
    for processor in 0..site.get().processors {
        let row = row_of(alloc, site, lines, processor, runs)?;
        table.push(ProcessorRow { processor, row });
    }
    Ok(table)
}

/// The row of a processor: that of the runs with its stop after each number of events below `runs`.
fn row_of(
    alloc: Global,
    site: &Shared<Site>,
    lines: &[Line],
    processor: u8,
    runs: u32,
) -> Result<Row, NoMemory>
    requires startable { IsStartable site.now }
    requires can { (stop : ProcessorStop)
        → CanBePlayed packet_rules IsReady (course_on site.now lines.now (Some stop)) }
    ensures { IfOk result (IsRowOf site.now lines.now processor runs) }
{
    let mut row = Row::new();
    for after in 0..runs {
        let kind = kind_of_run(alloc, site, lines, ProcessorStop { processor, after })?;
        row.add(kind);
    }
    Ok(row)
}

/// The kind of the run with a stop. The run is let go.
fn kind_of_run(
    alloc: Global,
    site: &Shared<Site>,
    lines: &[Line],
    stop: ProcessorStop,
) -> Result<RunKind, NoMemory>
    requires startable { IsStartable site.now }
    requires can { CanBePlayed packet_rules IsReady (course_on site.now lines.now (Some stop)) }
    ensures { IfOk result (IsKindOf site.now lines.now stop) }
{
    let ran = run(alloc, site, lines, Some(stop))?;
    Ok(kind_of(ran.ending))
}

fn kind_of(ending: Ending) -> RunKind
    ensures { result ≡ kind_of ending }
{
    match ending {
        Ending::Idle => RunKind::Idle,
        Ending::Cut => RunKind::Cut,
        Ending::Second(_) => RunKind::Second,
        Ending::Lost(_) => RunKind::Cut,
    }
}
