//! The report that acts have, in memory.
ghost use Rattle.std.specs.Prelude.{◌≡◌, Some, IfOk};
ghost use Rattle.plain_semantics.specs.SiteLimits.{KeepsSiteLimits};
ghost use Rattle.report_reader.specs.Reading.{acts_in, stops_in};
ghost use Rattle.shown_sectors.specs.Sectors.{sectors_after};
ghost use Rattle.report_reader.specs.trace_print.specs.ReportText.{report_text};

use gd_io::{Sink, TextSink, WriteFault};
use gd_words::{List, NoMemory};
use report_reader::{Closing, End, Told, write_report};
use shown_sectors::sectors_after;
use std::alloc::Global;
use tal_tree::{Act, Shown, Site};

/// The acts that lines tell, in order.
pub fn acts_of(alloc: Global, told: &[Told]) -> Result<List<Act>, NoMemory>
    ensures { IfOk result (λ acts. acts ≡ acts_in told.now) }
{
    let mut acts = List::new(alloc);
    for one in told {
        if let Told::Act(act) = one {
            acts.push(*act)?;
        }
    }
    Ok(acts)
}

/// The processors that lines tell, in order.
fn stops_of(alloc: Global, told: &[Told]) -> Result<List<u8>, NoMemory>
    ensures { IfOk result (λ stops. stops ≡ stops_in told.now) }
{
    let mut stops = List::new(alloc);
    for one in told {
        if let Told::Stop(processor) = one {
            stops.push(*processor)?;
        }
    }
    Ok(stops)
}

/// The report with these things shown, these acts and this end, and the processors that lines tell.
pub fn text_of(
    alloc: Global,
    site: &Site,
    shown: &[Shown],
    told: &[Told],
    acts: &[Act],
    end: End,
) -> Result<TextSink, NoMemory>
    requires { KeepsSiteLimits site.now }
    ensures { IfOk result (λ sink. ⟦<TextSink as Sink>⟧.held sink
        ≡ Some (report_text site.now shown.now (sectors_after site.now shown.now) (stops_in told.now) acts.now end)) }
{
    let sectors = sectors_after(alloc, site, shown)?;
    let stopped = stops_of(alloc, told)?;
    let mut sink = TextSink::new(alloc);
    let sectors = sectors.as_slice();
    let stopped = stopped.as_slice();
    let closing = Closing::Ended(end);
    match write_report(&mut sink, site, shown, sectors, &[], stopped, acts, closing) {
        Ok(()) => Ok(sink),
        Err(WriteFault) => Err(sink.memory()),
    }
}
