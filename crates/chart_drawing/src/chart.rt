ghost use Rattle.std.specs.Prelude.{◌≡◌, IfOk, OnOk};
ghost use Rattle.chart_drawing.specs.Chart.{chart_after, chart_at_boot, drawing_of};

use crate::frame::frame_group;
use crate::groups::event_group;
use crate::keys::key_group;
use crate::layout::Layout;
use crate::standing::{Standing, standings_after, standings_at_boot};
use crate::ways::{Way, put_ways};
use gd_words::{List, NoMemory};
use std::alloc::Global;
use svg_text::{Drawing, Group};
use tal_tree::Site;
use trace_lines::{EventTold, Places};

/// A chart so far: where things are in it, the copies as they stand, what was sent, and what is drawn of each event.
#[derive(Drop)]
pub struct Chart {
    pub layout: Layout,
    pub standings: List<Standing>,
    pub ways: List<Way>,
    pub groups: List<Group>,
}

impl Chart {
    /// The chart of a site before its first event.
    pub fn at_boot(alloc: Global, layout: Layout, site: &Site) -> Result<Chart, NoMemory>
        ensures { IfOk result (λ chart. chart ≡ chart_at_boot layout site.now) }
    {
        let standings = standings_at_boot(alloc, layout, site)?;
        Ok(Chart {
            layout,
            standings,
            ways: List::new(alloc),
            groups: List::new(alloc),
        })
    }

    /// Tells the chart what is told of the next event. It is drawn, unless it is before the first one that is.
    pub fn tell(
        &mut self,
        alloc: Global,
        site: &Site,
        places: &Places,
        told: EventTold,
    ) -> Result<(), NoMemory>
        ensures { OnOk result (self.new ≡ chart_after site.now places.now self.old told.entry.number told.entry.event
            told.entry.findings.now told.entry.shown.now) }
    {
        let after = standings_after(alloc, told.findings, self.standings.as_slice())?;
        if self.layout.from <= told.number {
            let group = event_group(
                alloc,
                site,
                places,
                self.layout,
                self.standings.as_slice(),
                after.as_slice(),
                self.ways.as_slice(),
                told,
            )?;
            self.groups.push(group)?;
        }
        put_ways(&mut self.ways, told.number, told.findings)?;
        self.standings = after;
        Ok(())
    }

    /// The drawing of the events told so far, with the lanes beneath them and what the shapes mean behind them.
    pub fn drawing(self, alloc: Global, site: &Site) -> Result<Drawing, NoMemory>
        ensures { IfOk result (λ drawing. drawing ≡ drawing_of site.now self) }
    {
        let Chart {
            layout,
            standings: _,
            ways: _,
            groups,
        } = self;
        let bottom = layout.bottom(groups.len());
        let mut groups = groups;
        let keys = key_group(alloc, bottom)?;
        groups.push(keys)?;
        let under = frame_group(alloc, layout, site, bottom)?;
        Ok(Drawing {
            width: layout.width(),
            height: bottom + 316,
            under,
            groups,
        })
    }
}
