ghost use Rattle.std.specs.Prelude.{◌≡◌, ◌≤◌};
ghost use Rattle.chart_drawing.specs.Layout.{IsOnChart, bottom, copy_spot, copy_x, event_y, lane_of, lane_spot, lane_x};
ghost use Rattle.chart_drawing.specs.Layout.{pitch, row_of, top, width};

use gd_words::limits::TERMINAL_NODE;
use svg_text::Spot;

/// What the places in a chart depend on: how many processors and processes there are, and the number of the first event
/// that is drawn; and whether alive packets are drawn.
#[derive(Clone, Copy, PartialEq, Eq, Drop)]
pub struct Layout {
    pub processors: u8,
    pub processes: u8,
    pub from: u64,
    pub alive: bool,
}

impl Layout {
    /// The lane of a node, from 0 at the left: that of the terminals is the last one.
    fn lane_of(self, node: u8) -> u8
        ensures { result ≡ lane_of self node }
    {
        if node < TERMINAL_NODE {
            node
        } else {
            self.processors
        }
    }

    /// How far lanes are apart.
    pub(crate) fn pitch(self) -> u32
        ensures value { result ≡ pitch self }
        ensures few { result ≤ 4180 }
    {
        100 + 16 * u32::from(self.processes)
    }

    /// How far from the left the lane of a node is.
    pub(crate) fn lane_x(self, node: u8) -> u32
        ensures value { result ≡ lane_x self node }
        ensures few { result ≤ 1066100 }
    {
        130 + self.pitch() * u32::from(self.lane_of(node))
    }

    /// How far from the left the copy of a process in a processor is.
    pub(crate) fn copy_x(self, process: u8, processor: u8) -> u32
        ensures value { result ≡ copy_x self process processor }
        ensures few { result ≤ 2000000 }
    {
        self.lane_x(processor) + 14 + 16 * u32::from(process)
    }

    /// Where the lanes begin.
    pub(crate) fn top(self) -> u32
        ensures value { result ≡ top self }
        ensures few { result ≤ 3100 }
    {
        40 + 12 * u32::from(self.processes)
    }

    /// How wide a chart is.
    pub(crate) fn width(self) -> u32
        ensures { result ≡ width self }
    {
        self.lane_x(TERMINAL_NODE) + 160
    }

    /// Where the lanes end of a chart of so many events.
    pub(crate) fn bottom(self, events: usize) -> u32
        ensures value { result ≡ bottom self events }
        ensures few { result ≤ 10000 }
    {
        let rows = if events < 400 { events as u32 } else { 400 };
        self.top() + 14 * rows + 14
    }

    /// The row of an event, from 1; 0 stands for those before the first one that is drawn, and 400 for those after the
    /// last one.
    fn row_of(self, number: u64) -> u32
        ensures value { result ≡ row_of self number }
        ensures few { result ≤ 400 }
    {
        if number < self.from {
            0
        } else if number - self.from < 399 {
            (number - self.from) as u32 + 1
        } else {
            400
        }
    }

    /// How far from above an event is.
    pub(crate) fn event_y(self, number: u64) -> u32
        ensures value { result ≡ event_y self number }
        ensures few { result ≤ 20000 }
    {
        self.top() + 14 * self.row_of(number)
    }

    /// Where an event is in the lane of a node.
    pub(crate) fn lane_spot(self, node: u8, number: u64) -> Spot
        ensures value { result ≡ lane_spot self node number }
        ensures lane { result.x ≤ 1066100 }
        ensures within { IsOnChart result }
    {
        Spot {
            x: self.lane_x(node),
            y: self.event_y(number),
        }
    }

    /// Where an event is in the lane of the copy of a process in a processor.
    pub(crate) fn copy_spot(self, process: u8, processor: u8, number: u64) -> Spot
        ensures value { result ≡ copy_spot self process processor number }
        ensures within { IsOnChart result }
    {
        Spot {
            x: self.copy_x(process, processor),
            y: self.event_y(number),
        }
    }
}
