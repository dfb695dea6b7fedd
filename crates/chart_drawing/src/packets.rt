ghost use Rattle.std.specs.Prelude.{◌≡◌, ◌≤◌, ◌++◌, OnOk};
ghost use Rattle.chart_drawing.specs.Layout.{IsOnChart};
ghost use Rattle.chart_drawing.specs.Packets.{arrow, beside, fate_shapes, lost_shapes, packet_shapes, sent_at};
ghost use Rattle.chart_drawing.specs.Packets.{short_of, sort_shapes};
ghost use Rattle.trace_lines.specs.declared.finding.PacketSort.TheVariants as sort;

use crate::layout::Layout;
use crate::signs::{dot, put_cross};
use crate::ways::{Way, begun_at};
use gd_words::{List, NoMemory};
use svg_text::{Look, Shape, Spot};
use trace_lines::{Fate, PacketSight, PacketSort};

/// Puts what is drawn of a packet that met its fate at the event of a number behind the shapes.
pub(crate) fn put_packet(
    shapes: &mut List<Shape>,
    layout: Layout,
    ways: &[Way],
    number: u64,
    packet: PacketSight,
    fate: Fate,
) -> Result<(), NoMemory>
    ensures { OnOk result (shapes.new ≡ shapes.old ++ packet_shapes layout ways.now number packet fate) }
{
    let from = layout.lane_spot(packet.sender, sent_at(ways, number, packet));
    let to = layout.lane_spot(packet.receiver, number);
    match packet.sort {
        PacketSort::Alive => put_alive(shapes, layout, from, to, fate),
        PacketSort::Piece(_) => put_fate(shapes, layout, Look::Thin, from, to, fate),
        PacketSort::LastPiece(_) => put_fate(shapes, layout, Look::Message, from, to, fate),
        PacketSort::Acknowledgement(_) => put_fate(shapes, layout, Look::Thin, from, to, fate),
    }
}

/// Puts what is drawn of an alive packet behind the shapes, if such packets are drawn.
fn put_alive(
    shapes: &mut List<Shape>,
    layout: Layout,
    from: Spot,
    to: Spot,
    fate: Fate,
) -> Result<(), NoMemory>
    requires from_there { IsOnChart from }
    requires lane { to.x ≤ 1066100 }
    requires to_there { IsOnChart to }
    ensures { OnOk result (shapes.new ≡ shapes.old ++ sort_shapes layout from to fate sort.Alive) }
{
    if layout.alive {
        put_fate(shapes, layout, Look::Alive, from, to, fate)
    } else {
        Ok(())
    }
}

/// The event at which a packet was sent; this one, if that wasn't told.
fn sent_at(ways: &[Way], number: u64, packet: PacketSight) -> u64
    ensures { result ≡ sent_at ways.now number packet }
{
    match begun_at(packet, ways) {
        None => number,
        Some(event) => event,
    }
}

/// Puts what is drawn of a packet that goes from a place to a place behind the shapes.
fn put_fate(
    shapes: &mut List<Shape>,
    layout: Layout,
    look: Look,
    from: Spot,
    to: Spot,
    fate: Fate,
) -> Result<(), NoMemory>
    requires from_there { IsOnChart from }
    requires lane { to.x ≤ 1066100 }
    requires to_there { IsOnChart to }
    ensures { OnOk result (shapes.new ≡ shapes.old ++ fate_shapes layout look from to fate) }
{
    match fate {
        Fate::Came => shapes.push(arrow(look, from, to)),
        Fate::CameAgain => shapes.push(arrow(Look::Thin, from, to)),
        Fate::Dropped => put_lost(shapes, from, to),
        Fate::Refused => put_lost(shapes, from, to),
        Fate::Old => put_lost(shapes, from, to),
        Fate::Lost => put_lost(shapes, from, short_of(layout, from, to)),
        Fate::Repeated => shapes.push(dot(Spot { x: from.x, y: to.y })),
    }
}

fn arrow(look: Look, from: Spot, to: Spot) -> Shape
    requires from_there { IsOnChart from }
    requires to_there { IsOnChart to }
    ensures { result ≡ arrow look from to }
{
    Shape::Line {
        look,
        from: beside(from, to),
        to: beside(to, from),
    }
}

/// The place beside a lane, toward another one.
fn beside(at: Spot, other: Spot) -> Spot
    requires { IsOnChart at }
    ensures { result ≡ beside at other }
{
    let x = if at.x <= other.x {
        at.x + 7
    } else {
        at.x.saturating_sub(7)
    };
    Spot { x, y: at.y }
}

/// Puts a line that ends in a cross behind the shapes.
fn put_lost(shapes: &mut List<Shape>, from: Spot, to: Spot) -> Result<(), NoMemory>
    requires from_there { IsOnChart from }
    requires to_there { IsOnChart to }
    ensures { OnOk result (shapes.new ≡ shapes.old ++ lost_shapes from to) }
{
    shapes.push(Shape::Line {
        look: Look::Lost,
        from: beside(from, to),
        to,
    })?;
    put_cross(shapes, to)
}

/// The place before the lane of the second one, on the way from the first.
fn short_of(layout: Layout, from: Spot, to: Spot) -> Spot
    requires lane { to.x ≤ 1066100 }
    requires to_there { IsOnChart to }
    ensures value { result ≡ short_of layout from to }
    ensures within { IsOnChart result }
{
    let x = if from.x <= to.x {
        to.x.saturating_sub(40)
    } else {
        (to.x + layout.pitch()).saturating_sub(40)
    };
    Spot { x, y: to.y }
}
