ghost use Rattle.std.specs.Prelude.{◌≡◌, ◌++◌, IfOk, IfSome, OnOk};
ghost use Rattle.chart_drawing.specs.Groups as spec;
ghost use Rattle.chart_drawing.specs.Groups.{all_found, all_shown, drawn_shapes, event_group, event_label};
ghost use Rattle.chart_drawing.specs.Groups.{event_shapes};
ghost use Rattle.chart_drawing.specs.Groups.{name_words, signed_shapes};
ghost use Rattle.chart_drawing.specs.Layout.{IsOnChart};

use crate::drawn::{Drawn, Place, Sign, drawn_by, drawn_of};
use crate::layout::Layout;
use crate::packets::put_packet;
use crate::signs::put_sign;
use crate::standing::{Standing, acting_in, put_bars};
use crate::ways::Way;
use gd_words::{List, NoMemory};
use schedule::Event;
use std::alloc::Global;
use svg_text::{Group, Look, Shape, Spot};
use tal_tree::{Shown, Site};
use text_pieces::{put, put_number};
use trace_lines::{EventTold, Finding, Places, put_event, put_event_name};

/// What is drawn of an event: its name, the copies as they are after it, what it did, and what it showed. A viewer
/// tells its line.
pub(crate) fn event_group(
    alloc: Global,
    site: &Site,
    places: &Places,
    layout: Layout,
    before: &[Standing],
    after: &[Standing],
    ways: &[Way],
    told: EventTold,
) -> Result<Group, NoMemory>
    ensures { IfOk result (λ group. group ≡ event_group site.now places.now layout before.now after.now ways.now
        told.entry.number told.entry.event told.entry.findings.now told.entry.shown.now) }
{
    let mut title = List::new(alloc);
    put_event(&mut title, site, places, told)?;
    let shapes = event_shapes(alloc, site, layout, before, after, ways, told)?;
    Ok(Group { title, shapes })
}

fn event_shapes(
    alloc: Global,
    site: &Site,
    layout: Layout,
    before: &[Standing],
    after: &[Standing],
    ways: &[Way],
    told: EventTold,
) -> Result<List<Shape>, NoMemory>
    ensures { IfOk result (λ shapes. shapes ≡ event_shapes site.now layout before.now after.now ways.now
        told.entry.number told.entry.event told.entry.findings.now told.entry.shown.now) }
{
    let mut shapes = List::new(alloc);
    let label = event_label(alloc, site, layout, told.number, told.event)?;
    shapes.push(label)?;
    put_bars(&mut shapes, layout, told.number, after)?;
    put_found(
        alloc,
        &mut shapes,
        layout,
        before,
        ways,
        told.number,
        told.event,
        told.findings,
    )?;
    put_shown(
        alloc,
        &mut shapes,
        layout,
        before,
        ways,
        told.number,
        told.shown,
    )?;
    Ok(shapes)
}

/// The number and the name of an event, left of the lanes.
fn event_label(
    alloc: Global,
    site: &Site,
    layout: Layout,
    number: u64,
    event: Event,
) -> Result<Shape, NoMemory>
    ensures { IfOk result (λ label. label ≡ event_label site.now layout number event) }
{
    let words = name_words(alloc, site, number, event)?;
    let at = Spot {
        x: 4,
        y: layout.event_y(number) + 4,
    };
    Ok(Shape::Words {
        look: Look::Event,
        at,
        words,
    })
}

fn name_words(alloc: Global, site: &Site, number: u64, event: Event) -> Result<List<u8>, NoMemory>
    ensures { IfOk result (λ words. words ≡ name_words site.now number event) }
{
    let mut words = List::new(alloc);
    put_number(&mut words, number)?;
    put(&mut words, b" ")?;
    put_event_name(&mut words, site, event)?;
    Ok(words)
}

/// Puts what is drawn of all that an event did behind the shapes.
fn put_found(
    alloc: Global,
    shapes: &mut List<Shape>,
    layout: Layout,
    standings: &[Standing],
    ways: &[Way],
    number: u64,
    event: Event,
    findings: &[Finding],
) -> Result<(), NoMemory>
    ensures { OnOk result (shapes.new ≡ shapes.old
        ++ all_found layout standings.now ways.now number event findings.now) }
{
    for finding in findings {
        put_drawn(
            alloc,
            shapes,
            layout,
            standings,
            ways,
            number,
            drawn_by(event, *finding),
        )?;
    }
    Ok(())
}

/// Puts what is drawn of all that an event showed behind the shapes.
fn put_shown(
    alloc: Global,
    shapes: &mut List<Shape>,
    layout: Layout,
    standings: &[Standing],
    ways: &[Way],
    number: u64,
    shown: &[Shown],
) -> Result<(), NoMemory>
    ensures { OnOk result (shapes.new ≡ shapes.old ++ all_shown layout standings.now ways.now number shown.now) }
{
    for one in shown {
        put_drawn(
            alloc,
            shapes,
            layout,
            standings,
            ways,
            number,
            drawn_of(one),
        )?;
    }
    Ok(())
}

fn put_drawn(
    alloc: Global,
    shapes: &mut List<Shape>,
    layout: Layout,
    standings: &[Standing],
    ways: &[Way],
    number: u64,
    drawn: Drawn,
) -> Result<(), NoMemory>
    ensures { OnOk result (shapes.new ≡ shapes.old ++ drawn_shapes layout standings.now ways.now number drawn) }
{
    match drawn {
        Drawn::Nothing => Ok(()),
        Drawn::Sign { sign, place } => {
            put_signed(
                alloc,
                shapes,
                sign,
                spot_of(layout, standings, number, place),
            )
        }
        Drawn::Hold { node, processor } => {
            shapes.push(hold_shape(layout, number, node, processor))
        }
        Drawn::Packet { packet, fate } => put_packet(shapes, layout, ways, number, packet, fate),
    }
}

/// The hold line that a node pulls of a processor.
fn hold_shape(layout: Layout, number: u64, node: u8, processor: u8) -> Shape
    ensures { result ≡ spec.hold_shape layout number node processor }
{
    Shape::Line {
        look: Look::Hold,
        from: layout.lane_spot(node, number),
        to: layout.lane_spot(processor, number),
    }
}

/// Puts a sign behind the shapes, if there is a place for it.
fn put_signed(
    alloc: Global,
    shapes: &mut List<Shape>,
    sign: Sign,
    at: Option<Spot>,
) -> Result<(), NoMemory>
    requires { IfSome at IsOnChart }
    ensures { OnOk result (shapes.new ≡ shapes.old ++ signed_shapes sign at) }
{
    match at {
        None => Ok(()),
        Some(at) => put_sign(alloc, shapes, sign, at),
    }
}

/// Where the event of a number is at a place.
fn spot_of(layout: Layout, standings: &[Standing], number: u64, place: Place) -> Option<Spot>
    ensures value { result ≡ spec.spot_of layout standings.now number place }
    ensures within { IfSome result IsOnChart }
{
    match place {
        Place::Node(node) => Some(layout.lane_spot(node, number)),
        Place::Copy { process, processor } => Some(layout.copy_spot(process, processor, number)),
        Place::Acting(process) => {
            acting_spot(layout, process, acting_in(process, standings), number)
        }
    }
}

fn acting_spot(layout: Layout, process: u8, processor: Option<u8>, number: u64) -> Option<Spot>
    ensures value { result ≡ spec.acting_spot layout process processor number }
    ensures within { IfSome result IsOnChart }
{
    match processor {
        None => None,
        Some(processor) => Some(layout.copy_spot(process, processor, number)),
    }
}
