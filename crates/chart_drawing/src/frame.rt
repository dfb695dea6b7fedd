ghost use Rattle.std.specs.Prelude.{◌≡◌, [], ◌∷◌, ◌++◌, IfOk, OnOk};
ghost use Rattle.std.specs.Option.{option_copied};
ghost use Rattle.chart_drawing.specs.Frame as spec;
ghost use Rattle.chart_drawing.specs.Frame.{all_lanes, all_names, lane_shapes, lane_words, name_shape, names_by};

use crate::layout::Layout;
use gd_words::limits::TERMINAL_NODE;
use gd_words::{List, NoMemory};
use std::alloc::Global;
use svg_text::{Group, Look, Shape, Spot};
use tal_tree::{ProcessSpec, Site};
use text_pieces::{put, put_number};

/// What is beneath the events: the lane of each node, and the names of nodes and of copies above.
pub(crate) fn frame_group(
    alloc: Global,
    layout: Layout,
    site: &Site,
    bottom: u32,
) -> Result<Group, NoMemory>
    ensures { IfOk result (λ group. group ≡ spec.frame_group layout site.now bottom) }
{
    let mut shapes = List::new(alloc);
    put_lanes(alloc, &mut shapes, layout, bottom)?;
    put_names(alloc, &mut shapes, layout, site)?;
    Ok(Group {
        title: List::new(alloc),
        shapes,
    })
}

fn put_lanes(
    alloc: Global,
    shapes: &mut List<Shape>,
    layout: Layout,
    bottom: u32,
) -> Result<(), NoMemory>
    ensures { OnOk result (shapes.new ≡ shapes.old ++ all_lanes layout bottom) }
{
    put_processors(alloc, shapes, layout, bottom)?;
    put_lane(alloc, shapes, layout, bottom, TERMINAL_NODE)
}

fn put_processors(
    alloc: Global,
    shapes: &mut List<Shape>,
    layout: Layout,
    bottom: u32,
) -> Result<(), NoMemory>
    ensures { OnOk result (shapes.new ≡ shapes.old ++ spec.processor_lanes layout bottom) }
{
    for node in 0..layout.processors {
        put_lane(alloc, shapes, layout, bottom, node)?;
    }
    Ok(())
}

fn put_lane(
    alloc: Global,
    shapes: &mut List<Shape>,
    layout: Layout,
    bottom: u32,
    node: u8,
) -> Result<(), NoMemory>
    ensures { OnOk result (shapes.new ≡ shapes.old ++ lane_shapes layout bottom node) }
{
    let words = lane_words(alloc, node)?;
    let x = layout.lane_x(node);
    shapes.push(Shape::Line {
        look: Look::Lane,
        from: Spot { x, y: layout.top() },
        to: Spot { x, y: bottom },
    })?;
    shapes.push(Shape::Words {
        look: Look::Name,
        at: Spot { x, y: 14 },
        words,
    })
}

fn lane_words(alloc: Global, node: u8) -> Result<List<u8>, NoMemory>
    ensures { IfOk result (λ words. words ≡ lane_words node) }
{
    let mut words = List::new(alloc);
    if node < TERMINAL_NODE {
        put(&mut words, b"processor ")?;
        put_number(&mut words, u64::from(node))?;
    } else {
        put(&mut words, b"terminals")?;
    }
    Ok(words)
}

/// Puts the names of all processes above their copies.
fn put_names(
    alloc: Global,
    shapes: &mut List<Shape>,
    layout: Layout,
    site: &Site,
) -> Result<(), NoMemory>
    ensures { OnOk result (shapes.new ≡ shapes.old ++ all_names layout site.now) }
{
    for process in 0..layout.processes {
        let spec = site.processes.get(usize::from(process));
        put_names_of(alloc, shapes, layout, process, spec)?;
    }
    Ok(())
}

fn put_names_of(
    alloc: Global,
    shapes: &mut List<Shape>,
    layout: Layout,
    process: u8,
    spec: Option<&ProcessSpec>,
) -> Result<(), NoMemory>
    ensures { OnOk result (shapes.new ≡ shapes.old ++ names_by layout process (option_copied spec.entry)) }
{
    match spec {
        None => Ok(()),
        Some(spec) => {
            let name = spec.name.text();
            put_name(alloc, shapes, layout, process, spec.primary, name)?;
            put_name(alloc, shapes, layout, process, spec.backup, name)
        }
    }
}

fn put_name(
    alloc: Global,
    shapes: &mut List<Shape>,
    layout: Layout,
    process: u8,
    processor: u8,
    name: &[u8],
) -> Result<(), NoMemory>
    ensures { OnOk result (shapes.new ≡ shapes.old ++ name_shape layout process processor name.now ∷ []) }
{
    let mut words = List::new(alloc);
    put(&mut words, name)?;
    shapes.push(Shape::Words {
        look: Look::Name,
        at: Spot {
            x: layout.copy_x(process, processor),
            y: 28 + 12 * u32::from(process),
        },
        words,
    })
}
