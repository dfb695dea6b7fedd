ghost use Rattle.std.specs.Prelude.{◌≡◌, ◌≤◌, [], ◌∷◌, ◌++◌, IfOk, OnOk};
ghost use Rattle.chart_drawing.specs.Keys as spec;
ghost use Rattle.chart_drawing.specs.Keys.{bar_key, bar_keys, entry_keys, key_shape, key_y, line_key, line_keys};
ghost use Rattle.chart_drawing.specs.Keys.{node_keys, sign_key, sign_keys};

use crate::drawn::Sign;
use crate::signs::put_sign;
use crate::standing::bar_round;
use gd_words::{List, NoMemory};
use std::alloc::Global;
use svg_text::{Group, Look, Shape, Spot};
use text_pieces::put;

/// What the shapes mean, below a chart that ends there.
pub(crate) fn key_group(alloc: Global, bottom: u32) -> Result<Group, NoMemory>
    requires { bottom ≤ 10000 }
    ensures { IfOk result (λ group. group ≡ spec.key_group bottom) }
{
    let mut shapes = List::new(alloc);
    put_entry_keys(alloc, &mut shapes, bottom)?;
    put_node_keys(alloc, &mut shapes, bottom)?;
    put_sign_keys(alloc, &mut shapes, bottom)?;
    put_line_keys(alloc, &mut shapes, bottom)?;
    put_bar_keys(alloc, &mut shapes, bottom)?;
    Ok(Group {
        title: List::new(alloc),
        shapes,
    })
}

#[tactic(auto, unfolding(crate::specs::Keys::entry_keys))]
fn put_entry_keys(alloc: Global, shapes: &mut List<Shape>, bottom: u32) -> Result<(), NoMemory>
    requires { bottom ≤ 10000 }
    ensures { OnOk result (shapes.new ≡ shapes.old ++ entry_keys bottom) }
{
    put_sign_key(
        alloc,
        shapes,
        bottom,
        0,
        Sign::Letter(b'E'),
        b"a terminal enters a request",
    )?;
    put_sign_key(
        alloc,
        shapes,
        bottom,
        1,
        Sign::Letter(b'R'),
        b"a terminal prints a reply",
    )?;
    put_sign_key(
        alloc,
        shapes,
        bottom,
        2,
        Sign::Letter(b'C'),
        b"a process comes to its CHECKPOINT",
    )?;
    put_sign_key(
        alloc,
        shapes,
        bottom,
        3,
        Sign::Letter(b'P'),
        b"a backup puts the checkpoint in",
    )?;
    put_sign_key(
        alloc,
        shapes,
        bottom,
        4,
        Sign::Letter(b'T'),
        b"a backup takes over",
    )
}

#[tactic(auto, unfolding(crate::specs::Keys::node_keys))]
fn put_node_keys(alloc: Global, shapes: &mut List<Shape>, bottom: u32) -> Result<(), NoMemory>
    requires { bottom ≤ 10000 }
    ensures { OnOk result (shapes.new ≡ shapes.old ++ node_keys bottom) }
{
    put_sign_key(
        alloc,
        shapes,
        bottom,
        5,
        Sign::Letter(b'M'),
        b"a node marks a processor as down",
    )?;
    put_sign_key(
        alloc,
        shapes,
        bottom,
        6,
        Sign::Letter(b'W'),
        b"a disc writes a sector",
    )?;
    put_sign_key(
        alloc,
        shapes,
        bottom,
        7,
        Sign::Letter(b'D'),
        b"a drive fails or is revived or copied",
    )
}

#[tactic(auto, unfolding(crate::specs::Keys::sign_keys))]
fn put_sign_keys(alloc: Global, shapes: &mut List<Shape>, bottom: u32) -> Result<(), NoMemory>
    requires { bottom ≤ 10000 }
    ensures { OnOk result (shapes.new ≡ shapes.old ++ sign_keys bottom) }
{
    put_sign_key(alloc, shapes, bottom, 8, Sign::Dot, b"anything else")?;
    put_sign_key(
        alloc,
        shapes,
        bottom,
        9,
        Sign::Cross,
        b"a processor stops or a packet ends",
    )
}

#[tactic(auto, unfolding(crate::specs::Keys::line_keys))]
fn put_line_keys(alloc: Global, shapes: &mut List<Shape>, bottom: u32) -> Result<(), NoMemory>
    requires { bottom ≤ 10000 }
    ensures { OnOk result (shapes.new ≡ shapes.old ++ line_keys bottom) }
{
    put_line_key(alloc, shapes, bottom, 10, Look::Message, b"a message")?;
    put_line_key(
        alloc,
        shapes,
        bottom,
        11,
        Look::Thin,
        b"any other packet that comes",
    )?;
    put_line_key(
        alloc,
        shapes,
        bottom,
        12,
        Look::Alive,
        b"an alive packet that comes",
    )?;
    put_line_key(
        alloc,
        shapes,
        bottom,
        13,
        Look::Lost,
        b"a packet that is lost or dropped",
    )?;
    put_line_key(
        alloc,
        shapes,
        bottom,
        14,
        Look::Hold,
        b"a node pulls the hold line of a processor",
    )
}

#[tactic(auto, unfolding(crate::specs::Keys::bar_keys))]
fn put_bar_keys(alloc: Global, shapes: &mut List<Shape>, bottom: u32) -> Result<(), NoMemory>
    requires { bottom ≤ 10000 }
    ensures { OnOk result (shapes.new ≡ shapes.old ++ bar_keys bottom) }
{
    put_bar_key(
        alloc,
        shapes,
        bottom,
        15,
        Look::Acting,
        8,
        14,
        b"a copy that acts",
    )?;
    put_bar_key(
        alloc,
        shapes,
        bottom,
        16,
        Look::Watching,
        4,
        14,
        b"a copy that watches",
    )?;
    put_bar_key(
        alloc,
        shapes,
        bottom,
        17,
        Look::Gone,
        2,
        2,
        b"a copy that is gone with its processor",
    )
}

/// Puts what a sign means behind the shapes.
#[tactic(auto, unfolding(crate::specs::Keys::sign_key))]
fn put_sign_key(
    alloc: Global,
    shapes: &mut List<Shape>,
    bottom: u32,
    row: u32,
    sign: Sign,
    words: &[u8],
) -> Result<(), NoMemory>
    requires above { bottom ≤ 10000 }
    requires few { row ≤ 20 }
    ensures { OnOk result (shapes.new ≡ shapes.old ++ sign_key bottom row sign words.now) }
{
    let at = Spot {
        x: 20,
        y: key_y(bottom, row),
    };
    put_sign(alloc, shapes, sign, at)?;
    put_key(alloc, shapes, bottom, row, words)
}

/// Puts what a line means behind the shapes.
#[tactic(auto, unfolding(crate::specs::Keys::line_key))]
fn put_line_key(
    alloc: Global,
    shapes: &mut List<Shape>,
    bottom: u32,
    row: u32,
    look: Look,
    words: &[u8],
) -> Result<(), NoMemory>
    requires above { bottom ≤ 10000 }
    requires few { row ≤ 20 }
    ensures { OnOk result (shapes.new ≡ shapes.old ++ line_key bottom row look words.now) }
{
    let y = key_y(bottom, row);
    shapes.push(Shape::Line {
        look,
        from: Spot { x: 6, y },
        to: Spot { x: 34, y },
    })?;
    put_key(alloc, shapes, bottom, row, words)
}

/// Puts what a bar means behind the shapes.
#[tactic(auto, unfolding(crate::specs::Keys::bar_key))]
fn put_bar_key(
    alloc: Global,
    shapes: &mut List<Shape>,
    bottom: u32,
    row: u32,
    look: Look,
    width: u32,
    height: u32,
    words: &[u8],
) -> Result<(), NoMemory>
    requires above { bottom ≤ 10000 }
    requires few { row ≤ 20 }
    ensures { OnOk result (shapes.new ≡ shapes.old ++ bar_key bottom row look width height words.now) }
{
    let at = Spot {
        x: 20,
        y: key_y(bottom, row),
    };
    shapes.push(bar_round(look, at, width, height))?;
    put_key(alloc, shapes, bottom, row, words)
}

fn put_key(
    alloc: Global,
    shapes: &mut List<Shape>,
    bottom: u32,
    row: u32,
    words: &[u8],
) -> Result<(), NoMemory>
    requires above { bottom ≤ 10000 }
    requires few { row ≤ 20 }
    ensures { OnOk result (shapes.new ≡ shapes.old ++ key_shape bottom row words.now ∷ []) }
{
    let mut copied = List::new(alloc);
    put(&mut copied, words)?;
    shapes.push(Shape::Words {
        look: Look::Key,
        at: Spot {
            x: 44,
            y: key_y(bottom, row) + 4,
        },
        words: copied,
    })
}

/// How far from above a row of the keys is.
fn key_y(bottom: u32, row: u32) -> u32
    requires above { bottom ≤ 10000 }
    requires few { row ≤ 20 }
    ensures value { result ≡ key_y bottom row }
    ensures within { result ≤ 11000 }
{
    bottom + 24 + 16 * row
}
