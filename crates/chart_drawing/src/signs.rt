ghost use Rattle.std.specs.Prelude.{◌≡◌, ◌++◌, OnOk};
ghost use Rattle.chart_drawing.specs.Layout.{IsOnChart};
ghost use Rattle.chart_drawing.specs.Signs as spec;
ghost use Rattle.chart_drawing.specs.Signs.{cross_shapes, letter_shapes, sign_shapes};

use crate::drawn::Sign;
use gd_words::{List, NoMemory};
use std::alloc::Global;
use svg_text::{Look, Shape, Spot};

/// Puts a sign at a place behind the shapes.
pub(crate) fn put_sign(
    alloc: Global,
    shapes: &mut List<Shape>,
    sign: Sign,
    at: Spot,
) -> Result<(), NoMemory>
    requires { IsOnChart at }
    ensures { OnOk result (shapes.new ≡ shapes.old ++ sign_shapes sign at) }
{
    match sign {
        Sign::Dot => shapes.push(dot(at)),
        Sign::Cross => put_cross(shapes, at),
        Sign::Letter(letter) => put_letter(alloc, shapes, letter, at),
    }
}

pub(crate) fn dot(at: Spot) -> Shape
    ensures { result ≡ spec.dot at }
{
    Shape::Circle {
        look: Look::Dot,
        at,
        radius: 2,
    }
}

pub(crate) fn put_cross(shapes: &mut List<Shape>, at: Spot) -> Result<(), NoMemory>
    requires { IsOnChart at }
    ensures { OnOk result (shapes.new ≡ shapes.old ++ cross_shapes at) }
{
    let left = at.x.saturating_sub(4);
    let right = at.x + 4;
    let above = at.y.saturating_sub(4);
    let below = at.y + 4;
    shapes.push(stroke(left, above, right, below))?;
    shapes.push(stroke(left, below, right, above))
}

fn stroke(x1: u32, y1: u32, x2: u32, y2: u32) -> Shape
    ensures { result ≡ spec.stroke x1 y1 x2 y2 }
{
    Shape::Line {
        look: Look::Stroke,
        from: Spot { x: x1, y: y1 },
        to: Spot { x: x2, y: y2 },
    }
}

fn put_letter(alloc: Global, shapes: &mut List<Shape>, letter: u8, at: Spot) -> Result<(), NoMemory>
    requires { IsOnChart at }
    ensures { OnOk result (shapes.new ≡ shapes.old ++ letter_shapes letter at) }
{
    let mut words = List::new(alloc);
    words.push(letter)?;
    shapes.push(Shape::Circle {
        look: Look::Token,
        at,
        radius: 6,
    })?;
    shapes.push(Shape::Words {
        look: Look::Letter,
        at: Spot {
            x: at.x,
            y: at.y + 3,
        },
        words,
    })
}
