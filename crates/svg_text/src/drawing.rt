use crate::looks::Look;
use gd_words::List;

/// A place in a drawing: how far it is from the left edge and from the upper one.
#[derive(Clone, Copy, PartialEq, Eq, Drop)]
pub struct Spot {
    pub x: u32,
    pub y: u32,
}

/// One thing that is drawn.
#[derive(Drop)]
pub enum Shape {
    Line {
        look: Look,
        from: Spot,
        to: Spot,
    },
    /// A bar by its upper left corner.
    Bar {
        look: Look,
        at: Spot,
        width: u32,
        height: u32,
    },
    Circle {
        look: Look,
        at: Spot,
        radius: u32,
    },
    Words {
        look: Look,
        at: Spot,
        words: List<u8>,
    },
}

/// Shapes that have a title in common, which a viewer shows who points at one. An empty title is none.
#[derive(Drop)]
pub struct Group {
    pub title: List<u8>,
    pub shapes: List<Shape>,
}

/// A drawing of a size. A group is drawn over the one that is under all others and over those before it.
#[derive(Drop)]
pub struct Drawing {
    pub width: u32,
    pub height: u32,
    pub under: Group,
    pub groups: List<Group>,
}
