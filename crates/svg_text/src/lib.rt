//! Drawings as data and as text: lines, bars, circles and words in groups, as one SVG that needs nothing else.
//!
//! Below stand `gd_words` with the list that grows and `text_pieces`. The layer above makes a `Drawing`, and puts its
//! text behind another by `put_drawing`, whose clause gives it exactly. By the law `a_drawing_is_well_formed` that text
//! is one whole element of XML (`IsDocument` of `specs/Xml.antt`), whatever the texts are that stand in the drawing.
#![tactic(auto)]

mod arrows;
pub mod drawing;
mod elements;
pub mod laws;
pub mod looks;
mod shapes;
mod sheets;

pub use drawing::{Drawing, Group, Shape, Spot};
pub use laws::a_drawing_is_well_formed;
pub use looks::Look;
pub use sheets::put_drawing;
