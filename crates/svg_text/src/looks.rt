ghost use Rattle.std.specs.Prelude.{◌≡◌};
ghost use Rattle.svg_text.specs.Looks.{look_name, look_style};

/// How something looks that is drawn: in black, white and grey, so that it reads in print.
#[derive(Clone, Copy, PartialEq, Eq, Drop)]
pub enum Look {
    /// The line of a node.
    Lane,
    /// A copy that acts.
    Acting,
    /// A copy that watches.
    Watching,
    /// A copy that is gone.
    Gone,
    /// A name above a line.
    Name,
    /// The number and the name of an event.
    Event,
    /// A message that comes.
    Message,
    /// A packet that is lost or dropped.
    Lost,
    /// An acknowledgement that comes, or a piece that others follow.
    Thin,
    /// An alive packet that comes.
    Alive,
    /// One of the two strokes of a cross.
    Stroke,
    /// Where an event was.
    Dot,
    /// A circle round a letter.
    Token,
    /// The letter in a circle.
    Letter,
    /// A hold line that is pulled.
    Hold,
    /// What something in the drawing means.
    Key,
}

/// The name of a look in the style sheet.
pub(crate) fn look_name(look: Look) -> &'static [u8]
    ensures { result.now ≡ look_name look }
{
    match look {
        Look::Lane => b"lane",
        Look::Acting => b"acting",
        Look::Watching => b"watching",
        Look::Gone => b"gone",
        Look::Name => b"name",
        Look::Event => b"event",
        Look::Message => b"message",
        Look::Lost => b"lost",
        Look::Thin => b"thin",
        Look::Alive => b"alive",
        Look::Stroke => b"stroke",
        Look::Dot => b"dot",
        Look::Token => b"token",
        Look::Letter => b"letter",
        Look::Hold => b"hold",
        Look::Key => b"key",
    }
}

/// What the style sheet says of a look.
pub(crate) fn look_style(look: Look) -> &'static [u8]
    ensures { result.now ≡ look_style look }
{
    match look {
        Look::Lane => b"stroke:#999",
        Look::Acting => b"fill:#777;shape-rendering:crispEdges",
        Look::Watching => b"fill:#bbb;shape-rendering:crispEdges",
        Look::Gone => b"fill:#999",
        Look::Name => b"font-weight:bold;text-anchor:middle",
        Look::Event => b"fill:#444",
        Look::Message => b"stroke:#000;stroke-width:1.5;marker-end:url(#head)",
        Look::Lost => b"stroke:#000;stroke-width:1.5;stroke-dasharray:5 3",
        Look::Thin => b"stroke:#000;stroke-width:0.5;marker-end:url(#head)",
        Look::Alive => b"stroke:#000;stroke-width:0.5;stroke-dasharray:1 3;marker-end:url(#head)",
        Look::Stroke => b"stroke:#000;stroke-width:2",
        Look::Dot => b"fill:#000",
        Look::Token => b"fill:#fff;stroke:#000",
        Look::Letter => b"font-size:9px;font-weight:bold;text-anchor:middle",
        Look::Hold => b"stroke:#000;stroke-width:3;stroke-dasharray:2 2",
        Look::Key => b"fill:#000",
    }
}
