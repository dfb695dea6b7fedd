ghost use Rattle.svg_text.specs.Sheets.{drawing_text};
ghost use Rattle.svg_text.specs.Xml.{IsDocument};
ghost use Rattle.svg_text.specs.declared.drawing.Drawing.{Drawing};

/// The text of a drawing is one whole element of XML: tags close in turn, no name stands twice in a tag, and each sign
/// of words and of attributes means itself, whatever stands in the drawing.
pub fn a_drawing_is_well_formed()
    ensures { (drawing : Drawing) → IsDocument (drawing_text drawing) }
{}
