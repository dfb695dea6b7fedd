/// What a text ends with, as far as the layout of the next piece goes.
#[derive(Clone, Copy, PartialEq, Eq)]
pub enum Ending {
    Nothing,
    Line,
    Bracket,
    Name,
    Colon,
    Other,
}
