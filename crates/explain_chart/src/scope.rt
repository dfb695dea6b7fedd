use charted_runs::Span;

/// What of a run is drawn: the events of a span, with alive packets or without.
#[derive(Clone, Copy, PartialEq, Eq, Drop)]
pub struct Scope {
    pub span: Span,
    pub alive: bool,
}
