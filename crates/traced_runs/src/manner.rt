ghost use Rattle.std.specs.Prelude.{◌≡◌};
ghost use Rattle.traced_runs.specs.Trace.{form_of, is_within, manner_of};

use trace_forms::Form;

/// How a run is told: which of its events, and in which form.
#[derive(Clone, Copy, PartialEq, Eq, Drop)]
pub struct Manner {
    pub span: Span,
    pub form: Form,
}

impl Manner {
    /// From the event of a number to that of another, as JSON or as text.
    pub fn of(from: u32, to: u32, json: bool) -> Manner
        ensures { result ≡ manner_of from to json }
    {
        Manner {
            span: Span { from, to },
            form: form_of(json),
        }
    }
}

fn form_of(json: bool) -> Form
    ensures { result ≡ form_of json }
{
    if json { Form::Json } else { Form::Text }
}

/// The events that are told: those with these numbers, which count from 1, and those between them.
#[derive(Clone, Copy, PartialEq, Eq, Drop)]
pub struct Span {
    pub from: u32,
    pub to: u32,
}

impl Span {
    pub(crate) fn has(self, number: u32) -> bool
        ensures { result ≡ is_within self number }
    {
        self.from <= number && number <= self.to
    }
}
