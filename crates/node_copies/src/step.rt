use sendings::Sending;

/// What became of a step that a process was to make: none was possible, or it was made and sends nothing, or one
/// message.
#[derive(Drop)]
pub enum StepOutcome {
    Impossible,
    Quiet,
    Sends(Sending),
}
