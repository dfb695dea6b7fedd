/// How the line of an event is written.
#[derive(Clone, Copy, PartialEq, Eq, Drop)]
pub enum Form {
    /// For people.
    Text,
    /// As an object of JSON.
    Json,
}
