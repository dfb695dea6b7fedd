use gd_words::Words;

/// How far a disc is with a request. It has the words that it still needs, and no others.
#[derive(Drop)]
pub enum Phase {
    /// No request is in hand.
    Idle,
    /// The request was taken, and a checkpoint comes next.
    Checkpointing(Words),
    /// The request is to be acted on.
    Acting(Words),
    /// The device has acted, and the reply comes next.
    Answering { request: Words, reply: Words },
}
