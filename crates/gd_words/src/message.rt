use crate::words::Words;

/// A request to a process: `opener` is the requester's place among the process's openers, `number` counts that
/// opener's requests from 1.
#[derive(Drop)]
pub struct Request {
    pub process: u8,
    pub opener: u16,
    pub number: u32,
    pub words: Words,
}

/// The reply to the request of the same process, opener and number.
#[derive(Drop)]
pub struct Reply {
    pub process: u8,
    pub opener: u16,
    pub number: u32,
    pub words: Words,
}
