use gd_words::Words;

/// What a copy asks: the file, the number of the request on it, and the words.
#[derive(Drop)]
pub struct Asking {
    pub file: u8,
    pub number: u32,
    pub words: Words,
}

/// What a copy answers: the place of the opener, the number of its request, and the words.
#[derive(Drop)]
pub struct Answering {
    pub opener: u16,
    pub number: u32,
    pub words: Words,
}
