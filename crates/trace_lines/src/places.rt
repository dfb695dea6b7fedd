use gd_words::List;

/// Where the statements of a site's programs stand in its deck: the deck's lines, and for each process the number of
/// the line, from 1, of each number of its program.
#[derive(Drop)]
pub struct Places {
    pub lines: List<List<u8>>,
    pub programs: List<List<u64>>,
}
