/// How tokens are judged: a text of the grammar, the beginning of one, or not so from one token on, by its place in the
/// list.
#[derive(Clone, Copy, PartialEq, Eq)]
pub enum Judgement {
    Fine,
    Unfinished,
    Unexpected(usize),
    TooDeep(usize),
}
