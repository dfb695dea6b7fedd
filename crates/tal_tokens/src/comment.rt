ghost use Rattle.std.specs.Prelude.{◌≡◌, ◌<◌, ◌≤◌, ◌+◌, length};
ghost use Rattle.std.specs.List.{position};
ghost use Rattle.tal_tokens.specs.Lexeme.{is_comment_end, comment_of};

/// Where a comment that begins before the text ends, or its line does.
fn comment_end(rest: &[u8]) -> Option<usize>
    ensures { result ≡ position is_comment_end rest.now }
{
    rest.iter().position(|c| *c == b'!' || *c == b'\n')
}

/// How many bytes a comment takes, whose first `!` stands before the text.
pub fn comment(rest: &[u8]) -> usize
    requires room { length rest.now + 1 < 4294967295 }
    ensures value { result ≡ comment_of rest.now }
    ensures within { (1 ≤ result) × (result ≤ length rest.now + 1) }
{
    match comment_end(rest) {
        None => rest.len() + 1,
        Some(k) => k + 2,
    }
}
