ghost use Rattle.std.specs.Prelude.{◌≡◌, ◌≤◌, length, not};
ghost use Rattle.std.specs.List.{position};
ghost use Rattle.std.specs.Char.{is_ascii_digit};
ghost use Rattle.tal_tree.specs.gd_words.specs.Spelling.{is_ident_sign};
ghost use Rattle.tal_tokens.specs.Lexeme.{run_of, is_octal};

use tal_tree::is_ident_sign;

fn name_end(text: &[u8]) -> Option<usize>
    ensures { result ≡ position (λ c. not (is_ident_sign c)) text.now }
{
    text.iter().position(|c| !is_ident_sign(*c))
}

fn digit_end(text: &[u8]) -> Option<usize>
    ensures { result ≡ position (λ c. not (is_ascii_digit c)) text.now }
{
    text.iter().position(|c| !c.is_ascii_digit())
}

fn is_octal(c: u8) -> bool
    ensures { result ≡ is_octal c }
{
    c >= b'0' && c <= b'7'
}

fn octal_end(text: &[u8]) -> Option<usize>
    ensures { result ≡ position (λ c. not (is_octal c)) text.now }
{
    text.iter().position(|c| !is_octal(*c))
}

/// How many signs of names the text begins with.
pub fn name_run(text: &[u8]) -> usize
    ensures value { result ≡ run_of is_ident_sign text.now }
    ensures within { result ≤ length text.now }
{
    name_end(text).unwrap_or(text.len())
}

/// How many decimal digits the text begins with.
pub fn digit_run(text: &[u8]) -> usize
    ensures value { result ≡ run_of is_ascii_digit text.now }
    ensures within { result ≤ length text.now }
{
    digit_end(text).unwrap_or(text.len())
}

/// How many octal digits the text begins with.
pub fn octal_run(text: &[u8]) -> usize
    ensures value { result ≡ run_of is_octal text.now }
    ensures within { result ≤ length text.now }
{
    octal_end(text).unwrap_or(text.len())
}
