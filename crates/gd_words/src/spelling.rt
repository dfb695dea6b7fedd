ghost use Rattle.std.specs.Prelude.{◌≡◌, ◌≤◌, length};
ghost use Rattle.std.specs.List.{list_all};
ghost use Rattle.std.specs.Char.{is_ascii_alphanumeric};
ghost use Rattle.gd_words.specs.Spelling.{text_with_zeros, upper};

/// A text's bytes in upper case in N places, zeros after them.
pub fn upper_padded<const N: usize>(text: &[u8]) -> [u8; N]
    requires { length text.now ≤ N }
    ensures { result ≡ text_with_zeros N (upper text.now) }
{
    let mut bytes = [0; N];
    for (k, byte) in text.iter().enumerate() {
        bytes[k] = byte.to_ascii_uppercase();
    }
    bytes
}

/// Whether each byte is a letter or a digit.
pub fn are_all_alphanumeric(text: &[u8]) -> bool
    ensures { result ≡ list_all is_ascii_alphanumeric text.now }
{
    text.iter().all(|c| c.is_ascii_alphanumeric())
}
