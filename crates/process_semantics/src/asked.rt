ghost use Rattle.std.specs.Prelude.{◌≡◌, []};

use tal_values::Words;

/// What a WRITEREAD asks: the number of its file, and the words of the request.
#[derive(Drop)]
pub struct Asked {
    pub file: u8,
    pub words: Words,
}

impl Asked {
    /// No words, on the first file.
    pub fn nothing() -> Asked
        ensures file { result.file ≡ 0 }
        ensures words { result.words ≡ [] }
    {
        Asked {
            file: 0,
            words: Words::new(),
        }
    }
}
