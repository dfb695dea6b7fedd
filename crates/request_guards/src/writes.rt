ghost use Rattle.std.specs.Prelude.{◌≡◌, pos, [], ◌∷◌, replicate};
ghost use Rattle.disc_device.specs.Sectors.{blank, stored_after};

/// A write puts its words and its number on its sector. The same number writes no second time, whatever its words;
/// another number does, a smaller one too.
pub fn a_number_writes_once()
    ensures first { stored_after (blank ∷ blank ∷ []) 1 (replicate 8 (pos 5)) 1
        ≡ blank ∷ record { words = replicate 8 (pos 5); number = 1 } ∷ [] }
    ensures again { stored_after (blank ∷ record { words = replicate 8 (pos 5); number = 4 } ∷ []) 1
        (replicate 8 (pos 6)) 4 ≡ blank ∷ record { words = replicate 8 (pos 5); number = 4 } ∷ [] }
    ensures next { stored_after (record { words = replicate 8 (pos 5); number = 4 } ∷ blank ∷ []) 0
        (replicate 8 (pos 6)) 5 ≡ record { words = replicate 8 (pos 6); number = 5 } ∷ blank ∷ [] }
    ensures smaller { stored_after (record { words = replicate 8 (pos 5); number = 4 } ∷ []) 0 (replicate 8 (pos 6)) 3
        ≡ record { words = replicate 8 (pos 6); number = 3 } ∷ [] }
    ensures other_sector { stored_after (record { words = replicate 8 (pos 5); number = 4 } ∷ blank ∷ []) 1
        (replicate 8 (pos 6)) 4 ≡ record { words = replicate 8 (pos 5); number = 4 }
        ∷ record { words = replicate 8 (pos 6); number = 4 } ∷ [] }
{}
