//! Laws of writing on the sectors of a disc.
ghost use Rattle.std.specs.Prelude.{◌≡◌, ◌≢◌, ◌<◌, ℕ, ℤ, List, length, slice_get, Some, true, false};
ghost use Rattle.mirror.specs.Sectors.{is_written, stored_after};
ghost use Rattle.mirror.specs.declared.stored.Stored.{Stored};

/// A write is done once: after it its words and its number stand on its sector, and the same number writes nothing more
/// there.
pub fn a_number_writes_once()
    ensures done { (sectors : List Stored) (sector : ℕ) (words : List ℤ) (number : ℕ) → sector < length sectors
        → is_written (stored_after sectors sector words number) sector number ≡ true }
    ensures words { (sectors : List Stored) (sector : ℕ) (words : List ℤ) (number : ℕ) → sector < length sectors
        → is_written sectors sector number ≡ false
        → slice_get (stored_after sectors sector words number) sector
        ≡ Some (record { words = words; number = number }) }
    ensures again { (sectors : List Stored) (sector : ℕ) (words other : List ℤ) (number : ℕ) → sector < length sectors
        → stored_after (stored_after sectors sector words number) sector other number
        ≡ stored_after sectors sector words number }
{}

/// A write under another number than that which stands on its sector is done.
pub fn another_number_writes_again()
    ensures new { (sectors : List Stored) (sector : ℕ) (stored : Stored) (number : ℕ)
        → slice_get sectors sector ≡ Some stored
        → stored.number ≢ number → is_written sectors sector number ≡ false }
    ensures after { (sectors : List Stored) (sector : ℕ) (words next : List ℤ) (number later : ℕ)
        → sector < length sectors
        → is_written sectors sector number ≡ false → number ≢ later
        → slice_get (stored_after (stored_after sectors sector words number) sector next later) sector
        ≡ Some (record { words = next; number = later }) }
{}

/// A write changes no other sector, and there are as many as before.
pub fn other_sectors_stay()
    ensures other { (sectors : List Stored) (sector k : ℕ) (words : List ℤ) (number : ℕ) → k ≢ sector
        → slice_get (stored_after sectors sector words number) k ≡ slice_get sectors k }
    ensures count { (sectors : List Stored) (sector : ℕ) (words : List ℤ) (number : ℕ)
        → length (stored_after sectors sector words number) ≡ length sectors }
{}
