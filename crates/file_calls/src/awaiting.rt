ghost use Rattle.std.specs.Prelude.{◌≡◌, ◌↔◌, IsTrue, Some};

/// Whether a reply on this file with this number is the awaited one, where a process may await one on a file with a
/// number.
pub fn accepts(awaiting: Option<(u8, u32)>, file: u8, number: u32) -> bool
    ensures { IsTrue result ↔ (awaiting ≡ Some (file, number)) }
{
    match awaiting {
        None => false,
        Some((awaited_file, awaited_number)) => awaited_file == file && awaited_number == number,
    }
}
