ghost use Rattle.std.specs.Prelude.{◌≡◌, ◌≤◌, length};
ghost use Rattle.std.specs.Fmt.{signed_decimal};

use arrayvec::ArrayVec;
use itoa::Buffer;
use std::marker::Model;

/// A number in decimal digits, `-` before a negative one.
#[derive(Drop)]
pub struct Decimal {
    digits: ArrayVec<u8, 20>,
}

impl Model for Decimal {
    ghost use Rattle.std.specs.Prelude.{List, ℕ};

    ghost Value = { List ℕ };

    ghost view = { λ decimal. decimal.digits.items };
}

impl Decimal {
    /// The ASCII bytes.
    pub fn bytes(&self) -> &[u8]
        ensures value { result.now ≡ self.now }
        ensures short { length result.now ≤ 20 }
    {
        self.digits.as_slice()
    }
}

/// The number in decimal digits. It takes no memory.
pub fn decimal_of(value: i64) -> Decimal
    ensures { result ≡ signed_decimal value }
{
    let mut buffer = Buffer::new();
    let text = buffer.format(value).as_bytes();
    let mut digits = ArrayVec::new();
    for byte in text {
        digits.push(*byte);
    }
    Decimal { digits }
}
