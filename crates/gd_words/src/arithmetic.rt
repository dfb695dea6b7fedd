ghost use Rattle.std.specs.Prelude.{◌≡◌, ℤ, pos, ◌+ℤ◌, ◌-ℤ◌, ◌*ℤ◌, neg_ℤ};
ghost use Rattle.gd_words.specs.Arithmetic.{wrap, quotient, IsWrapOf};

/// The wrapped sum of two words.
pub fn wrap_add(a: i16, b: i16) -> i16
    ensures { result ≡ wrap (a +ℤ b) }
{
    a.wrapping_add(b)
}

/// The wrapped difference of two words.
pub fn wrap_sub(a: i16, b: i16) -> i16
    ensures { result ≡ wrap (a -ℤ b) }
{
    a.wrapping_sub(b)
}

/// The wrapped product of two words.
pub fn wrap_mul(a: i16, b: i16) -> i16
    ensures { result ≡ wrap (a *ℤ b) }
{
    a.wrapping_mul(b)
}

/// The wrapped negative of a word: that of -32,768 is itself.
pub fn wrap_neg(a: i16) -> i16
    ensures { result ≡ wrap (neg_ℤ a) }
{
    a.wrapping_neg()
}

/// The quotient of two words toward zero; -32,768 / -1 is -32,768.
pub fn div_trunc(a: i16, b: i16) -> Option<i16>
    ensures { result ≡ quotient a b }
{
    if b == 0 {
        None
    } else if b == -1 {
        Some(a.wrapping_neg())
    } else {
        Some(a / b)
    }
}

/// The law of `wrap`: it gives the one word that differs from a number by a multiple of 65,536.
pub fn wrap_is_the_one_word()
    ensures is { (z : ℤ) → IsWrapOf z (wrap z) }
    ensures only { (z v w : ℤ) → IsWrapOf z v → IsWrapOf z w → v ≡ w }
{}
