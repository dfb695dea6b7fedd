ghost use Rattle.std.specs.Prelude.{◌≡◌, ℤ, pos, negsuc, ◌+ℤ◌, ◌-ℤ◌, ◌*ℤ◌, neg_ℤ, Some, None};
ghost use Rattle.gd_words.specs.Arithmetic.{wrap, quotient};

/// 32,767 + 1 is -32,768.
pub fn a_sum_wraps()
    ensures { wrap (pos 32767 +ℤ pos 1) ≡ negsuc 32767 }
{}

/// -32,768 - 1 is 32,767.
pub fn a_difference_wraps()
    ensures { wrap (negsuc 32767 -ℤ pos 1) ≡ pos 32767 }
{}

/// 256 * 256 is 0, and 182 * 182 is -32,412.
pub fn a_product_wraps()
    ensures zero { wrap (pos 256 *ℤ pos 256) ≡ pos 0 }
    ensures negative { wrap (pos 182 *ℤ pos 182) ≡ negsuc 32411 }
{}

/// The least word is its own negative.
pub fn the_least_word_is_its_negative()
    ensures { wrap (neg_ℤ (negsuc 32767)) ≡ negsuc 32767 }
{}

/// -7 / 2 and 7 / -2 are -3, -7 / -2 is 3: a quotient is cut toward zero.
pub fn a_quotient_is_cut_toward_zero()
    ensures left { quotient (negsuc 6) (pos 2) ≡ Some (negsuc 2) }
    ensures right { quotient (pos 7) (negsuc 1) ≡ Some (negsuc 2) }
    ensures both { quotient (negsuc 6) (negsuc 1) ≡ Some (pos 3) }
{}

/// -32,768 / -1 is -32,768.
pub fn the_least_quotient_wraps()
    ensures { quotient (negsuc 32767) (negsuc 0) ≡ Some (negsuc 32767) }
{}

/// There is no quotient over 0.
pub fn zero_divides_nothing()
    ensures { (a : ℤ) → quotient a (pos 0) ≡ None }
{}
