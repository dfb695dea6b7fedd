ghost use Rattle.std.specs.Prelude.{◌≡◌, ◌<◌, ◌==◌, ◌||◌, ◌&&◌, not, ℕ, true, false, IsTrue};
ghost use Rattle.std.specs.Bool.{OnTrue};
ghost use Rattle.gd_words.specs.Members.{is_among};
ghost use Rattle.reason_dues.specs.Sets.{has_number, AreNumbers};

/// A set of numbers below 64.
#[derive(Clone, Copy)]
pub struct Numbers {
    pub bits: u64,
}

impl Numbers {
    /// No number.
    pub fn none() -> Numbers
        ensures { (n : ℕ) → has_number result n ≡ false }
    {
        Numbers { bits: 0 }
    }

    /// All numbers below 64.
    pub fn all() -> Numbers
        ensures { AreNumbers result (λ n. true) }
    {
        Numbers { bits: u64::MAX }
    }

    /// Whether a number is among them.
    pub fn has(self, number: u16) -> bool
        requires { number < 64 }
        ensures { result ≡ has_number self number }
    {
        (self.bits >> number) & 1 == 1
    }

    /// The set with one more, if it is below 64.
    #[inline(always)]
    pub fn with(self, number: u16) -> Numbers
        ensures { AreNumbers result (λ n. (number == n) || has_number self n) }
    {
        if number < 64 {
            Numbers {
                bits: self.bits | (1 << number),
            }
        } else {
            self
        }
    }

    /// The numbers that aren't among them.
    pub fn others(self) -> Numbers
        ensures { AreNumbers result (λ n. not (has_number self n)) }
    {
        Numbers { bits: !self.bits }
    }

    /// The numbers of either set.
    #[inline(always)]
    pub fn or(self, other: Numbers) -> Numbers
        ensures { (n : ℕ) → has_number result n ≡ (has_number self n || has_number other n) }
    {
        Numbers {
            bits: self.bits | other.bits,
        }
    }

    /// The numbers of both sets.
    #[inline(always)]
    pub fn and(self, other: Numbers) -> Numbers
        ensures { (n : ℕ) → has_number result n ≡ (has_number self n && has_number other n) }
    {
        Numbers {
            bits: self.bits & other.bits,
        }
    }

    /// Whether all are among others.
    #[inline(always)]
    pub fn are_among(self, others: Numbers) -> bool
        ensures { OnTrue result ((n : ℕ) → IsTrue (has_number self n) → IsTrue (has_number others n)) }
    {
        self.bits | others.bits == others.bits
    }

    /// The numbers of globals.
    pub fn of_items(items: &[u16]) -> Numbers
        ensures { AreNumbers result (λ n. is_among n items.now) }
    {
        let mut set = Numbers::none();
        let mut left = items;
        while let Some((first, rest)) = left.split_first() {
            set = set.with(*first);
            left = rest;
        }
        set
    }

    /// The numbers of files.
    pub fn of_files(files: &[u8]) -> Numbers
        ensures { AreNumbers result (λ n. is_among n files.now) }
    {
        let mut set = Numbers::none();
        let mut left = files;
        while let Some((first, rest)) = left.split_first() {
            set = set.with(u16::from(*first));
            left = rest;
        }
        set
    }
}
