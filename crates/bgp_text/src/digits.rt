//! Numbers by their greatest number of decimal digits.

/// A number whose digits fit a word.
pub(crate) trait Digits: Copy {
    ghost use Rattle.std.specs.Prelude.{ℕ, ◌≡◌, ◌≤◌, length};
    ghost use Rattle.bgp_text.specs.Below.{decimal};

    /// The number.
    ghost value: { Self → ℕ };

    /// The greatest number of its decimal digits.
    ghost most: { ℕ };

    /// The number in 64 bits.
    fn wide(self) -> u64
        ensures same { result ≡ value self }
        ensures short { length (decimal result) ≤ most };
}

impl Digits for u8 {
    ghost value = { λ n. n };

    ghost most = { 3 };

    #[tactic(auto, using(crate::proofs::Words::digits_of_8))]
    #[inline(always)]
    fn wide(self) -> u64 {
        u64::from(self)
    }
}

impl Digits for u16 {
    ghost value = { λ n. n };

    ghost most = { 5 };

    #[tactic(auto, using(crate::proofs::Words::digits_of_16))]
    #[inline(always)]
    fn wide(self) -> u64 {
        u64::from(self)
    }
}

impl Digits for u32 {
    ghost value = { λ n. n };

    ghost most = { 10 };

    #[tactic(auto, using(crate::proofs::Words::digits_of_32))]
    #[inline(always)]
    fn wide(self) -> u64 {
        u64::from(self)
    }
}

impl Digits for u64 {
    ghost value = { λ n. n };

    ghost most = { 20 };

    #[tactic(auto, using(crate::proofs::Words::digits_of_64))]
    #[inline(always)]
    fn wide(self) -> u64 {
        self
    }
}
