//! The octets that a counter counted, which proofs alone read.

ghost use Rattle.std.specs.Prelude.{◌≡◌, ℕ, List, [], ◌++◌, take, drop};
ghost use Rattle.std.specs.Borrow.{ftrue};

use std::marker::Model;

/// Octets that don't exist when the program runs: it allocates nothing, and its calls do nothing.
#[derive(Drop)]
pub(crate) struct Trace {
    pub(crate) ghost octets: { List ℕ },
}

impl Model for Trace {
    ghost also_owns = { λ _. ftrue };
}

impl Trace {
    /// No octets.
    #[inline(always)]
    pub(crate) fn new() -> Trace
        ensures { result.octets ≡ [] }
    {
        Trace {}
    }

    /// The octets with those from `start` to `end` replaced.
    #[inline(always)]
    pub(crate) fn spliced(&self, _start: usize, _end: usize, _octets: &[u8]) -> Trace
        ensures { result.octets ≡ take _start self.now.octets ++ (_octets.now ++ drop _end self.now.octets) }
    {
        Trace {}
    }
}
