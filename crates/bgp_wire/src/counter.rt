//! Counting octets as they are written, without keeping them.

ghost use Rattle.std.specs.Prelude.{◌≡◌, ◌+◌, ◌<◌, ◌≤◌, ◌++◌, [], length, take, drop, OnOk, OnErr};
ghost use Rattle.std.specs.List.{insert};

use crate::output::Output;
use crate::trace::Trace;
use std::alloc::AllocError;
use std::marker::Model;

/// The number of octets written, at most `N`: writing here measures them. It allocates nothing.
#[derive(Drop)]
pub struct Counter<const N: usize> {
    octets: Trace,
    len: usize,
}

impl<const N: usize> Model for Counter<N> {
    ghost use Rattle.std.specs.Prelude.{◌≡◌, ℕ, List, ◌≤◌, length};

    ghost Value = { List ℕ };

    ghost view = { λ c. c.octets.octets };

    ghost invariant = { λ c. (c.len ≡ length c.octets.octets) × (c.len ≤ N) };
}

impl<const N: usize> Counter<N> {
    /// A counter at 0.
    #[inline(always)]
    pub fn new() -> Counter<N>
        ensures { result ≡ [] }
    {
        Counter {
            octets: Trace::new(),
            len: 0,
        }
    }

    /// The number of octets written.
    #[inline(always)]
    pub fn count(&self) -> usize
        ensures value { result ≡ length self.now }
        ensures bound { result ≤ N }
    {
        self.len
    }
}

impl<const N: usize> Output for Counter<N> {
    ghost written = { λ c. c };

    ghost room = { N };

    #[inline(always)]
    fn len(&self) -> usize {
        self.len
    }

    #[inline(always)]
    fn put(&mut self, octets: &[u8]) -> Result<(), AllocError> {
        if octets.len() > N - self.len {
            return Err(AllocError);
        }
        self.octets = self.octets.spliced(self.len, self.len, octets);
        self.len += octets.len();
        Ok(())
    }

    #[inline(always)]
    fn insert(&mut self, start: usize, octet: u8) -> Result<(), AllocError> {
        if self.len == N {
            return Err(AllocError);
        }
        self.octets = self.octets.spliced(start, start, &[octet]);
        self.len += 1;
        Ok(())
    }

    #[inline(always)]
    fn replace(&mut self, start: usize, octets: &[u8]) {
        self.octets = self.octets.spliced(start, start + octets.len(), octets);
    }

    #[inline(always)]
    fn truncate(&mut self, len: usize) {
        if len < self.len {
            self.octets = self.octets.spliced(len, self.len, &[]);
            self.len = len;
        }
    }
}
