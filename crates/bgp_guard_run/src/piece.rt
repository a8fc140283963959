//! Octets that were read from a side, and that its guard hasn't consumed.

ghost use Rattle.std.specs.Prelude.{◌≡◌, ◌==◌, [], length, drop, IfOk, OnErr};
ghost use Rattle.std.specs.Io.KnownBytes.{Consumes, Keeps};

use std::alloc::{AllocError, Global};
use std::io;
use std::io::Read;
use std::marker::Model;

/// The number of octets read at once.
pub(crate) const PIECE: usize = 16384;

/// Octets that were read and not consumed, in memory that is allocated once.
#[derive(Drop)]
pub(crate) struct Piece {
    octets: Vec<u8>,
    start: usize,
    end: usize,
}

impl Model for Piece {
    ghost use Rattle.std.specs.Prelude.{◌≡◌, ◌≤◌, ℕ, List, length};
    ghost use Rattle.std.specs.List.{slice_range};

    ghost Value = { List ℕ };

    ghost view = { λ p. slice_range p.octets.items p.start p.end };

    ghost invariant = { λ p. (p.start ≤ p.end) × (p.end ≤ 16384) × (length p.octets.items ≡ 16384) };
}

impl Piece {
    /// Empty.
    ///
    /// # Errors
    /// `AllocError` where an allocation failed.
    pub(crate) fn new(alloc: Global) -> Result<Piece, AllocError>
        ensures { IfOk result (λ p. p ≡ []) }
    {
        Ok(Piece {
            octets: vec![in alloc; 0; PIECE]?,
            start: 0,
            end: 0,
        })
    }

    /// The octets.
    pub(crate) fn as_slice(&self) -> &[u8]
        ensures { result.now ≡ self.now }
    {
        &self.octets[self.start..self.end]
    }

    /// Whether there are none.
    pub(crate) fn is_empty(&self) -> bool
        ensures { result ≡ (length self.now == 0) }
    {
        self.as_slice().is_empty()
    }

    /// Removes the first `n` octets: all of them where there are fewer.
    pub(crate) fn take_off(&mut self, n: usize)
        ensures { self.new ≡ drop n self.old }
    {
        if n < self.end - self.start {
            self.start += n;
        } else {
            self.clear();
        }
    }

    /// Removes all octets.
    pub(crate) fn clear(&mut self)
        ensures { self.new ≡ [] }
    {
        self.start = 0;
        self.end = 0;
    }

    /// Reads once, over what there was.
    pub(crate) fn fill<R: Read>(&mut self, from: &mut R) -> io::Result<usize>
        ensures read { IfOk result (λ _. Consumes (R.remaining from.old) (R.remaining from.new) self.new) }
        ensures count { IfOk result (λ n. n ≡ length self.new) }
        ensures kept { OnErr result (Keeps (R.remaining from.old) (R.remaining from.new)) }
        ensures none { OnErr result (self.new ≡ []) }
    {
        self.start = 0;
        self.end = 0;
        let count = from.read(&mut self.octets)?;
        self.end = count;
        Ok(count)
    }
}
