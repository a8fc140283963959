//! A buffer of fixed size that octets are written to.

ghost use Rattle.std.specs.Prelude.{◌≡◌, ℕ, List, ◌+◌, ◌<◌, ◌≤◌, ◌∷◌, ◌++◌, [], length, take, drop};
ghost use Rattle.std.specs.List.{insert};

use crate::output::Output;
use std::alloc::AllocError;
use std::marker::Model;

/// A buffer of `N` octets, and the number of those written. It allocates nothing.
#[derive(Drop)]
pub struct Page<const N: usize> {
    octets: [u8; N],
    len: usize,
}

impl<const N: usize> Model for Page<N> {
    ghost use Rattle.std.specs.Prelude.{ℕ, List, ◌≤◌, take};

    ghost Value = { List ℕ };

    ghost view = { λ p. take p.len p.octets };

    ghost invariant = { λ p. p.len ≤ N };
}

impl<const N: usize> Page<N> {
    /// An empty buffer.
    #[inline(always)]
    pub fn new() -> Page<N>
        ensures { result ≡ [] }
    {
        Page {
            octets: [0; N],
            len: 0,
        }
    }

    /// The octets written.
    #[inline(always)]
    pub fn as_slice(&self) -> &[u8]
        ensures { result.now ≡ self.now }
    {
        &self.octets[..self.len]
    }

    /// The number of octets written.
    #[inline(always)]
    pub fn count(&self) -> usize
        ensures value { result ≡ length self.now }
        ensures bound { result ≤ N }
    {
        self.len
    }
}

/// Moves the last octet in front of those from `start` on.
#[inline(always)]
fn last_to(octets: &mut [u8], start: usize)
    requires { start < length octets.old }
    ensures { (front : List ℕ) (last : ℕ) → octets.old ≡ front ++ last ∷ [] → octets.new ≡ insert front start last }
{
    octets[start..].rotate_right(1);
}

/// Inserts an octet in front of those from `start` on, of the first `len`.
#[inline(always)]
fn insert_in(all: &mut [u8], len: usize, start: usize, octet: u8)
    requires within { start ≤ len }
    requires room { len < length all.old }
    ensures { take (len + 1) all.new ≡ insert (take len all.old) start octet }
{
    all[len] = octet;
    last_to(&mut all[..len + 1], start);
}

/// Overwrites octets from `start` on.
#[inline(always)]
fn overwrite(octets: &mut [u8], start: usize, others: &[u8])
    requires { start + length others.now ≤ length octets.old }
    ensures { octets.new ≡ take start octets.old ++ (others.now ++ drop (start + length others.now) octets.old) }
{
    let end = start + others.len();
    octets[start..end].copy_from_slice(others);
}

/// Overwrites octets from `start` on, within the first `len`.
#[inline(always)]
fn overwrite_in(all: &mut [u8], len: usize, start: usize, others: &[u8])
    requires within { start + length others.now ≤ len }
    requires room { len ≤ length all.old }
    ensures { take len all.new ≡ take start (take len all.old) ++ (others.now ++ drop (start + length others.now) (take len all.old)) }
{
    overwrite(&mut all[..len], start, others);
}

impl<const N: usize> Output for Page<N> {
    ghost written = { λ p. p };

    ghost room = { N };

    #[inline(always)]
    fn len(&self) -> usize {
        self.len
    }

    #[inline(always)]
    fn put(&mut self, octets: &[u8]) -> Result<(), AllocError> {
        if octets.len() > N - self.len {
            return Err(AllocError);
        }
        let end = self.len + octets.len();
        let all = &mut self.octets[..];
        all[self.len..end].copy_from_slice(octets);
        self.len = end;
        Ok(())
    }

    #[inline(always)]
    fn insert(&mut self, start: usize, octet: u8) -> Result<(), AllocError> {
        if self.len == N {
            return Err(AllocError);
        }
        insert_in(&mut self.octets, self.len, start, octet);
        self.len += 1;
        Ok(())
    }

    #[inline(always)]
    fn replace(&mut self, start: usize, octets: &[u8]) {
        overwrite_in(&mut self.octets, self.len, start, octets);
    }

    #[inline(always)]
    fn truncate(&mut self, len: usize) {
        if len < self.len {
            self.len = len;
        }
    }
}
