//! The prefixes of octets, one after another.

ghost use Rattle.std.specs.Prelude.{◌≡◌, option_map};
ghost use Rattle.bgp_prefix.specs.Prefix.{one_prefix};

use crate::front::{cut_front, skip_run};
use crate::prefix::Prefix;
use std::iter::FusedIterator;

/// The prefixes that octets begin with, up to the end or the first fault. It allocates nothing.
#[derive(Clone, Copy)]
pub struct PrefixIter<'a, const W: usize> {
    pub(crate) rest: &'a [u8],
}

/// The IPv4 prefixes of octets.
pub type PrefixIter4<'a> = PrefixIter<'a, 4>;

/// The IPv6 prefixes of octets.
pub type PrefixIter6<'a> = PrefixIter<'a, 16>;

/// The first prefix of octets, and what follows it (RFC 4271, section 4.3). None where its length is too long, or the octets end
/// before it.
#[inline(always)]
pub fn first_prefix<const W: usize>(octets: &[u8]) -> Option<(Prefix<W>, &[u8])>
    ensures { option_map (λ x. (x.0, x.1.now)) result ≡ one_prefix W octets.now }
{
    let front = cut_front::<W>(octets)?;
    Some((Prefix::from_front(front), front.after))
}

impl<'a, const W: usize> PrefixIter<'a, W> {
    ghost use Rattle.std.specs.Prelude.{length, nat_lt};
    ghost use Rattle.bgp_prefix.specs.Run.{run_of};
    ghost use Rattle.bgp_prefix.specs.PrefixIter.{prefixes_left};

    /// The prefixes of these octets.
    pub fn new(octets: &'a [u8]) -> PrefixIter<'a, W>
        ensures { prefixes_left result ≡ (run_of W octets.now).0 }
    {
        PrefixIter { rest: octets }
    }

    /// Whether a prefix is left.
    #[inline(always)]
    pub fn has_next(&self) -> bool
        ensures { result ≡ nat_lt 0 (length (prefixes_left self.now)) }
    {
        match cut_front::<W>(self.rest) {
            Some(_) => true,
            None => false,
        }
    }

    /// The number of prefixes that are left.
    pub fn left(&self) -> usize
        ensures { result ≡ length (prefixes_left self.now) }
    {
        skip_run::<W>(self.rest).0
    }
}

impl<'a, const W: usize> Iterator for PrefixIter<'a, W> {
    ghost use Rattle.std.specs.Iterator.{YieldsFirst, item_count};
    ghost use Rattle.bgp_prefix.specs.PrefixIter.{prefixes_left};

    type Item = Prefix<W>;

    ghost next_gives = { YieldsFirst prefixes_left };

    ghost remaining = { item_count prefixes_left };

    #[inline(always)]
    fn next(&mut self) -> Option<Prefix<W>> {
        let front = cut_front::<W>(self.rest)?;
        self.rest = front.after;
        Some(Prefix::from_front(front))
    }

    /// Each prefix has at least its length octet.
    fn size_hint(&self) -> (usize, Option<usize>) {
        (0, Some(self.rest.len()))
    }
}

impl<'a, const W: usize> FusedIterator for PrefixIter<'a, W> {}
