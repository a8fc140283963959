//! Values in sequence, from a list or from octets.

use bgp_attr::{AsNumberIter, CommIter, LargeCommIter};
use bgp_prefix::{AsNumber, Prefix, PrefixIter};
use bgp_update::{Note, NoteIter};

/// Values in sequence: those of a list, or those read from octets. One loop prints either.
pub(crate) trait Source: Copy {
    ghost use Rattle.std.specs.Prelude.{List};
    ghost use Rattle.std.specs.Iterator.{YieldsFirst};

    type Item;

    /// Those that are left.
    ghost left: { Self → List Self.Item };

    /// The next one.
    fn step(&mut self) -> Option<Self::Item>
        ensures { YieldsFirst left self.old result self.new };
}

impl<'a, T: Copy> Source for &'a [T] {
    type Item = T;

    ghost left = { λ s. s.now };

    fn step(&mut self) -> Option<T> {
        let (first, rest) = self.split_first()?;
        *self = rest;
        Some(*first)
    }
}

impl<'a, const W: usize> Source for PrefixIter<'a, W> {
    ghost use Rattle.bgp_prefix.specs.PrefixIter.{prefixes_left};

    type Item = Prefix<W>;

    ghost left = { prefixes_left };

    #[inline(always)]
    fn step(&mut self) -> Option<Prefix<W>> {
        self.next()
    }
}

impl<'a> Source for AsNumberIter<'a> {
    ghost use Rattle.bgp_attr.specs.NumberIter.{as_numbers_left};

    type Item = AsNumber;

    ghost left = { as_numbers_left };

    fn step(&mut self) -> Option<AsNumber> {
        self.next()
    }
}

impl<'a> Source for CommIter<'a> {
    ghost use Rattle.bgp_attr.specs.NumberIter.{communities_left};

    type Item = u32;

    ghost left = { communities_left };

    fn step(&mut self) -> Option<u32> {
        self.next()
    }
}

impl<'a> Source for LargeCommIter<'a> {
    ghost use Rattle.bgp_attr.specs.LargeIter.{triples_left};

    type Item = [u32; 3];

    ghost left = { triples_left };

    fn step(&mut self) -> Option<[u32; 3]> {
        self.next()
    }
}

impl<'a> Source for NoteIter<'a> {
    ghost use Rattle.bgp_update.specs.Iters.{notes_left};

    type Item = Note;

    ghost left = { notes_left };

    fn step(&mut self) -> Option<Note> {
        self.next()
    }
}
