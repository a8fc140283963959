//! Large communities, one after another.

ghost use Rattle.std.specs.Prelude.{◌≡◌, ◌≤◌, length, take, []};
ghost use Rattle.bgp_wire.specs.Prelude.{pieces};
ghost use Rattle.bgp_attr.specs.Numbers.{one_triple};

use crate::large_view::first_new_triple;
use std::iter::FusedIterator;

/// The communities of LARGE_COMMUNITY in order, without duplicates (RFC 8092, section 3). It allocates nothing.
#[derive(Clone, Copy)]
pub struct LargeCommIter<'a> {
    octets: &'a [u8],
    at: usize,
    ghost within: { at ≤ length octets.now },
    ghost row: { (pieces one_triple (take at octets.now)).1 ≡ [] },
}

impl<'a> LargeCommIter<'a> {
    ghost use Rattle.bgp_attr.specs.Numbers.{triples_of, each_once};
    ghost use Rattle.bgp_attr.specs.LargeIter.{triples_left};

    /// The communities of these octets.
    #[tactic(auto, using(crate::proofs::LargeSteps::no_triples))]
    pub(crate) fn new(octets: &'a [u8]) -> LargeCommIter<'a>
        ensures { triples_left result ≡ each_once (triples_of octets.now) }
    {
        LargeCommIter { octets, at: 0 }
    }
}

impl<'a> Iterator for LargeCommIter<'a> {
    ghost use Rattle.std.specs.Iterator.{YieldsFirst, item_count};
    ghost use Rattle.bgp_attr.specs.LargeIter.{triples_left};

    type Item = [u32; 3];

    ghost next_gives = { YieldsFirst triples_left };

    ghost remaining = { item_count triples_left };

    fn next(&mut self) -> Option<[u32; 3]> {
        let (triple, at) = first_new_triple(self.octets, self.at)?;
        self.at = at;
        Some(triple)
    }
}

impl<'a> FusedIterator for LargeCommIter<'a> {}
