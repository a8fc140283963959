//! The attributes of a field, one after another.

ghost use Rattle.std.specs.Prelude.{◌≤◌, length};

use crate::first_tlv::{first_tlv, skip_tlvs};
use crate::tlv::{Tail, Tlv};
use std::iter::FusedIterator;

/// The attributes that a field begins with, each whole, up to its end or to one that is cut off. It allocates nothing.
#[derive(Clone, Copy)]
pub struct TlvIter<'a> {
    field: &'a [u8],
    at: usize,
    ghost within: { at ≤ length field.now },
}

impl<'a> TlvIter<'a> {
    ghost use Rattle.std.specs.Prelude.{◌≡◌};
    ghost use Rattle.bgp_attr.specs.Tlv.{tlvs_of, placed_from};
    ghost use Rattle.bgp_attr.specs.TlvView.{IsTail};
    ghost use Rattle.bgp_attr.specs.TlvIter.{tlvs_left, rest_left};

    /// The attributes of a field.
    pub fn new(field: &'a [u8]) -> TlvIter<'a>
        ensures attributes { tlvs_left result ≡ placed_from 0 (tlvs_of field.now).0 }
        ensures rest { rest_left result ≡ (tlvs_of field.now).1 }
        ensures field { result.field.now ≡ field.now }
    {
        TlvIter { field, at: 0 }
    }

    /// What follows the last attribute: the same, however many have been returned.
    #[inline(always)]
    pub fn tail(&self) -> Tail<'a>
        ensures { IsTail (rest_left self.now) result }
    {
        let (_, left) = self.field.split_at(self.at);
        if left.is_empty() {
            return Tail::End;
        }
        let rest = skip_tlvs(left);
        if rest.is_empty() {
            Tail::End
        } else {
            Tail::Cut(rest)
        }
    }
}

impl<'a> Iterator for TlvIter<'a> {
    ghost use Rattle.std.specs.Iterator.{item_count};
    ghost use Rattle.bgp_attr.specs.TlvIter.{tlvs_left, GivesTlv};

    type Item = Tlv<'a>;

    ghost next_gives = { GivesTlv };

    ghost remaining = { item_count tlvs_left };

    fn next(&mut self) -> Option<Tlv<'a>> {
        let (_, left) = self.field.split_at(self.at);
        let (tlv, rest) = first_tlv(self.at, left)?;
        self.at = self.field.len() - rest.len();
        Some(tlv)
    }
}

impl<'a> FusedIterator for TlvIter<'a> {}
