//! A prefix: the first bits that a set of addresses shares.

ghost use Rattle.std.specs.Prelude.{◌≡◌, ◌<◌, ◌≤◌, ◌+◌, ◌*◌, ◌↔◌, ◌++◌, length, take};
ghost use Rattle.std.specs.Prelude.{IsSome, IfSome, OnOk, OnErr};
ghost use Rattle.bgp_wire.specs.Prelude.{Extends};
ghost use Rattle.bgp_prefix.specs.Bits.{octets_for, HasNoBitPast};
ghost use Rattle.bgp_prefix.specs.Prefix.{IsValid, prefix_of, spelling_of};

use crate::bits::{address, is_allowed, is_clear, octets_for};
use crate::front::Front;
use bgp_wire::{Output, TryCopy};
use std::alloc::{AllocError, Global};
use std::cmp::Ordering;
use std::marker::Model;

/// The first `len` bits of addresses of `W` octets (RFC 4271, section 4.3; RFC 4760, section 5).
/// Prefixes are ordered by their addresses, octet by octet from the highest, then by their lengths.
#[derive(Clone, Copy, Debug, PartialEq, Eq)]
pub struct Prefix<const W: usize> {
    addr: [u8; W],
    len: u8,
}

/// An IPv4 prefix.
pub type Prefix4 = Prefix<4>;

/// An IPv6 prefix.
pub type Prefix6 = Prefix<16>;

impl<const W: usize> Model for Prefix<W> {
    ghost use Rattle.bgp_prefix.specs.Prefix.{PrefixValue, IsValid};

    ghost Value = { PrefixValue };

    ghost view = { λ p. record { len = p.len; addr = p.addr } };

    ghost invariant = { λ p. IsValid W (record { len = p.len; addr = p.addr }) };

    ghost inverse = { λ p. record { addr = p.addr; len = p.len } };
}

impl<const W: usize> Prefix<W> {
    /// The prefix of the first `len` bits of an address. None where the address has fewer bits, or
    /// one past them is set.
    pub fn new(len: u8, addr: [u8; W]) -> Option<Prefix<W>>
        ensures made { IsSome result ↔ ((len ≤ 8 * W) × HasNoBitPast len addr.entry) }
        ensures value { IfSome result (λ p. p ≡ record { len = len; addr = addr.entry }) }
    {
        if is_allowed::<W>(len) && is_clear(len, &addr) {
            Some(Prefix { addr, len })
        } else {
            None
        }
    }

    /// The length in bits: at most 32 for IPv4, and 128 for IPv6.
    pub fn len(&self) -> u8
        ensures value { result ≡ self.now.len }
        ensures allowed { result ≤ 8 * W }
    {
        self.len
    }

    /// The address, highest octet first. Its bits past the length are 0.
    pub fn addr(&self) -> [u8; W]
        ensures value { result ≡ self.now.addr }
        ensures valid { IsValid W self.now }
    {
        self.addr
    }

    /// The prefix at the front of octets. Bits past the length are ignored.
    #[inline(always)]
    pub(crate) fn from_front(front: Front<'_>) -> Prefix<W>
        requires allowed { front.len ≤ 8 * W }
        requires held { length front.read.now ≡ octets_for front.len }
        requires read { front.read.now ≡ take (octets_for front.len) front.behind.now }
        ensures { result ≡ prefix_of W front.entry.len front.entry.read.now }
    {
        let addr = front.address();
        Prefix {
            addr,
            len: front.len,
        }
    }

    /// Appends the octets of the prefix, with 0 for each bit past the length.
    #[tactic(auto, unfolding(crate::specs::Prefix::spelling_of))]
    pub(crate) fn append_to<O: Output>(&self, out: &mut O) -> Result<(), AllocError>
        ensures ok { OnOk result (O.written out.new ≡ O.written out.old ++ spelling_of self.now) }
        ensures valid { IsValid W self.now }
        ensures err { OnErr result (Extends (O.written out.old) (O.written out.new)) }
        ensures full { OnErr result (O.room < length (O.written out.old) + length (spelling_of self.now)) }
    {
        let Prefix { addr, len } = *self;
        out.put(&[len])?;
        out.put(&addr[..octets_for(len)])
    }
}

impl<const W: usize> Ord for Prefix<W> {
    ghost use Rattle.std.proofs.Common.{rules};
    ghost use Rattle.std.specs.Cmp.Rules.{comparing};
    ghost use Rattle.bgp_prefix.specs.Order.{compare_prefixes};

    ghost cmp = { compare_prefixes };

    ghost total = { Prim.search (comparing, rules) };

    ghost matches_partial_cmp = { Prim.search (comparing, rules) };

    ghost matches_eq = { Prim.search (comparing, rules) };

    fn cmp(&self, other: &Prefix<W>) -> Ordering {
        let by_address = self.addr.cmp(&other.addr);
        by_address.then(self.len.cmp(&other.len))
    }
}

impl<const W: usize> PartialOrd for Prefix<W> {
    ghost use Rattle.std.proofs.Common.{rules};
    ghost use Rattle.std.specs.Cmp.{partial_order_from_own_ties};
    ghost use Rattle.std.specs.Cmp.Rules.{comparing};
    ghost use Rattle.std.specs.Ordering.{as_partial_cmp};
    ghost use Rattle.bgp_prefix.specs.Order.{compare_prefixes};

    ghost partial_cmp = { as_partial_cmp compare_prefixes };

    ghost laws = { partial_order_from_own_ties (Prim.search (comparing, rules)) (Prim.search (comparing, rules)) };

    fn partial_cmp(&self, other: &Prefix<W>) -> Option<Ordering> {
        Some(self.cmp(other))
    }
}

impl<const W: usize> TryCopy for Prefix<W> {
    fn try_copy(&self, _alloc: Global) -> Result<Prefix<W>, AllocError> {
        Ok(*self)
    }
}
