//! The first bits of octets, from the highest bit of the first octet.

ghost use Rattle.std.specs.Prelude.{◌≡◌, ◌≤◌, ◌*◌, ◌↔◌, length, IsTrue};
ghost use Rattle.bgp_wire.specs.Prelude.{AreOctets};
ghost use Rattle.bgp_prefix.specs.Prelude.{octets_for, address_of, HasNoBitPast};

use crate::mask::masks;

/// The least number of octets that holds `len` bits.
pub(crate) fn octets_for(len: u8) -> usize
    ensures value { result ≡ octets_for len }
{
    usize::from(len).div_ceil(8)
}

/// Whether an address of `W` octets has `len` bits.
pub(crate) fn is_allowed<const W: usize>(len: u8) -> bool
    ensures { IsTrue result ↔ (len ≤ 8 * W) }
{
    octets_for(len) <= W
}

/// An address of `W` octets: the first `len` bits of the octets, then zeros.
#[inline(always)]
pub(crate) fn address<const W: usize>(len: u8, octets: &[u8]) -> [u8; W]
    requires { length octets.now ≤ W }
    ensures value { result ≡ address_of W len octets.now }
    // Tells the proof of the caller, which holds an array, what its elements are.
    ensures octets { AreOctets octets.now }
{
    let masks = masks::<W>(len);
    let mut addr = [0; W];
    for (i, octet) in octets.iter().enumerate() {
        addr[i] = *octet & masks[i];
    }
    addr
}

/// Whether no bit of an address from position `len` on is set.
pub(crate) fn is_clear<const W: usize>(len: u8, addr: &[u8; W]) -> bool
    ensures clear { IsTrue result ↔ HasNoBitPast len addr.now }
    ensures octets { AreOctets addr.now }
{
    address(len, addr) == *addr
}
