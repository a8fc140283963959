//! The first octets of what is left.

ghost use Rattle.std.specs.Prelude.{◌≡◌, slice_index};
ghost use Rattle.bgp_fields.specs.Prelude.{two_of, prefix_len, width_of};

/// The octet at an offset, or 0 past the end.
pub(crate) fn octet(octets: &[u8], at: usize) -> u8
    ensures { result ≡ slice_index octets.now at }
{
    match octets.get(at) {
        None => 0,
        Some(octet) => *octet,
    }
}

/// The number in the first two octets.
pub(crate) fn two(octets: &[u8]) -> u16
    ensures { result ≡ two_of octets.now }
{
    u16::from_be_bytes([octet(octets, 0), octet(octets, 1)])
}

/// The length of an address.
fn width_of(ip6: bool) -> u8
    ensures { result ≡ width_of ip6 }
{
    if ip6 { 16 } else { 4 }
}

/// The length of the encoding of a prefix of this length in bits, including its length octet: 0 where the address has fewer bits.
pub(crate) fn prefix_len(ip6: bool, bits: u8) -> usize
    ensures { result ≡ prefix_len (width_of ip6) bits }
{
    if bits <= 8 * width_of(ip6) {
        1 + (usize::from(bits) + 7) / 8
    } else {
        0
    }
}
