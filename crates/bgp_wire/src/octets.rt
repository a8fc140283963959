//! That octets are below 256.

ghost use Rattle.bgp_wire.specs.Octets.{AreOctets};

/// Octets are below 256. Nothing is done: a call gives this fact to the proof of its caller.
#[inline(always)]
pub fn are_octets(octets: &[u8])
    ensures { AreOctets octets.now }
{
    let _len = octets.len();
}
