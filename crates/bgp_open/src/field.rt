//! Tests of the fields of an OPEN.

ghost use Rattle.std.specs.Prelude.{◌≡◌};
ghost use Rattle.bgp_open.specs.Prelude.{is_short_hold, is_wide, is_zero_id};

/// Whether a Hold Time is 1 or 2 seconds (RFC 4271, section 4.2).
pub(crate) fn is_short_hold(hold: u16) -> bool
    ensures { result ≡ is_short_hold hold }
{
    hold == 1 || hold == 2
}

/// Whether an AS number needs more than the two octets of My Autonomous System (RFC 6793, section 4.1).
pub(crate) fn is_wide(number: u32) -> bool
    ensures { result ≡ is_wide number }
{
    number > u32::from(u16::MAX)
}

/// Whether a BGP Identifier is zero (RFC 6286, section 2.1).
pub(crate) fn is_zero_id(id: [u8; 4]) -> bool
    ensures { result ≡ is_zero_id id }
{
    id == [0; 4]
}
