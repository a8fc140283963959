//! Writing a ROUTE-REFRESH.

ghost use Rattle.std.specs.Prelude.{◌≡◌, []};
ghost use Rattle.bgp_refresh.specs.Refresh.{refresh_header, refresh_octets};

use crate::mark::RefreshMark;
use bgp_numbers::message;

/// The header of a ROUTE-REFRESH of this length (RFC 4271, section 4.1).
pub fn refresh_header(length: u16) -> [u8; 19]
    ensures { result ≡ refresh_header length }
{
    let mut octets = [255; 19];
    let [high, low] = length.to_be_bytes();
    octets[16] = high;
    octets[17] = low;
    octets[18] = message::ROUTE_REFRESH;
    octets
}

/// The whole message of a ROUTE-REFRESH for a family (RFC 2918, section 3; RFC 7313, section 3.2).
pub fn write_refresh(afi: u16, safi: u8, mark: RefreshMark) -> [u8; 23]
    ensures { result ≡ refresh_octets (record { afi = afi; safi = safi; mark = mark; rest = [] }) }
{
    let mut octets = [255; 23];
    let [high, low] = afi.to_be_bytes();
    octets[16] = 0;
    octets[17] = 23;
    octets[18] = message::ROUTE_REFRESH;
    octets[19] = high;
    octets[20] = low;
    octets[21] = mark.subtype();
    octets[22] = safi;
    octets
}
