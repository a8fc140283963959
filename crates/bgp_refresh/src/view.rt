//! Reading the body of a ROUTE-REFRESH.

ghost use Rattle.std.specs.Prelude.{◌≡◌};
ghost use Rattle.std.specs.Result.{result_map_both};
ghost use Rattle.bgp_refresh.specs.Refresh.{refresh_of, refresh_value};

use crate::fault::RefreshFault;
use crate::mark::RefreshMark;
use bgp_terms::Refreshes;

/// A ROUTE-REFRESH, in the octets that it was read from (RFC 2918, section 3).
#[derive(Clone, Copy, Debug, PartialEq, Eq)]
pub struct RefreshView<'a> {
    /// The address family (AFI).
    pub afi: u16,
    /// The subsequent address family (SAFI).
    pub safi: u8,
    /// What it is for.
    pub mark: RefreshMark,
    /// What follows the four octets of a request, without effect: as entries of outbound route filters (RFC 5291, section 4).
    pub rest: &'a [u8],
}

/// Reads the body of a ROUTE-REFRESH, by what the reader accepts.
///
/// # Errors
/// Fewer than four octets; a BoRR or EoRR, where enhanced refresh is agreed on, of another length than four octets.
pub fn view_refresh(refreshes: Refreshes, body: &[u8]) -> Result<RefreshView<'_>, RefreshFault>
    ensures { result_map_both refresh_value (λ fault. fault) result ≡ refresh_of refreshes body.now }
{
    match body {
        [high, low, subtype, safi, rest @ ..] => {
            let mark = RefreshMark::of(refreshes, *subtype);
            if mark.is_bound() && !rest.is_empty() {
                return Err(RefreshFault::Length);
            }
            Ok(RefreshView {
                afi: u16::from_be_bytes([*high, *low]),
                safi: *safi,
                mark,
                rest,
            })
        }
        [_, _, subtype] if RefreshMark::of(refreshes, *subtype).is_bound() => {
            Err(RefreshFault::Length)
        }
        _ => Err(RefreshFault::Short),
    }
}
