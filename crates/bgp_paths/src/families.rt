//! Families whose routes have path identifiers.

ghost use Rattle.std.specs.Prelude.{◌≡◌};
ghost use Rattle.bgp_paths.specs.Families.{identified, path_families};
ghost use Rattle.bgp_terms.specs.Prelude.{wide_terms};

use bgp_numbers::{afi, safi};
use bgp_terms::WideTerms;

/// Whether the unicast routes of a family have path identifiers, in one direction of a session (RFC 7911, section 4).
#[derive(Clone, Copy, PartialEq, Eq)]
pub struct PathFamilies {
    /// Those of IPv4.
    pub ip4: bool,
    /// Those of IPv6.
    pub ip6: bool,
}

/// The address of a prefix.
#[derive(Clone, Copy, PartialEq, Eq)]
pub(crate) enum Width {
    /// Four octets.
    Ip4,
    /// Sixteen octets.
    Ip6,
}

impl PathFamilies {
    /// The families of the terms of a session.
    pub fn of(terms: &WideTerms) -> PathFamilies
        ensures { result ≡ path_families (wide_terms terms.now) }
    {
        PathFamilies {
            ip4: terms.paths4,
            ip6: terms.paths6,
        }
    }

    /// The family that the value of an MP_REACH_NLRI or MP_UNREACH_NLRI begins with, where its routes have path identifiers.
    pub(crate) fn identified(self, value: &[u8]) -> Option<Width>
        ensures { result ≡ identified self value.now }
    {
        let [high, low, subsequent, ..] = value else {
            return None;
        };
        if *subsequent != safi::UNICAST {
            return None;
        }
        match u16::from_be_bytes([*high, *low]) {
            afi::IPV4 if self.ip4 => Some(Width::Ip4),
            afi::IPV6 if self.ip6 => Some(Width::Ip6),
            _ => None,
        }
    }
}
