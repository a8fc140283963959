//! The peer's OPEN parameters.

ghost use Rattle.std.specs.Prelude.{◌≡◌};
ghost use Rattle.bgp_open.specs.Prelude.{is_unicast, capability_value};

use crate::capability_view::CapabilityView;
use bgp_numbers::{afi, safi};
use bgp_wire::OctetSet;

/// The OPEN parameters of a speaker: all but the values of capabilities that have no effect here (RFC 4271, section 4.2).
/// It allocates nothing, and borrows nothing from the octets.
#[derive(Clone, Copy)]
pub struct Peer {
    /// My Autonomous System, as it is in the OPEN.
    pub as_field: u16,
    /// The number of the first capability for AS numbers of four octets, where there is one (RFC 6793, section 3).
    pub as4: Option<u32>,
    /// Its BGP Identifier.
    pub id: [u8; 4],
    /// The Hold Time that it proposes, in seconds: 0 for none.
    pub hold: u16,
    /// Whether it offers IPv4 unicast (RFC 4760, section 8).
    pub ip4: bool,
    /// Whether it offers IPv6 unicast (RFC 4760, section 8).
    pub ip6: bool,
    /// The codes of all its capabilities, whatever their values (RFC 5492, section 4).
    pub codes: OctetSet,
}

/// Whether the capability is for unicast routes of this address family.
fn is_unicast(family: u16, capability: CapabilityView<'_>) -> bool
    ensures { result ≡ is_unicast family (capability_value capability.entry) }
{
    match capability {
        CapabilityView::Multi(of, subsequent) => of == family && subsequent == safi::UNICAST,
        CapabilityView::As4(_) | CapabilityView::Other(_, _) => false,
    }
}

impl Peer {
    ghost use Rattle.std.specs.Prelude.{◌≡◌};
    ghost use Rattle.bgp_open.specs.Peer.{also_offers, number_of, plain, said_of, told_of};

    /// A speaker that offers nothing yet.
    pub(crate) fn new(as_field: u16, hold: u16, id: [u8; 4]) -> Peer
        ensures { told_of result ≡ plain as_field hold id }
    {
        Peer {
            as_field,
            as4: None,
            id,
            hold,
            ip4: false,
            ip6: false,
            codes: OctetSet::new(),
        }
    }

    /// Adds what the capability offers.
    pub(crate) fn offer(&mut self, capability: CapabilityView<'_>)
        ensures { told_of self.new ≡ also_offers (told_of self.old) (capability_value capability.entry) }
    {
        if let (None, CapabilityView::As4(number)) = (self.as4, capability) {
            self.as4 = Some(number);
        }
        self.ip4 = self.ip4 || is_unicast(afi::IPV4, capability);
        self.ip6 = self.ip6 || is_unicast(afi::IPV6, capability);
        self.codes.insert(capability.code());
    }

    /// Its AS number: that of the first capability for AS numbers of four octets, else My Autonomous System (RFC 6793, section 4.1).
    pub fn as_number(&self) -> u32
        ensures { result ≡ number_of (said_of self.now) }
    {
        self.as4.unwrap_or(u32::from(self.as_field))
    }
}
