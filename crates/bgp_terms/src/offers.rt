//! What an OPEN offers beyond a context.

ghost use Rattle.std.specs.Prelude.{◌≡◌, ◌||◌};
ghost use Rattle.bgp_open.specs.Prelude.{capability_value, open_value, said_by, said_of};
ghost use Rattle.bgp_terms.specs.Prelude.{also_family, families_in, has_hop6, is_hop6, is_hop_row, offered_by, offered_in, offers_hop6, offers_plain, one_or_none, opaque_of};

use crate::families::Families;
use crate::family::Family;
use crate::paths::{Role, offers_role};
use bgp_numbers::{afi, capability, safi};
use bgp_open::{CapabilityView, Open, OpenView, Peer};

/// The OPEN parameters of a speaker, and what it offers beyond AS numbers of four octets and unicast routes of IPv4 and IPv6. A capability
/// whose value has a wrong length, or an undefined Send/Receive, isn't understood as a whole (RFC 5492, section 3). It allocates nothing.
#[derive(Clone, Copy)]
pub struct Offers {
    /// The speaker's OPEN parameters.
    pub peer: Peer,
    /// ROUTE-REFRESH (RFC 2918, section 2).
    pub refresh: bool,
    /// Enhanced ROUTE-REFRESH, which marks where a refresh begins and ends (RFC 7313, section 3.1).
    pub enhanced: bool,
    /// Messages of up to 65535 octets (RFC 8654, section 3).
    pub long: bool,
    /// IPv4 unicast routes with an IPv6 next hop (RFC 8950, section 4).
    pub hop6: bool,
    /// It receives path identifiers of IPv4 unicast routes (RFC 7911, section 4).
    pub reads4: bool,
    /// It sends path identifiers of IPv4 unicast routes.
    pub sends4: bool,
    /// It receives path identifiers of IPv6 unicast routes.
    pub reads6: bool,
    /// It sends path identifiers of IPv6 unicast routes.
    pub sends6: bool,
    /// The families beyond IPv4 and IPv6 unicast (RFC 4760, section 8): the first 42.
    pub families: Families,
}

/// Whether the capability has this code and, as defined, no value.
fn offers_plain(wanted: u8, offered: CapabilityView<'_>) -> bool
    ensures { result ≡ offers_plain wanted (capability_value offered.entry) }
{
    match offered {
        CapabilityView::Other(code, value) => code == wanted && value.is_empty(),
        CapabilityView::Multi(_, _) | CapabilityView::As4(_) => false,
    }
}

/// Whether a value is a row of six octets for each family.
fn is_hop_row(value: &[u8]) -> bool
    ensures { result ≡ is_hop_row value.now }
{
    let mut rest = value;
    'families: while let [_, _, _, _, _, _, later @ ..] = rest {
        rest = later;
    }
    rest.is_empty()
}

/// Whether a family and that of its next hops are IPv4 unicast and IPv6.
fn is_hop6(row: [u8; 6]) -> bool
    ensures { result ≡ is_hop6 row }
{
    let [a, b, c, d, e, f] = row;
    let is_unicast = u16::from_be_bytes([c, d]) == u16::from(safi::UNICAST);
    u16::from_be_bytes([a, b]) == afi::IPV4 && is_unicast && u16::from_be_bytes([e, f]) == afi::IPV6
}

/// Whether a row says that IPv4 unicast routes can have an IPv6 next hop.
fn has_hop6(value: &[u8]) -> bool
    ensures { result ≡ has_hop6 value.now }
{
    let mut rest = value;
    'families: while let [a, b, c, d, e, f, later @ ..] = rest {
        if is_hop6([*a, *b, *c, *d, *e, *f]) {
            return true;
        }
        rest = later;
    }
    false
}

/// Whether the capability offers such next hops.
fn offers_hop6(offered: CapabilityView<'_>) -> bool
    ensures { result ≡ offers_hop6 (capability_value offered.entry) }
{
    match offered {
        CapabilityView::Other(code, value) => {
            code == capability::EXTENDED_NEXT_HOP && is_hop_row(value) && has_hop6(value)
        }
        CapabilityView::Multi(_, _) | CapabilityView::As4(_) => false,
    }
}

/// The family of the capability, unless it is IPv4 or IPv6 unicast.
fn opaque_family(offered: CapabilityView<'_>) -> Option<Family>
    ensures { result ≡ opaque_of (capability_value offered.entry) }
{
    match offered {
        CapabilityView::Multi(afi, safi) => {
            if safi == safi::UNICAST && (afi == afi::IPV4 || afi == afi::IPV6) {
                None
            } else {
                Some(Family { afi, safi })
            }
        }
        CapabilityView::As4(_) | CapabilityView::Other(_, _) => None,
    }
}

/// The families, and that of the capability, unless it is IPv4 or IPv6 unicast.
fn with_opaque(families: Families, offered: CapabilityView<'_>) -> Families
    ensures { families_in result ≡ also_family (families_in families) (one_or_none (opaque_of (capability_value offered.entry))) }
{
    match opaque_family(offered) {
        None => families,
        Some(family) => families.with(family),
    }
}

/// Whether one of the two is set.
fn either(first: bool, second: bool) -> bool
    ensures { result ≡ (first || second) }
{
    first || second
}

impl Offers {
    ghost use Rattle.bgp_terms.specs.Offers.{no_offer, offered_in, offers_more};

    /// A speaker that offers nothing yet.
    pub(crate) fn new(peer: Peer) -> Offers
        ensures kept { result.peer ≡ peer }
        ensures none { offered_in result ≡ no_offer }
    {
        Offers {
            peer,
            refresh: false,
            enhanced: false,
            long: false,
            hop6: false,
            reads4: false,
            sends4: false,
            reads6: false,
            sends6: false,
            families: Families::none(),
        }
    }

    /// Adds what the capability offers.
    pub(crate) fn offer(&mut self, offered: CapabilityView<'_>)
        ensures kept { self.new.peer ≡ self.old.peer }
        ensures more { offered_in self.new ≡ offers_more (offered_in self.old) (capability_value offered.entry) }
    {
        self.refresh = either(
            self.refresh,
            offers_plain(capability::ROUTE_REFRESH, offered),
        );
        self.enhanced = either(
            self.enhanced,
            offers_plain(capability::ENHANCED_ROUTE_REFRESH, offered),
        );
        self.long = either(
            self.long,
            offers_plain(capability::EXTENDED_MESSAGE, offered),
        );
        self.hop6 = either(self.hop6, offers_hop6(offered));
        self.reads4 = either(self.reads4, offers_role(Role::Reads, afi::IPV4, offered));
        self.sends4 = either(self.sends4, offers_role(Role::Sends, afi::IPV4, offered));
        self.reads6 = either(self.reads6, offers_role(Role::Reads, afi::IPV6, offered));
        self.sends6 = either(self.sends6, offers_role(Role::Sends, afi::IPV6, offered));
        self.families = with_opaque(self.families, offered);
    }
}

/// The OPEN parameters of an OPEN's sender, and what it offers beyond a context.
pub fn offers_of(message: &Open) -> Offers
    ensures peer { said_of result.peer ≡ said_by message.now }
    ensures offered { offered_in result ≡ offered_by message.now.caps }
{
    let mut offers = Offers::new(message.peer());
    for capability in message.caps.iter() {
        offers.offer(capability.view());
    }
    offers
}

/// The OPEN parameters of an OPEN's sender, and what it offers beyond a context.
pub fn offers_in(view: &OpenView<'_>) -> Offers
    ensures peer { said_of result.peer ≡ said_by (open_value view.now) }
    ensures offered { offered_in result ≡ offered_by (open_value view.now).caps }
{
    let mut offers = Offers::new(view.peer());
    for capability in view.capabilities() {
        offers.offer(capability);
    }
    offers
}
