//! What was negotiated for one direction of a session.

ghost use Rattle.std.specs.Prelude.{◌≡◌};

use crate::family::Family;
use crate::member::Member;
use crate::refreshes::Refreshes;
use bgp_open::Context;

/// What was negotiated for one direction of a session: a [`Context`] alone, or more ([`WideTerms`](crate::WideTerms)). Functions that take any
/// `Terms` are compiled for each, so that a context alone costs no test.
pub trait Terms: Copy {
    ghost use Rattle.bgp_terms.specs.Families.{has_family};
    ghost use Rattle.bgp_terms.specs.Terms.{Agreed};

    /// All that was negotiated.
    ghost agreed: { Self → Agreed };

    /// What both speakers offer.
    fn context(&self) -> Context
        ensures { result ≡ (agreed self.now).context };

    /// Which ROUTE-REFRESH the reader accepts (RFC 2918; RFC 7313).
    fn refresh(&self) -> Refreshes
        ensures { result ≡ (agreed self.now).refresh };

    /// Whether messages may have up to 65535 octets (RFC 8654, section 4).
    fn long(&self) -> bool
        ensures { result ≡ (agreed self.now).long };

    /// Whether a NOTIFICATION to the sender may have up to 65535 octets (RFC 8654, section 4).
    fn long_back(&self) -> bool
        ensures { result ≡ (agreed self.now).long_back };

    /// Whether IPv4 unicast routes have path identifiers (RFC 7911, section 4).
    fn paths4(&self) -> bool
        ensures { result ≡ (agreed self.now).paths4 };

    /// Whether IPv6 unicast routes have path identifiers (RFC 7911, section 4).
    fn paths6(&self) -> bool
        ensures { result ≡ (agreed self.now).paths6 };

    /// Whether IPv4 unicast routes may have an IPv6 next hop (RFC 8950, section 4).
    fn hop6(&self) -> bool
        ensures { result ≡ (agreed self.now).hop6 };

    /// Whether both offer routes of a family beyond IPv4 and IPv6 unicast (RFC 4760, section 8).
    fn has_family(&self, family: Family) -> bool
        ensures { result ≡ has_family (agreed self.now).families family };

    /// Whether both are in one confederation (RFC 5065).
    fn member(&self) -> Member
        ensures { result ≡ (agreed self.now).member };
}

impl Terms for Context {
    ghost use Rattle.bgp_terms.specs.Terms.{plain_terms};

    ghost agreed = { plain_terms };

    #[inline(always)]
    fn context(&self) -> Context {
        *self
    }

    #[inline(always)]
    fn refresh(&self) -> Refreshes {
        Refreshes::None
    }

    #[inline(always)]
    fn long(&self) -> bool {
        false
    }

    #[inline(always)]
    fn long_back(&self) -> bool {
        false
    }

    #[inline(always)]
    fn paths4(&self) -> bool {
        false
    }

    #[inline(always)]
    fn paths6(&self) -> bool {
        false
    }

    #[inline(always)]
    fn hop6(&self) -> bool {
        false
    }

    #[inline(always)]
    fn has_family(&self, _family: Family) -> bool {
        false
    }

    #[inline(always)]
    fn member(&self) -> Member {
        Member::None
    }
}
