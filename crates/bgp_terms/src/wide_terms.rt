//! A context, and what goes beyond it.

ghost use Rattle.std.specs.Prelude.{◌≡◌};
ghost use Rattle.bgp_open.specs.Prelude.{said_of};
ghost use Rattle.bgp_terms.specs.Prelude.{offered_in, refreshes_of, terms_with, wide_terms};

use crate::families::Families;
use crate::family::Family;
use crate::member::Member;
use crate::negotiated::Terms;
use crate::offers::Offers;
use crate::refreshes::Refreshes;
use bgp_open::{Context, agreed_context};

/// What was negotiated for one direction of a session, from a sender to a reader. Every combination is allowed.
#[derive(Clone, Copy)]
pub struct WideTerms {
    /// What both speakers offer.
    pub context: Context,
    /// Which ROUTE-REFRESH the reader accepts.
    pub refresh: Refreshes,
    /// Messages may have up to 65535 octets: the reader offers it (RFC 8654, section 4).
    pub long: bool,
    /// A NOTIFICATION to the sender may: the sender offers it.
    pub long_back: bool,
    /// IPv4 unicast routes have path identifiers: the sender sends and the reader receives them (RFC 7911, section 4).
    pub paths4: bool,
    /// IPv6 unicast routes have path identifiers.
    pub paths6: bool,
    /// IPv4 unicast routes may have an IPv6 next hop: the reader offers it (RFC 8950, section 4).
    pub hop6: bool,
    /// The families beyond IPv4 and IPv6 unicast that both offer (RFC 4760, section 8).
    pub families: Families,
    /// Whether both are in one confederation: set by the owner of the session.
    pub member: Member,
}

impl WideTerms {
    ghost use Rattle.bgp_terms.specs.Terms.{plain_terms};

    /// A context with ROUTE-REFRESH as the reader accepts it, and nothing else beyond it.
    pub fn with_refresh(context: Context, refresh: Refreshes) -> WideTerms
        ensures { wide_terms result ≡ record (plain_terms context) { refresh = refresh } }
    {
        WideTerms {
            context,
            refresh,
            long: false,
            long_back: false,
            paths4: false,
            paths6: false,
            hop6: false,
            families: Families::none(),
            member: Member::None,
        }
    }
}

impl Terms for WideTerms {
    ghost use Rattle.bgp_terms.specs.Terms.{wide_terms};

    ghost agreed = { wide_terms };

    #[inline(always)]
    fn context(&self) -> Context {
        self.context
    }

    #[inline(always)]
    fn refresh(&self) -> Refreshes {
        self.refresh
    }

    #[inline(always)]
    fn long(&self) -> bool {
        self.long
    }

    #[inline(always)]
    fn long_back(&self) -> bool {
        self.long_back
    }

    #[inline(always)]
    fn paths4(&self) -> bool {
        self.paths4
    }

    #[inline(always)]
    fn paths6(&self) -> bool {
        self.paths6
    }

    #[inline(always)]
    fn hop6(&self) -> bool {
        self.hop6
    }

    #[inline(always)]
    fn has_family(&self, family: Family) -> bool {
        self.families.contains(family)
    }

    #[inline(always)]
    fn member(&self) -> Member {
        self.member
    }
}

/// The ROUTE-REFRESH of a reader: `refresh` if it offers that, `enhanced` if both offer where it begins and ends.
fn refreshes(refresh: bool, enhanced: bool) -> Refreshes
    ensures { result ≡ refreshes_of refresh enhanced }
{
    match (refresh, enhanced) {
        (false, _) => Refreshes::None,
        (true, false) => Refreshes::Plain,
        (true, true) => Refreshes::Enhanced,
    }
}

/// What a reader accepts from a sender, by the OPENs of both, without memory. Neither is refused, and both ends find the same: one for what it
/// reads, the other for what it sends.
pub fn terms(reader: &Offers, sender: &Offers) -> WideTerms
    ensures { wide_terms result ≡ terms_with (said_of reader.now.peer) (offered_in reader.now) (said_of sender.now.peer) (offered_in sender.now) }
{
    WideTerms {
        context: agreed_context(&reader.peer, &sender.peer),
        refresh: refreshes(reader.refresh, reader.enhanced && sender.enhanced),
        long: reader.long,
        long_back: sender.long,
        paths4: sender.sends4 && reader.reads4,
        paths6: sender.sends6 && reader.reads6,
        hop6: reader.hop6,
        families: reader.families.shared(&sender.families),
        member: Member::None,
    }
}
