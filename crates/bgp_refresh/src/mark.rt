//! What a ROUTE-REFRESH is for.

ghost use Rattle.std.specs.Prelude.{◌≡◌};
ghost use Rattle.bgp_refresh.specs.Refresh.{is_bound, mark_of, subtype_of};

use bgp_terms::Refreshes;

/// What a ROUTE-REFRESH is for, by its subtype (RFC 7313, section 3.2): the octet that RFC 2918, section 3, reserves.
#[derive(Clone, Copy, Debug, PartialEq, Eq)]
pub enum RefreshMark {
    /// A request for the routes of the family: subtype 0, and each where enhanced refresh isn't agreed on.
    Request,
    /// The beginning of a refresh (BoRR): subtype 1.
    Begin,
    /// The end of a refresh (EoRR): subtype 2.
    End,
    /// Another subtype: the message has no effect (RFC 7313, section 5).
    Ignored(u8),
}

impl RefreshMark {
    /// What a subtype means by what was negotiated.
    pub fn of(refreshes: Refreshes, subtype: u8) -> RefreshMark
        ensures { result ≡ mark_of refreshes subtype }
    {
        match (refreshes, subtype) {
            (Refreshes::None | Refreshes::Plain, _) | (Refreshes::Enhanced, 0) => {
                RefreshMark::Request
            }
            (Refreshes::Enhanced, 1) => RefreshMark::Begin,
            (Refreshes::Enhanced, 2) => RefreshMark::End,
            (Refreshes::Enhanced, _) => RefreshMark::Ignored(subtype),
        }
    }

    /// The subtype.
    pub fn subtype(self) -> u8
        ensures { result ≡ subtype_of self }
    {
        match self {
            RefreshMark::Request => 0,
            RefreshMark::Begin => 1,
            RefreshMark::End => 2,
            RefreshMark::Ignored(subtype) => subtype,
        }
    }

    /// Whether the length of the message is bound to four octets after the header (RFC 7313, section 5).
    pub(crate) fn is_bound(self) -> bool
        ensures { result ≡ is_bound self }
    {
        matches!(self, RefreshMark::Begin | RefreshMark::End)
    }
}
