//! Attributes that are mandatory in a message.

ghost use Rattle.std.specs.Prelude.{◌≡◌, ◌&&◌, not, false};
ghost use Rattle.bgp_numbers.specs.declared.attribute.TheConstants.{ORIGIN, AS_PATH, NEXT_HOP};
ghost use Rattle.bgp_update.specs.Prelude.{missing_in, saw};

use crate::kept_view::KeptView;
use bgp_numbers::attribute;

/// Which of the attributes that are mandatory in a message with routes are missing (RFC 4271, section 5).
#[derive(Clone, Copy, PartialEq, Eq)]
pub(crate) struct Missing {
    pub(crate) origin: bool,
    pub(crate) as_path: bool,
    pub(crate) next_hop: bool,
}

impl Missing {
    /// Nothing is missing.
    pub(crate) fn none() -> Missing
        ensures { result ≡ record { origin = false; as_path = false; next_hop = false } }
    {
        Missing {
            origin: false,
            as_path: false,
            next_hop: false,
        }
    }
}

/// What is missing in a message with these attributes, kept or not, which announces routes if `reaches`, also in its NLRI field if `has_nlri`.
pub(crate) fn missing_in(reaches: bool, has_nlri: bool, kept: &KeptView<'_>) -> Missing
    ensures { result ≡ missing_in reaches has_nlri (saw kept.now) }
{
    Missing {
        origin: reaches && !kept.saw(attribute::ORIGIN),
        as_path: reaches && !kept.saw(attribute::AS_PATH),
        next_hop: has_nlri && !kept.saw(attribute::NEXT_HOP),
    }
}
