//! The sections of an UPDATE's body.

ghost use Rattle.std.specs.Prelude.{◌≡◌, ◌≤◌, ◌+◌, length, option_map, IfSome};
ghost use Rattle.bgp_update.specs.Prelude.{behind_two, parts_of};
ghost use Rattle.bgp_fields.specs.Prelude.{sections_value};

/// Withdrawn Routes, Path Attributes and NLRI.
#[derive(Clone, Copy)]
pub(crate) struct Sections<'a> {
    pub(crate) withdrawn: &'a [u8],
    pub(crate) attributes: &'a [u8],
    pub(crate) nlri: &'a [u8],
}

/// The octets after a length of two octets, and what follows them.
pub(crate) fn split_behind(octets: &[u8]) -> Option<(&[u8], &[u8])>
    ensures value { option_map (λ x. (x.0.now, x.1.now)) result ≡ behind_two octets.now }
    ensures within { IfSome result (λ x. 2 + (length x.0.now + length x.1.now) ≤ length octets.now) }
{
    let (high, rest) = octets.split_first()?;
    let (low, rest) = rest.split_first()?;
    rest.split_at_checked(usize::from(u16::from_be_bytes([*high, *low])))
}

/// The sections of a body, where the lengths leave room for each other.
#[tactic(auto, unfolding(bgp_update::specs::Parts::parts_of))]
pub(crate) fn split_body(body: &[u8]) -> Option<Sections<'_>>
    ensures value { option_map sections_value result ≡ parts_of body.now }
    ensures within { IfSome result (λ s. 4 + (length s.withdrawn.now + (length s.attributes.now + length s.nlri.now)) ≤ length body.now) }
{
    let (withdrawn, rest) = split_behind(body)?;
    let (attributes, nlri) = split_behind(rest)?;
    Some(Sections {
        withdrawn,
        attributes,
        nlri,
    })
}
