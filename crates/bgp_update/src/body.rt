//! The parts of an UPDATE's body.

ghost use Rattle.std.specs.Prelude.{◌≡◌, option_map};
ghost use Rattle.bgp_update.specs.Prelude.{behind_two, parts_of, parts_value};

/// The parts of a body (RFC 4271, section 4.3).
#[derive(Clone, Copy)]
pub(crate) struct Body<'a> {
    pub(crate) withdrawn: &'a [u8],
    pub(crate) attributes: &'a [u8],
    pub(crate) nlri: &'a [u8],
}

/// The octets after a length of two octets, and what follows them.
fn split_behind(octets: &[u8]) -> Option<(&[u8], &[u8])>
    ensures { option_map (λ x. (x.0.now, x.1.now)) result ≡ behind_two octets.now }
{
    match octets {
        [high, low, rest @ ..] => {
            rest.split_at_checked(usize::from(u16::from_be_bytes([*high, *low])))
        }
        _ => None,
    }
}

/// The parts of a body, where the lengths leave room for each other.
#[tactic(auto, unfolding(crate::specs::Parts::parts_of))]
pub(crate) fn split_body(body: &[u8]) -> Option<Body<'_>>
    ensures { option_map parts_value result ≡ parts_of body.now }
{
    let (withdrawn, rest) = split_behind(body)?;
    match split_behind(rest) {
        None => None,
        Some((attributes, nlri)) => Some(Body {
            withdrawn,
            attributes,
            nlri,
        }),
    }
}
