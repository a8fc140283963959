//! The parts of an UPDATE.

ghost use Rattle.std.specs.Prelude.{◌≡◌, ◌+◌, ◌≤◌, None, length, option_map, IfSome, MatchOption};
ghost use Rattle.bgp_update.specs.Prelude.{behind_two, parts_of};
ghost use Rattle.ristulva_c.specs.Prelude.{parts_told, fields_of};

use crate::span::Span;

/// The three parts of an UPDATE in its message (RFC 4271, section 4.3).
#[repr(C)]
#[derive(Clone, Copy)]
pub struct ToldParts {
    /// Withdrawn Routes.
    pub withdrawn: Span,
    /// Path Attributes.
    pub attributes: Span,
    /// Network Layer Reachability Information.
    pub nlri: Span,
}

/// Empty spans.
pub(crate) fn no_parts() -> ToldParts
    ensures { result ≡ parts_told None }
{
    let nothing = Span { at: 0, len: 0 };
    ToldParts {
        withdrawn: nothing,
        attributes: nothing,
        nlri: nothing,
    }
}

/// The octets after a length of two octets, and what follows them.
fn split_behind(octets: &[u8]) -> Option<(&[u8], &[u8])>
    ensures value { option_map (λ x. (x.0.now, x.1.now)) result ≡ behind_two octets.now }
    ensures long { IfSome result (λ x. 2 + length x.0.now + length x.1.now ≡ length octets.now) }
{
    let (high, rest) = octets.split_first()?;
    let (low, rest) = rest.split_first()?;
    let len = usize::from(u16::from_be_bytes([*high, *low]));
    rest.split_at_checked(len)
}

/// The path attributes of a body, and the lengths of Withdrawn Routes and the NLRI field.
#[tactic(auto, unfolding(bgp_update::specs::Parts::parts_of))]
pub(crate) fn fields_of(body: &[u8]) -> Option<(usize, &[u8], usize)>
    ensures value { option_map (λ x. (x.0, x.1.now, x.2)) result ≡ option_map fields_of (parts_of body.now) }
    ensures long { IfSome result (λ x. 4 + x.0 + length x.1.now + x.2 ≡ length body.now) }
{
    let (withdrawn, rest) = split_behind(body)?;
    let (attributes, nlri) = split_behind(rest)?;
    Some((withdrawn.len(), attributes, nlri.len()))
}

/// The spans of the parts in the message with this body, where its lengths leave room for each other.
pub(crate) fn told_parts(body: &[u8]) -> Option<ToldParts>
    requires { length body.now ≤ 4077 }
    ensures { MatchOption result (parts_of body.now ≡ None) (λ told. told ≡ parts_told (parts_of body.now)) }
{
    let (withdrawn, attributes, nlri) = fields_of(body)?;
    Some(ToldParts {
        withdrawn: Span {
            at: 21,
            len: withdrawn as u32,
        },
        attributes: Span {
            at: (23 + withdrawn) as u32,
            len: attributes.len() as u32,
        },
        nlri: Span {
            at: (23 + withdrawn + attributes.len()) as u32,
            len: nlri as u32,
        },
    })
}

/// As `told_parts`, or else empty spans.
pub(crate) fn parts_in(body: &[u8]) -> ToldParts
    requires { length body.now ≤ 4077 }
    ensures { result ≡ parts_told (parts_of body.now) }
{
    told_parts(body).unwrap_or(no_parts())
}
