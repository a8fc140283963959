//! The offsets of the attributes of a type in an UPDATE's message.

ghost use Rattle.std.specs.Prelude.{◌≡◌, ◌==◌, ◌+◌, ◌≤◌, length, option_map, IfSome};
ghost use Rattle.std.specs.List.{find};
ghost use Rattle.bgp_attr.specs.Prelude.{placed_tlv};
ghost use Rattle.bgp_update.specs.Prelude.{placed_tlvs, parts_of};
ghost use Rattle.ristulva_c.specs.Prelude.{value_at, value_in, kept_at};

use crate::parts::fields_of;
use crate::span::Span;
use bgp_attr::{Tlv, TlvIter};

/// The first attribute of a type.
pub(crate) fn first_of_type(kind: u8, field: &[u8]) -> Option<Tlv<'_>>
    ensures value { option_map placed_tlv result ≡ find (λ q. q.tlv.kind == kind) (placed_tlvs field.now) }
    ensures within { IfSome result (λ t. (t.at + length t.whole.now ≤ length field.now) × (length t.value.now ≤ length t.whole.now)) }
{
    let mut tlvs = TlvIter::new(field);
    'field: while let Some(tlv) = tlvs.next() {
        if tlv.kind == kind {
            return Some(tlv);
        }
    }
    None
}

/// An empty span.
fn nowhere() -> Span
    ensures { result ≡ record { at = 0; len = 0 } }
{
    Span { at: 0, len: 0 }
}

/// The span of an attribute's value, in a message whose attributes begin at this offset.
fn value_at(field: usize, tlv: &Option<Tlv<'_>>) -> Span
    requires { IfSome tlv.now (λ t. (field + t.at + length t.whole.now ≤ 4096) × (length t.value.now ≤ length t.whole.now)) }
    ensures value { result ≡ value_at field (option_map placed_tlv tlv.now) }
    ensures within { result.at + result.len ≤ 4096 }
{
    match tlv {
        None => nowhere(),
        Some(tlv) => Span {
            at: (field + tlv.at + (tlv.whole.len() - tlv.value.len())) as u32,
            len: tlv.value.len() as u32,
        },
    }
}

/// The span of the value of the first attribute of a type, in the message with this body.
fn value_in(kind: u8, body: &[u8]) -> Span
    requires { length body.now ≤ 4077 }
    ensures value { result ≡ value_in kind (parts_of body.now) }
    ensures within { result.at + result.len ≤ 4096 }
{
    match fields_of(body) {
        None => nowhere(),
        Some((withdrawn, field, _)) => value_at(23 + withdrawn, &first_of_type(kind, field)),
    }
}

/// As `value_in`, for an attribute that is kept; else empty.
pub(crate) fn kept_at(is_kept: bool, kind: u8, body: &[u8]) -> Span
    requires { length body.now ≤ 4077 }
    ensures value { result ≡ kept_at is_kept kind (parts_of body.now) }
    ensures within { result.at + result.len ≤ 4096 }
{
    if is_kept {
        value_in(kind, body)
    } else {
        nowhere()
    }
}
