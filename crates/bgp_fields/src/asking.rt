//! The first attribute that calls for a reset, or for a withdrawal.

ghost use Rattle.std.specs.Prelude.{◌≡◌, ◌≤◌, ◌+◌, length, IfSome, if◌then◌else◌};
ghost use Rattle.bgp_wire.specs.Prelude.{has_octet};
ghost use Rattle.bgp_attr.specs.Prelude.{found_attr_value, judgement, tlv_value};
ghost use Rattle.bgp_update.specs.Prelude.{carries_routes, repeated, cut, field_marks};
ghost use Rattle.bgp_fields.specs.Prelude.{asks_for, first_asking};

use bgp_attr::{FoundAttr, Tail, Tlv, TlvIter, judge_attribute};
use bgp_numbers::attribute::{MP_REACH_NLRI, MP_UNREACH_NLRI};
use bgp_open::Context;
use bgp_wire::OctetSet;

/// Whether a judgement calls for a reset, or else for a withdrawal.
fn asks_for(resets: bool, judged: &FoundAttr<'_>) -> bool
    ensures { result ≡ asks_for resets (found_attr_value judged.now) }
{
    match judged {
        FoundAttr::Reset(_) => resets,
        FoundAttr::Withdraw(_) => !resets,
        _ => false,
    }
}

/// Whether attributes of a type carry routes.
fn carries_routes(kind: u8) -> bool
    ensures { result ≡ carries_routes kind }
{
    kind == MP_REACH_NLRI || kind == MP_UNREACH_NLRI
}

/// Whether an attribute calls for that, where its type was seen before or not.
fn attribute_asks(
    resets: bool,
    ctx: &Context,
    has_nlri: bool,
    seen: &OctetSet,
    tlv: &Tlv<'_>,
) -> bool
    requires { length tlv.now.whole.now ≤ 4075 }
    ensures { result ≡ asks_for resets (if has_octet seen.now tlv.now.kind then repeated tlv.now.kind else judgement ctx.now has_nlri (tlv_value tlv.now)) }
{
    if seen.contains(tlv.kind) {
        return resets && carries_routes(tlv.kind);
    }
    asks_for(resets, &judge_attribute(ctx, has_nlri, tlv))
}

/// Whether an attribute that is cut off calls for that.
fn cut_asks(resets: bool, rest: &[u8]) -> bool
    ensures { result ≡ asks_for resets (cut rest.now) }
{
    match rest {
        [_, kind, ..] if carries_routes(*kind) => resets,
        _ => !resets,
    }
}

/// The offset in the field of the first attribute that calls for a reset, or else for a withdrawal.
pub(crate) fn first_asking(
    resets: bool,
    ctx: &Context,
    has_nlri: bool,
    field: &[u8],
) -> Option<usize>
    requires { length field.now ≤ 4075 }
    ensures value { result ≡ first_asking resets (field_marks ctx.now has_nlri field.now) }
    ensures small { IfSome result (λ at. at ≤ 4075) }
{
    let mut seen = OctetSet::new();
    let mut tlvs = TlvIter::new(field);
    'field: while let Some(tlv) = tlvs.next() {
        if attribute_asks(resets, ctx, has_nlri, &seen, &tlv) {
            return Some(tlv.at);
        }
        seen.insert(tlv.kind);
    }
    match tlvs.tail() {
        Tail::Cut(rest) if cut_asks(resets, rest) => Some(field.len().saturating_sub(rest.len())),
        _ => None,
    }
}
