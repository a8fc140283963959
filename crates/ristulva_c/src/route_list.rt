//! The routes of an UPDATE, announced and withdrawn, in sequence.

ghost use Rattle.std.specs.Prelude.{◌≡◌, ◌+◌, ◌⊎◌, ◌↔◌, ◌≤◌, ◌&&◌, ◌||◌, not, true, false, [], ◌∷◌, length, Some, option_map, IfSome};
ghost use Rattle.bgp_numbers.specs.declared.afi.TheConstants.{IPV4, IPV6};
ghost use Rattle.bgp_frame.specs.Prelude.{IsLength, message_in};
ghost use Rattle.bgp_open.specs.declared.context.Context.{Context};
ghost use Rattle.bgp_attr.specs.Prelude.{reach_value, unreach_value, next_hop_length, placed_tlv, tlv_value, found_attr_value};
ghost use Rattle.bgp_update.specs.Prelude.{Parts, parts_of};
ghost use Rattle.bgp_msg.specs.Prelude.{out_of, outcome_value};
ghost use Rattle.ristulva_c.specs.Prelude.{flag_of, context_of, is_set, IsCursor, IsPadded, is_ip6, has_ip6, carries_ip6, loses_ip6, field_routes, routes_left, moved, route_told, IsRouteCursor, AreBegun, no_prefixes, no_routes, reach_afi, unreach_afi, value_from, prefixes_by, prefixes_at, cursor_by};
ghost use Rattle.ristulva_c.specs.steps.RouteList.{cursor_of};
ghost use Rattle.ristulva_c.specs.declared.status.TheConstants.{END, INCOMPLETE, OK, RANGE};

use crate::context::{SessionContext, context_of};
use crate::opens::flag_of;
use crate::parts::fields_of;
use crate::places::first_of_type;
use crate::prefixes::{Prefixes, RoutePrefix, is_cursor, ristulva_next_prefix};
use crate::status::{END, INCOMPLETE, OK, RANGE};
use bgp_attr::{AttrView, FoundAttr, MpReachView, MpUnreachView, Tlv, judge_attribute};
use bgp_frame::{Frame, Step, front};
use bgp_msg::{OutcomeView, view_frame};
use bgp_numbers::attribute::{MP_REACH_NLRI, MP_UNREACH_NLRI};
use bgp_numbers::{afi, safi};
use bgp_open::Context;
use bgp_update::UpdateView;
use bgp_wire::are_octets;

/// The remaining routes of an UPDATE.
#[repr(C)]
#[derive(Clone, Copy)]
pub struct RouteCursor {
    /// Those of Withdrawn Routes.
    pub withdrawn: Prefixes,
    /// Those of MP_UNREACH_NLRI.
    pub unreached: Prefixes,
    /// Those of MP_REACH_NLRI.
    pub reached: Prefixes,
    /// Those of Network Layer Reachability Information.
    pub nlri: Prefixes,
    /// Whether the last two are announced: 1, or 0 where they are withdrawn.
    pub announces: u8,
    /// Whether the UPDATE has MP_REACH_NLRI or MP_UNREACH_NLRI of IPv6 unicast, perhaps without routes, which the session doesn't use: 1, or 0 for no.
    pub loses_ip6: u8,
}

/// A route.
#[repr(C)]
#[derive(Clone, Copy)]
pub struct Route {
    /// Whether it is announced: 1, or 0 where it is withdrawn.
    pub announced: u8,
    /// Its destinations.
    pub prefix: RoutePrefix,
}

/// No prefixes.
fn no_prefixes() -> Prefixes
    ensures { result ≡ no_prefixes }
{
    Prefixes {
        at: 0,
        end: 0,
        afi: afi::IPV4,
    }
}

/// No routes.
fn no_routes(loses: bool) -> RouteCursor
    ensures { result ≡ no_routes loses }
{
    RouteCursor {
        withdrawn: no_prefixes(),
        unreached: no_prefixes(),
        reached: no_prefixes(),
        nlri: no_prefixes(),
        announces: 0,
        loses_ip6: flag_of(loses),
    }
}

/// The family of MP_REACH_NLRI.
fn reach_afi(reach: &MpReachView<'_>) -> u16
    ensures { result ≡ reach_afi (reach_value reach.now) }
{
    match reach {
        MpReachView::Ip4 { .. } => afi::IPV4,
        MpReachView::Ip6 { .. } => afi::IPV6,
    }
}

/// The family of MP_UNREACH_NLRI.
fn unreach_afi(unreach: &MpUnreachView<'_>) -> u16
    ensures { result ≡ unreach_afi (unreach_value unreach.now) }
{
    match unreach {
        MpUnreachView::Ip4(_) => afi::IPV4,
        MpUnreachView::Ip6(_) => afi::IPV6,
    }
}

/// The length of the next hop of MP_REACH_NLRI.
fn next_hop_length(value: &[u8]) -> usize
    ensures value { result ≡ next_hop_length value.now }
    ensures small { result ≤ 255 }
{
    if value.len() > 3 {
        usize::from(value[3])
    } else {
        0
    }
}

/// The octets of an attribute's value from one of them on.
fn value_from(afi: u16, field: usize, skipped: usize, tlv: &Tlv<'_>) -> Prefixes
    requires room { field + tlv.now.at + length tlv.now.whole.now ≤ 4096 }
    requires longer { length tlv.now.value.now ≤ length tlv.now.whole.now }
    ensures { result ≡ value_from afi field skipped (placed_tlv tlv.now) }
{
    let len = tlv.value.len();
    let at = field + tlv.at + (tlv.whole.len() - len);
    Prefixes {
        at: (at + skipped.min(len)) as u32,
        end: (at + len) as u32,
        afi,
    }
}

/// The prefixes of MP_REACH_NLRI or MP_UNREACH_NLRI, where it is kept.
fn prefixes_by(field: usize, tlv: &Tlv<'_>, judged: &FoundAttr<'_>) -> Prefixes
    requires room { field + tlv.now.at + length tlv.now.whole.now ≤ 4096 }
    requires longer { length tlv.now.value.now ≤ length tlv.now.whole.now }
    ensures { result ≡ prefixes_by field (placed_tlv tlv.now) (found_attr_value judged.now) }
{
    match judged {
        FoundAttr::Keep(AttrView::MpReach(reach)) => {
            value_from(reach_afi(reach), field, 5 + next_hop_length(tlv.value), tlv)
        }
        FoundAttr::Keep(AttrView::MpUnreach(unreach)) => {
            value_from(unreach_afi(unreach), field, 3, tlv)
        }
        _ => no_prefixes(),
    }
}

/// As `prefixes_by`, where there is one.
fn prefixes_at(ctx: &Context, nlri: bool, field: usize, tlv: &Option<Tlv<'_>>) -> Prefixes
    requires { IfSome tlv.now (λ t. (field + t.at + length t.whole.now ≤ 4096) × ((length t.whole.now ≤ 4075) × (length t.value.now ≤ length t.whole.now))) }
    ensures { result ≡ prefixes_at ctx.now nlri field (option_map placed_tlv tlv.now) }
{
    match tlv {
        None => no_prefixes(),
        Some(tlv) => prefixes_by(field, tlv, &judge_attribute(ctx, nlri, tlv)),
    }
}

/// Whether a value begins with the family of IPv6 unicast.
fn is_ip6(value: &[u8]) -> bool
    ensures { result ≡ is_ip6 value.now }
{
    match value {
        [high, low, subsequent, ..] => {
            u16::from_be_bytes([*high, *low]) == afi::IPV6 && *subsequent == safi::UNICAST
        }
        _ => false,
    }
}

/// Whether an attribute is of IPv6 unicast.
fn has_ip6(tlv: &Option<Tlv<'_>>) -> bool
    ensures { result ≡ has_ip6 (option_map placed_tlv tlv.now) }
{
    match tlv {
        None => false,
        Some(tlv) => is_ip6(tlv.value),
    }
}

/// Whether one of these attributes is of IPv6 unicast, which the session doesn't use.
fn loses(ctx: &Context, reach: &Option<Tlv<'_>>, unreach: &Option<Tlv<'_>>) -> bool
    ensures { result ≡ (not ctx.now.ip6 && (has_ip6 (option_map placed_tlv reach.now) || has_ip6 (option_map placed_tlv unreach.now))) }
{
    !ctx.ip6 && (has_ip6(reach) || has_ip6(unreach))
}

/// A cursor at the first of an UPDATE's routes: by the length of Withdrawn Routes, its attributes, and the length of
/// the NLRI field.
fn cursor_of(
    ctx: &Context,
    announces: bool,
    withdrawn: usize,
    field: &[u8],
    nlri: usize,
) -> RouteCursor
    requires { 4 + withdrawn + length field.now + nlri ≤ 4077 }
    ensures { (p : Parts) → length p.withdrawn ≡ withdrawn → p.attributes ≡ field.now → length p.nlri ≡ nlri → result ≡ cursor_of ctx.now announces (not ctx.now.ip6 && carries_ip6 (Some p)) p }
{
    let unreach = first_of_type(MP_UNREACH_NLRI, field);
    let reach = first_of_type(MP_REACH_NLRI, field);
    let behind = 23 + withdrawn + field.len();
    RouteCursor {
        withdrawn: Prefixes {
            at: 21,
            end: (21 + withdrawn) as u32,
            afi: afi::IPV4,
        },
        unreached: prefixes_at(ctx, nlri > 0, 23 + withdrawn, &unreach),
        reached: prefixes_at(ctx, nlri > 0, 23 + withdrawn, &reach),
        nlri: Prefixes {
            at: behind as u32,
            end: (behind + nlri) as u32,
            afi: afi::IPV4,
        },
        announces: flag_of(announces),
        loses_ip6: flag_of(loses(ctx, &reach, &unreach)),
    }
}

/// A cursor at the first of an UPDATE's routes, where its lengths leave room for each other.
pub(crate) fn cursor_in(ctx: &Context, announces: bool, body: &[u8]) -> RouteCursor
    requires { length body.now ≤ 4077 }
    ensures { (p : Parts) → parts_of body.now ≡ Some p → result ≡ cursor_of ctx.now announces (not ctx.now.ip6 && carries_ip6 (Some p)) p }
{
    match fields_of(body) {
        None => no_routes(false),
        Some((withdrawn, field, nlri)) => cursor_of(ctx, announces, withdrawn, field, nlri),
    }
}

/// A cursor at the first of a message's routes.
fn begin(ctx: &SessionContext, frame: Frame<'_>) -> RouteCursor
    requires { IsLength frame.kind (19 + length frame.body.now) }
    ensures { result ≡ cursor_by (context_of ctx.now) (parts_of frame.entry.body.now) (out_of (context_of ctx.now) (message_in frame.entry)) }
{
    let ctx = context_of(ctx);
    let body = frame.body;
    let mut view = UpdateView::empty();
    match view_frame(&ctx, frame, &mut view) {
        OutcomeView::Update(_) => cursor_in(&ctx, true, body),
        OutcomeView::Withdraw(_) => cursor_in(&ctx, false, body),
        _ => no_routes(false),
    }
}

/// Begins a cursor at the first of the routes of the message that octets begin with. Octets after it are ignored.
#[unsafe(no_mangle)]
pub extern "C" fn ristulva_begin_routes(
    ctx: &SessionContext,
    octets: &[u8],
    cursor: &mut RouteCursor,
) -> u32
    ensures { AreBegun (context_of ctx.now) octets.now result cursor.old cursor.new }
{
    are_octets(octets);
    match front(octets) {
        Step::More => INCOMPLETE,
        Step::Frame(frame) => {
            *cursor = begin(ctx, frame);
            OK
        }
        Step::Fault(_) => {
            *cursor = no_routes(false);
            OK
        }
    }
}

/// Whether each of the four cursors lies in octets.
fn are_cursors(octets: &[u8], cursor: &RouteCursor) -> bool
    ensures yes { result ≡ true → IsRouteCursor octets.now cursor.now }
    ensures no { result ≡ false → IsRouteCursor octets.now cursor.now → ⊥ }
{
    is_cursor(octets, &cursor.withdrawn)
        && is_cursor(octets, &cursor.unreached)
        && is_cursor(octets, &cursor.reached)
        && is_cursor(octets, &cursor.nlri)
}

/// Gives the route at one field's cursor, where there is one, and moves the cursor after it.
fn next_in(octets: &[u8], announced: bool, cursor: &mut Prefixes, out: &mut Route) -> bool
    requires { IsCursor octets.now cursor.old }
    ensures given { result ≡ true → field_routes announced octets.now cursor.old ≡ route_told out.new ∷ field_routes announced octets.now cursor.new }
    ensures flag { result ≡ true → out.new.announced ≡ flag_of announced }
    ensures padded { result ≡ true → IsPadded out.new.prefix }
    ensures over { result ≡ false → (field_routes announced octets.now cursor.old ≡ []) × ((cursor.new ≡ cursor.old) × (out.new ≡ out.old)) }
    ensures lies { IsCursor octets.now cursor.new }
    ensures field { cursor.new ≡ record cursor.old { at = cursor.new.at } }
{
    let mut prefix = out.prefix;
    if ristulva_next_prefix(octets, cursor, &mut prefix) != OK {
        return false;
    }
    *out = Route {
        announced: flag_of(announced),
        prefix,
    };
    true
}

/// Gives the route at a cursor, and moves the cursor after it.
#[unsafe(no_mangle)]
pub extern "C" fn ristulva_next_route(
    octets: &[u8],
    cursor: &mut RouteCursor,
    out: &mut Route,
) -> u32
    ensures ok { result ≡ OK → routes_left octets.now cursor.old ≡ route_told out.new ∷ routes_left octets.now cursor.new }
    ensures flag { result ≡ OK → out.new.announced ≤ 1 }
    ensures padded { result ≡ OK → IsPadded out.new.prefix }
    ensures behind { result ≡ OK → IsRouteCursor octets.now cursor.new }
    ensures field { cursor.new ≡ moved cursor.old cursor.new.withdrawn.at cursor.new.unreached.at cursor.new.reached.at cursor.new.nlri.at }
    ensures over { result ≡ END → routes_left octets.now cursor.old ≡ [] }
    ensures range { (result ≡ RANGE) ↔ (IsRouteCursor octets.now cursor.old → ⊥) }
    ensures kept { (result ≡ OK) ⊎ ((cursor.new ≡ cursor.old) × (out.new ≡ out.old)) }
    ensures known { (result ≡ OK) ⊎ ((result ≡ END) ⊎ (result ≡ RANGE)) }
{
    let announces = cursor.announces != 0;
    if !are_cursors(octets, cursor) {
        return RANGE;
    }
    if next_in(octets, false, &mut cursor.withdrawn, out) {
        return OK;
    }
    if next_in(octets, false, &mut cursor.unreached, out) {
        return OK;
    }
    if next_in(octets, announces, &mut cursor.reached, out) {
        return OK;
    }
    if next_in(octets, announces, &mut cursor.nlri, out) {
        return OK;
    }
    END
}
