//! What is passed on of an OPEN.

ghost use Rattle.std.specs.Prelude.{◌≡◌, ◌+◌, ◌<◌, ◌≤◌, ◌||◌, ◌++◌, false, length, IfOk, OnOk, OnErr};
ghost use Rattle.bgp_msg.specs.declared.message.Message.TheVariants as message;
ghost use Rattle.bgp_msg.specs.Prelude.{canonical};
ghost use Rattle.bgp_numbers.specs.declared.afi.TheConstants.{IPV4, IPV6};
ghost use Rattle.bgp_open.specs.Prelude.{capabilities_left, capability_value, open_value, is_unicast, capability_octets, is_bad, row_octets};
ghost use Rattle.bgp_clean.specs.Prelude.{handed_open, IsCleaned, goes_on, seen_behind, seen_for, understood, understood_with, cleaned_open_with, is_multi, lacks_family, seen_value};
ghost use Rattle.bgp_terms.specs.Prelude.{offers_plain};
ghost use Rattle.bgp_open.specs.declared.capability.Capability.TheVariants.{Other};

use crate::cleaned::Cleaned;
use crate::fault::CleanFault;
use crate::whole::{Body, put_whole};
use arrayvec::ArrayVec;
use bgp_frame::Kind;
use bgp_numbers::{afi, capability, safi};
use bgp_open::{CapabilityIter, CapabilityView, Context, OpenView, open_body};
use bgp_terms::Refreshes;
use bgp_wire::Output;
use std::alloc::AllocError;

/// Which capabilities aren't passed on any more.
#[derive(Clone, Copy)]
struct Seen {
    /// IPv4 unicast (RFC 4760, section 8).
    ip4: bool,
    /// IPv6 unicast.
    ip6: bool,
    /// 4-octet AS numbers (RFC 6793, section 3).
    as4: bool,
    /// ROUTE-REFRESH (RFC 2918, section 2).
    refresh: bool,
    /// Enhanced ROUTE-REFRESH (RFC 7313, section 3.1).
    enhanced: bool,
}

/// Whether a capability of this code and value is one that has no value, and the wanted one.
fn is_plain(wanted: u8, code: u8, value: &[u8]) -> bool
    ensures { result ≡ offers_plain wanted (Other code value.now) }
{
    code == wanted && value.is_empty()
}

impl Seen {
    /// Before the first capability of an OPEN that may offer this ROUTE-REFRESH.
    fn before(offers: Refreshes) -> Seen
        ensures { seen_value result ≡ seen_for offers }
    {
        Seen {
            ip4: false,
            ip6: false,
            as4: false,
            refresh: matches!(offers, Refreshes::None),
            enhanced: !matches!(offers, Refreshes::Enhanced),
        }
    }

    /// Whether a capability is passed on: it is understood, and the first of its kind.
    fn goes_on(&self, capability: &CapabilityView<'_>) -> bool
        ensures { result ≡ goes_on (seen_value self.now) (capability_value capability.now) }
    {
        match capability {
            CapabilityView::Multi(afi::IPV4, safi::UNICAST) => !self.ip4,
            CapabilityView::Multi(afi::IPV6, safi::UNICAST) => !self.ip6,
            CapabilityView::Multi(_, _) => false,
            CapabilityView::As4(_) => !self.as4,
            CapabilityView::Other(code, value) => {
                let refresh = is_plain(capability::ROUTE_REFRESH, *code, value);
                let enhanced = is_plain(capability::ENHANCED_ROUTE_REFRESH, *code, value);
                (!self.refresh && refresh) || (!self.enhanced && enhanced)
            }
        }
    }

    /// Records a capability.
    fn add(&mut self, capability: &CapabilityView<'_>)
        ensures { seen_value self.new ≡ seen_behind (seen_value self.old) (capability_value capability.now) }
    {
        match capability {
            CapabilityView::Multi(afi::IPV4, safi::UNICAST) => self.ip4 = true,
            CapabilityView::Multi(afi::IPV6, safi::UNICAST) => self.ip6 = true,
            CapabilityView::Multi(_, _) => {}
            CapabilityView::As4(_) => self.as4 = true,
            CapabilityView::Other(code, value) => {
                let refresh = is_plain(capability::ROUTE_REFRESH, *code, value);
                let enhanced = is_plain(capability::ENHANCED_ROUTE_REFRESH, *code, value);
                self.refresh = self.refresh || refresh;
                self.enhanced = self.enhanced || enhanced;
            }
        }
    }
}

/// Appends a capability.
fn put_capability(capability: &CapabilityView<'_>, row: &mut ArrayVec<u8, 253>)
    requires { length row.old.items + length (capability_octets (capability_value capability.now)) ≤ 253 }
    ensures { row.new.items ≡ row.old.items ++ capability_octets (capability_value capability.now) }
{
    match capability {
        CapabilityView::Multi(family, subsequent) => {
            let [high, low] = family.to_be_bytes();
            let _ = row.try_extend_from_slice(&[
                capability::MULTIPROTOCOL,
                4,
                high,
                low,
                0,
                *subsequent,
            ]);
        }
        CapabilityView::As4(number) => {
            let [a, b, c, d] = number.to_be_bytes();
            let _ = row.try_extend_from_slice(&[capability::FOUR_OCTET_AS, 4, a, b, c, d]);
        }
        CapabilityView::Other(code, value) => {
            let _ = row.try_extend_from_slice(&[*code, value.len() as u8]);
            let _ = row.try_extend_from_slice(value);
        }
    }
}

/// The octets of the capabilities that are understood, each of a kind once.
fn understood(offers: Refreshes, capabilities: CapabilityIter<'_>) -> ArrayVec<u8, 253>
    requires { length (row_octets (understood_with offers (capabilities_left capabilities))) ≤ 253 }
    ensures { result.items ≡ row_octets (understood_with offers (capabilities_left capabilities.entry)) }
{
    let mut row = ArrayVec::new();
    let mut seen = Seen::before(offers);
    let mut left = capabilities;
    'row: while let Some(capability) = left.next() {
        if seen.goes_on(&capability) {
            put_capability(&capability, &mut row);
        }
        seen.add(&capability);
    }
    row
}

/// The number of capabilities of an OPEN that are passed on where it is to offer no ROUTE-REFRESH: those that are understood, each of a kind once.
pub fn count_understood(view: &OpenView<'_>) -> usize
    ensures { result ≡ length (understood (open_value view.now).caps) }
{
    let mut count = 0;
    let mut seen = Seen::before(Refreshes::None);
    let mut left = view.capabilities();
    'row: while let Some(capability) = left.next() {
        if seen.goes_on(&capability) {
            count += 1;
        }
        seen.add(&capability);
    }
    count
}

/// Whether a capability offers a family.
fn is_multi(capability: &CapabilityView<'_>) -> bool
    ensures { result ≡ is_multi (capability_value capability.now) }
{
    match capability {
        CapabilityView::Multi(_, _) => true,
        _ => false,
    }
}

/// Whether a capability offers IPv4 or IPv6 unicast.
fn is_in_use(capability: &CapabilityView<'_>) -> bool
    ensures { result ≡ (is_unicast IPV4 (capability_value capability.now) || is_unicast IPV6 (capability_value capability.now)) }
{
    match capability {
        CapabilityView::Multi(afi::IPV4 | afi::IPV6, safi::UNICAST) => true,
        _ => false,
    }
}

/// Whether families are offered, and neither IPv4 nor IPv6 unicast.
fn lacks_family(view: &OpenView<'_>) -> bool
    ensures { result ≡ lacks_family (open_value view.now) }
{
    let mut offers = false;
    let mut in_use = false;
    let mut left = view.capabilities();
    'row: while let Some(capability) = left.next() {
        offers = offers || is_multi(&capability);
        in_use = in_use || is_in_use(&capability);
    }
    offers && !in_use
}

/// Appends a whole OPEN, with only the capabilities that are understood.
fn put_open<O: Output>(
    offers: Refreshes,
    ctx: &Context,
    view: &OpenView<'_>,
    out: &mut O,
) -> Result<(), AllocError>
    requires { is_bad (cleaned_open_with offers (open_value view.now)) ≡ false }
    ensures ok { OnOk result (O.written out.new ≡ O.written out.old ++ canonical ctx.now (message.Open (cleaned_open_with offers (open_value view.now)))) }
    ensures err { OnErr result (O.written out.new ≡ O.written out.old) }
    ensures full { OnErr result (O.room < length (O.written out.old) + 4096) }
{
    let row = understood(offers, view.capabilities());
    let body = open_body(view.as_field(), view.hold(), view.id(), &row);
    put_whole(ctx, &Body::Same(Kind::Open, body.as_slice()), out)
}

/// Appends what is passed on of an OPEN, which offers at most this ROUTE-REFRESH, or says why the stream ends before it.
///
/// # Errors
/// `AllocError` where there was no room; nothing is appended then.
pub(crate) fn clean_open<O: Output>(
    offers: Refreshes,
    ctx: &Context,
    first: bool,
    view: OpenView<'_>,
    out: &mut O,
) -> Result<Cleaned, AllocError>
    requires { is_bad (open_value view) ≡ false }
    ensures value { IfOk result (λ c. IsCleaned ctx.now (handed_open offers first (open_value view.entry)) (O.written out.old) (O.written out.new) c) }
    ensures err { OnErr result (O.written out.new ≡ O.written out.old) }
    ensures full { OnErr result (O.room < length (O.written out.old) + 4096) }
{
    if !first {
        return Ok(Cleaned::Ends(CleanFault::LateOpen));
    }
    if lacks_family(&view) {
        return Ok(Cleaned::Ends(CleanFault::NoFamily));
    }
    put_open(offers, ctx, &view, out)?;
    Ok(Cleaned::HandedOn)
}
