//! Cleaning a message by the terms of a session.

ghost use Rattle.std.specs.Prelude.{◌≡◌, ◌+◌, ◌<◌, ◌≤◌, ◌++◌, ℕ, List, length, IfOk, OnOk, OnErr};
ghost use Rattle.bgp_wire.specs.Prelude.{has_octet};
ghost use Rattle.bgp_frame.specs.Prelude.{message_in};
ghost use Rattle.bgp_terms.specs.Prelude.{plain_terms, wide_terms};
ghost use Rattle.bgp_refresh.specs.Prelude.{refresh_notification, refresh_of, refresh_value};
ghost use Rattle.bgp_clean.specs.Prelude.{cleaned_in, cleaned_refresh, fault_by, refuses_in, has_effect, is_heeded, is_of_family, handed_refresh, octets_handed_in, HasBaseLength, IsCleanedIn};

use crate::cleaned::Cleaned;
use crate::cleaning::clean_with;
use crate::fault::CleanFault;
use crate::limits::Limits;
use bgp_frame::{Frame, Kind, WideKind, head};
use bgp_numbers::{afi, error, safi};
use bgp_open::Context;
use bgp_refresh::{RefreshFault, RefreshMark, RefreshView, view_refresh, write_refresh};
use bgp_terms::{Refreshes, WideTerms};
use bgp_wire::{OctetSet, Output};
use std::alloc::AllocError;

/// Whether a ROUTE-REFRESH of this mark has an effect.
fn has_effect(mark: RefreshMark) -> bool
    ensures { result ≡ has_effect mark }
{
    match mark {
        RefreshMark::Request | RefreshMark::Begin | RefreshMark::End => true,
        RefreshMark::Ignored(_) => false,
    }
}

/// Whether both offer the family.
fn is_of_family(ctx: &Context, view: &RefreshView<'_>) -> bool
    ensures { result ≡ is_of_family ctx.now (refresh_value view.now) }
{
    match (view.afi, view.safi) {
        (afi::IPV4, safi::UNICAST) => ctx.ip4,
        (afi::IPV6, safi::UNICAST) => ctx.ip6,
        _ => false,
    }
}

/// Whether the receiver acts on it.
fn is_heeded(ctx: &Context, view: &RefreshView<'_>) -> bool
    ensures { result ≡ is_heeded ctx.now (refresh_value view.now) }
{
    has_effect(view.mark) && is_of_family(ctx, view)
}

/// Why a stream ends before a ROUTE-REFRESH that is refused.
fn reset_by(fault: RefreshFault) -> CleanFault
    ensures { (body : List ℕ) → result ≡ fault_by (refresh_notification fault body) }
{
    match fault {
        RefreshFault::Short => CleanFault::Reset(error::MESSAGE_HEADER, error::BAD_MESSAGE_LENGTH),
        RefreshFault::Length => {
            CleanFault::Reset(error::ROUTE_REFRESH_MESSAGE, error::INVALID_REFRESH_LENGTH)
        }
    }
}

/// Appends what is passed on of a ROUTE-REFRESH that is accepted: its 23 octets where both offer its family and what it is
/// for is defined, else a KEEPALIVE in its place.
///
/// # Errors
/// `AllocError` where there was no room; nothing is appended then.
pub fn clean_refresh<O: Output>(
    ctx: &Context,
    view: &RefreshView<'_>,
    out: &mut O,
) -> Result<(), AllocError>
    ensures ok { OnOk result (O.written out.new ≡ O.written out.old ++ octets_handed_in (plain_terms ctx.now) (handed_refresh ctx.now (refresh_value view.now))) }
    ensures err { OnErr result (O.written out.new ≡ O.written out.old) }
    ensures full { OnErr result (O.room < length (O.written out.old) + 23) }
{
    if is_heeded(ctx, view) {
        out.put(&write_refresh(view.afi, view.safi, view.mark))
    } else {
        out.put(&head(Kind::Keepalive, 0))
    }
}

/// Appends what is passed on of the body of a ROUTE-REFRESH, or says why the cleaned stream ends before it.
fn clean_body<O: Output>(terms: &WideTerms, body: &[u8], out: &mut O) -> Result<Cleaned, AllocError>
    requires { length body.now ≤ 65516 }
    ensures value { IfOk result (λ c. IsCleanedIn (wide_terms terms.now) (cleaned_refresh terms.now.context body.now (refresh_of terms.now.refresh body.now)) (O.written out.old) (O.written out.new) c) }
    ensures err { OnErr result (O.written out.new ≡ O.written out.old) }
    ensures full { OnErr result (O.room < length (O.written out.old) + 23) }
{
    match view_refresh(terms.refresh, body) {
        Ok(view) => {
            clean_refresh(&terms.context, &view, out)?;
            Ok(Cleaned::HandedOn)
        }
        Err(fault) => Ok(Cleaned::Ends(reset_by(fault))),
    }
}

/// Appends what is passed on of a whole message by these terms, as one or more whole messages in their one written form, or says why the cleaned stream
/// ends before it. A ROUTE-REFRESH is passed on in 23 octets where both offer its family, and what it is for is defined; else a KEEPALIVE replaces it.
/// Of an OPEN's capabilities ROUTE-REFRESH (RFC 2918) and enhanced ROUTE-REFRESH (RFC 7313) are passed on as far as `offers` allows. For all else see
/// [`clean`](crate::clean).
///
/// # Errors
/// `AllocError` where there was no room; nothing is appended then.
pub fn clean_in<O: Output>(
    offers: Refreshes,
    terms: &WideTerms,
    drops: &OctetSet,
    limits: &Limits,
    first: bool,
    frame: Frame<'_, WideKind>,
    out: &mut O,
) -> Result<Cleaned, AllocError>
    requires allowed { HasBaseLength frame.kind (19 + length frame.body.now) }
    requires most { length frame.body.now ≤ 65516 }
    ensures value { IfOk result (λ c. IsCleanedIn (wide_terms terms.now)
        (cleaned_in offers (wide_terms terms.now) (has_octet drops.now) (refuses_in terms.now.context limits.now) first (message_in frame.entry))
        (O.written out.old) (O.written out.new) c) }
    ensures err { OnErr result (O.written out.new ≡ O.written out.old) }
    ensures full { OnErr result (O.room < length (O.written out.old) + 12288) }
{
    let Frame { kind, len, body } = frame;
    match kind {
        WideKind::Base(kind) => clean_with(
            offers,
            &terms.context,
            drops,
            limits,
            first,
            Frame { kind, len, body },
            out,
        ),
        WideKind::Refresh => clean_body(terms, body, out),
    }
}
