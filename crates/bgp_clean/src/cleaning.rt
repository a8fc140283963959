//! Cleaning a message.

ghost use Rattle.std.specs.Prelude.{◌≡◌, ◌+◌, ◌<◌, ◌≤◌, [], ◌∷◌, Ok, length, IfOk, OnErr};
ghost use Rattle.bgp_wire.specs.Prelude.{has_octet};
ghost use Rattle.bgp_frame.specs.Prelude.{octets_of, IsLength, message_in};
ghost use Rattle.bgp_update.specs.Prelude.{routes_value, withdrawal_octets};
ghost use Rattle.bgp_msg.specs.declared.message.Message.{Message};
ghost use Rattle.bgp_msg.specs.Prelude.{canonical};
ghost use Rattle.bgp_msg.specs.declared.message.Message.TheVariants as message;
ghost use Rattle.bgp_clean.specs.Prelude.{cleaned, cleaned_with, refuses_in, IsCleaned, withdrawal};

use crate::cleaned::Cleaned;
use crate::fault::CleanFault;
use crate::limits::Limits;
use crate::opens::clean_open;
use crate::updates::clean_update;
use crate::whole::{Body, put_whole};
use bgp_frame::Frame;
use bgp_msg::{OutcomeView, view_frame};
use bgp_open::Context;
use bgp_terms::Refreshes;
use bgp_update::UpdateView;
use bgp_wire::{OctetSet, Output, are_octets};
use std::alloc::AllocError;

/// Appends the UPDATE that withdraws the routes of one.
fn clean_withdrawal<O: Output>(
    ctx: &Context,
    view: &UpdateView<'_>,
    out: &mut O,
) -> Result<Cleaned, AllocError>
    requires { length (withdrawal_octets (routes_value view.now)) ≤ 4077 }
    ensures value { IfOk result (λ c. IsCleaned ctx.now (Ok (message.Update (withdrawal (routes_value view.now)) ∷ [])) (O.written out.old) (O.written out.new) c) }
    ensures err { OnErr result (O.written out.new ≡ O.written out.old) }
    ensures full { OnErr result (O.room < length (O.written out.old) + 4096) }
{
    put_whole(ctx, &Body::Withdrawal(view), out)?;
    Ok(Cleaned::HandedOn)
}

/// Appends a message unchanged: it is in its one written form already.
fn pass_on<O: Output>(ctx: &Context, frame: Frame<'_>, out: &mut O) -> Result<Cleaned, AllocError>
    requires { IsLength frame.kind (19 + length frame.body.now) }
    ensures value { (n : Message) → canonical ctx.now n ≡ octets_of (message_in frame.entry) → IfOk result (λ c. IsCleaned ctx.now (Ok (n ∷ [])) (O.written out.old) (O.written out.new) c) }
    ensures err { OnErr result (O.written out.new ≡ O.written out.old) }
    ensures full { OnErr result (O.room < length (O.written out.old) + 4096) }
{
    put_whole(ctx, &Body::Same(frame.kind, frame.body), out)?;
    Ok(Cleaned::HandedOn)
}

/// [`clean`], where an OPEN keeps as much of ROUTE-REFRESH (RFC 2918) and enhanced ROUTE-REFRESH (RFC 7313) as `offers`
/// allows.
///
/// # Errors
/// As `clean`.
pub fn clean_with<O: Output>(
    offers: Refreshes,
    ctx: &Context,
    drops: &OctetSet,
    limits: &Limits,
    first: bool,
    frame: Frame<'_>,
    out: &mut O,
) -> Result<Cleaned, AllocError>
    requires { IsLength frame.kind (19 + length frame.body.now) }
    ensures value { IfOk result (λ c. IsCleaned ctx.now (cleaned_with offers ctx.now (has_octet drops.now) (refuses_in ctx.now limits.now) first (message_in frame.entry))
        (O.written out.old) (O.written out.new) c) }
    ensures err { OnErr result (O.written out.new ≡ O.written out.old) }
    ensures full { OnErr result (O.room < length (O.written out.old) + 12288) }
{
    are_octets(frame.body);
    let mut place = UpdateView::empty();
    match view_frame(ctx, frame, &mut place) {
        OutcomeView::Open(view) => clean_open(offers, ctx, first, view, out),
        OutcomeView::Update(view) => clean_update(ctx, drops, limits, view, frame, out),
        OutcomeView::Withdraw(view) => clean_withdrawal(ctx, view, out),
        OutcomeView::Notification(_) => pass_on(ctx, frame, out),
        OutcomeView::Keepalive => pass_on(ctx, frame, out),
        OutcomeView::Reset(why) => Ok(Cleaned::Ends(CleanFault::Reset(why.code, why.subcode))),
    }
}

/// Appends what is passed on of a whole message in a context, as one or more whole messages in their one written form,
/// or says why the cleaned stream ends before it. An UPDATE is passed on in its parts: withdrawn routes, those of NLRI,
/// those of MP_REACH_NLRI; IPv4 routes in the classic fields. Unrecognised attributes of the types in `drops` are left
/// out; routes whose announcement `limits` refuse are withdrawn; `first` says whether the message is the first one of
/// its stream, which an OPEN has to be; an OPEN keeps the capabilities for unicast of IPv4 and IPv6 and for AS numbers of
/// four octets. It allocates only to grow a vector, and never fails where there is room for
/// 12,288 octets more, as in an empty [`Page<12288>`](bgp_wire::Page).
///
/// # Errors
/// `AllocError` where there was no room; nothing is appended then.
pub fn clean<O: Output>(
    ctx: &Context,
    drops: &OctetSet,
    limits: &Limits,
    first: bool,
    frame: Frame<'_>,
    out: &mut O,
) -> Result<Cleaned, AllocError>
    requires { IsLength frame.kind (19 + length frame.body.now) }
    ensures value { IfOk result (λ c. IsCleaned ctx.now (cleaned ctx.now (has_octet drops.now) (refuses_in ctx.now limits.now) first (message_in frame.entry))
        (O.written out.old) (O.written out.new) c) }
    ensures err { OnErr result (O.written out.new ≡ O.written out.old) }
    ensures full { OnErr result (O.room < length (O.written out.old) + 12288) }
{
    clean_with(Refreshes::None, ctx, drops, limits, first, frame, out)
}
