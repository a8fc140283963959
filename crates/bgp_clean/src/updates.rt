//! What is passed on of an UPDATE.

ghost use Rattle.std.specs.Prelude.{◌≡◌, ◌+◌, ◌<◌, ◌≤◌, ◌++◌, [], ◌∷◌, true, if◌then◌else◌, is_some, None, Ok, length, IfOk, OnOk, OnErr};
ghost use Rattle.bgp_frame.specs.Prelude.{message_in};
ghost use Rattle.bgp_update.specs.Prelude.{chosen_update, update_value, CanBeWritten};
ghost use Rattle.bgp_wire.specs.Prelude.{has_octet, Extends};
ghost use Rattle.bgp_clean.specs.steps.Parts.{is_announcing, part_update, CanBePut, PartsCanBePut};
ghost use Rattle.bgp_clean.specs.steps.Written.{updates_octets};
ghost use Rattle.bgp_clean.specs.Prelude.{cleaned_update, ended_family, end_of, gone_routes, handed_update, has_any, listed, nlri_part, nlri_routes, octets_handed, or_keepalive, parts_handed, reached_part, reached_routes, refuses_in, unless_refused, withdrawal, IsCleaned};

use crate::checking::breaks;
use crate::cleaned::Cleaned;
use crate::limits::Limits;
use crate::part::{Part, PartView, has_gone, has_nlri, has_reached};
use crate::whole::{Body, put_whole};
use bgp_frame::{Frame, Kind};
use bgp_numbers::afi;
use bgp_open::Context;
use bgp_update::{ByType, Chosen, UpdateView, ended_family};
use bgp_wire::{OctetSet, Output};
use std::alloc::AllocError;

/// Appends a part as a whole message.
fn put_part<O: Output>(
    ctx: &Context,
    chosen: &Chosen<'_, '_>,
    part: Part,
    out: &mut O,
) -> Result<(), AllocError>
    requires { CanBePut ctx.now (part_update part (chosen_update chosen.now)) }
    ensures ok { OnOk result (O.written out.new ≡ O.written out.old ++ updates_octets ctx.now (part_update part (chosen_update chosen.now) ∷ [])) }
    ensures most { OnOk result (length (O.written out.new) ≤ length (O.written out.old) + 4096) }
    ensures err { OnErr result (O.written out.new ≡ O.written out.old) }
    ensures full { OnErr result (O.room < length (O.written out.old) + 4096) }
{
    let view = PartView { chosen, part };
    put_whole(ctx, &Body::Part(&view), out)
}

/// Appends a part that announces routes, or, where it is refused, one that withdraws them.
fn announce<O: Output>(
    ctx: &Context,
    limits: &Limits,
    chosen: &Chosen<'_, '_>,
    part: Part,
    gone: Part,
    out: &mut O,
) -> Result<(), AllocError>
    requires announces { is_announcing part ≡ true }
    requires put { CanBePut ctx.now (part_update part (chosen_update chosen.now)) }
    requires gone { CanBePut ctx.now (part_update gone (chosen_update chosen.now)) }
    ensures ok { OnOk result (O.written out.new ≡ O.written out.old ++ updates_octets ctx.now ((if refuses_in ctx.now limits.now (part_update part (chosen_update chosen.now))
        then part_update gone (chosen_update chosen.now) else part_update part (chosen_update chosen.now)) ∷ [])) }
    ensures most { OnOk result (length (O.written out.new) ≤ length (O.written out.old) + 4096) }
    ensures err { OnErr result (O.written out.new ≡ O.written out.old) }
    ensures full { OnErr result (O.room < length (O.written out.old) + 4096) }
{
    if breaks(limits, &PartView { chosen, part }) {
        return put_part(ctx, chosen, gone, out);
    }
    let start = out.len();
    put_part(ctx, chosen, part, out)?;
    let most = 4096usize.saturating_sub(usize::from(limits.room));
    if out.len() - start <= most {
        return Ok(());
    }
    out.truncate(start);
    put_part(ctx, chosen, gone, out)
}

/// Appends the message with the withdrawn routes, where there are some.
fn put_gone<O: Output>(
    ctx: &Context,
    chosen: &Chosen<'_, '_>,
    out: &mut O,
) -> Result<(), AllocError>
    requires { PartsCanBePut ctx.now (chosen_update chosen.now) }
    ensures ok { OnOk result (O.written out.new ≡ O.written out.old ++ updates_octets ctx.now
        (listed (has_any (gone_routes (chosen_update chosen.now))) (withdrawal (gone_routes (chosen_update chosen.now))))) }
    ensures most { OnOk result (length (O.written out.new) ≤ length (O.written out.old) + 4096) }
    ensures err { OnErr result (O.written out.new ≡ O.written out.old) }
    ensures full { OnErr result (O.room < length (O.written out.old) + 4096) }
{
    if has_gone(chosen.view()) {
        put_part(ctx, chosen, Part::Gone, out)
    } else {
        Ok(())
    }
}

/// Appends what is passed on of NLRI, where it has routes.
fn put_nlri<O: Output>(
    ctx: &Context,
    limits: &Limits,
    chosen: &Chosen<'_, '_>,
    out: &mut O,
) -> Result<(), AllocError>
    requires { PartsCanBePut ctx.now (chosen_update chosen.now) }
    ensures ok { OnOk result (O.written out.new ≡ O.written out.old ++ updates_octets ctx.now (listed (has_any (nlri_routes (chosen_update chosen.now)))
        (unless_refused (refuses_in ctx.now limits.now (nlri_part (chosen_update chosen.now))) (nlri_part (chosen_update chosen.now)) (nlri_routes (chosen_update chosen.now))))) }
    ensures most { OnOk result (length (O.written out.new) ≤ length (O.written out.old) + 4096) }
    ensures err { OnErr result (O.written out.new ≡ O.written out.old) }
    ensures full { OnErr result (O.room < length (O.written out.old) + 4096) }
{
    if has_nlri(chosen.view()) {
        announce(ctx, limits, chosen, Part::Nlri, Part::NlriGone, out)
    } else {
        Ok(())
    }
}

/// Appends what is passed on of MP_REACH_NLRI, where it has routes.
fn put_reached<O: Output>(
    ctx: &Context,
    limits: &Limits,
    chosen: &Chosen<'_, '_>,
    out: &mut O,
) -> Result<(), AllocError>
    requires { PartsCanBePut ctx.now (chosen_update chosen.now) }
    ensures ok { OnOk result (O.written out.new ≡ O.written out.old ++ updates_octets ctx.now (listed (has_any (reached_routes (chosen_update chosen.now)))
        (unless_refused (refuses_in ctx.now limits.now (reached_part (chosen_update chosen.now))) (reached_part (chosen_update chosen.now)) (reached_routes (chosen_update chosen.now))))) }
    ensures most { OnOk result (length (O.written out.new) ≤ length (O.written out.old) + 4096) }
    ensures err { OnErr result (O.written out.new ≡ O.written out.old) }
    ensures full { OnErr result (O.room < length (O.written out.old) + 4096) }
{
    if has_reached(chosen.view()) {
        announce(ctx, limits, chosen, Part::Reached, Part::ReachedGone, out)
    } else {
        Ok(())
    }
}

/// Appends all parts; some octets may remain where there was no room.
fn put_parts<O: Output>(
    ctx: &Context,
    limits: &Limits,
    chosen: &Chosen<'_, '_>,
    out: &mut O,
) -> Result<(), AllocError>
    requires { PartsCanBePut ctx.now (chosen_update chosen.now) }
    ensures ok { OnOk result (O.written out.new ≡ O.written out.old ++ updates_octets ctx.now (parts_handed (refuses_in ctx.now limits.now) (chosen_update chosen.now))) }
    ensures err { OnErr result (Extends (O.written out.old) (O.written out.new)) }
    ensures full { OnErr result (O.room < length (O.written out.old) + 12288) }
{
    put_gone(ctx, chosen, out)?;
    put_nlri(ctx, limits, chosen, out)?;
    put_reached(ctx, limits, chosen, out)
}

/// As `put_parts`, but appends nothing where there was no room.
fn put_all<O: Output>(
    ctx: &Context,
    limits: &Limits,
    chosen: &Chosen<'_, '_>,
    out: &mut O,
) -> Result<(), AllocError>
    requires { PartsCanBePut ctx.now (chosen_update chosen.now) }
    ensures ok { OnOk result (O.written out.new ≡ O.written out.old ++ updates_octets ctx.now (parts_handed (refuses_in ctx.now limits.now) (chosen_update chosen.now))) }
    ensures err { OnErr result (O.written out.new ≡ O.written out.old) }
    ensures full { OnErr result (O.room < length (O.written out.old) + 12288) }
{
    let start = out.len();
    match put_parts(ctx, limits, chosen, out) {
        Ok(()) => Ok(()),
        Err(refused) => {
            out.truncate(start);
            Err(refused)
        }
    }
}

/// Appends what is passed on of an UPDATE with these attributes, which isn't an End-of-RIB: a KEEPALIVE where it has no
/// routes.
#[inline(always)]
fn put_chosen<O: Output>(
    ctx: &Context,
    limits: &Limits,
    chosen: &Chosen<'_, '_>,
    out: &mut O,
) -> Result<(), AllocError>
    requires { PartsCanBePut ctx.now (chosen_update chosen.now) }
    ensures ok { OnOk result (O.written out.new ≡ O.written out.old ++ octets_handed ctx.now (or_keepalive (parts_handed (refuses_in ctx.now limits.now) (chosen_update chosen.now)))) }
    ensures err { OnErr result (O.written out.new ≡ O.written out.old) }
    ensures full { OnErr result (O.room < length (O.written out.old) + 12288) }
{
    let view = chosen.view();
    if has_gone(view) || has_nlri(view) || has_reached(view) {
        put_all(ctx, limits, chosen, out)
    } else {
        put_whole(ctx, &Body::Same(Kind::Keepalive, &[]), out)
    }
}

/// As `put_chosen`, of an UPDATE that keeps attributes of types that aren't recognised: these are sorted first.
#[inline(never)]
fn put_sorted<O: Output>(
    ctx: &Context,
    drops: &OctetSet,
    limits: &Limits,
    view: &UpdateView<'_>,
    out: &mut O,
) -> Result<(), AllocError>
    requires { PartsCanBePut ctx.now (cleaned_update (has_octet drops.now) (update_value view.now)) }
    ensures ok { OnOk result (O.written out.new ≡ O.written out.old
        ++ octets_handed ctx.now (or_keepalive (parts_handed (refuses_in ctx.now limits.now) (cleaned_update (has_octet drops.now) (update_value view.now))))) }
    ensures err { OnErr result (O.written out.new ≡ O.written out.old) }
    ensures full { OnErr result (O.room < length (O.written out.old) + 12288) }
{
    let mut place = ByType::new();
    view.sort_others(&mut place);
    let chosen = Chosen::without(view, drops, &place);
    put_chosen(ctx, limits, &chosen, out)
}

/// As `put_chosen`, for any UPDATE.
fn put_update<O: Output>(
    ctx: &Context,
    drops: &OctetSet,
    limits: &Limits,
    view: &UpdateView<'_>,
    out: &mut O,
) -> Result<(), AllocError>
    requires { PartsCanBePut ctx.now (cleaned_update (has_octet drops.now) (update_value view.now)) }
    ensures ok { OnOk result (O.written out.new ≡ O.written out.old
        ++ octets_handed ctx.now (or_keepalive (parts_handed (refuses_in ctx.now limits.now) (cleaned_update (has_octet drops.now) (update_value view.now))))) }
    ensures err { OnErr result (O.written out.new ≡ O.written out.old) }
    ensures full { OnErr result (O.room < length (O.written out.old) + 12288) }
{
    if view.kept().others {
        put_sorted(ctx, drops, limits, view, out)
    } else {
        let chosen = Chosen::all(view, drops);
        put_chosen(ctx, limits, &chosen, out)
    }
}

/// The body of the End-of-RIB of IPv6 unicast: MP_UNREACH_NLRI without routes (RFC 4724, section 2).
const END_OF_IP6: [u8; 10] = [0, 0, 0, 6, 128, 15, 3, 0, 2, 1];

/// Appends the End-of-RIB of a family.
fn put_end<O: Output>(ctx: &Context, family: u16, out: &mut O) -> Result<(), AllocError>
    ensures ok { OnOk result (O.written out.new ≡ O.written out.old ++ updates_octets ctx.now (end_of family ∷ [])) }
    ensures most { OnOk result (length (O.written out.new) ≤ length (O.written out.old) + 4096) }
    ensures err { OnErr result (O.written out.new ≡ O.written out.old) }
    ensures full { OnErr result (O.room < length (O.written out.old) + 4096) }
{
    if family == afi::IPV6 {
        put_whole(ctx, &Body::Same(Kind::Update, &END_OF_IP6), out)
    } else {
        put_whole(ctx, &Body::Same(Kind::Update, &[0; 4]), out)
    }
}

/// The family whose End-of-RIB a message is.
fn ended(ctx: &Context, frame: Frame<'_>) -> Option<u16>
    requires { length frame.body.now ≤ 4077 }
    ensures { result ≡ ended_family ctx.now (message_in frame.entry) }
{
    match frame.kind {
        Kind::Update => ended_family(ctx, frame.body),
        _ => None,
    }
}

/// Appends what is passed on of an UPDATE that is accepted, without the attributes that are left out by type.
///
/// # Errors
/// `AllocError` where there was no room; nothing is appended then.
pub(crate) fn clean_update<O: Output>(
    ctx: &Context,
    drops: &OctetSet,
    limits: &Limits,
    view: &UpdateView<'_>,
    frame: Frame<'_>,
    out: &mut O,
) -> Result<Cleaned, AllocError>
    requires body { length frame.body.now ≤ 4077 }
    requires can { CanBeWritten ctx.now (update_value view.now) frame.body.now }
    ensures value { IfOk result (λ c. IsCleaned ctx.now
        (Ok (handed_update (refuses_in ctx.now limits.now) (ended_family ctx.now (message_in frame.entry)) (cleaned_update (has_octet drops.now) (update_value view.now)))) (O.written out.old) (O.written out.new) c) }
    ensures err { OnErr result (O.written out.new ≡ O.written out.old) }
    ensures full { OnErr result (O.room < length (O.written out.old) + 12288) }
{
    match ended(ctx, frame) {
        Some(family) => put_end(ctx, family, out)?,
        None => put_update(ctx, drops, limits, view, out)?,
    }
    Ok(Cleaned::HandedOn)
}
