//! What two OPENs agree on beyond a context, in C's form.

ghost use Rattle.std.specs.Prelude.{◌≡◌, ◌+◌, ℕ, Result, length, option_map, IfSome};
ghost use Rattle.bgp_frame.specs.Prelude.{IsLength};
ghost use Rattle.bgp_open.specs.declared.message.Open.{Open};
ghost use Rattle.bgp_terms.specs.Prelude.{wide_terms};
ghost use Rattle.ristulva_c.specs.Agree.{or_refused};
ghost use Rattle.ristulva_c.specs.Prelude.{accepted_in, context_of};
ghost use Rattle.ristulva_c.specs.Terms.{AreTerms, TermsBy, number_of_refreshes, plain_terms_in, refreshes_in, terms_in, terms_said};
ghost use Rattle.ristulva_c.specs.steps.Terms.{AreOffers, AreOffersAt};

use crate::agreed::context_said;
use crate::context::{SessionContext, context_of};
use crate::opens::flag_of;
use crate::status::{INCOMPLETE, OK, REFUSED};
use bgp_frame::{Frame, Kind, Step, front};
use bgp_open::view_open;
use bgp_terms::{Offers, Refreshes, WideTerms, offers_in, terms};

/// The reader accepts no ROUTE-REFRESH.
pub const REFRESH_NONE: u8 = 0;

/// It accepts requests (RFC 2918).
pub const REFRESH_PLAIN: u8 = 1;

/// It accepts requests, and the marks where a refresh begins and ends (RFC 7313).
pub const REFRESH_ENHANCED: u8 = 2;

/// What was negotiated for one direction of a session, from a sender to a reader. Each flag is 0 for no, and any other number for yes.
#[repr(C)]
#[derive(Clone, Copy)]
pub struct SessionTerms {
    /// What both speakers offer.
    pub context: SessionContext,
    /// Which ROUTE-REFRESH the reader accepts: `REFRESH_NONE`, `REFRESH_PLAIN` or `REFRESH_ENHANCED`.
    pub refresh: u8,
    /// The reader accepts messages of up to 65535 octets (RFC 8654).
    pub long_messages: u8,
    /// The sender does.
    pub long_back: u8,
    /// IPv4 unicast routes have path identifiers (RFC 7911).
    pub paths4: u8,
    /// IPv6 unicast routes have path identifiers.
    pub paths6: u8,
    /// IPv4 unicast routes may have an IPv6 next hop (RFC 8950).
    pub hop6: u8,
}

/// Which ROUTE-REFRESH a number says.
fn refreshes_in(number: u8) -> Option<Refreshes>
    ensures { result ≡ refreshes_in number }
{
    match number {
        REFRESH_NONE => Some(Refreshes::None),
        REFRESH_PLAIN => Some(Refreshes::Plain),
        REFRESH_ENHANCED => Some(Refreshes::Enhanced),
        _ => None,
    }
}

/// The number of a ROUTE-REFRESH.
fn number_of_refreshes(refreshes: Refreshes) -> u8
    ensures { result ≡ number_of_refreshes refreshes }
{
    match refreshes {
        Refreshes::None => REFRESH_NONE,
        Refreshes::Plain => REFRESH_PLAIN,
        Refreshes::Enhanced => REFRESH_ENHANCED,
    }
}

/// The terms by which messages without path identifiers are read: none where a number is unknown.
pub(crate) fn plain_terms_in(said: &SessionTerms) -> Option<WideTerms>
    ensures value { option_map wide_terms result ≡ plain_terms_in said.now }
    ensures context { IfSome result (λ terms. terms.context ≡ context_of said.now.context) }
{
    match refreshes_in(said.refresh) {
        Some(refreshes) => Some(WideTerms::with_refresh(context_of(&said.context), refreshes)),
        None => None,
    }
}

/// The terms by which messages are judged: none where a number is unknown, or routes have path identifiers.
pub(crate) fn terms_in(said: &SessionTerms) -> Option<WideTerms>
    ensures value { option_map wide_terms result ≡ terms_in said.now }
    ensures context { IfSome result (λ terms. terms.context ≡ context_of said.now.context) }
{
    if said.paths4 != 0 || said.paths6 != 0 {
        return None;
    }
    plain_terms_in(said)
}

/// Terms in C's form.
fn terms_said(agreed: &WideTerms) -> SessionTerms
    ensures { result ≡ terms_said (wide_terms agreed.now) }
{
    SessionTerms {
        context: context_said(&agreed.context),
        refresh: number_of_refreshes(agreed.refresh),
        long_messages: flag_of(agreed.long),
        long_back: flag_of(agreed.long_back),
        paths4: flag_of(agreed.paths4),
        paths6: flag_of(agreed.paths6),
        hop6: flag_of(agreed.hop6),
    }
}

/// What an OPEN offers.
fn offers_by(frame: Frame<'_>) -> Result<Offers, u32>
    requires { IsLength frame.kind (19 + length frame.body.now) }
    ensures { AreOffers (or_refused (accepted_in frame.entry.kind frame.entry.body.now)) result }
{
    if frame.kind != Kind::Open {
        return Err(REFUSED);
    }
    match view_open(frame.body) {
        Err(_) => Err(REFUSED),
        Ok(view) => Ok(offers_in(&view)),
    }
}

/// What the OPEN that octets begin with offers.
fn offers_at(octets: &[u8]) -> Result<Offers, u32>
    ensures { AreOffersAt octets.now result }
{
    match front(octets) {
        Step::More => Err(INCOMPLETE),
        Step::Frame(frame) => offers_by(frame),
        Step::Fault(_) => Err(REFUSED),
    }
}

/// Writes the terms, where there is an OPEN of both.
fn tell(
    reader: Result<Offers, u32>,
    sender: Result<Offers, u32>,
    out: &mut SessionTerms,
    hold: &mut u16,
) -> u32
    ensures { (a b : Result Open ℕ) → AreOffers a reader → AreOffers b sender
        → TermsBy a b (record { status = result; before = out.old; behind = out.new; hold_before = hold.old; hold_behind = hold.new }) }
{
    let reader = match reader {
        Ok(offers) => offers,
        Err(status) => return status,
    };
    let sender = match sender {
        Ok(offers) => offers,
        Err(status) => return status,
    };
    let agreed = terms(&reader, &sender);
    *out = terms_said(&agreed);
    *hold = agreed.context.hold;
    OK
}

/// Reports the terms of what a reader receives from a sender, by the OPENs that octets begin with. Octets after them are ignored.
#[unsafe(no_mangle)]
pub extern "C" fn ristulva_terms_of(
    reader: &[u8],
    sender: &[u8],
    out: &mut SessionTerms,
    hold: &mut u16,
) -> u32
    ensures { AreTerms reader.now sender.now (record { status = result; before = out.old; behind = out.new; hold_before = hold.old; hold_behind = hold.new }) }
{
    tell(offers_at(reader), offers_at(sender), out, hold)
}
