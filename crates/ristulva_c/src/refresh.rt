//! What a ROUTE-REFRESH says, and the message of one.

ghost use Rattle.std.specs.Prelude.{◌≡◌, ◌+◌, ◌≤◌, [], length};
ghost use Rattle.bgp_refresh.specs.Prelude.{mark_of, refresh_octets, refresh_value};
ghost use Rattle.bgp_terms.specs.declared.refreshes.Refreshes.TheVariants as refreshes;
ghost use Rattle.ristulva_c.specs.Prelude.{IsWritten};
ghost use Rattle.ristulva_c.specs.Refresh.{IsRefreshBy, refresh_in, refresh_told};
ghost use Rattle.ristulva_c.specs.Terms.{terms_in};
ghost use Rattle.ristulva_c.specs.steps.Refresh.{IsSaid};

use crate::span::Span;
use crate::status::{INCOMPLETE, OK, RANGE, REFUSED};
use crate::terms::{SessionTerms, terms_in};
use crate::written::write;
use bgp_frame::{Frame, Step, WideKind};
use bgp_refresh::{RefreshMark, RefreshView, view_refresh, write_refresh};
use bgp_terms::Refreshes;
use bgp_wide::front_in;
use bgp_wire::are_octets;

/// What a ROUTE-REFRESH says (RFC 2918, section 3; RFC 7313, section 3.2).
#[repr(C)]
#[derive(Clone, Copy)]
pub struct ToldRefresh {
    /// The address family.
    pub afi: u16,
    /// The subsequent address family.
    pub safi: u8,
    /// The subtype: 0 for each request.
    pub subtype: u8,
    /// What follows the four octets.
    pub rest: Span,
}

/// A ROUTE-REFRESH in C's form.
fn refresh_told(view: &RefreshView<'_>) -> ToldRefresh
    requires { length view.now.rest.now ≤ 4073 }
    ensures { result ≡ refresh_told (refresh_value view.now) }
{
    ToldRefresh {
        afi: view.afi,
        safi: view.safi,
        subtype: view.mark.subtype(),
        rest: Span {
            at: 23,
            len: view.rest.len() as u32,
        },
    }
}

/// Writes what a whole message says, where it is a ROUTE-REFRESH that is accepted.
fn tell_refresh(refreshes: Refreshes, frame: Frame<'_, WideKind>, out: &mut ToldRefresh) -> u32
    requires { length frame.body.now ≤ 4077 }
    ensures { IsSaid (refresh_in refreshes frame.entry.kind frame.entry.body.now) result out.old out.new }
{
    let Frame { kind, len: _, body } = frame;
    match kind {
        WideKind::Base(_) => REFUSED,
        WideKind::Refresh => match view_refresh(refreshes, body) {
            Err(_) => REFUSED,
            Ok(view) => {
                *out = refresh_told(&view);
                OK
            }
        },
    }
}

/// Reports what the ROUTE-REFRESH that octets begin with says, by terms. Octets after it are ignored.
#[unsafe(no_mangle)]
pub extern "C" fn ristulva_refresh_in(
    terms: &SessionTerms,
    octets: &[u8],
    out: &mut ToldRefresh,
) -> u32
    ensures { IsRefreshBy (terms_in terms.now) octets.now result out.old out.new }
{
    let Some(agreed) = terms_in(terms) else {
        return RANGE;
    };
    are_octets(octets);
    match front_in(&agreed, octets) {
        Step::More => INCOMPLETE,
        Step::Frame(frame) => tell_refresh(agreed.refresh, frame, out),
        Step::Fault(_) => REFUSED,
    }
}

/// Writes the message of a ROUTE-REFRESH for a family to the beginning of a buffer.
#[unsafe(no_mangle)]
pub extern "C" fn ristulva_encode_refresh(
    afi: u16,
    safi: u8,
    subtype: u8,
    buffer: &mut [u8],
    len: &mut usize,
) -> u32
    ensures { IsWritten (refresh_octets (record { afi = afi; safi = safi; mark = mark_of refreshes.Enhanced subtype; rest = [] }))
        (record { status = result; before = buffer.old; behind = buffer.new; len_before = len.old; len_behind = len.new }) }
{
    let mark = RefreshMark::of(Refreshes::Enhanced, subtype);
    write(&write_refresh(afi, safi, mark), buffer, len)
}
