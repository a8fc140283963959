//! What two OPENs agree on.

ghost use Rattle.std.specs.Prelude.{◌≡◌, ◌+◌, ℕ, Result, length};
ghost use Rattle.bgp_frame.specs.Prelude.{IsLength};
ghost use Rattle.bgp_frame.specs.declared.step.Step.TheVariants as step;
ghost use Rattle.bgp_open.specs.declared.message.Open.{Open};
ghost use Rattle.ristulva_c.specs.Agree.{or_refused, AgreesBy, AreAgreed};
ghost use Rattle.ristulva_c.specs.Prelude.{accepted_in};
ghost use Rattle.ristulva_c.specs.steps.Agree.{IsPeer, IsPeerAt};

use crate::agreed::context_said;
use crate::context::SessionContext;
use crate::status::{INCOMPLETE, OK, REFUSED};
use bgp_frame::{Frame, Kind, Step, front};
use bgp_open::{Peer, agreed_context, view_open};

/// What an OPEN says of its speaker.
fn peer_in(frame: Frame<'_>) -> Result<Peer, u32>
    requires { IsLength frame.kind (19 + length frame.body.now) }
    ensures { IsPeer (or_refused (accepted_in frame.entry.kind frame.entry.body.now)) result }
{
    if frame.kind != Kind::Open {
        return Err(REFUSED);
    }
    match view_open(frame.body) {
        Err(_) => Err(REFUSED),
        Ok(view) => Ok(view.peer()),
    }
}

/// What the OPEN that octets begin with says of its speaker.
fn peer_at(octets: &[u8]) -> Result<Peer, u32>
    ensures { IsPeerAt octets.now result }
{
    match front(octets) {
        Step::More => Err(INCOMPLETE),
        Step::Frame(frame) => peer_in(frame),
        Step::Fault(_) => Err(REFUSED),
    }
}

/// Writes what two speakers agree on, where there is an OPEN of both.
fn tell(
    ours: Result<Peer, u32>,
    theirs: Result<Peer, u32>,
    context: &mut SessionContext,
    hold: &mut u16,
) -> u32
    ensures { (a b : Result Open ℕ) → IsPeer a ours → IsPeer b theirs
        → AgreesBy a b (record { status = result; before = context.old; behind = context.new; hold_before = hold.old; hold_behind = hold.new }) }
{
    let ours = match ours {
        Ok(peer) => peer,
        Err(status) => return status,
    };
    let theirs = match theirs {
        Ok(peer) => peer,
        Err(status) => return status,
    };
    let agreed = agreed_context(&ours, &theirs);
    *context = context_said(&agreed);
    *hold = agreed.hold;
    OK
}

/// Reports what the OPENs that octets begin with agree on, as the speaker of one finds it from the other. Octets after
/// them are ignored.
#[unsafe(no_mangle)]
pub extern "C" fn ristulva_agree(
    ours: &[u8],
    theirs: &[u8],
    context: &mut SessionContext,
    hold: &mut u16,
) -> u32
    ensures { AreAgreed ours.now theirs.now (record { status = result; before = context.old; behind = context.new; hold_before = hold.old; hold_behind = hold.new }) }
{
    tell(peer_at(ours), peer_at(theirs), context, hold)
}
