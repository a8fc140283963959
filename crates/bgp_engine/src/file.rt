//! The OPEN that octets begin with.

ghost use Rattle.std.specs.Prelude.{◌≡◌, ◌+◌, length, IfOk};
ghost use Rattle.bgp_engine.specs.Below.{IsLength};
ghost use Rattle.bgp_engine.specs.Prelude.{first_open, open_in};

use bgp_frame::{Frame, Kind, Step, front};
use bgp_open::{Open, view_open};
use std::alloc::{AllocError, Global};

/// The message as an OPEN, where it is one that is accepted.
pub(crate) fn open_in(alloc: Global, frame: Frame<'_>) -> Result<Option<Open>, AllocError>
    requires { IsLength frame.kind (19 + length frame.body.now) }
    ensures { IfOk result (λ found. found ≡ open_in frame.entry.kind frame.entry.body.now) }
{
    match frame.kind {
        Kind::Open => match view_open(frame.body) {
            Ok(view) => Ok(Some(view.own(alloc)?)),
            Err(_) => Ok(None),
        },
        Kind::Update | Kind::Notification | Kind::Keepalive => Ok(None),
    }
}

/// The first message of the octets, where it is whole, and an OPEN that is accepted.
pub(crate) fn first_open(alloc: Global, octets: &[u8]) -> Result<Option<Open>, AllocError>
    ensures { IfOk result (λ found. found ≡ first_open octets.now) }
{
    match front(octets) {
        Step::Frame(frame) => open_in(alloc, frame),
        Step::More | Step::Fault(_) => Ok(None),
    }
}
