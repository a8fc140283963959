//! One end of the connection.

ghost use Rattle.std.specs.Prelude.{◌≡◌, take, drop, IfOk, OnOk};
ghost use Rattle.bgp_machine.specs.Prelude.{notification_octets};
ghost use Rattle.bgp_session.specs.Pair.{fresh_end, away, towards, with_flight};

use bgp_frame::{Kind, Notification, head};
use bgp_machine::Session;
use bgp_open::Config;
use bgp_update::{PathInfo, Routes, Update};
use bgp_wire::List;
use std::alloc::{AllocError, Global};
use std::marker::Model;
use std::mem;

/// A session, the octets in flight towards it, and what it sent and received in this round.
#[derive(Drop)]
pub(crate) struct Speaker {
    pub(crate) session: Session,
    /// It has left the connection, or has none.
    pub(crate) left: bool,
    pub(crate) flight: Vec<u8>,
    pub(crate) sent: List<Update>,
    pub(crate) got: List<(Update, PathInfo)>,
    pub(crate) gone: List<Routes>,
}

impl Model for Speaker {
    ghost use Rattle.bgp_session.specs.Pair.{End};

    ghost Value = { End };

    ghost view = { λ e. record { session = e.session; left = e.left; flight = e.flight.items; sent = e.sent; got = e.got; gone = e.gone } };
}

impl Speaker {
    pub(crate) fn new(alloc: Global, config: Config) -> Speaker
        ensures { result ≡ fresh_end config }
    {
        Speaker {
            session: Session::new(config),
            left: true,
            flight: Vec::new(alloc),
            sent: List::new(alloc),
            got: List::new(alloc),
            gone: List::new(alloc),
        }
    }

    /// It leaves the connection: what is in flight towards it is lost.
    pub(crate) fn leave(&mut self)
        ensures { self.new ≡ away self.old }
    {
        self.left = true;
        self.flight.clear();
    }

    /// Puts octets in flight towards it, unless it has left.
    pub(crate) fn await_octets(&mut self, octets: &[u8]) -> Result<(), AllocError>
        ensures { OnOk result (self.new ≡ towards self.old octets.now) }
    {
        if self.left {
            return Ok(());
        }
        self.flight.extend_from_slice(octets)
    }

    /// Draws `count` octets out of the flight, or all where there are fewer.
    pub(crate) fn draw(&mut self, count: usize) -> Result<Vec<u8>, AllocError>
        ensures octets { IfOk result (λ octets. octets.items ≡ take count self.old.flight) }
        ensures drawn { OnOk result (self.new ≡ with_flight self.old (drop count self.old.flight)) }
    {
        take_front(&mut self.flight, count)
    }
}

/// Removes the first `count` octets, or all where there are fewer.
pub(crate) fn take_front(octets: &mut Vec<u8>, count: usize) -> Result<Vec<u8>, AllocError>
    ensures front { IfOk result (λ front. front.items ≡ take count octets.old.items) }
    ensures back { OnOk result (octets.new.items ≡ drop count octets.old.items) }
{
    let at = octets.len().min(count);
    let back = octets.split_off(at)?;
    Ok(mem::replace(octets, back))
}

/// The whole message of a NOTIFICATION.
pub(crate) fn notification(alloc: Global, why: &Notification) -> Result<Vec<u8>, AllocError>
    ensures { IfOk result (λ octets. octets.items ≡ notification_octets why.now) }
{
    let info = why.info.as_slice();
    let mut octets = Vec::new(alloc);
    octets.extend_from_slice(&head(Kind::Notification, (2 + info.len()) as u16))?;
    octets.extend_from_slice(&[why.code, why.subcode])?;
    octets.extend_from_slice(info)?;
    Ok(octets)
}
