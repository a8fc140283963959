//! An OPEN borrowed from the octets read.

ghost use Rattle.std.specs.Prelude.{◌≡◌, ◌≤◌, None, length, IfOk};
ghost use Rattle.bgp_open.specs.OpenFault.{open_fault, open_of};

use crate::capability_iter::CapabilityIter;
use crate::message::Open;
use crate::peer::Peer;
use std::alloc::{AllocError, Global};

/// The body of an OPEN without a fault, borrowed (RFC 4271, section 4.2).
#[derive(Clone, Copy)]
pub struct OpenView<'a> {
    body: &'a [u8],
    ghost whole: { 10 ≤ length body.now },
    ghost sound: { open_fault body.now ≡ None },
}

impl<'a> OpenView<'a> {
    ghost use Rattle.bgp_open.specs.CapabilityIter.{capabilities_left};
    ghost use Rattle.bgp_open.specs.OpenView.{open_value};
    ghost use Rattle.bgp_open.specs.Peer.{said_by, said_of};

    /// The view of a body without a fault.
    pub(crate) fn new(body: &'a [u8]) -> OpenView<'a>
        requires whole { 10 ≤ length body.now }
        requires sound { open_fault body.now ≡ None }
        ensures { open_value result ≡ open_of body.entry.now }
    {
        OpenView { body }
    }

    /// My Autonomous System: the sender's AS number, or 23456 where that needs four octets (RFC 6793, section 4.1).
    pub fn as_field(&self) -> u16
        ensures { result ≡ (open_value self.now).as_field }
    {
        u16::from_be_bytes([self.body[1], self.body[2]])
    }

    /// The Hold Time that is proposed, in seconds: 0 for none, and never 1 or 2.
    pub fn hold(&self) -> u16
        ensures { result ≡ (open_value self.now).hold }
    {
        u16::from_be_bytes([self.body[3], self.body[4]])
    }

    /// The BGP Identifier: never zero (RFC 6286, section 2.1).
    pub fn id(&self) -> [u8; 4]
        ensures { result ≡ (open_value self.now).id }
    {
        [self.body[5], self.body[6], self.body[7], self.body[8]]
    }

    /// The capabilities in their order, however they are grouped into parameters (RFC 5492, section 4).
    pub fn capabilities(&self) -> CapabilityIter<'a>
        ensures { capabilities_left result ≡ (open_value self.now).caps }
    {
        CapabilityIter::new(&self.body[10..])
    }

    /// The OPEN parameters of its sender.
    pub fn peer(&self) -> Peer
        ensures { said_of result ≡ said_by (open_value self.now) }
    {
        let mut peer = Peer::new(self.as_field(), self.hold(), self.id());
        for capability in self.capabilities() {
            peer.offer(capability);
        }
        peer
    }

    /// The OPEN, with memory of its own.
    ///
    /// # Errors
    /// `AllocError` where an allocation failed.
    pub fn own(self, alloc: Global) -> Result<Open, AllocError>
        ensures { IfOk result (λ o. o ≡ open_value self.entry) }
    {
        let caps = self.capabilities().own(alloc)?;
        Ok(Open {
            as_field: self.as_field(),
            hold: self.hold(),
            id: self.id(),
            caps,
        })
    }
}
