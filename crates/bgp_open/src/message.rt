//! The OPEN.

ghost use Rattle.std.specs.Prelude.{◌≡◌, IfOk};
ghost use Rattle.bgp_open.specs.Prelude.{said_by, said_of};

use crate::capability::Capability;
use crate::peer::Peer;
use bgp_wire::List;
use std::alloc::{AllocError, Global};

/// The fields of an OPEN of version 4 (RFC 4271, section 4.2).
#[derive(Drop, PartialEq)]
pub struct Open {
    /// My Autonomous System: the sender's AS number, or 23456 where that needs four octets (RFC 6793, section 4.1).
    pub as_field: u16,
    /// Hold Time in seconds: 0 for none, and never 1 or 2 in what is read.
    pub hold: u16,
    /// BGP Identifier: never zero in what is read (RFC 6286, section 2.1).
    pub id: [u8; 4],
    /// The capabilities in their order, however they were grouped into parameters (RFC 5492, section 4).
    pub caps: List<Capability>,
}

impl Open {
    /// The OPEN parameters of its sender.
    pub fn peer(&self) -> Peer
        ensures { said_of result ≡ said_by self.now }
    {
        let mut peer = Peer::new(self.as_field, self.hold, self.id);
        for capability in self.caps.iter() {
            peer.offer(capability.view());
        }
        peer
    }

    /// An equal OPEN, with memory of its own.
    ///
    /// # Errors
    /// `AllocError` where an allocation failed.
    pub fn copy(&self, alloc: Global) -> Result<Open, AllocError>
        ensures { IfOk result (λ copy. copy ≡ self.now) }
    {
        let caps = self.caps.copy(alloc)?;
        Ok(Open {
            as_field: self.as_field,
            hold: self.hold,
            id: self.id,
            caps,
        })
    }
}
