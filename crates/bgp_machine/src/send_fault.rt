//! Why an UPDATE isn't sent.

use bgp_update::Invalid;
use bgp_wire::TryCopy;
use std::alloc::{AllocError, Global};

/// Why an UPDATE isn't sent: the first reason in this order.
#[derive(Clone, Copy, Debug, PartialEq, Eq)]
pub enum SendFault {
    /// 1: the session isn't Established.
    NotEstablished,
    /// 2: the UPDATE isn't valid with AS numbers of four octets, or has routes of more than one kind.
    NotValid(Invalid),
    /// 3: the message would have more than 4096 octets (RFC 4271, section 4.1).
    TooLong,
    /// 4: an allocation failed.
    Memory,
}

impl TryCopy for SendFault {
    fn try_copy(&self, _alloc: Global) -> Result<SendFault, AllocError> {
        Ok(*self)
    }
}
