//! The judgement of one attribute.

ghost use Rattle.std.specs.Prelude.{◌≡◌, IfOk};

use crate::attr::Attr;
use crate::why::Why;
use bgp_frame::Notification;
use std::alloc::{AllocError, Global};

/// The judgement of one attribute (RFC 7606, section 2).
#[derive(Drop, PartialEq)]
pub enum Judged {
    /// It is kept.
    Keep(Attr),
    /// It is discarded (attribute discard).
    Discard(Why),
    /// Its message is treated as a withdrawal (treat-as-withdraw).
    Withdraw(Why),
    /// The session ends with this NOTIFICATION.
    Reset(Notification),
}

impl Judged {
    /// An equal judgement, with memory of its own.
    ///
    /// # Errors
    /// `AllocError` where an allocation failed.
    pub fn copy(&self, alloc: Global) -> Result<Judged, AllocError>
        ensures { IfOk result (λ copy. copy ≡ self.now) }
    {
        Ok(match self {
            Judged::Keep(attr) => Judged::Keep(attr.copy(alloc)?),
            Judged::Discard(why) => Judged::Discard(*why),
            Judged::Withdraw(why) => Judged::Withdraw(*why),
            Judged::Reset(notification) => Judged::Reset(notification.copy()),
        })
    }
}
