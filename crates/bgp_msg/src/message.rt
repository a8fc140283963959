//! Messages.

ghost use Rattle.std.specs.Prelude.{◌≡◌, IfOk};
ghost use Rattle.bgp_msg.specs.Prelude.{kind_of};

use bgp_frame::{Kind, Notification};
use bgp_open::Open;
use bgp_update::Update;
use std::alloc::{AllocError, Global};

/// A message (RFC 4271, section 4).
#[derive(Drop, PartialEq)]
pub enum Message {
    /// OPEN (RFC 4271, section 4.2).
    Open(Open),
    /// UPDATE (RFC 4271, section 4.3).
    Update(Update),
    /// NOTIFICATION (RFC 4271, section 4.5).
    Notification(Notification),
    /// KEEPALIVE (RFC 4271, section 4.4).
    Keepalive,
}

impl Message {
    /// The kind of the message.
    pub fn kind(&self) -> Kind
        ensures { result ≡ kind_of self.now }
    {
        match self {
            Message::Open(_) => Kind::Open,
            Message::Update(_) => Kind::Update,
            Message::Notification(_) => Kind::Notification,
            Message::Keepalive => Kind::Keepalive,
        }
    }

    /// An equal message, owned.
    ///
    /// # Errors
    /// `AllocError` where an allocation failed.
    pub fn copy(&self, alloc: Global) -> Result<Message, AllocError>
        ensures { IfOk result (λ copy. copy ≡ self.now) }
    {
        Ok(match self {
            Message::Open(open) => Message::Open(open.copy(alloc)?),
            Message::Update(update) => Message::Update(update.copy(alloc)?),
            Message::Notification(notification) => Message::Notification(notification.copy()),
            Message::Keepalive => Message::Keepalive,
        })
    }
}
