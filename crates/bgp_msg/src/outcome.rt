//! The outcome of a message.

ghost use Rattle.std.specs.Prelude.{◌≡◌, IfOk};
ghost use Rattle.bgp_msg.specs.Prelude.{is_reset};

use crate::message::Message;
use bgp_frame::Notification;
use bgp_update::{Note, Routes};
use bgp_wire::{List, TryCopy};
use std::alloc::{AllocError, Global};

/// The outcome of a message, or of the header of one.
#[derive(Drop, PartialEq)]
pub enum Outcome {
    /// It is accepted, with notes on attributes of an UPDATE that are discarded.
    Took(Message, List<Note>),
    /// An UPDATE that is treated as a withdrawal of all its routes (RFC 7606, section 2), with notes on why.
    Withdraw(Routes, List<Note>),
    /// The session ends with this notification.
    Reset(Notification),
}

impl Outcome {
    /// Whether the session ends. A NOTIFICATION that was received is accepted, and isn't a reset.
    pub fn is_reset(&self) -> bool
        ensures { result ≡ is_reset self.now }
    {
        match self {
            Outcome::Reset(_) => true,
            _ => false,
        }
    }
    /// An equal outcome, owned.
    ///
    /// # Errors
    /// `AllocError` where an allocation failed.
    pub fn copy(&self, alloc: Global) -> Result<Outcome, AllocError>
        ensures { IfOk result (λ copy. copy ≡ self.now) }
    {
        Ok(match self {
            Outcome::Took(message, notes) => {
                let notes = notes.copy(alloc)?;
                Outcome::Took(message.copy(alloc)?, notes)
            }
            Outcome::Withdraw(routes, notes) => {
                let notes = notes.copy(alloc)?;
                Outcome::Withdraw(routes.copy(alloc)?, notes)
            }
            Outcome::Reset(notification) => Outcome::Reset(notification.copy()),
        })
    }
}

impl TryCopy for Outcome {
    fn try_copy(&self, alloc: Global) -> Result<Outcome, AllocError> {
        self.copy(alloc)
    }
}
