//! The verdict on an UPDATE.

ghost use Rattle.std.specs.Prelude.{◌≡◌, IfOk};

use crate::note::Note;
use crate::routes::Routes;
use crate::update::Update;
use bgp_frame::Notification;
use bgp_wire::List;
use std::alloc::{AllocError, Global};

/// The verdict on the body of an UPDATE (RFC 7606, section 3).
#[derive(Drop, PartialEq)]
pub enum Verdict {
    /// It is accepted with the attributes that are kept.
    Take(Update, List<Note>),
    /// It is treated as a withdrawal of all its routes (treat-as-withdraw).
    Withdraw(Routes, List<Note>),
    /// The session ends with this NOTIFICATION.
    Reset(Notification),
}

impl Verdict {
    /// An equal verdict, with memory of its own.
    ///
    /// # Errors
    /// `AllocError` where an allocation failed.
    pub fn copy(&self, alloc: Global) -> Result<Verdict, AllocError>
        ensures { IfOk result (λ copy. copy ≡ self.now) }
    {
        Ok(match self {
            Verdict::Take(update, notes) => {
                let notes = notes.copy(alloc)?;
                Verdict::Take(update.copy(alloc)?, notes)
            }
            Verdict::Withdraw(routes, notes) => {
                let notes = notes.copy(alloc)?;
                Verdict::Withdraw(routes.copy(alloc)?, notes)
            }
            Verdict::Reset(notification) => Verdict::Reset(notification.copy()),
        })
    }
}
