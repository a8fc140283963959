//! What a session wants done.

ghost use Rattle.std.specs.Prelude.{◌≡◌, IfOk};

use crate::timer::Timer;
use arrayvec::ArrayVec;
use bgp_frame::Notification;
use bgp_update::{PathInfo, Routes, Update};
use std::alloc::{AllocError, Global};

/// What the owner of a session has to do.
#[derive(Drop, PartialEq)]
pub enum Action {
    /// Seek a connection to the peer.
    Connect,
    /// Close the connection, or abandon the attempt.
    Close,
    /// Send the session's own OPEN: its octets are `Session::own_frame`.
    SendOpen,
    /// Send a KEEPALIVE.
    SendKeepalive,
    /// Send this NOTIFICATION.
    SendNotification(Notification),
    /// Start or restart the timer, with this number of seconds.
    Arm(Timer, u16),
    /// Stop the timer.
    Disarm(Timer),
    /// The peer announces and withdraws routes: the UPDATE without the attributes that aren't passed on, with the path
    /// and the aggregator in 4-octet AS numbers.
    Announce(Update, PathInfo),
    /// The peer's message is treated as a withdrawal of its routes (RFC 7606, section 2).
    Withdraw(Routes),
    /// The session has ended, and all routes of the peer with it.
    Flush,
}

/// What is to be done, in order: at most five things.
pub type Actions = ArrayVec<Action, 5>;

impl Default for Action {
    ghost use Rattle.std.specs.Prelude.{◌≡◌};
    ghost use Rattle.bgp_machine.specs.declared.action.Action.TheVariants.{Close};

    ghost is_default = { λ action. action ≡ Close };

    fn default() -> Action {
        Action::Close
    }
}

impl Action {
    /// An equal action, owned.
    ///
    /// # Errors
    /// `AllocError` where an allocation failed.
    pub fn copy(&self, alloc: Global) -> Result<Action, AllocError>
        ensures { IfOk result (λ copy. copy ≡ self.now) }
    {
        Ok(match self {
            Action::Connect => Action::Connect,
            Action::Close => Action::Close,
            Action::SendOpen => Action::SendOpen,
            Action::SendKeepalive => Action::SendKeepalive,
            Action::SendNotification(notification) => {
                Action::SendNotification(notification.copy())
            }
            Action::Arm(timer, seconds) => Action::Arm(*timer, *seconds),
            Action::Disarm(timer) => Action::Disarm(*timer),
            Action::Announce(update, info) => {
                let info = info.copy(alloc)?;
                Action::Announce(update.copy(alloc)?, info)
            }
            Action::Withdraw(routes) => Action::Withdraw(routes.copy(alloc)?),
            Action::Flush => Action::Flush,
        })
    }
}
