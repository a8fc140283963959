//! What a session wants done, as views of the octets that it concerns.

use crate::timer::Timer;
use bgp_frame::NotificationView;
use bgp_update::UpdateView;

/// What the owner of a session has to do: an [`Action`](crate::Action) in a few words, without memory.
#[derive(Clone, Copy)]
pub enum ActionView<'a> {
    /// Seek a connection to the peer.
    Connect,
    /// Close the connection, or abandon the attempt.
    Close,
    /// Send the session's own OPEN: its octets are `Session::own_frame`.
    SendOpen,
    /// Send a KEEPALIVE.
    SendKeepalive,
    /// Send this NOTIFICATION.
    SendNotification(NotificationView<'a>),
    /// Start or restart the timer, with this number of seconds.
    Arm(Timer, u16),
    /// Stop the timer.
    Disarm(Timer),
    /// The peer announces and withdraws routes. The UPDATE is as received: `onward` says which of its attributes aren't
    /// passed on; `UpdateView::path_info` gives the path in 4-octet AS numbers and the aggregator, without memory.
    Announce(&'a UpdateView<'a>),
    /// The peer's message is treated as a withdrawal of its routes (RFC 7606, section 2).
    Withdraw(&'a UpdateView<'a>),
    /// The session has ended, and all routes of the peer with it.
    Flush,
}

impl Default for ActionView<'_> {
    ghost use Rattle.std.specs.Prelude.{◌≡◌};
    ghost use Rattle.bgp_machine.specs.declared.action_view.ActionView.TheVariants.{Close};

    ghost is_default = { λ action. action ≡ Close };

    fn default() -> Self {
        ActionView::Close
    }
}
