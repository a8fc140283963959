//! What a session receives.

use bgp_frame::{NotificationView, ShortNotification};
use bgp_open::{Context, OpenView};
use bgp_update::UpdateView;

/// A message, or a header with a fault, as a session receives it once the connection is up: a few words that point into
/// its octets. The view of an UPDATE is in the caller's buffer.
#[derive(Clone, Copy)]
pub enum Heard<'a> {
    /// The peer's OPEN, where it is accepted, and what both agree on.
    Open(OpenView<'a>, Context),
    /// A KEEPALIVE.
    Keepalive,
    /// An UPDATE that is accepted, with notes on attributes that are discarded.
    Update(&'a UpdateView<'a>),
    /// An UPDATE that is treated as a withdrawal of its routes (RFC 7606, section 2), with notes on why.
    Withdraw(&'a UpdateView<'a>),
    /// The NOTIFICATION by which the peer ends the session.
    Notification(NotificationView<'a>),
    /// A message whose body has a fault, or an OPEN of a peer that isn't accepted: the session ends with this NOTIFICATION.
    Reset(NotificationView<'a>),
    /// A header with a fault, or a message of a type that doesn't belong in the state: the session ends with this NOTIFICATION.
    Refused(ShortNotification),
}
