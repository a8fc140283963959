//! The verdict on an UPDATE, with its view in a buffer beside it.

use bgp_frame::NotificationView;

/// The verdict on the body of an UPDATE, as [`View`](crate::View), with the view in a buffer of the caller's
/// ([`UpdateView::judge`](crate::UpdateView::judge)): matching on this small value is faster.
#[derive(Clone, Copy)]
pub enum Found<'a> {
    /// It is accepted with the attributes that are kept.
    Take,
    /// It is treated as a withdrawal of all its routes (treat-as-withdraw).
    Withdraw,
    /// The session ends with this NOTIFICATION.
    Reset(NotificationView<'a>),
}
