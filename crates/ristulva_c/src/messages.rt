//! The octets that a session sends.

ghost use Rattle.std.specs.Prelude.{◌≡◌, length, map, option_map, IfSome, MatchOption};
ghost use Rattle.bgp_frame.specs.Prelude.{notification_of_view};
ghost use Rattle.bgp_machine.specs.Prelude.{action_of};
ghost use Rattle.ristulva_c.specs.Prelude.{notification_octets, octets_sent, message_of, copied};

use crate::copied::copy_into;
use arrayvec::ArrayVec;
use bgp_frame::{Kind, NotificationView, head};
use bgp_machine::ActionView;

/// The length of the longest message (RFC 4271, section 4.1).
pub(crate) const MESSAGE_MAX: usize = 4096;

/// The whole message of a NOTIFICATION.
fn notification(why: &NotificationView<'_>) -> ArrayVec<u8, MESSAGE_MAX>
    ensures { result.items ≡ notification_octets (notification_of_view why.now) }
{
    let mut octets = ArrayVec::new();
    let _ = octets.try_extend_from_slice(&head(Kind::Notification, (2 + why.info.len()) as u16));
    let _ = octets.try_extend_from_slice(&[why.code, why.subcode]);
    let _ = octets.try_extend_from_slice(why.info);
    octets
}

/// Copies octets to the beginning of a buffer, where it has room. Answers their number.
pub(crate) fn put(octets: &[u8], buffer: &mut [u8]) -> usize
    ensures count { result ≡ length octets.now }
    ensures copied { buffer.new ≡ copied octets.now buffer.old }
{
    let _ = copy_into(octets, buffer);
    octets.len()
}

/// Copies the message that an action sends to the beginning of a buffer. Answers its length, where the action sends
/// one.
fn send(own: &[u8], action: &ActionView<'_>, buffer: &mut [u8]) -> Option<usize>
    ensures count { result ≡ option_map length (message_of own.now (action_of action.now)) }
    ensures copied { MatchOption (message_of own.now (action_of action.now)) (buffer.new ≡ buffer.old) (λ octets. buffer.new ≡ copied octets buffer.old) }
{
    match action {
        ActionView::SendOpen => Some(put(own, buffer)),
        ActionView::SendKeepalive => Some(put(&head(Kind::Keepalive, 0), buffer)),
        ActionView::SendNotification(why) => Some(put(&notification(why), buffer)),
        _ => None,
    }
}

/// Copies the message of the first action that sends one to the beginning of a buffer. Answers its length: 0 where
/// nothing is sent.
pub(crate) fn send_first(own: &[u8], actions: &[ActionView<'_>], buffer: &mut [u8]) -> usize
    ensures count { result ≡ length (octets_sent own.now (map action_of actions.now)) }
    ensures copied { buffer.new ≡ copied (octets_sent own.now (map action_of actions.now)) buffer.old }
{
    'actions: for action in actions {
        if let Some(count) = send(own, action, buffer) {
            return count;
        }
    }
    0
}
