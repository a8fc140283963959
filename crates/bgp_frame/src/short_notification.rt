//! A NOTIFICATION of a few machine words.

ghost use Rattle.std.specs.Prelude.{◌≤◌};

use crate::notification::NotificationView;

/// A NOTIFICATION with at most two octets of data, as a header's fault and a message that the state doesn't allow have: a few words instead of 4 KB.
#[derive(Clone, Copy)]
pub struct ShortNotification {
    code: u8,
    subcode: u8,
    info: [u8; 2],
    len: u8,
    ghost fits: { len ≤ 2 },
}

impl ShortNotification {
    ghost use Rattle.std.specs.Prelude.{◌≡◌, ◌∷◌, []};
    ghost use Rattle.bgp_frame.specs.Notification.{notification_of_view};
    ghost use Rattle.bgp_frame.specs.ShortNotification.{notification_with, short_value};

    /// A NOTIFICATION without data.
    pub fn plain(code: u8, subcode: u8) -> ShortNotification
        ensures { short_value result ≡ notification_with code subcode [] }
    {
        ShortNotification {
            code,
            subcode,
            info: [0, 0],
            len: 0,
        }
    }

    /// One whose data is an octet.
    pub fn with_octet(code: u8, subcode: u8, octet: u8) -> ShortNotification
        ensures { short_value result ≡ notification_with code subcode (octet ∷ []) }
    {
        ShortNotification {
            code,
            subcode,
            info: [octet, 0],
            len: 1,
        }
    }

    /// One whose data is two octets.
    pub fn with_two(code: u8, subcode: u8, octets: [u8; 2]) -> ShortNotification
        ensures { short_value result ≡ notification_with code subcode octets }
    {
        ShortNotification {
            code,
            subcode,
            info: octets,
            len: 2,
        }
    }

    /// The same, with its data borrowed.
    pub fn view(&self) -> NotificationView<'_>
        ensures { notification_of_view result ≡ short_value self.now }
    {
        NotificationView {
            code: self.code,
            subcode: self.subcode,
            info: &self.info[..usize::from(self.len)],
        }
    }
}
