//! Faults of a header.

use crate::notification::Notification;
use crate::short_notification::ShortNotification;
use bgp_numbers::error;

/// Why a header begins no message, by the first test that fails: the Marker, the bounds of any Length, the type, the Length for that
/// type. The tests are those of RFC 4271, section 6.1, and their order our own.
#[derive(Clone, Copy, Debug, PartialEq, Eq)]
pub enum HeadFault {
    /// An octet of the Marker isn't 255.
    Marker,
    /// The Length is out of bounds, or not allowed for the type.
    Length(u16),
    /// No message has this type.
    Kind(u8),
}

impl HeadFault {
    ghost use Rattle.std.specs.Prelude.{◌≡◌};
    ghost use Rattle.bgp_frame.specs.Head.{head_notification};
    ghost use Rattle.bgp_frame.specs.ShortNotification.{short_value};

    /// The NOTIFICATION for the fault: code 1 (Message Header Error), the subcode, and as data the field that is at fault.
    pub fn notification(self) -> Notification
        ensures { result ≡ head_notification self }
    {
        self.answer().view().own()
    }

    /// The same, as a few machine words.
    pub fn answer(self) -> ShortNotification
        ensures { short_value result ≡ head_notification self }
    {
        match self {
            HeadFault::Marker => {
                ShortNotification::plain(error::MESSAGE_HEADER, error::NOT_SYNCHRONIZED)
            }
            HeadFault::Length(length) => ShortNotification::with_two(
                error::MESSAGE_HEADER,
                error::BAD_MESSAGE_LENGTH,
                length.to_be_bytes(),
            ),
            HeadFault::Kind(code) => ShortNotification::with_octet(
                error::MESSAGE_HEADER,
                error::BAD_MESSAGE_TYPE,
                code,
            ),
        }
    }
}
