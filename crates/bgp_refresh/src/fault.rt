//! What is wrong with a ROUTE-REFRESH.

ghost use Rattle.std.specs.Prelude.{◌≡◌, ◌≤◌, ◌+◌, ◌++◌, length, min, take};
ghost use Rattle.bgp_refresh.specs.Fault.{refresh_notification};
ghost use Rattle.bgp_refresh.specs.Refresh.{refresh_header};

use crate::writing::refresh_header;
use arrayvec::ArrayVec;
use bgp_frame::Notification;
use bgp_numbers::error;

/// The octets of a message that the Data field of a NOTIFICATION takes after a header of 19.
const BODY_ROOM: usize = 4056;

/// The header and the body of a message, as far as the Data field of a NOTIFICATION has room.
fn front_of(body: &[u8]) -> ArrayVec<u8, 4075>
    requires { length body.now ≤ 65516 }
    ensures { result.items ≡ refresh_header (19 + length body.now) ++ take (min (length body.now) 4056) body.now }
{
    let mut octets = ArrayVec::new();
    let _ = octets.try_extend_from_slice(&refresh_header((19 + body.len()) as u16));
    let _ = octets.try_extend_from_slice(&body[..body.len().min(BODY_ROOM)]);
    octets
}

/// Why a ROUTE-REFRESH is refused.
#[derive(Clone, Copy, Debug, PartialEq, Eq)]
pub enum RefreshFault {
    /// Fewer than four octets after the header (RFC 4271, section 6.1).
    Short,
    /// A BoRR or an EoRR has another length than four octets after the header (RFC 7313, section 5).
    Length,
}

impl RefreshFault {
    /// The NOTIFICATION for the fault of a body: 1/2 (Bad Message Length) with the Length, or 7/1 (Invalid Message Length) with the message, or its first
    /// 4075 octets.
    pub fn notification(self, body: &[u8]) -> Notification
        requires { length body.now ≤ 65516 }
        ensures { result ≡ refresh_notification self body.now }
    {
        match self {
            RefreshFault::Short => {
                let length = (19 + body.len()) as u16;
                Notification::new(
                    error::MESSAGE_HEADER,
                    error::BAD_MESSAGE_LENGTH,
                    &length.to_be_bytes(),
                )
            }
            RefreshFault::Length => Notification {
                code: error::ROUTE_REFRESH_MESSAGE,
                subcode: error::INVALID_REFRESH_LENGTH,
                info: front_of(body),
            },
        }
    }
}
