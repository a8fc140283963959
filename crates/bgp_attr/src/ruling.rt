//! The judgement of one attribute, without its value.

ghost use Rattle.std.specs.Prelude.{◌≡◌, ◌≤◌, length};
ghost use Rattle.bgp_frame.specs.Prelude.{notification_of_view};
ghost use Rattle.bgp_attr.specs.Prelude.{attribute_reset};

use crate::why::Why;
use bgp_frame::NotificationView;
use bgp_numbers::error::{MALFORMED_ATTRIBUTE_LIST, UPDATE_MESSAGE};

/// The judgement of one attribute (RFC 7606, section 2), without its value, in two octets: an UPDATE is judged by these.
#[derive(Clone, Copy)]
pub enum Ruling {
    /// It is kept.
    Keep,
    /// It is discarded (attribute discard).
    Discard(Why),
    /// Its message is treated as a withdrawal (treat-as-withdraw).
    Withdraw(Why),
    /// The session ends with a NOTIFICATION of code 3 and this subcode ([`attribute_reset`]).
    Reset(u8),
}

/// The reset of code 3 and this subcode by an attribute, with the whole attribute as it was received; a malformed list of attributes has no data
/// (RFC 4271, section 6.3).
#[inline(never)]
pub fn attribute_reset(subcode: u8, whole: &[u8]) -> NotificationView<'_>
    requires { length whole.now ≤ 4075 }
    ensures { notification_of_view result ≡ attribute_reset subcode whole.now }
{
    let info = if subcode == MALFORMED_ATTRIBUTE_LIST {
        &[]
    } else {
        whole
    };
    NotificationView {
        code: UPDATE_MESSAGE,
        subcode,
        info,
    }
}
