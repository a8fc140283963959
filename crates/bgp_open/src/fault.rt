//! Why the body of an OPEN is refused.

ghost use Rattle.std.specs.Prelude.{◌≡◌, ◌≤◌, length, option_map};
ghost use Rattle.bgp_open.specs.declared.fault.OpenFault.TheVariants.{Memory};
ghost use Rattle.bgp_frame.specs.Prelude.{notification_of_view};
ghost use Rattle.bgp_open.specs.OpenFault.{open_error, open_notification};

use bgp_frame::{Notification, NotificationView};
use bgp_numbers::{VERSION, error};
use std::alloc::AllocError;

/// The first fault of the body of an OPEN (RFC 4271, section 6.2), or an allocation that failed. The order of the tests is our own: the version;
/// the length of the parameters; the first parameter that isn't read, which is tested for being cut off, then for its type, then
/// for its capabilities; the Hold Time; the identifier.
#[derive(Clone, Copy, Debug, PartialEq, Eq)]
pub enum OpenFault {
    /// The version isn't 4.
    Version,
    /// The parameters don't fill their length; or one is cut off, whatever its type; or a capability is cut off or of a wrong length.
    Parameter,
    /// A complete parameter is of a type other than 2.
    UnknownParameter,
    /// The Hold Time is 1 or 2.
    Hold,
    /// The BGP Identifier is zero.
    Identifier,
    /// An allocation failed: nothing is wrong with the body.
    Memory,
}

/// The version supported here, as the data of a NOTIFICATION.
const SPOKEN: [u8; 2] = [0, VERSION];

/// A NOTIFICATION of code 2, OPEN Message Error (RFC 4271, section 6.2).
pub(crate) fn open_error(subcode: u8, info: &[u8]) -> NotificationView<'_>
    requires { length info.now ≤ 4075 }
    ensures { notification_of_view result ≡ open_error subcode info.entry.now }
{
    NotificationView {
        code: error::OPEN_MESSAGE,
        subcode,
        info,
    }
}

impl OpenFault {
    /// The NOTIFICATION of the fault, of code 2 (OPEN Message Error): none where memory ran out.
    pub fn notification(self) -> Option<Notification>
        ensures { result ≡ open_notification self }
    {
        Some(self.answer()?.own())
    }

    /// The same, with its data borrowed.
    pub fn answer(self) -> Option<NotificationView<'static>>
        ensures { option_map notification_of_view result ≡ open_notification self }
    {
        match self {
            OpenFault::Version => Some(open_error(error::UNSUPPORTED_VERSION, &SPOKEN)),
            OpenFault::Parameter => Some(open_error(error::UNSPECIFIC, &[])),
            OpenFault::UnknownParameter => Some(open_error(error::UNSUPPORTED_PARAMETER, &[])),
            OpenFault::Hold => Some(open_error(error::UNACCEPTABLE_HOLD_TIME, &[])),
            OpenFault::Identifier => Some(open_error(error::BAD_IDENTIFIER, &[])),
            OpenFault::Memory => None,
        }
    }
}

impl From<AllocError> for OpenFault {
    ghost from_gives = { λ _ e. e ≡ Memory };

    fn from(_refused: AllocError) -> OpenFault {
        OpenFault::Memory
    }
}
