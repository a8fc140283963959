//! NOTIFICATIONs.

ghost use Rattle.std.specs.Prelude.{◌≤◌, length};

use arrayvec::ArrayVec;

/// A NOTIFICATION (RFC 4271, section 4.5): an error's code and subcode, and at most 4075 octets of data.
#[derive(Drop, PartialEq, Eq)]
pub struct Notification {
    /// The error code.
    pub code: u8,
    /// The error subcode: 0 where the code has none.
    pub subcode: u8,
    /// The Data field.
    pub info: ArrayVec<u8, 4075>,
}

impl Notification {
    ghost use Rattle.std.specs.Prelude.{◌≡◌};

    /// A NOTIFICATION with this data, of at most 4075 octets.
    pub fn new(code: u8, subcode: u8, info: &[u8]) -> Notification
        requires { length info.now ≤ 4075 }
        ensures { result ≡ record { code = code; subcode = subcode; info = record { items = info.now } } }
    {
        let mut copy = ArrayVec::new();
        let _ = copy.try_extend_from_slice(info);
        Notification {
            code,
            subcode,
            info: copy,
        }
    }

    /// An equal NOTIFICATION. It allocates nothing.
    pub fn copy(&self) -> Notification
        ensures { result ≡ self.now }
    {
        Notification::new(self.code, self.subcode, &self.info)
    }
}

/// A NOTIFICATION whose data borrows the octets that are at fault: a few words instead of 4 KB.
#[derive(Clone, Copy)]
pub struct NotificationView<'a> {
    /// The error code.
    pub code: u8,
    /// The error subcode: 0 where the code has none.
    pub subcode: u8,
    /// The Data field: at most 4075 octets.
    pub info: &'a [u8],
    /// The Data field fits in a message.
    pub ghost fits: { length info.now ≤ 4075 },
}

impl NotificationView<'_> {
    ghost use Rattle.std.specs.Prelude.{◌≡◌};
    ghost use Rattle.bgp_frame.specs.Notification.{notification_of_view};

    /// The NOTIFICATION, with a copy of its data.
    pub fn own(self) -> Notification
        ensures { result ≡ notification_of_view self.entry }
    {
        Notification::new(self.code, self.subcode, self.info)
    }
}
