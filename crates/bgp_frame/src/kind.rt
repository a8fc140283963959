//! The kinds of message.

use bgp_numbers::message;

/// The kind of a message, by its type octet (RFC 4271, section 4.1).
#[derive(Clone, Copy, Debug, PartialEq, Eq, Hash)]
pub enum Kind {
    /// OPEN, type 1: 29 octets or more (RFC 4271, section 4.2).
    Open = message::OPEN as isize,
    /// UPDATE, type 2: 23 octets or more (RFC 4271, section 4.3).
    Update = message::UPDATE as isize,
    /// NOTIFICATION, type 3: 21 octets or more (RFC 4271, section 4.5).
    Notification = message::NOTIFICATION as isize,
    /// KEEPALIVE, type 4: 19 octets (RFC 4271, section 4.4).
    Keepalive = message::KEEPALIVE as isize,
}

impl Kind {
    ghost use Rattle.std.specs.Prelude.{◌≡◌};
    ghost use Rattle.bgp_frame.specs.Kind.{code_of, kind_of, least_length, most_length};

    /// The kind of a type octet, if there is one.
    pub(crate) fn from_code(code: u8) -> Option<Kind>
        ensures { result ≡ kind_of code }
    {
        match code {
            message::OPEN => Some(Kind::Open),
            message::UPDATE => Some(Kind::Update),
            message::NOTIFICATION => Some(Kind::Notification),
            message::KEEPALIVE => Some(Kind::Keepalive),
            _ => None,
        }
    }

    /// The type octet.
    pub(crate) fn code(self) -> u8
        ensures { result ≡ code_of self }
    {
        self as u8
    }

    /// The least octets of a whole message of this kind.
    pub(crate) fn least_length(self) -> u16
        ensures { result ≡ least_length self }
    {
        match self {
            Kind::Open => 29,
            Kind::Update => 23,
            Kind::Notification => 21,
            Kind::Keepalive => 19,
        }
    }

    /// The most octets of a whole message of this kind.
    pub(crate) fn most_length(self) -> u16
        ensures { result ≡ most_length self }
    {
        match self {
            Kind::Keepalive => 19,
            Kind::Open | Kind::Update | Kind::Notification => 4096,
        }
    }
}

/// The kinds of RFC 4271, and ROUTE-REFRESH.
#[derive(Clone, Copy, Debug, PartialEq, Eq)]
pub enum WideKind {
    /// One of RFC 4271.
    Base(Kind),
    /// ROUTE-REFRESH, type 5 (RFC 2918, section 3).
    Refresh,
}
