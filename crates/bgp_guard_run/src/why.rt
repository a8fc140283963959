//! Why a session ends.

use bgp_guard::{OPEN_SECONDS, Side};
use std::{fmt, io};

/// Why a session ends.
#[derive(Drop)]
pub(crate) enum Why {
    /// A side closed its connection.
    Closed(Side),
    /// The connection of a side failed.
    Lost(Side, io::Error),
    /// A side couldn't be reached.
    Unreachable(Side, io::Error),
    /// A side sent a NOTIFICATION.
    Notified(Side, Code),
    /// A side was answered by a NOTIFICATION.
    Answered(Side, Code),
    /// What is queued for a side hasn't moved for this many seconds.
    Stalled(Side, u16),
    /// The OPENs of both didn't arrive in time.
    Late,
    /// The program ends.
    Stopped,
}

/// The code and the subcode of a NOTIFICATION.
#[derive(Clone, Copy)]
pub(crate) struct Code {
    pub(crate) code: u8,
    pub(crate) subcode: u8,
}

impl fmt::Display for Code {
    fn fmt<W: fmt::Write>(&self, f: &mut fmt::Formatter<W>) -> fmt::Result {
        write!(f, "{}/{}", self.code, self.subcode)
    }
}

/// The word for a side.
pub(crate) fn name_of(side: Side) -> &'static str {
    match side {
        Side::Outer => "outer",
        Side::Inner => "inner",
    }
}

impl fmt::Display for Why {
    fn fmt<W: fmt::Write>(&self, f: &mut fmt::Formatter<W>) -> fmt::Result {
        match self {
            Why::Closed(side) => write!(f, "{} closed", name_of(*side)),
            Why::Lost(side, error) => write!(f, "{} lost: {error}", name_of(*side)),
            Why::Unreachable(side, error) => write!(f, "{} unreachable: {error}", name_of(*side)),
            Why::Notified(side, code) => write!(f, "{} sent {code}", name_of(*side)),
            Why::Answered(side, code) => write!(f, "{} answered {code}", name_of(*side)),
            Why::Stalled(side, seconds) => {
                write!(f, "{} read nothing for {seconds} seconds", name_of(*side))
            }
            Why::Late => write!(f, "no OPEN of both in {OPEN_SECONDS} seconds"),
            Why::Stopped => write!(f, "stopped"),
        }
    }
}
