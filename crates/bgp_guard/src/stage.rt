//! The stages of a guard.

/// How many seconds each side has for its OPEN, from when the first side came up (RFC 4271, section 8.2.2: "a large
/// value").
pub const OPEN_SECONDS: u8 = 240;

/// For how many seconds queued octets may still be sent once the guard has ended.
pub const DRAIN_SECONDS: u8 = 10;

/// The stage of a guard.
#[derive(Clone, Copy, PartialEq, Eq)]
pub(crate) enum Stage {
    /// Messages are passed on; the seconds since the first side came up, while an OPEN is missing.
    Runs(u8),
    /// Nothing is read any more; the seconds left for queued octets.
    Ends(u8),
}
