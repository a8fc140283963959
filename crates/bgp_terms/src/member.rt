//! Confederations.

/// Whether both speakers are in one confederation (RFC 5065): no OPEN says so, and the owner of the session sets it.
#[derive(Clone, Copy, Debug, PartialEq, Eq)]
pub enum Member {
    /// They aren't.
    None,
    /// They are in one member AS.
    Same,
    /// They are in two member ASes.
    Other,
}
