//! Changes of the connection.

/// The change of the connection by the actions of one call of the session, which is to be reported to it.
#[derive(Clone, Copy, PartialEq, Eq)]
pub(crate) enum Link {
    /// No change.
    Same,
    /// One was sought, and is up.
    Up,
    /// It failed, or none was found.
    Down,
}
