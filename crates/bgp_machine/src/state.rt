//! The states of a session.

/// The state of a session (RFC 4271, section 8.2.2).
#[derive(Clone, Copy, Debug, PartialEq, Eq, Hash)]
pub enum State {
    /// No connection is sought.
    Idle,
    /// A connection is sought.
    Connect,
    /// A connection failed before the peers agreed; the session awaits a new one.
    Active,
    /// The connection is up, the own OPEN is sent, and the peer's is awaited.
    OpenSent,
    /// The peer's OPEN is accepted, and its KEEPALIVE is awaited.
    OpenConfirm,
    /// Routes are exchanged.
    Established,
}
