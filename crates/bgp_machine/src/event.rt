//! What happens to a session, besides the octets that it receives.

use crate::timer::Timer;

/// What happens to a session (RFC 4271, section 8.1).
#[derive(Clone, Copy, Debug, PartialEq, Eq, Hash)]
pub enum Event {
    /// The operator wants the session (events 1 and 3: ManualStart, AutomaticStart).
    Start,
    /// The operator ends it (events 2 and 8: ManualStop, AutomaticStop).
    Stop,
    /// The connection is up (events 16 and 17: Tcp_CR_Acked, TcpConnectionConfirmed).
    Connected,
    /// The connection, or the attempt at one, failed (event 18: TcpConnectionFails).
    Failed,
    /// A timer has expired (events 9, 10 and 11). One that doesn't run does nothing.
    Expired(Timer),
}
