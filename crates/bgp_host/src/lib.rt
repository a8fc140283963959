//! The owner of a session: it carries out what a session of BGP-4 wants done, over a connection, a clock and an observer.
#![tactic(auto)]

mod acting;
mod clock;
mod connection;
mod host;
mod link;
mod observer;

pub use clock::Clock;
pub use connection::Connection;
pub use host::Host;
pub use observer::Observer;
