//! Which ROUTE-REFRESH a reader accepts.

/// Whether a reader accepts ROUTE-REFRESH, and which.
#[derive(Clone, Copy, Debug, PartialEq, Eq)]
pub enum Refreshes {
    /// It hasn't offered any: type 5 is unknown.
    None,
    /// Requests (RFC 2918).
    Plain,
    /// Requests, and the marks where a refresh begins and ends (RFC 7313).
    Enhanced,
}
