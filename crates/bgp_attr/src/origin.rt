//! ORIGIN.

/// Where the route came from (RFC 4271, section 5.1.1).
#[derive(Clone, Copy, Debug, PartialEq, Eq)]
pub enum Origin {
    /// IGP: inside the AS that originated it.
    Igp = 0,
    /// EGP: by the Exterior Gateway Protocol.
    Egp = 1,
    /// INCOMPLETE: by other means.
    Incomplete = 2,
}
