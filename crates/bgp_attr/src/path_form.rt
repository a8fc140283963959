//! The two forms of paths in octets.

/// The form of a path in octets (RFC 6793, sections 3 and 4).
#[derive(Clone, Copy, Debug, PartialEq, Eq)]
pub struct PathForm {
    /// Its AS numbers have four octets, not two.
    pub wide: bool,
    /// It may have segments of confederations, which are dropped (RFC 6793, sections 3 and 6).
    pub confederations: bool,
}
