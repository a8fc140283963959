//! The classes of attributes.

/// What an attribute's Optional and Transitive bits say of its type (RFC 4271, section 5).
#[derive(Clone, Copy)]
pub(crate) enum Class {
    /// Well-known: each speaker knows it, and passes it on.
    WellKnown = 1,
    /// A speaker that doesn't know it ignores it, and doesn't pass it on.
    OptionalNonTransitive = 2,
    /// A speaker that doesn't know it passes it on.
    OptionalTransitive = 3,
}
