//! How a session of the program ends.

/// All was clean.
pub(crate) const CLEAN: u8 = 0;

/// The session had a fault, or never was Established.
pub(crate) const UNCLEAN: u8 = 1;
