//! What is reported to an operator of a message that is accepted or treated as a withdrawal.

use bgp_attr::Why;
use bgp_wire::TryCopy;
use std::alloc::{AllocError, Global};

/// An attribute that was discarded, that made its message be treated as a withdrawal, or that is missing (RFC 7606, section 6).
#[derive(Clone, Copy, Debug, PartialEq, Eq)]
pub struct Note {
    /// The offset of its flags in the body: 0 for a missing one.
    pub at: u16,
    /// Its type: 0 for one that is cut off before its type.
    pub kind: u8,
    /// What is wrong with it.
    pub why: Why,
}

impl TryCopy for Note {
    fn try_copy(&self, _alloc: Global) -> Result<Note, AllocError> {
        Ok(*self)
    }
}
