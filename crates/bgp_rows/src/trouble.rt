//! Why a row can't be tried.

use std::alloc::AllocError;

/// Why a row has no result.
#[derive(Clone, Copy, Debug, PartialEq, Eq)]
pub enum Trouble {
    /// The row isn't written as rows are: what is wrong with it.
    Row(&'static str),
    /// Allocation failed.
    Memory,
}

impl From<AllocError> for Trouble {
    fn from(_failed: AllocError) -> Trouble {
        Trouble::Memory
    }
}
