//! The result of cleaning a message.

use crate::fault::CleanFault;

/// The result for a message.
#[derive(Clone, Copy, Debug, PartialEq, Eq)]
pub enum Cleaned {
    /// It is passed on, or its replacement is.
    HandedOn,
    /// The cleaned stream ends before it.
    Ends(CleanFault),
}
