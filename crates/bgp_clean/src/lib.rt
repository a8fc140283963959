//! Cleaned messages: whatever arrives, what is passed on is well formed, and says what RFC 7606 has a receiver learn.
#![tactic(auto)]

mod checking;
mod cleaned;
mod cleaning;
mod fault;
pub mod laws;
mod limits;
mod opens;
mod part;
mod updates;
mod whole;
mod wide;

pub use cleaned::Cleaned;
pub use cleaning::{clean, clean_with};
pub use fault::CleanFault;
pub use limits::Limits;
pub use opens::count_understood;
pub use wide::{clean_in, clean_refresh};
