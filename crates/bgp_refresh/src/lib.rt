//! ROUTE-REFRESH: its body, what is wrong with one, and the message of a speaker's own (RFC 2918; RFC 7313).
#![tactic(auto)]

mod fault;
pub mod laws;
mod mark;
mod view;
mod writing;

pub use fault::RefreshFault;
pub use mark::RefreshMark;
pub use view::{RefreshView, view_refresh};
pub use writing::{refresh_header, write_refresh};

#[cfg(test)]
mod tests;
