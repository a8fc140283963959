//! Messages and streams of them by the terms of a session: those of RFC 4271, and ROUTE-REFRESH where the reader offers it (RFC 2918; RFC 7313).
#![tactic(auto)]

mod decoder;
mod grammar;
pub mod laws;
mod look;
mod outcome_view;
mod taking;

pub use decoder::WideDecoder;
pub use grammar::{front_in, grammar_of};
pub use look::{WideLook, WideNext};
pub use outcome_view::WideOutcomeView;
pub use taking::view_frame_in;

#[cfg(test)]
mod tests;
