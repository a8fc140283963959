//! The fields of a message: each octet of it, whatever the message, and the span of each fault.
#![tactic(auto)]

mod asking;
mod cause;
mod field;
mod head;
mod iter;
mod kind;
pub mod laws;
mod listing;
mod message_plan;
mod octets;
mod open_place;
mod part;
mod path_place;
mod place;
mod plan;
mod reading;
mod rests;
mod section_plan;
mod sections;
mod value_plan;

pub use cause::{Cause, header_fault, message_cause, message_fault};
pub use field::{Fault, Field, Group, Span};
pub use iter::FieldIter;
pub use kind::FieldKind;
pub use listing::Listed;
pub use path_place::path_fault;
pub use place::{header_span, message_span, note_span, reset_span};

#[cfg(test)]
mod tests;
