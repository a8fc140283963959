//! The names that the registries of IANA give to the numbers of BGP-4, each once.
#![tactic(auto)]

mod attribute;
mod capability;
mod error;
mod family;
mod message;

pub use attribute::{attribute_name, origin_name, segment_name};
pub use capability::{capability_name, parameter_name};
pub use error::{error_name, subcode_name};
pub use family::{afi_name, safi_name};
pub use message::message_name;
