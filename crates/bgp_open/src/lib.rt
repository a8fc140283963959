//! The OPEN of BGP-4, its capabilities, and what two speakers agree on (RFC 4271, sections 4.2 and 6.2; RFC 5492).
#![tactic(auto)]

mod agreed;
mod agreement;
mod body;
mod capability;
mod capability_iter;
mod capability_view;
mod config;
mod context;
mod fault;
mod field;
pub mod laws;
mod message;
mod open_view;
mod own;
mod parameter;
mod paths;
mod peer;
mod read;
mod row;
mod write;

pub use agreed::agreed_context;
pub use agreement::{PeerFault, agree, agree_with};
pub use body::open_body;
pub use capability::Capability;
pub use capability_iter::CapabilityIter;
pub use capability_view::{CapabilityView, first_capability};
pub use config::{BadConfig, Config, Speaker};
pub use context::Context;
pub use fault::OpenFault;
pub use message::Open;
pub use open_view::OpenView;
pub use own::{own_frame, own_open};
pub use parameter::first_parameter;
pub use paths::agree_on_paths;
pub use peer::Peer;
pub use read::{read_open, view_open};
pub use write::{WriteOpenFault, write_open};
