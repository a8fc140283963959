//! What `mio` has no call for, over the kit's calls of C: a connection from an address that the caller chooses, TCP
//! keepalives, and whether a descriptor is ready to write or to read.
#![tactic(auto)]

mod address;
mod connecting;
mod options;

pub use connecting::connect_from;
pub use options::{has_input, has_room, probe};
