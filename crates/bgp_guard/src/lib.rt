//! The guard between two speakers: what each of them sends is passed on cleaned, so that octets reach the other only in
//! canonical form (RFC 7606; RFC 4271). It does no IO and knows no time: its owner reports what happens to it, and
//! sends what is queued for a side.
#![tactic(auto)]

mod answers;
mod buffer;
mod came;
mod events;
mod guard;
mod handing;
mod hearing;
mod keeping;
pub mod laws;
mod line;
mod rules;
mod side;
mod stage;
mod way;

pub use came::Came;
pub use guard::Guard;
pub use rules::Rules;
pub use side::Side;
pub use stage::{DRAIN_SECONDS, OPEN_SECONDS};
pub use way::{ROOM, WAY_MAX};
