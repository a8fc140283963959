//! A session of BGP-4 (RFC 4271, section 8), re-exported from `bgp_machine`; and two of them that are joined by a
//! connection: what each sends arrives at the other in order, in whatever pieces, until the connection is lost. Each
//! delivery, expiry, stop and loss is a move of a list.
#![tactic(auto)]

mod acting;
pub mod laws;
mod moves;
mod observer;
mod pairing;
mod playing;
mod report;
mod side;
mod speaker;
mod wire;

pub use bgp_machine::{
    Action, ActionView, ActionViews, Actions, Event, Heard, Look, Next, OPEN_HOLD_SECONDS,
    RETRY_SECONDS, SendFault, Session, State, Timer,
};
pub use moves::Move;
pub use observer::Observer;
pub use playing::{observe_pair, run_pair};
pub use report::{Report, Round};
pub use side::Side;
pub use wire::{MemoryWire, Wire};
