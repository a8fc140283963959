//! One session of BGP-4: the state machine of a connection (RFC 4271, section 8), without IO and without a clock. It is
//! given events and octets, and answers what is to be done.
#![tactic(auto)]

mod acting;
mod action;
mod action_view;
mod action_views;
mod event;
mod events;
mod heard;
mod hearing;
pub mod laws;
mod look;
mod phase;
mod send_fault;
mod sending;
mod session;
mod standing;
mod state;
mod stepping;
mod timer;

pub use action::{Action, Actions};
pub use action_view::ActionView;
pub use action_views::ActionViews;
pub use event::Event;
pub use heard::Heard;
pub use look::{Look, Next};
pub use send_fault::SendFault;
pub use session::Session;
pub use state::State;
pub use timer::{OPEN_HOLD_SECONDS, RETRY_SECONDS, Timer};
