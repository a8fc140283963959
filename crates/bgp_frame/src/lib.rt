//! Frames of BGP-4: headers, whole messages from a stream that is cut anywhere, and NOTIFICATIONs (RFC 4271, sections 4.1, 4.5 and 6.1).
#![tactic(auto)]

mod end;
mod fault;
mod framer;
mod framer_of;
mod grammar;
mod header;
mod kind;
pub mod laws;
mod notification;
mod pull;
mod short_notification;
mod step;

pub use end::End;
pub use fault::HeadFault;
pub use framer::Framer;
pub use framer_of::FramerOf;
pub use grammar::{Grammar, Plain, WideGrammar};
pub use header::head;
pub use kind::{Kind, WideKind};
pub use notification::{Notification, NotificationView};
pub use pull::Pull;
pub use short_notification::ShortNotification;
pub use step::{Frame, Step, front, front_of};
