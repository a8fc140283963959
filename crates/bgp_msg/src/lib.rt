//! The messages of BGP-4: the outcome of each, how it is written, and streams of them however they are cut into pieces
//! (RFC 4271, sections 4 and 6; RFC 7606).
#![tactic(auto)]

mod decoder;
mod decoding;
mod early;
mod encoding;
mod header;
pub mod laws;
mod look;
mod message;
mod narrow_encoding;
mod outcome;
mod outcome_view;
mod seen;
mod taking;
mod update_encoding;
mod whole;

pub use bgp_frame::{End, Frame, Framer, HeadFault, Kind, Pull, Step, front};
pub use decoder::Decoder;
pub use decoding::decode_all;
pub use encoding::encode;
pub use header::put_header;
pub use look::{Look, Next};
pub use message::Message;
pub use narrow_encoding::encode_narrowed;
pub use outcome::Outcome;
pub use outcome_view::OutcomeView;
pub use seen::Seen;
pub use taking::{notification_in, out_frame, view_frame};
pub use update_encoding::encode_update;
