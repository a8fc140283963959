//! The next message of a piece, after what is held.

use crate::fault::HeadFault;
use crate::kind::Kind;
use crate::step::Frame;

/// What [`Framer::look`](crate::Framer::look) finds (RFC 4271, section 4.1).
#[derive(Clone, Copy)]
pub enum Pull<'a, K: Copy = Kind> {
    /// No whole message: the piece is to be fed.
    Feed,
    /// A whole message, and the number of its octets that are in the piece: 0 where it is held.
    Frame(usize, Frame<'a, K>),
    /// A header that begins no message, and the number of its octets that are in the piece: 0 where it is held, else 19.
    Fault(usize, HeadFault),
}
