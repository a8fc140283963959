//! How a stream of messages ends.

/// How a stream ends after its last whole message.
#[derive(Clone, Copy, Debug, PartialEq, Eq)]
pub enum End {
    /// The body of the last message calls for a reset.
    Reset,
    /// A header has a fault: nothing after it can be read.
    Head,
    /// The number of octets of an incomplete message, at most 4095: 0 where the stream ends between messages.
    Wait(u16),
}
