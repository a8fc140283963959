//! The statuses of a call.

/// The call did what it says.
pub const OK: u32 = 0;

/// The handle has no session, decoder, stream or guard.
pub const NO_SESSION: u32 = 1;

/// An allocation failed: nothing has changed, and the call can be made again.
pub const MEMORY: u32 = 2;

/// A number, a span or a length is out of its range.
pub const RANGE: u32 = 3;

/// The octets are less than a message.
pub const INCOMPLETE: u32 = 4;

/// There is too little room.
pub const ROOM: u32 = 5;

/// Nothing remains.
pub const END: u32 = 6;

/// The UPDATE isn't accepted whole, or there is no accepted OPEN.
pub const REFUSED: u32 = 7;

/// The UPDATE can't be written.
pub const UNWRITABLE: u32 = 8;

/// The session or the guard isn't in a state for this, or the decoder or the stream has stopped.
pub const STATE: u32 = 9;

/// The configuration isn't one that is allowed.
pub const CONFIG: u32 = 10;

/// The handle has a session, a decoder, a stream or a guard already.
pub const IN_USE: u32 = 11;

/// The UPDATE has routes of several kinds (RFC 7606, section 5.1).
pub const MIXED: u32 = 12;
