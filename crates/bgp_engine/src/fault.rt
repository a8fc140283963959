//! What stops an engine before its stream ends.

ghost use Rattle.std.specs.Prelude.{◌≡◌};
ghost use Rattle.bgp_engine.specs.declared.fault.ToolFault.TheVariants.{Memory};

use bgp_clean::CleanFault;
use std::alloc::{AllocError, AllocFailed};
use thiserror::Error;

/// Why a cleaned stream ends before its stream does.
#[derive(Clone, Copy, Debug, PartialEq, Eq, Error)]
pub enum Stop {
    /// No reason is given.
    #[error("unsaid")]
    Unsaid,
    /// The message is incomplete.
    #[error("an incomplete message")]
    Incomplete,
    /// Nothing is passed on of the message.
    #[error("{0}")]
    At(CleanFault),
}

/// Why there is no context to read a stream in.
#[derive(Clone, Copy, Debug, PartialEq, Eq, Error)]
pub enum NoContext {
    /// The first message of the stream, or of the other direction, isn't an OPEN that is accepted; or 4-octet AS
    /// numbers are needed, and the two OPENs don't agree on them.
    #[error("no OPEN to agree with")]
    NoOpen,
    /// Its routes have path identifiers (ADD-PATH; RFC 7911), so that they would be misread.
    #[error("both OPENs agree on path identifiers (RFC 7911), which aren't read")]
    Paths,
}

/// A fault of the tool itself. Its text follows `bgp: ` on standard error.
#[derive(Clone, Copy, Debug, PartialEq, Eq, Error)]
pub enum ToolFault {
    /// An allocation failed.
    #[error("memory")]
    Memory,
    /// A read failed, or the reader was called too often.
    #[error("read failed")]
    Read,
    /// A write failed, or wrote no octet.
    #[error("write failed")]
    Write,
    /// A character of the hexadecimal text is bad: at this offset, counted from 0.
    #[error("bad hex at {0}")]
    BadHex(u64),
    /// The message, the faulty header or the incomplete message at this offset of the stream, counted from 0, can't be narrowed.
    #[error("cannot narrow at {0}")]
    Narrow(u64),
    /// Nothing is passed on of the message, the faulty header or the incomplete message at this offset of the stream,
    /// counted from 0.
    #[error("cannot clean at {0}: {1}")]
    Clean(u64, Stop),
    /// This line of a script is the first at fault, counted from 1.
    #[error("script line {0}")]
    Script(u32),
    /// The listener of a wire over TCP couldn't be set up.
    #[error("net failed")]
    Net,
    /// There is no context to read the stream in.
    #[error("{0}")]
    NoContext(NoContext),
}

impl From<AllocError> for ToolFault {
    ghost from_gives = { λ _ fault. fault ≡ Memory };

    fn from(_error: AllocError) -> ToolFault {
        ToolFault::Memory
    }
}

impl<T: Drop> From<AllocFailed<T>> for ToolFault {
    ghost from_gives = { λ _ fault. fault ≡ Memory };

    fn from(_error: AllocFailed<T>) -> ToolFault {
        ToolFault::Memory
    }
}
