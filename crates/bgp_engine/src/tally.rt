//! The counts of a run, and the status that follows from them.

ghost use Rattle.std.specs.Prelude.{◌≡◌};
ghost use Rattle.bgp_engine.specs.Prelude.{status_of};

use crate::fault::ToolFault;
use bgp_frame::End;

/// The counts of a stream, and how it ended.
#[derive(Clone, Copy, Debug, PartialEq, Eq)]
pub struct Tally {
    /// Whole messages, whatever their outcome.
    pub messages: u64,
    /// Messages that were accepted.
    pub took: u64,
    /// UPDATE messages that were treated as withdrawals.
    pub withdrawn: u64,
    /// Resets, by a message or by a header.
    pub resets: u64,
    /// How the stream ended.
    pub end: End,
}

/// The status of the process: 0 where each message was accepted and none is incomplete; 1 at treat-as-withdraw, a
/// reset, an incomplete message, bad hexadecimal text, what can't be narrowed or cleaned, no context that two OPENs
/// agree on, or a faulty script; 3 where memory ran out; 4 where a read, a write or the set-up of a listener failed. (2
/// is a fault of the command line.)
pub fn status(outcome: &Result<Tally, ToolFault>) -> u8
    ensures { result ≡ status_of outcome.now }
{
    match outcome {
        Ok(tally) if tally.withdrawn == 0 && tally.resets == 0 && tally.end == End::Wait(0) => 0,
        Ok(_)
        | Err(
            ToolFault::BadHex(_)
            | ToolFault::Narrow(_)
            | ToolFault::Clean(..)
            | ToolFault::NoContext(_)
            | ToolFault::Script(_),
        ) => 1,
        Err(ToolFault::Memory) => 3,
        Err(ToolFault::Read | ToolFault::Write | ToolFault::Net) => 4,
    }
}
