//! The outcomes of a stream's messages, and how it ends.

ghost use Rattle.std.specs.Prelude.{◌≡◌, IfOk};

use crate::outcome::Outcome;
use bgp_frame::End;
use bgp_wire::List;
use std::alloc::{AllocError, Global};

/// For each message of a stream its length and its outcome, and how the stream ends. A header's fault is the last
/// outcome, of length 0.
#[derive(Drop, PartialEq)]
pub struct Seen {
    /// Each outcome in order, after the length of its message: 19 to 4096, or 0 for a header with a fault.
    pub outs: List<(u16, Outcome)>,
    /// How the stream ends.
    pub end: End,
}

impl Seen {
    /// An equal value, owned.
    ///
    /// # Errors
    /// `AllocError` where an allocation failed.
    pub fn copy(&self, alloc: Global) -> Result<Seen, AllocError>
        ensures { IfOk result (λ copy. copy ≡ self.now) }
    {
        let outs = self.outs.copy(alloc)?;
        Ok(Seen {
            outs,
            end: self.end,
        })
    }
}
