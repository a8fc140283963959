//! What a guard keeps of a side.

ghost use Rattle.std.specs.Prelude.{◌≡◌, IfOk};
ghost use Rattle.bgp_guard.specs.Prelude.{absent, half_of};

use crate::buffer::Buffer;
use crate::way::Way;
use bgp_terms::Offers;
use std::alloc::{AllocError, Global};

/// All but the octets of an incomplete message.
#[derive(Drop)]
pub(crate) struct Line {
    /// Whether the connection is up.
    pub(crate) stands: bool,
    /// What its OPEN says and offers, once that was passed on.
    pub(crate) offers: Option<Offers>,
    /// Whether its KEEPALIVE was passed on.
    pub(crate) ready: bool,
    /// The octets queued for the side.
    pub(crate) way: Way,
    /// For how many seconds of an established session nothing was passed on to it.
    pub(crate) quiet: u16,
    /// A message to it was dropped, and nothing passed on since.
    pub(crate) owed: bool,
}

/// What is kept of a side.
#[derive(Drop)]
pub(crate) struct Half {
    /// The octets of an incomplete message.
    pub(crate) framer: Buffer,
    /// All else.
    pub(crate) line: Line,
}

impl Half {
    /// A side that isn't up yet.
    ///
    /// # Errors
    /// `AllocError` where an allocation failed.
    pub(crate) fn new(alloc: Global) -> Result<Half, AllocError>
        ensures { IfOk result (λ h. half_of h ≡ absent) }
    {
        let way = Way::new(alloc)?;
        Ok(Half {
            framer: Buffer::new(),
            line: Line {
                stands: false,
                offers: None,
                ready: false,
                way,
                quiet: 0,
                owed: false,
            },
        })
    }
}
