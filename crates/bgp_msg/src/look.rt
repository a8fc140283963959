//! What a decoder finds without changing its state.

ghost use Rattle.std.specs.Prelude.{◌≡◌};

use crate::decoder::Decoder;
use crate::outcome_view::OutcomeView;
use bgp_frame::HeadFault;
use std::marker::Model;
use std::snapshot::Snapshot;

/// Where a decoder continues after what a look found: the argument of [`Decoder::go`]. It belongs to the decoder as it
/// was at the look, and to one in the same state.
#[derive(Drop)]
pub struct Next {
    resets: bool,
    origin: Snapshot<Decoder>,
}

impl Model for Next {
    ghost use Rattle.bgp_msg.specs.Decoder.{Going};

    ghost Value = { Going };

    ghost view = { λ n. record { from = n.origin.value; resets = n.resets } };
}

impl Next {
    /// After a message or a header that was found, which is a reset or none.
    pub(crate) fn new(decoder: &Decoder, resets: bool) -> Next
        ensures { result ≡ record { from = decoder.now; resets = resets } }
    {
        let origin = Snapshot::of(decoder);
        Next { resets, origin }
    }

    /// Whether what was found is a reset.
    pub(crate) fn resets(&self) -> bool
        ensures { result ≡ self.now.resets }
    {
        self.resets
    }
}

/// What a pull from a piece would give, as a view that allocates nothing: it points into the piece, or into what the
/// decoder holds. Bind every field when matching: the borrow checker doesn't cover a match that leaves one out.
#[derive(Drop)]
pub enum Look<'a> {
    /// A whole message: the number of octets of the piece that a pull would consume (none where the message is held),
    /// its length, its outcome, and where the decoder continues.
    Message(usize, u16, OutcomeView<'a>, Next),
    /// A header with a fault, the number of octets of the piece that a pull would consume, and where the decoder
    /// continues.
    Fault(usize, HeadFault, Next),
    /// Nothing yet: a pull would feed the piece, and consume nothing after a reset.
    Feed,
}
