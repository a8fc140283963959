//! What a decoder by terms finds without changing its state.

ghost use Rattle.std.specs.Prelude.{◌≡◌};

use crate::decoder::WideDecoder;
use crate::outcome_view::WideOutcomeView;
use bgp_frame::HeadFault;
use std::marker::Model;
use std::snapshot::Snapshot;

/// Where a decoder continues after what a look found: the argument of [`WideDecoder::go`]. It belongs to the decoder as it was at the look, and to one
/// in the same state.
#[derive(Drop)]
pub struct WideNext {
    resets: bool,
    origin: Snapshot<WideDecoder>,
}

impl Model for WideNext {
    ghost use Rattle.bgp_wide.specs.Decoder.{Going};

    ghost Value = { Going };

    ghost view = { λ n. record { from = n.origin.value; resets = n.resets } };
}

impl WideNext {
    /// After a message or a header that was found, which is a reset or none.
    pub(crate) fn new(decoder: &WideDecoder, resets: bool) -> WideNext
        ensures { result ≡ record { from = decoder.now; resets = resets } }
    {
        let origin = Snapshot::of(decoder);
        WideNext { resets, origin }
    }

    /// Whether what was found is a reset.
    pub(crate) fn resets(&self) -> bool
        ensures { result ≡ self.now.resets }
    {
        self.resets
    }
}

/// What a piece gives, as a view that allocates nothing: it points into the piece, or into what the decoder holds. Bind every field when matching: the
/// borrow checker doesn't cover a match that leaves one out.
#[derive(Drop)]
pub enum WideLook<'a> {
    /// A whole message: the number of its octets that are in the piece (none where the message is held), its length, its outcome, and where the decoder
    /// continues.
    Message(usize, u16, WideOutcomeView<'a>, WideNext),
    /// A header with a fault, the number of its octets that are in the piece, and where the decoder continues.
    Fault(usize, HeadFault, WideNext),
    /// Nothing yet: the piece is to be fed, of which nothing is consumed after a reset.
    Feed,
}
