//! The messages of a stream by the terms of a session, however it is cut into pieces.

ghost use Rattle.std.specs.Prelude.{◌≡◌, ◌≤◌, length};
ghost use Rattle.bgp_terms.specs.Prelude.{wide_terms};
ghost use Rattle.bgp_wide.specs.Decoder.{fresh, IsFed};
ghost use Rattle.bgp_wide.specs.Look.{IsLook, gone};

use crate::grammar::grammar_of;
use crate::look::{WideLook, WideNext};
use crate::taking::view_frame_in;
use bgp_frame::{FramerOf, Pull, WideGrammar};
use bgp_terms::WideTerms;
use bgp_update::UpdateView;
use std::marker::Model;

/// Reads the octets of a stream by the terms of its session, however it is cut into pieces, and gives the outcome of each message as a view. It holds at
/// most one message, of at most 4096 octets; after a reset it holds and reads nothing. No call allocates.
#[derive(Drop)]
pub struct WideDecoder {
    terms: WideTerms,
    framer: FramerOf<WideGrammar, 4096>,
    stopped: bool,
}

impl Model for WideDecoder {
    ghost use Rattle.std.specs.Prelude.{◌≡◌, true, []};
    ghost use Rattle.bgp_terms.specs.Prelude.{wide_terms};
    ghost use Rattle.bgp_wide.specs.Decoder.{Decoding};
    ghost use Rattle.bgp_wide.specs.Outcome.{grammar_of};

    ghost Value = { Decoding };

    ghost view = { λ d. record { terms = wide_terms d.terms; held = d.framer.octets; stopped = d.stopped } };

    ghost invariant = { λ d. (d.framer.grammar ≡ grammar_of d.terms.refresh) × (d.stopped ≡ true → d.framer.octets ≡ []) };
}

impl WideDecoder {
    /// A decoder of the messages of a session by these terms, at the start of a stream.
    pub fn new(terms: WideTerms) -> WideDecoder
        ensures { result ≡ fresh (wide_terms terms) }
    {
        WideDecoder {
            terms,
            framer: FramerOf::empty(grammar_of(terms.refresh)),
            stopped: false,
        }
    }

    /// The terms.
    pub fn terms(&self) -> &WideTerms
        ensures { wide_terms result.now ≡ self.now.terms }
    {
        &self.terms
    }

    /// Whether a reset was returned: nothing after it is read.
    pub fn stopped(&self) -> bool
        ensures { result ≡ self.now.stopped }
    {
        self.stopped
    }

    /// The number of octets held.
    pub fn held(&self) -> usize
        ensures value { result ≡ length self.now.held }
        ensures bound { result ≤ 4096 }
    {
        self.framer.held()
    }

    /// The octets that are held.
    pub fn octets(&self) -> &[u8]
        ensures { result.now ≡ self.now.held }
    {
        self.framer.octets()
    }

    /// Consumes octets of the piece until it ends, or a whole message or a header with a fault is held. Answers the number consumed: none after a
    /// reset.
    pub fn feed(&mut self, piece: &[u8]) -> usize
        ensures { IsFed self.old piece.now result self.new }
    {
        if self.stopped {
            0
        } else {
            self.framer.feed(piece)
        }
    }

    /// The outcome of what is held, or of the message or the faulty header that the piece begins with, as a view, without memory and without a change.
    /// To continue after it, drop the octets of the piece that it says, and call [`go`](WideDecoder::go) with the state that it returns; after `Feed`,
    /// call [`feed`](WideDecoder::feed).
    ///
    /// The view of an UPDATE is written into `place`, over whatever it held.
    #[tactic(auto, using(crate::proofs::Pulls::stopped_feeds))]
    pub fn look<'b, 'a>(&'a self, piece: &'a [u8], place: &'b mut UpdateView<'a>) -> WideLook<'b>
        ensures { IsLook self.now piece.entry.now result }
    {
        if self.stopped {
            return WideLook::Feed;
        }
        match self.framer.look(piece) {
            Pull::Feed => WideLook::Feed,
            Pull::Frame(taken, frame) => {
                let len = frame.len;
                let view = view_frame_in(&self.terms, frame, place);
                let next = WideNext::new(self, view.is_reset());
                WideLook::Message(taken, len, view, next)
            }
            Pull::Fault(taken, fault) => WideLook::Fault(taken, fault, WideNext::new(self, true)),
        }
    }

    /// Continues after a message or a faulty header that [`look`](WideDecoder::look) gave: nothing is held any more, and the decoder stops where that
    /// was a reset, as each faulty header is. The decoder has to be as it was at the look.
    pub fn go(&mut self, next: WideNext)
        requires { next.from ≡ self.old }
        ensures { self.new ≡ gone self.old next.resets }
    {
        self.framer.clear();
        self.stopped = next.resets();
    }
}
