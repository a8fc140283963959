//! The messages of a stream, however it is cut into pieces.

ghost use Rattle.std.specs.Prelude.{◌≡◌, ◌<◌, ◌≤◌, ◌⊎◌, true, false, [], Some, length, IfOk, OnErr};
ghost use Rattle.bgp_msg.specs.Decoder.{fresh, behind, IsFed, IsNext, TakesMemory, IsPulled, IsFedAndNext, FrontTakesMemory};
ghost use Rattle.bgp_msg.specs.steps.Early.{IsEarly};
ghost use Rattle.bgp_msg.specs.Look.{IsLook, IsOwnLook, gone};

use crate::early::{Early, taken};
use crate::look::{Look, Next};
use crate::outcome::Outcome;
use crate::outcome_view::OutcomeView;
use crate::taking::{out_frame, view_frame};
use bgp_frame::{Framer, Pull, Step, front};
use bgp_open::Context;
use bgp_update::UpdateView;
use std::alloc::{AllocError, Global};
use std::marker::Model;

/// Reads the octets of a stream, however it is cut into pieces, and returns the outcome of each message. It holds at
/// most one message, of at most 4096 octets; after a reset it holds and reads nothing.
#[derive(Drop)]
pub struct Decoder {
    ctx: Context,
    framer: Framer,
    stopped: bool,
}

impl Model for Decoder {
    ghost use Rattle.std.specs.Prelude.{◌≡◌, true, []};
    ghost use Rattle.bgp_msg.specs.Decoder.{Decoding};

    ghost Value = { Decoding };

    ghost view = { λ d. record { ctx = d.ctx; held = d.framer; stopped = d.stopped } };

    ghost invariant = { λ d. d.stopped ≡ true → d.framer ≡ [] };
}

impl Decoder {
    /// A decoder of the messages of a session in this context, at the start of a stream.
    pub fn new(ctx: Context) -> Decoder
        ensures { result ≡ fresh ctx }
    {
        Decoder {
            ctx,
            framer: Framer::new(),
            stopped: false,
        }
    }

    /// Whether a reset was returned: nothing after it is read.
    pub fn stopped(&self) -> bool
        ensures { result ≡ self.now.stopped }
    {
        self.stopped
    }

    /// The number of octets held.
    pub fn held(&self) -> usize
        ensures value { result ≡ length self.now.held }
        ensures bound { result ≤ 4096 }
    {
        self.framer.held()
    }

    /// The octets that are held.
    pub fn octets(&self) -> &[u8]
        ensures { result.now ≡ self.now.held }
    {
        self.framer.octets()
    }

    /// Consumes octets of the piece until it ends, or a whole message or a header with a fault is held. Answers the
    /// number consumed: none after a reset.
    pub fn feed(&mut self, piece: &[u8]) -> usize
        ensures { IsFed self.old piece.now result self.new }
    {
        if self.stopped {
            0
        } else {
            self.framer.feed(piece)
        }
    }

    /// The outcome of the message or the header that is held, with the length of the message, 0 for a header's fault.
    /// None where the message is incomplete, and after a reset.
    ///
    /// # Errors
    /// `AllocError` where an allocation failed: only for an OPEN or an UPDATE that doesn't end the session. What is held stays then, and the
    /// call can be made again.
    pub fn next(&mut self, alloc: Global) -> Result<Option<(u16, Outcome)>, AllocError>
        ensures ok { IfOk result (λ found. IsNext self.old found self.new) }
        ensures err { OnErr result (self.new ≡ self.old) }
        ensures memory { OnErr result (TakesMemory self.old) }
    {
        if self.stopped {
            return Ok(None);
        }
        match self.framer.step() {
            Step::More => Ok(None),
            Step::Frame(frame) => {
                let len = frame.len;
                let outcome = out_frame(alloc, &self.ctx, frame)?;
                self.stopped = outcome.is_reset();
                self.framer.clear();
                Ok(Some((len, outcome)))
            }
            Step::Fault(fault) => {
                self.stopped = true;
                self.framer.clear();
                Ok(Some((0, Outcome::Reset(fault.notification()))))
            }
        }
    }

    /// The outcome of what is held, or of the message or the faulty header that the piece begins with, with its length:
    /// it is judged in the piece, and not copied. Answers first the number of octets of the piece consumed, and None
    /// where more octets are needed, and after a reset.
    ///
    /// What is held comes first, and then nothing of the piece is consumed. Where an incomplete message is held, or the
    /// piece has less than a message, the piece is fed. Else one message of the piece is consumed: the octets that its
    /// Length says, or the 19 of a faulty header.
    ///
    /// # Errors
    /// `AllocError` where an allocation failed: only for an OPEN or an UPDATE that doesn't end the session. Nothing is consumed then, and
    /// the call can be made again.
    pub fn pull(
        &mut self,
        alloc: Global,
        piece: &[u8],
    ) -> Result<(usize, Option<(u16, Outcome)>), AllocError>
        ensures ok { IfOk result (λ r. IsPulled self.old piece.now r.0 r.1 self.new) }
        ensures as_fed { IfOk result (λ r. IsFedAndNext self.old piece.now r.0 r.1 self.new) }
        ensures err { OnErr result (self.new ≡ self.old) }
        ensures memory { OnErr result (TakesMemory self.old ⊎ FrontTakesMemory self.old piece.now) }
    {
        if let Some((len, update, notes)) = self.early(alloc, piece)? {
            return taken(len, update, notes);
        }
        self.pull_any(alloc, piece)
    }

    /// What [`pull`](Decoder::pull) would give for a piece, as a view, without memory and without a change. To continue
    /// after it, consume the octets of the piece that it says, and call [`go`](Decoder::go) with the state that it
    /// returns; after `Feed`, call [`feed`](Decoder::feed).
    ///
    /// The view of an UPDATE is written into `place`, over whatever it held.
    #[tactic(auto, using(crate::proofs::Pulls::stopped_feeds, crate::proofs::Pulls::waiting_feeds, crate::proofs::Pulls::found_message, crate::proofs::Pulls::found_fault))]
    pub fn look<'b, 'a>(&'a self, piece: &'a [u8], place: &'b mut UpdateView<'a>) -> Look<'b>
        ensures { IsLook self.now piece.entry.now result }
    {
        if self.stopped {
            return Look::Feed;
        }
        match self.framer.look(piece) {
            Pull::Feed => Look::Feed,
            Pull::Frame(taken, frame) => {
                let len = frame.len;
                let view = view_frame(&self.ctx, frame, place);
                let next = Next::new(self, view.is_reset());
                Look::Message(taken, len, view, next)
            }
            Pull::Fault(taken, fault) => Look::Fault(taken, fault, Next::new(self, true)),
        }
    }

    /// Continues after a message or a faulty header that [`look`](Decoder::look) gave: nothing is held any more, and
    /// the decoder stops where that was a reset, as each faulty header is. The decoder has to be as it was at the look.
    pub fn go(&mut self, next: Next)
        requires { next.from ≡ self.old }
        ensures { self.new ≡ gone self.old next.resets }
    {
        self.framer.clear();
        self.stopped = next.resets();
    }

    /// An UPDATE that is accepted at the beginning of a piece, where nothing is held, as an owned value. None for
    /// anything else: an outcome has room for 4 KB, which would be cleared and copied for each UPDATE. It isn't
    /// inlined, so that `pull` stays so small that the compiler sees which of its room need not be cleared.
    #[inline(never)]
    fn early(&self, alloc: Global, piece: &[u8]) -> Result<Option<Early>, AllocError>
        ensures ok { IfOk result (λ found. IsEarly self.now piece.now found) }
        ensures memory { OnErr result (FrontTakesMemory self.now piece.now) }
    {
        if self.stopped || self.framer.held() > 0 {
            return Ok(None);
        }
        let Step::Frame(frame) = front(piece) else {
            return Ok(None);
        };
        let len = frame.len;
        let mut place = UpdateView::empty();
        let OutcomeView::Update(view) = view_frame(&self.ctx, frame, &mut place) else {
            return Ok(None);
        };
        let notes = view.own_notes(alloc)?;
        let update = view.own(alloc)?;
        Ok(Some((len, update, notes)))
    }

    /// Calls `pull_other`, inlined, so that the room for its result is cleared here, and not at the beginning of
    /// `pull`.
    #[inline(always)]
    fn pull_any(
        &mut self,
        alloc: Global,
        piece: &[u8],
    ) -> Result<(usize, Option<(u16, Outcome)>), AllocError>
        ensures ok { IfOk result (λ r. IsPulled self.old piece.now r.0 r.1 self.new) }
        ensures err { OnErr result (self.new ≡ self.old) }
        ensures memory { OnErr result (TakesMemory self.old ⊎ FrontTakesMemory self.old piece.now) }
    {
        self.pull_other(alloc, piece)
    }

    /// Pulls anything but an accepted UPDATE at the beginning of a piece.
    #[inline(never)]
    fn pull_other(
        &mut self,
        alloc: Global,
        piece: &[u8],
    ) -> Result<(usize, Option<(u16, Outcome)>), AllocError>
        ensures ok { IfOk result (λ r. IsPulled self.old piece.now r.0 r.1 self.new) }
        ensures err { OnErr result (self.new ≡ self.old) }
        ensures memory { OnErr result (TakesMemory self.old ⊎ FrontTakesMemory self.old piece.now) }
    {
        match self.own_look(alloc, piece)? {
            None => Ok((self.feed(piece), None)),
            Some((taken, len, next, outcome)) => {
                self.go(next);
                Ok((taken, Some((len, outcome))))
            }
        }
    }

    /// What [`look`](Decoder::look) finds, as an owned value: the number of octets of the piece consumed, the length of
    /// the message, 0 for a header with a fault, where the decoder continues, and the outcome. None where the piece is
    /// to be fed.
    fn own_look(
        &self,
        alloc: Global,
        piece: &[u8],
    ) -> Result<Option<(usize, u16, Next, Outcome)>, AllocError>
        ensures ok { IfOk result (λ found. IsOwnLook self.now piece.now found) }
        ensures memory { OnErr result (TakesMemory self.now ⊎ FrontTakesMemory self.now piece.now) }
    {
        let mut place = UpdateView::empty();
        match self.look(piece, &mut place) {
            Look::Feed => Ok(None),
            Look::Message(taken, len, view, next) => {
                let outcome = view.own(alloc)?;
                Ok(Some((taken, len, next, outcome)))
            }
            Look::Fault(taken, fault, next) => {
                Ok(Some((taken, 0, next, Outcome::Reset(fault.notification()))))
            }
        }
    }
}
