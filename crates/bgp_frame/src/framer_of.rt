//! The buffer between a stream of octets and its messages, by the types of any grammar.

ghost use Rattle.std.specs.Prelude.{◌≡◌, ◌+◌, ◌-◌, ◌<◌, ◌≤◌, min, [], ◌++◌, length, take};
ghost use Rattle.bgp_frame.specs.Frame.{IsWholeIn, WaitsIn};
ghost use Rattle.bgp_frame.specs.Framer.{IsHeldIn};
ghost use Rattle.bgp_frame.specs.Pull.{IsPullIn};
ghost use Rattle.bgp_frame.specs.Takes.{TakesIn};
ghost use Rattle.bgp_frame.specs.Step.{ShowsStepIn};

use crate::grammar::Grammar;
use crate::header::{HEADER_LEN, wanted};
use crate::pull::Pull;
use crate::step::{Step, front_of, shown};
use arrayvec::ArrayVec;
use std::marker::Model;

/// Reads the octets of a stream, however it is cut, and holds at most one message (RFC 4271, section 4.1).
///
/// A header is judged once its 19 octets are held, and not before. At most `N` octets are held, and no call allocates.
#[derive(Drop)]
pub struct FramerOf<G: Grammar, const N: usize> {
    grammar: G,
    buffer: ArrayVec<u8, N>,
    ghost room: { (G.types grammar).limit ≤ N },
}

impl<G: Grammar, const N: usize> Model for FramerOf<G, N> {
    ghost use Rattle.bgp_frame.specs.Framer.{FramerValue, IsHeldIn};

    ghost Value = { FramerValue G };

    ghost view = { λ f. record { grammar = f.grammar; octets = f.buffer.items } };

    ghost invariant = { λ f. IsHeldIn (G.types f.grammar) f.buffer.items };
}

impl<G: Grammar, const N: usize> FramerOf<G, N> {
    /// A framer that holds nothing.
    #[tactic(auto, using(crate::proofs::Holding::IsHeld_nil))]
    #[inline(always)]
    pub fn empty(grammar: G) -> FramerOf<G, N>
        requires { (G.types grammar).limit ≤ N }
        ensures { result ≡ record { grammar = grammar; octets = [] } }
    {
        FramerOf {
            grammar,
            buffer: ArrayVec::new(),
        }
    }

    /// The grammar.
    #[inline(always)]
    pub fn grammar(&self) -> G
        ensures { result ≡ self.now.grammar }
    {
        self.grammar
    }

    /// The number of octets that are held.
    #[inline(always)]
    pub fn held(&self) -> usize
        ensures value { result ≡ length self.now.octets }
        ensures bound { result ≤ N }
        ensures can_hold { IsHeldIn (G.types self.now.grammar) self.now.octets }
    {
        self.buffer.len()
    }

    /// The octets that are held.
    #[inline(always)]
    pub fn octets(&self) -> &[u8]
        ensures { result.now ≡ self.now.octets }
    {
        &self.buffer
    }

    /// Consumes octets of the piece until it ends, or a whole message or a header with a fault is held.
    ///
    /// Answers the number of octets consumed.
    pub fn feed(&mut self, piece: &[u8]) -> usize
        ensures takes { TakesIn (G.types self.old.grammar) self.old.octets piece.now result }
        ensures appends { self.new ≡ record { grammar = self.old.grammar; octets = self.old.octets ++ take result piece.now } }
        ensures progress { WaitsIn (G.types self.old.grammar) self.old.octets → 0 < length piece.now → 0 < result }
        ensures can_hold { IsHeldIn (G.types self.old.grammar) self.new.octets }
    {
        let first = fill(&mut self.buffer, HEADER_LEN, piece);
        let len = wanted(self.grammar, &self.buffer);
        first + fill(&mut self.buffer, len, &piece[first..])
    }

    /// What is held: less than a message, a message, or a header with a fault.
    #[inline(always)]
    pub fn step(&self) -> Step<'_, G::Kind>
        ensures { ShowsStepIn (G.types self.now.grammar) self.now.octets result }
    {
        shown(self.grammar, &self.buffer)
    }

    /// The message or the faulty header that is held or, where nothing is held, the one that a piece begins with, in the caller's buffer: nothing is
    /// copied, and nothing changes. Where neither is whole, the piece is to be fed.
    ///
    /// To continue after a message, the caller drops the stated number of octets from the piece, and calls [`clear`](FramerOf::clear).
    #[tactic(auto, using(crate::proofs::Pulls::pull_more))]
    #[inline(always)]
    pub fn look<'a>(&'a self, piece: &'a [u8]) -> Pull<'a, G::Kind>
        ensures { IsPullIn (G.types self.now.grammar) self.now.octets piece.now result }
    {
        if self.held() > 0 {
            return self.look_held(piece);
        }
        match front_of(self.grammar, piece) {
            Step::More => Pull::Feed,
            Step::Frame(frame) => Pull::Frame(frame.len as usize, frame),
            Step::Fault(fault) => Pull::Fault(HEADER_LEN, fault),
        }
    }

    /// Drops the message that is held.
    #[inline(always)]
    pub fn take(&mut self)
        requires { IsWholeIn (G.types self.old.grammar) self.old.octets }
        ensures { self.new ≡ record { grammar = self.old.grammar; octets = [] } }
    {
        self.clear();
    }

    /// Drops whatever is held.
    #[tactic(auto, using(crate::proofs::Holding::IsHeld_nil))]
    #[inline(always)]
    pub fn clear(&mut self)
        ensures { self.new ≡ record { grammar = self.old.grammar; octets = [] } }
    {
        self.buffer.clear();
    }

    // What is held, where some octets are.
    #[tactic(auto, using(crate::proofs::Pulls::pull_held_frame, crate::proofs::Pulls::pull_held_fault))]
    #[inline(never)]
    fn look_held<'a>(&'a self, piece: &[u8]) -> Pull<'a, G::Kind>
        requires { 0 < length self.now.octets }
        ensures { IsPullIn (G.types self.now.grammar) self.now.octets piece.now result }
    {
        match self.step() {
            Step::More => Pull::Feed,
            Step::Frame(frame) => Pull::Frame(0, frame),
            Step::Fault(fault) => Pull::Fault(0, fault),
        }
    }
}

// Fills the buffer from the front of a piece up to a length, and answers the number of octets that were appended.
fn fill<const N: usize>(buffer: &mut ArrayVec<u8, N>, len: usize, piece: &[u8]) -> usize
    requires { len ≤ N }
    ensures taken { result ≡ min (len - length buffer.old.items) (length piece.now) }
    ensures filled { buffer.new.items ≡ buffer.old.items ++ take result piece.now }
{
    let count = len.saturating_sub(buffer.len()).min(piece.len());
    let _ = buffer.try_extend_from_slice(&piece[..count]);
    count
}
