//! The buffer between a stream of octets and its messages.

ghost use Rattle.std.specs.Prelude.{◌≡◌, ◌<◌, ◌≤◌, [], ◌++◌, length, take};
ghost use Rattle.bgp_frame.specs.Frame.{IsWhole, Waits};
ghost use Rattle.bgp_frame.specs.Framer.{IsHeld};
ghost use Rattle.bgp_frame.specs.Pull.{IsPull};
ghost use Rattle.bgp_frame.specs.Takes.{Takes};
ghost use Rattle.bgp_frame.specs.Step.{ShowsStep};

use crate::framer_of::FramerOf;
use crate::grammar::Plain;
use crate::pull::Pull;
use crate::step::Step;
use std::marker::Model;

/// Reads the octets of a stream, however it is cut, and holds at most one message (RFC 4271, section 4.1).
///
/// A header is judged once its 19 octets are held, and not before. At most 4096 octets are held, and no call allocates. It is a [`FramerOf`] for the
/// types of RFC 4271.
#[derive(Drop)]
pub struct Framer {
    framer: FramerOf<Plain, 4096>,
}

impl Model for Framer {
    ghost use Rattle.std.specs.Prelude.{List, ℕ};

    ghost Value = { List ℕ };

    ghost view = { λ f. f.framer.octets };
}

impl Framer {
    /// A framer that holds nothing.
    pub fn new() -> Framer
        ensures { result ≡ [] }
    {
        Framer {
            framer: FramerOf::empty(Plain),
        }
    }

    /// The number of octets that are held.
    #[inline(always)]
    pub fn held(&self) -> usize
        ensures value { result ≡ length self.now }
        ensures bound { result ≤ 4096 }
        ensures can_hold { IsHeld self.now }
    {
        self.framer.held()
    }

    /// The octets that are held.
    #[inline(always)]
    pub fn octets(&self) -> &[u8]
        ensures { result.now ≡ self.now }
    {
        self.framer.octets()
    }

    /// Consumes octets of the piece until it ends, or a whole message or a header with a fault is held.
    ///
    /// Answers the number of octets consumed.
    #[inline(always)]
    pub fn feed(&mut self, piece: &[u8]) -> usize
        ensures takes { Takes self.old piece.now result }
        ensures appends { self.new ≡ self.old ++ take result piece.now }
        ensures progress { Waits self.old → 0 < length piece.now → 0 < result }
        ensures can_hold { IsHeld self.new }
    {
        self.framer.feed(piece)
    }

    /// What is held: less than a message, a message, or a header with a fault.
    #[inline(always)]
    pub fn step(&self) -> Step<'_>
        ensures { ShowsStep self.now result }
    {
        self.framer.step()
    }

    /// The message or the faulty header that is held or, where nothing is held, the one that a piece begins with, in the caller's buffer: nothing is
    /// copied, and nothing changes. Where neither is whole, the piece is to be fed.
    ///
    /// To continue after a message, the caller drops the stated number of octets from the piece, and calls [`clear`](Framer::clear).
    #[inline(always)]
    pub fn look<'a>(&'a self, piece: &'a [u8]) -> Pull<'a>
        ensures { IsPull self.now piece.now result }
    {
        self.framer.look(piece)
    }

    /// Drops the message that is held.
    #[inline(always)]
    pub fn take(&mut self)
        requires { IsWhole self.old }
        ensures { self.new ≡ [] }
    {
        self.framer.take();
    }

    /// Drops whatever is held.
    #[inline(always)]
    pub fn clear(&mut self)
        ensures { self.new ≡ [] }
    {
        self.framer.clear();
    }
}

impl Default for Framer {
    ghost is_default = { λ framer. framer ≡ [] };

    fn default() -> Framer {
        Framer::new()
    }
}
