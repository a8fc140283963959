//! The octets of an incomplete message.

ghost use Rattle.std.specs.Prelude.{◌≡◌, ◌<◌, [], ◌++◌, length, take};
ghost use Rattle.bgp_frame.specs.Prelude.{IsHeldIn, ShowsStepIn, TakesIn, WaitsIn};
ghost use Rattle.bgp_guard.specs.Guard.{types};

use bgp_frame::{FramerOf, Step, WideGrammar, WideKind};
use std::marker::Model;

/// Which messages are read: those of RFC 4271, and ROUTE-REFRESH, of at most 4096 octets.
const GRAMMAR: WideGrammar = WideGrammar {
    refresh: true,
    long: false,
};

/// The octets of an incomplete message.
#[derive(Drop)]
pub(crate) struct Buffer {
    framer: FramerOf<WideGrammar, 4096>,
}

impl Model for Buffer {
    ghost use Rattle.std.specs.Prelude.{◌≡◌, List, ℕ, true, false};

    ghost Value = { List ℕ };

    ghost view = { λ b. b.framer.octets };

    ghost invariant = { λ b. b.framer.grammar ≡ record { refresh = true; long = false } };
}

impl Buffer {
    /// Nothing is held.
    pub(crate) fn new() -> Buffer
        ensures { result ≡ [] }
    {
        Buffer {
            framer: FramerOf::empty(GRAMMAR),
        }
    }

    /// The octets that are held.
    pub(crate) fn octets(&self) -> &[u8]
        ensures { result.now ≡ self.now }
    {
        self.framer.octets()
    }

    /// Consumes octets of the piece until it ends, or a whole message or a header with a fault is held. Answers the number consumed.
    pub(crate) fn feed(&mut self, piece: &[u8]) -> usize
        ensures takes { TakesIn types self.old piece.now result }
        ensures appends { self.new ≡ self.old ++ take result piece.now }
        ensures progress { WaitsIn types self.old → 0 < length piece.now → 0 < result }
        ensures can_hold { IsHeldIn types self.new }
    {
        self.framer.feed(piece)
    }

    /// What is held: less than a message, a message, or a header with a fault.
    pub(crate) fn step(&self) -> Step<'_, WideKind>
        ensures { ShowsStepIn types self.now result }
    {
        self.framer.step()
    }

    /// Drops whatever is held.
    pub(crate) fn clear(&mut self)
        ensures { self.new ≡ [] }
    {
        self.framer.clear();
    }
}
