//! What joins two speakers.

ghost use Rattle.std.specs.Prelude.{◌≡◌, ℕ, Bool, true, List, [], ◌∷◌, Option, None};
ghost use Rattle.bgp_session.specs.Wire.{failed_after, Call, Joined, Handed, Cut, Grows};

use crate::side::Side;

/// The connection between two speakers. It is honest where each piece that passes arrives unchanged; no call changes whether it is.
/// It may keep a record of its calls and their answers.
pub trait Wire {
    ghost honest: { Self → Bool };

    ghost failed: { Self → ℕ };

    ghost calls: { Self → Option (List Call) } = { λ _. None };

    /// Connects both sides. Answers whether it did.
    fn join(&mut self) -> bool
        ensures honest { honest self.new ≡ honest self.old }
        ensures failed { failed self.new ≡ failed_after (failed self.old) result }
        ensures kept { Grows (calls self.old) (calls self.new) (Joined result ∷ []) };

    /// Sends the octets to this side, and overwrites them with what arrived. Answers whether it did.
    fn pass(&mut self, to: Side, octets: &mut [u8]) -> bool
        ensures same { honest self.old ≡ true → result ≡ true → octets.new ≡ octets.old }
        ensures honest { honest self.new ≡ honest self.old }
        ensures failed { failed self.new ≡ failed_after (failed self.old) result }
        ensures kept { Grows (calls self.old) (calls self.new) (Handed to octets.old result ∷ []) };

    /// Ends the connection.
    fn cut(&mut self)
        ensures honest { honest self.new ≡ honest self.old }
        ensures failed { failed self.new ≡ failed self.old }
        ensures kept { Grows (calls self.old) (calls self.new) (Cut ∷ []) };

    /// How often `join` or `pass` has answered false: the count saturates at 4,294,967,295.
    fn failures(&self) -> u32
        ensures { result ≡ failed self.now };
}

/// A wire in memory: what is sent arrives, and nothing fails.
#[derive(Clone, Copy, Debug)]
pub struct MemoryWire;

impl Wire for MemoryWire {
    ghost use Rattle.std.specs.Prelude.{◌≡◌, true};

    ghost honest = { λ _. true };

    ghost failed = { λ _. 0 };

    fn join(&mut self) -> bool
        ensures joins { result ≡ true }
    {
        true
    }

    fn pass(&mut self, _to: Side, _octets: &mut [u8]) -> bool
        ensures passes { result ≡ true }
        ensures same { _octets.new ≡ _octets.old }
    {
        true
    }

    fn cut(&mut self) {}

    fn failures(&self) -> u32
        ensures { result ≡ 0 }
    {
        0
    }
}
