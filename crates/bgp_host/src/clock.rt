//! The timers of a session.

ghost use Rattle.std.specs.Prelude.{◌≡◌, List, [], ◌∷◌, Option, None};
ghost use Rattle.bgp_host.specs.Records.{Tick, Armed, Disarmed, Grows};

use bgp_machine::Timer;

/// What keeps a session's timers. It may keep a record of its calls.
pub trait Clock {
    ghost ticks: { Self → Option (List Tick) } = { λ _. None };

    /// Starts a timer of this number of seconds, also if it runs already.
    fn arm(&mut self, timer: Timer, seconds: u16)
        ensures kept { Grows (ticks self.old) (ticks self.new) (Armed timer seconds ∷ []) };

    /// Stops a timer.
    fn disarm(&mut self, timer: Timer)
        ensures kept { Grows (ticks self.old) (ticks self.new) (Disarmed timer ∷ []) };
}
