//! The observer of a session's routes.

ghost use Rattle.std.specs.Prelude.{◌≡◌, List, [], ◌∷◌, Option, None};
ghost use Rattle.bgp_host.specs.Records.{Notice, Announced, Withdrawn, Flushed, Stood, Grows};

use bgp_machine::State;
use bgp_update::{PathInfo, Routes, Update};

/// Observes the peer's routes and the state of the session. It may keep a record of that.
pub trait Observer {
    ghost notices: { Self → Option (List Notice) } = { λ _. None };

    /// The peer announces and withdraws routes.
    fn announce(&mut self, update: &Update, info: &PathInfo)
        ensures kept { Grows (notices self.old) (notices self.new) (Announced update.now info.now ∷ []) };

    /// A message of the peer's is treated as a withdrawal of these routes.
    fn withdraw(&mut self, routes: &Routes)
        ensures kept { Grows (notices self.old) (notices self.new) (Withdrawn routes.now ∷ []) };

    /// All routes of the peer are withdrawn.
    fn flush(&mut self)
        ensures kept { Grows (notices self.old) (notices self.new) (Flushed ∷ []) };

    /// The state of the session, after each call of it.
    fn stand(&mut self, state: State)
        ensures kept { Grows (notices self.old) (notices self.new) (Stood state ∷ []) };
}
