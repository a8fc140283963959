//! The connection of a session.

ghost use Rattle.std.specs.Prelude.{◌≡◌, List, [], ◌∷◌, Option, None};
ghost use Rattle.bgp_host.specs.Records.{Call, Sought, Sent, Closed, Grows};

/// The connection to the peer. It may keep a record of its calls and their answers.
pub trait Connection {
    ghost calls: { Self → Option (List Call) } = { λ _. None };

    /// Seeks a connection. Returns whether one is up.
    fn seek(&mut self) -> bool
        ensures kept { Grows (calls self.old) (calls self.new) (Sought result ∷ []) };

    /// Sends octets. Returns whether all were sent: if not, the connection has failed.
    fn send(&mut self, octets: &[u8]) -> bool
        ensures kept { Grows (calls self.old) (calls self.new) (Sent octets.now result ∷ []) };

    /// Closes the connection, or stops seeking one.
    fn close(&mut self)
        ensures kept { Grows (calls self.old) (calls self.new) (Closed ∷ []) };
}
