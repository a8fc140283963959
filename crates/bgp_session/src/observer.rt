//! An observer of the steps of a simulation.

ghost use Rattle.std.specs.Prelude.{◌≡◌, List, map, OnOk};
ghost use Rattle.std.specs.Option.{option_map};
ghost use Rattle.bgp_session.specs.Sight.{Sight, Begun, Told, Came, Heard, Tried, Ended, observed};

use crate::moves::Move;
use crate::side::Side;
use bgp_machine::{Action, Event, SendFault, State};
use bgp_open::Context;
use std::alloc::AllocError;

/// Gets reports, move by move, of what arrives at each side, in which state that leaves its session, and what the
/// session wants done on it, in order. What it makes of that is up to it.
pub trait Observer {
    ghost use Rattle.bgp_session.specs.Sight.{Sight};

    /// What a contract sees of it.
    ghost Seen: { Type 0 };

    ghost seen: { Self → Seen };

    /// What it makes of one report.
    ghost after: { Seen → Sight → Seen };

    /// A move begins.
    fn begun(&mut self, one: &Move) -> Result<(), AllocError>
        ensures { OnOk result (seen self.new ≡ after (seen self.old) (Begun one.now)) };

    /// An event happened to a side.
    fn told(
        &mut self,
        side: Side,
        event: Event,
        state: State,
        actions: &[Action],
    ) -> Result<(), AllocError>
        ensures { OnOk result (seen self.new ≡ after (seen self.old) (Told side event state actions.now)) };

    /// Octets arrived at a side.
    fn came(&mut self, side: Side, octets: &[u8]) -> Result<(), AllocError>
        ensures { OnOk result (seen self.new ≡ observed after (seen self.old) (map (Came side) octets.now)) };

    /// The octets that arrived at a side since its last message, or since its connection is up, were judged as a
    /// message, in the context that both had agreed on before.
    fn heard(
        &mut self,
        side: Side,
        context: Option<Context>,
        state: State,
        actions: &[Action],
    ) -> Result<(), AllocError>
        ensures { OnOk result (seen self.new ≡ after (seen self.old) (Heard side context state actions.now)) };

    /// A side sent an UPDATE, or didn't and why.
    fn tried(
        &mut self,
        side: Side,
        fault: Option<SendFault>,
        state: State,
        actions: &[Action],
    ) -> Result<(), AllocError>
        ensures { OnOk result (seen self.new ≡ after (seen self.old) (Tried side fault state actions.now)) };

    /// Both sides have left the connection.
    fn ended(&mut self) -> Result<(), AllocError>
        ensures { OnOk result (seen self.new ≡ after (seen self.old) Ended) };
}

/// Ignores all reports.
#[derive(Clone, Copy)]
pub(crate) struct Nobody;

impl Observer for Nobody {
    ghost use Rattle.std.specs.Prelude.{◌≡◌};

    ghost Seen = { Unit {0} };

    ghost seen = { λ _. tt };

    ghost after = { λ s _. s };

    fn begun(&mut self, _one: &Move) -> Result<(), AllocError> {
        Ok(())
    }

    fn told(
        &mut self,
        _side: Side,
        _event: Event,
        _state: State,
        _actions: &[Action],
    ) -> Result<(), AllocError> {
        Ok(())
    }

    fn came(&mut self, _side: Side, _octets: &[u8]) -> Result<(), AllocError> {
        Ok(())
    }

    fn heard(
        &mut self,
        _side: Side,
        _context: Option<Context>,
        _state: State,
        _actions: &[Action],
    ) -> Result<(), AllocError> {
        Ok(())
    }

    fn tried(
        &mut self,
        _side: Side,
        _fault: Option<SendFault>,
        _state: State,
        _actions: &[Action],
    ) -> Result<(), AllocError> {
        Ok(())
    }

    fn ended(&mut self) -> Result<(), AllocError> {
        Ok(())
    }
}
