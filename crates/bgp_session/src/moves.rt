//! What moves a pair.

ghost use Rattle.std.specs.Prelude.{◌≡◌, IfOk};

use crate::side::Side;
use bgp_machine::Timer;
use bgp_update::Update;
use std::alloc::{AllocError, Global};

/// One move of a schedule: what happens to one side, or to the connection.
#[derive(Drop, PartialEq)]
pub enum Move {
    /// The operator starts the session of this side.
    Start(Side),
    /// The operator stops it.
    Stop(Side),
    /// The sides are connected, where both seek a connection and there is none: a round begins. Where the wire refuses,
    /// both get the event that the connection failed.
    Join,
    /// The side gets the event that its connection failed, where it seeks one.
    Refuse(Side),
    /// Up to this number of the octets in flight towards the side arrive at it.
    Deliver(Side, u16),
    /// The connection is lost, and what is in flight with it.
    Lose,
    /// The timer of this side expires, where it runs.
    Expire(Side, Timer),
    /// The side sends this UPDATE, where its session lets it.
    Send(Side, Update),
}

impl Move {
    /// An equal move, owned.
    ///
    /// # Errors
    /// `AllocError` where an allocation failed.
    pub fn copy(&self, alloc: Global) -> Result<Move, AllocError>
        ensures { IfOk result (λ copy. copy ≡ self.now) }
    {
        Ok(match self {
            Move::Start(side) => Move::Start(*side),
            Move::Stop(side) => Move::Stop(*side),
            Move::Join => Move::Join,
            Move::Refuse(side) => Move::Refuse(*side),
            Move::Deliver(side, count) => Move::Deliver(*side, *count),
            Move::Lose => Move::Lose,
            Move::Expire(side, timer) => Move::Expire(*side, *timer),
            Move::Send(side, update) => Move::Send(*side, update.copy(alloc)?),
        })
    }
}
