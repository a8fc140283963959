//! The state of a session, with what belongs to it.

ghost use Rattle.std.specs.Prelude.{◌≡◌, option_map};
ghost use Rattle.bgp_open.specs.Prelude.{said_of};
ghost use Rattle.bgp_machine.specs.Prelude.{state_in, context_in, peer_in};

use crate::state::State;
use bgp_open::{Context, Peer};

/// The state of a session: where the peer is accepted, with what both agreed on and the parameters of its OPEN.
#[derive(Clone, Copy)]
pub(crate) enum Phase {
    Idle,
    Connect,
    Active,
    OpenSent,
    OpenConfirm(Context, Peer),
    Established(Context, Peer),
}

impl Phase {
    /// The state.
    pub(crate) fn state(&self) -> State
        ensures { result ≡ state_in self.now }
    {
        match self {
            Phase::Idle => State::Idle,
            Phase::Connect => State::Connect,
            Phase::Active => State::Active,
            Phase::OpenSent => State::OpenSent,
            Phase::OpenConfirm(_, _) => State::OpenConfirm,
            Phase::Established(_, _) => State::Established,
        }
    }

    /// What both agreed on.
    pub(crate) fn context(&self) -> Option<&Context>
        ensures { option_map (λ ctx. ctx.now) result ≡ context_in self.now }
    {
        match self {
            Phase::OpenConfirm(context, _) => Some(context),
            Phase::Established(context, _) => Some(context),
            _ => None,
        }
    }

    /// The parameters of the peer's OPEN.
    pub(crate) fn peer(&self) -> Option<&Peer>
        ensures { option_map (λ peer. said_of peer.now) result ≡ peer_in self.now }
    {
        match self {
            Phase::OpenConfirm(_, peer) => Some(peer),
            Phase::Established(_, peer) => Some(peer),
            _ => None,
        }
    }
}
