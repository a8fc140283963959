//! The states and the timers of a session, and its events, as numbers.

ghost use Rattle.std.specs.Prelude.{◌≡◌, ◌==◌};
ghost use Rattle.ristulva_c.specs.Prelude.{number_of_state, number_of_timer};
ghost use Rattle.ristulva_c.specs.States.{event_of};
ghost use Rattle.bgp_machine.specs.Prelude.{listens};

use bgp_machine::{Event, State, Timer};

/// No connection is sought (RFC 4271, section 8.2.2).
pub const IDLE: u8 = 1;

/// A connection is sought.
pub const CONNECT: u8 = 2;

/// A connection failed before the peers agreed; the session awaits a new one.
pub const ACTIVE: u8 = 3;

/// The own OPEN is sent, and the peer's is awaited.
pub const OPEN_SENT: u8 = 4;

/// The peer's OPEN is accepted, and its KEEPALIVE is awaited.
pub const OPEN_CONFIRM: u8 = 5;

/// Routes are exchanged.
pub const ESTABLISHED: u8 = 6;

/// The timer after which a connection is tried again (RFC 4271, section 10).
pub const RETRY_TIMER: u8 = 1;

/// The timer after which the peer has been silent for too long.
pub const HOLD_TIMER: u8 = 2;

/// The timer after which a KEEPALIVE is due.
pub const KEEPALIVE_TIMER: u8 = 3;

/// The operator wants the session (RFC 4271, section 8.1: events 1 and 3).
pub const START: u32 = 1;

/// The operator ends it (events 2 and 8).
pub const STOP: u32 = 2;

/// The timer for a connection has expired (event 9).
pub const RETRY_EXPIRED: u32 = 9;

/// The Hold Timer has expired (event 10).
pub const HOLD_EXPIRED: u32 = 10;

/// The Keepalive Timer has expired (event 11).
pub const KEEPALIVE_EXPIRED: u32 = 11;

/// The connection is up (events 16 and 17).
pub const CONNECTED: u32 = 16;

/// The connection, or the attempt at one, failed (event 18).
pub const FAILED: u32 = 18;

/// The number of a state.
pub(crate) fn number_of_state(state: State) -> u8
    ensures { result ≡ number_of_state state }
{
    match state {
        State::Idle => IDLE,
        State::Connect => CONNECT,
        State::Active => ACTIVE,
        State::OpenSent => OPEN_SENT,
        State::OpenConfirm => OPEN_CONFIRM,
        State::Established => ESTABLISHED,
    }
}

/// Whether the connection is up, so that octets are accepted.
pub(crate) fn is_up(state: State) -> bool
    ensures { result ≡ listens state }
{
    match state {
        State::Idle | State::Connect | State::Active => false,
        State::OpenSent | State::OpenConfirm | State::Established => true,
    }
}

/// The number of a timer.
pub(crate) fn number_of_timer(timer: Timer) -> u8
    ensures { result ≡ number_of_timer timer }
{
    match timer {
        Timer::Retry => RETRY_TIMER,
        Timer::Hold => HOLD_TIMER,
        Timer::Keepalive => KEEPALIVE_TIMER,
    }
}

/// The event with a number, where there is one.
pub(crate) fn event_of(number: u32) -> Option<Event>
    ensures { result ≡ event_of number }
{
    match number {
        START => Some(Event::Start),
        STOP => Some(Event::Stop),
        RETRY_EXPIRED => Some(Event::Expired(Timer::Retry)),
        HOLD_EXPIRED => Some(Event::Expired(Timer::Hold)),
        KEEPALIVE_EXPIRED => Some(Event::Expired(Timer::Keepalive)),
        CONNECTED => Some(Event::Connected),
        FAILED => Some(Event::Failed),
        _ => None,
    }
}
