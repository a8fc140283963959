//! The timers of a session.

/// The timers that the owner of a session keeps for it (RFC 4271, section 10).
#[derive(Clone, Copy, Debug, PartialEq, Eq, Hash)]
pub enum Timer {
    /// ConnectRetryTimer: a connection is tried again.
    Retry,
    /// HoldTimer: the peer has been silent for too long.
    Hold,
    /// KeepaliveTimer: a KEEPALIVE is due.
    Keepalive,
}

/// How long a connection is tried, in seconds (RFC 4271, section 10: ConnectRetryTime).
pub const RETRY_SECONDS: u16 = 120;

/// The Hold Time in seconds until the peer's OPEN has arrived (RFC 4271, section 8.2.2: "a large value").
pub const OPEN_HOLD_SECONDS: u16 = 240;

/// Which timers run.
#[derive(Clone, Copy, PartialEq, Eq)]
pub(crate) struct Timers {
    pub(crate) retry: bool,
    pub(crate) hold: bool,
    pub(crate) keepalive: bool,
}

impl Timers {
    ghost use Rattle.std.specs.Prelude.{◌≡◌};
    ghost use Rattle.bgp_machine.specs.Standing.{no_timers, runs, timers_with};

    /// No timer runs.
    pub(crate) fn none() -> Timers
        ensures { result ≡ no_timers }
    {
        Timers {
            retry: false,
            hold: false,
            keepalive: false,
        }
    }

    /// Whether a timer runs.
    pub(crate) fn runs(self, timer: Timer) -> bool
        ensures { result ≡ runs self timer }
    {
        match timer {
            Timer::Retry => self.retry,
            Timer::Hold => self.hold,
            Timer::Keepalive => self.keepalive,
        }
    }

    /// The timers, after one is started or stopped.
    pub(crate) fn with(self, timer: Timer, on: bool) -> Timers
        ensures { result ≡ timers_with timer on self }
    {
        let mut timers = self;
        match timer {
            Timer::Retry => timers.retry = on,
            Timer::Hold => timers.hold = on,
            Timer::Keepalive => timers.keepalive = on,
        }
        timers
    }
}
