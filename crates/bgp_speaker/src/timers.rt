//! The timers of the session, over the system's clock.

use bgp_host::Clock;
use bgp_machine::Timer;
use std::time::{Duration, Instant};

/// When each timer that runs expires.
#[derive(Drop)]
pub(crate) struct Timers<'a> {
    rt: &'a HostRuntime,
    retry: Option<Instant>,
    hold: Option<Instant>,
    keepalive: Option<Instant>,
    /// The clock failed.
    pub(crate) broken: bool,
}

impl<'a> Timers<'a> {
    /// No timer runs.
    pub(crate) fn new(rt: &'a HostRuntime) -> Timers<'a> {
        Timers {
            rt,
            retry: None,
            hold: None,
            keepalive: None,
            broken: false,
        }
    }

    // Sets when a timer expires.
    fn set(&mut self, timer: Timer, at: Option<Instant>) {
        match timer {
            Timer::Retry => self.retry = at,
            Timer::Hold => self.hold = at,
            Timer::Keepalive => self.keepalive = at,
        }
    }

    /// A timer has expired: it no longer runs.
    pub(crate) fn stop(&mut self, timer: Timer) {
        self.set(timer, None);
    }

    /// The timer that expires first, and when. The Hold Timer comes first among equals.
    pub(crate) fn first(&self) -> Option<(Timer, Instant)> {
        let mut first = None;
        for (timer, at) in [
            (Timer::Hold, self.hold),
            (Timer::Keepalive, self.keepalive),
            (Timer::Retry, self.retry),
        ] {
            first = earlier(first, timer, at);
        }
        first
    }
}

// The earlier of two expiries.
fn earlier(
    first: Option<(Timer, Instant)>,
    timer: Timer,
    at: Option<Instant>,
) -> Option<(Timer, Instant)> {
    match (first, at) {
        (Some((_, before)), Some(at)) if at < before => Some((timer, at)),
        (None, Some(at)) => Some((timer, at)),
        _ => first,
    }
}

impl Clock for Timers<'_> {
    fn arm(&mut self, timer: Timer, seconds: u16) {
        let at = match Instant::now(self.rt) {
            Ok(now) => now.checked_add(Duration::from_secs(seconds as u64)),
            Err(_) => None,
        };
        if at.is_none() {
            self.broken = true;
        }
        self.set(timer, at);
    }

    fn disarm(&mut self, timer: Timer) {
        self.set(timer, None);
    }
}
