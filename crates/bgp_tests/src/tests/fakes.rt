//! A connection that fails at a send, a clock that keeps which timers run, and an observer that counts.

use bgp_host::{Clock, Connection, Observer};
use bgp_machine::{State, Timer};
use bgp_update::{PathInfo, Routes, Update};

/// A connection that can be had or not, of which one send fails; it keeps the length of the longest send.
#[derive(Drop)]
pub(crate) struct Line {
    pub(crate) stands: bool,
    pub(crate) failing: u32,
    pub(crate) sends: u32,
    pub(crate) closes: u32,
    pub(crate) longest: usize,
}

impl Line {
    pub(crate) fn new(stands: bool, failing: u32) -> Line {
        Line {
            stands,
            failing,
            sends: 0,
            closes: 0,
            longest: 0,
        }
    }
}

impl Connection for Line {
    fn seek(&mut self) -> bool {
        self.stands
    }

    fn send(&mut self, octets: &[u8]) -> bool {
        self.longest = self.longest.max(octets.len());
        let send = self.sends;
        self.sends = send.saturating_add(1);
        send != self.failing
    }

    fn close(&mut self) {
        self.closes = self.closes.saturating_add(1);
    }
}

/// The timers that run.
#[derive(Clone, Copy, Debug, PartialEq, Eq)]
pub(crate) struct Running {
    pub(crate) retry: bool,
    pub(crate) hold: bool,
    pub(crate) keepalive: bool,
}

/// No timer runs.
pub(crate) const STILL: Running = Running {
    retry: false,
    hold: false,
    keepalive: false,
};

impl Running {
    fn set(&mut self, timer: Timer, on: bool) {
        match timer {
            Timer::Retry => self.retry = on,
            Timer::Hold => self.hold = on,
            Timer::Keepalive => self.keepalive = on,
        }
    }
}

impl Clock for Running {
    fn arm(&mut self, timer: Timer, _seconds: u16) {
        self.set(timer, true);
    }

    fn disarm(&mut self, timer: Timer) {
        self.set(timer, false);
    }
}

/// What was reported of routes, and the last state.
#[derive(Clone, Copy, Debug, PartialEq, Eq)]
pub(crate) struct Told {
    pub(crate) routes: usize,
    pub(crate) gone: usize,
    pub(crate) flushes: u32,
    pub(crate) state: State,
}

/// Nothing was reported.
pub(crate) const NOTHING: Told = Told {
    routes: 0,
    gone: 0,
    flushes: 0,
    state: State::Idle,
};

impl Observer for Told {
    fn announce(&mut self, update: &Update, _info: &PathInfo) {
        self.routes = self.routes.saturating_add(update.nlri.len());
    }

    fn withdraw(&mut self, routes: &Routes) {
        self.gone = self.gone.saturating_add(routes.ip4.len());
    }

    fn flush(&mut self) {
        self.flushes = self.flushes.saturating_add(1);
    }

    fn stand(&mut self, state: State) {
        self.state = state;
    }
}
