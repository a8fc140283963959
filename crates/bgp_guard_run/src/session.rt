//! A session: a guard and the connections of its two sides.

use crate::connection::Connection;
use crate::lines::Name;
use crate::log::Log;
use crate::why::Why;
use bgp_guard::{Guard, Rules, Side};
use mio::event::Event;
use mio::net::TcpStream;
use std::alloc::{AllocError, Global};
use std::io;
use std::net::IpAddr;

/// A session.
#[derive(Drop)]
pub(crate) struct Session {
    pub(crate) name: Name,
    /// The address from which the other side was connected to, where it is that of a neighbour.
    pub(crate) source: Option<IpAddr>,
    guard: Guard,
    outer: Connection,
    inner: Connection,
    /// Why it ends, once it does.
    why: Option<Why>,
    /// It was reported as up.
    is_up: bool,
}

/// The connections that a session begins with.
#[derive(Drop)]
pub(crate) struct Ends {
    /// The side that connected.
    pub(crate) side: Side,
    /// Its connection.
    pub(crate) accepted: TcpStream,
    /// The connection that is being made to the other side, where that didn't fail at once.
    pub(crate) sought: io::Result<TcpStream>,
    /// The address from which it is made, where it is that of a neighbour.
    pub(crate) source: Option<IpAddr>,
}

// A stream, or why there is none.
fn split(sought: io::Result<TcpStream>, side: Side) -> (Option<TcpStream>, Option<Why>) {
    match sought {
        Ok(stream) => (Some(stream), None),
        Err(error) => (None, Some(Why::Unreachable(side, error))),
    }
}

impl Session {
    /// A session of which one side is up, and the other is being connected to.
    ///
    /// # Errors
    /// `AllocError` where an allocation failed.
    pub(crate) fn new(
        alloc: Global,
        rules: Rules,
        name: Name,
        ends: Ends,
    ) -> Result<Session, AllocError> {
        let mut guard = Guard::new(alloc, rules)?;
        let Ends {
            side,
            accepted,
            sought,
            source,
        } = ends;
        let away = side.other();
        guard.stood(side);
        let (stream, why) = split(sought, away);
        if why.is_some() {
            guard.unreachable(away);
        }
        let near = Connection::accepted(alloc, side, rules.drops, accepted)?;
        let far = Connection::sought(alloc, away, rules.drops, stream)?;
        let (outer, inner) = match side {
            Side::Outer => (near, far),
            Side::Inner => (far, near),
        };
        Ok(Session {
            name,
            source,
            guard,
            outer,
            inner,
            why,
            is_up: false,
        })
    }

    /// The address of a side.
    pub(crate) fn address(&self, side: Side) -> IpAddr {
        match side {
            Side::Outer => self.name.outer.ip(),
            Side::Inner => self.name.inner.ip(),
        }
    }

    /// Records an event of the connection of a side.
    pub(crate) fn wake(&mut self, side: Side, event: &Event) {
        match side {
            Side::Outer => self.outer.wake(event),
            Side::Inner => self.inner.wake(event),
        }
    }

    // Records why the session ends: the first reason counts.
    fn blame(&mut self, why: Option<Why>) {
        if self.why.is_none() {
            self.why = why;
        }
    }

    // Reports the result of connecting to the guard.
    fn meet(&mut self) {
        let why = self.outer.meet(&mut self.guard);
        self.blame(why);
        let why = self.inner.meet(&mut self.guard);
        self.blame(why);
    }

    // Reads of both sides.
    fn listen(&mut self, log: &mut Log<'_>) {
        let why = self.outer.listen(&mut self.guard, log, self.name);
        self.blame(why);
        let why = self.inner.listen(&mut self.guard, log, self.name);
        self.blame(why);
    }

    // Finds a side that hung up while it wasn't read.
    fn miss(&mut self) {
        let why = self.outer.miss(&mut self.guard, self.inner.is_still());
        self.blame(why);
        let why = self.inner.miss(&mut self.guard, self.outer.is_still());
        self.blame(why);
    }

    // Sends what is queued, and leaves a side where the guard closes it.
    fn send(&mut self) {
        let why = self.outer.send(&mut self.guard);
        self.blame(why);
        let why = self.inner.send(&mut self.guard);
        self.blame(why);
        self.outer.leave(&self.guard);
        self.inner.leave(&self.guard);
    }

    // Reports once that both sides have sent OPEN and KEEPALIVE.
    fn rise(&mut self, log: &mut Log<'_>) {
        if self.is_up || !self.outer.is_ready || !self.inner.is_ready {
            return;
        }
        self.is_up = true;
        if let (Some(outer), Some(inner)) = (
            self.guard.peer(Side::Outer),
            self.guard.peer(Side::Inner),
        ) {
            log.is_up(self.name, outer, inner);
        }
    }

    /// Does what there is to do now.
    pub(crate) fn work(&mut self, log: &mut Log<'_>) {
        self.meet();
        if self.why.is_some() {
            self.outer.drain(&mut self.guard);
            self.inner.drain(&mut self.guard);
        } else {
            self.listen(log);
            self.rise(log);
        }
        self.send();
        if self.why.is_none() {
            self.miss();
        }
    }

    /// A second has passed.
    pub(crate) fn tick(&mut self) {
        self.guard.tick();
        if self.guard.has_ended() {
            self.blame(Some(Why::Late));
        }
        self.outer.tick(&self.guard);
        self.inner.tick(&self.guard);
        let why = self.outer.stall(&mut self.guard);
        self.blame(why);
        let why = self.inner.stall(&mut self.guard);
        self.blame(why);
    }

    /// Its owner ends it: both sides get a NOTIFICATION, after what is queued.
    pub(crate) fn stop(&mut self) {
        self.guard.stop();
        self.blame(Some(Why::Stopped));
    }

    /// Whether there may be more to do before an event or the next second.
    pub(crate) fn is_busy(&self) -> bool {
        let has_ended = self.why.is_some();
        self.outer.is_busy(&self.guard, has_ended) || self.inner.is_busy(&self.guard, has_ended)
    }

    /// Why it has ended, where both connections are closed.
    pub(crate) fn end(&self) -> Option<&Why> {
        if !self.outer.is_gone() || !self.inner.is_gone() {
            return None;
        }
        Some(self.why.as_ref().unwrap_or(&Why::Stopped))
    }
}
