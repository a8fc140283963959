//! What is printed of a session, besides the peer's messages.

use bgp_frame::{Frame, Kind, Step, front};
use bgp_host::Observer;
use bgp_machine::{State, Timer};
use bgp_update::{PathInfo, Routes, Update};
use std::io;

/// Prints lines, or objects of JSON.
#[derive(Clone, Copy)]
pub(crate) struct Voice<'a> {
    pub(crate) rt: &'a HostRuntime,
    pub(crate) json: bool,
}

// The name of a type of message.
fn name_of(kind: Kind) -> &'static str {
    match kind {
        Kind::Open => "OPEN",
        Kind::Update => "UPDATE",
        Kind::Notification => "NOTIFICATION",
        Kind::Keepalive => "KEEPALIVE",
    }
}

/// The code and the subcode of a NOTIFICATION.
pub(crate) fn told_in(frame: Frame<'_>) -> Option<(u8, u8)> {
    match (frame.kind, frame.body) {
        (Kind::Notification, [code, subcode, ..]) => Some((*code, *subcode)),
        _ => None,
    }
}

impl Voice<'_> {
    // One word on a line.
    fn word(self, line: &str, kind: &str) -> io::Result<()> {
        if self.json {
            return println!(self.rt; "{{\"kind\":\"{kind}\"}}");
        }
        println!(self.rt; "{line}")
    }

    /// A connection is being made, or awaited.
    pub(crate) fn seeks(self, address: &str, listens: bool) -> io::Result<()> {
        match (self.json, listens) {
            (true, true) => println!(self.rt; "{{\"kind\":\"LISTEN\",\"address\":{address:?}}}"),
            (true, false) => println!(self.rt; "{{\"kind\":\"CONNECT\",\"address\":{address:?}}}"),
            (false, true) => println!(self.rt; "listen {address}"),
            (false, false) => println!(self.rt; "connect {address}"),
        }
    }

    /// A message was sent.
    pub(crate) fn sent(self, octets: &[u8]) -> io::Result<()> {
        let Step::Frame(frame) = front(octets) else {
            return Ok(());
        };
        let len = frame.len;
        let name = name_of(frame.kind);
        match (self.json, told_in(frame)) {
            (true, Some((code, subcode))) => println!(self.rt;
                "{{\"kind\":\"SEND\",\"message\":\"{name}\",\"length\":{len},\"code\":{code},\"subcode\":{subcode}}}"
            ),
            (true, None) => {
                println!(self.rt; "{{\"kind\":\"SEND\",\"message\":\"{name}\",\"length\":{len}}}")
            }
            (false, Some((code, subcode))) => {
                println!(self.rt; "send {name} {len} {code}/{subcode}")
            }
            (false, None) => println!(self.rt; "send {name} {len}"),
        }
    }

    /// The connection was closed.
    pub(crate) fn closed(self) -> io::Result<()> {
        self.word("close", "CLOSE")
    }

    /// The connection failed, or the peer closed it.
    pub(crate) fn lost(self) -> io::Result<()> {
        self.word("lost", "LOST")
    }

    /// A timer has expired.
    pub(crate) fn expired(self, timer: Timer) -> io::Result<()> {
        if self.json {
            return println!(self.rt; "{{\"kind\":\"EXPIRED\",\"timer\":\"{timer:?}\"}}");
        }
        println!(self.rt; "expired {timer:?}")
    }

    // The routes of the peer are flushed.
    fn flushed(self) -> io::Result<()> {
        self.word("flush", "FLUSH")
    }

    // The state of the session.
    fn stands(self, state: State) -> io::Result<()> {
        if self.json {
            return println!(self.rt; "{{\"kind\":\"STATE\",\"state\":\"{state:?}\"}}");
        }
        println!(self.rt; "state {state:?}")
    }

    /// The end, and the number of the peer's messages.
    pub(crate) fn ends(self, messages: u64) -> io::Result<()> {
        if self.json {
            return println!(self.rt; "{{\"kind\":\"END\",\"messages\":{messages}}}");
        }
        println!(self.rt; "end messages {messages}")
    }
}

/// Prints what is done with routes, and the state as it changes. The routes themselves are printed with the peer's
/// messages.
#[derive(Drop)]
pub(crate) struct Teller<'a> {
    pub(crate) voice: Voice<'a>,
    pub(crate) state: State,
    /// The session was Established.
    pub(crate) established: bool,
    /// A write failed.
    pub(crate) mute: bool,
}

impl<'a> Teller<'a> {
    /// One that has printed nothing so far.
    pub(crate) fn new(voice: Voice<'a>) -> Teller<'a> {
        Teller {
            voice,
            state: State::Idle,
            established: false,
            mute: false,
        }
    }
}

impl Observer for Teller<'_> {
    fn announce(&mut self, _update: &Update, _info: &PathInfo) {}

    fn withdraw(&mut self, _routes: &Routes) {}

    fn flush(&mut self) {
        if self.voice.flushed().is_err() {
            self.mute = true;
        }
    }

    fn stand(&mut self, state: State) {
        if self.state == state {
            return;
        }
        self.state = state;
        if state == State::Established {
            self.established = true;
        }
        if self.voice.stands(state).is_err() {
            self.mute = true;
        }
    }
}
