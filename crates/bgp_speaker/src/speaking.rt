//! The run of a session.

use crate::commands::NAME;
use crate::hearing::{Ear, Speaker, is_up};
use crate::request::Request;
use crate::status::{CLEAN, UNCLEAN};
use crate::tcp::{Came, TcpConnection};
use crate::timers::Timers;
use crate::updates::{Reading, read_updates};
use crate::voice::{Teller, Voice};
use bgp_host::Host;
use bgp_machine::{Event, State};
use bgp_update::Update;
use bgp_words::{BROKEN, tell};
use std::io;
use std::io::ErrorKind;
use std::time::{Duration, Instant};

/// The number of octets read at once.
const PIECE: usize = 65536;

/// The milliseconds waited where nothing else is to be done.
const LONG: u64 = 1000;

/// The milliseconds waited where the time is over, or there is more to send.
const SHORT: u64 = 1;

/// The number of UPDATEs sent before the next read.
const BATCH: usize = 16;

/// A conversation: the session with its connection, its input, and what remains to be sent.
#[derive(Drop)]
struct Conversation<'a> {
    rt: &'a HostRuntime,
    voice: Voice<'a>,
    host: Speaker<'a>,
    ear: Ear<'a>,
    /// UPDATEs to be sent, and the number sent.
    updates: Vec<Update>,
    sent: usize,
    /// An UPDATE couldn't be sent, or the connection was lost.
    faulty: bool,
    messages: Option<u64>,
    until: Option<Instant>,
}

// The time when this many seconds are over.
fn end_of(rt: &HostRuntime, seconds: Option<u64>) -> io::Result<Option<Instant>> {
    let Some(seconds) = seconds else {
        return Ok(None);
    };
    Ok(Instant::now(rt)?.checked_add(Duration::from_secs(seconds)))
}

// The time from now until then, and at least a millisecond.
fn wait_until(now: Instant, then: Option<Instant>) -> Duration {
    match then {
        Some(then) => then
            .duration_since(now)
            .max(Duration::from_millis(SHORT))
            .min(Duration::from_millis(LONG)),
        None => Duration::from_millis(LONG),
    }
}

impl<'a> Conversation<'a> {
    // Whether the session is to be stopped.
    fn is_over(&self, now: Instant) -> bool {
        let over = match self.until {
            Some(until) => now >= until,
            None => false,
        };
        over || self.ear.has_enough(self.messages)
    }

    // Reports the expired timers to the session. Answers when the next one does.
    fn expire(&mut self, now: Instant) -> io::Result<Option<Instant>> {
        for _turn in 0..4 {
            match self.host.clock.first() {
                Some((timer, at)) if at <= now => {
                    self.voice.expired(timer)?;
                    self.host.clock.stop(timer);
                    self.host.tell(Event::Expired(timer));
                }
                Some((_, at)) => return Ok(Some(at)),
                None => return Ok(None),
            }
        }
        Ok(Some(now))
    }

    // Sends the next UPDATEs. Answers whether there are more.
    fn send(&mut self) -> bool {
        for _turn in 0..BATCH {
            if self.host.session().state() != State::Established {
                return false;
            }
            let Some(update) = self.updates.get(self.sent) else {
                return false;
            };
            if let Err(why) = self.host.send(self.rt.alloc(), update) {
                let number = self.sent.saturating_add(1);
                let _ = eprintln!(self.rt; "bgp_speaker: UPDATE {number} isn't sent: {why:?}");
                self.faulty = true;
            }
            self.sent = self.sent.saturating_add(1);
        }
        true
    }

    // Reads what arrives within a time, and processes it.
    fn read(&mut self, octets: &mut [u8], wait: Duration) -> io::Result<()> {
        match self.host.connection.read(octets, wait) {
            Came::Nothing => Ok(()),
            Came::Octets(count) => match octets.get(..count) {
                Some(octets) => self.ear.hear(&mut self.host, octets, self.messages),
                None => Ok(()),
            },
            Came::End => {
                self.voice.lost()?;
                self.faulty = true;
                self.host.tell(Event::Failed);
                Ok(())
            }
        }
    }

    // One turn: timers, what is to be sent, and what arrived.
    fn turn(&mut self, octets: &mut [u8]) -> io::Result<()> {
        let now = Instant::now(self.rt)?;
        if self.is_over(now) {
            self.host.tell(Event::Stop);
            return Ok(());
        }
        let next = self.expire(now)?;
        let more = self.send();
        if !is_up(self.host.session().state()) {
            return Ok(());
        }
        let wait = if more {
            Duration::from_millis(SHORT)
        } else {
            wait_until(now, next).min(wait_until(now, self.until))
        };
        self.read(octets, wait)
    }

    // The errors outside the session.
    fn check(&self) -> io::Result<()> {
        if self.host.clock.broken {
            return Err(io::Error::from(ErrorKind::Unsupported));
        }
        if self.host.connection.mute || self.host.observer.mute {
            return Err(io::Error::from(ErrorKind::BrokenPipe));
        }
        Ok(())
    }

    // Runs until the session has left.
    fn go_on(&mut self) -> io::Result<()> {
        let mut octets = vec![in self.rt.alloc(); 0_u8; PIECE]?;
        for _turn in 0..u64::MAX {
            self.check()?;
            if !is_up(self.host.session().state()) {
                return Ok(());
            }
            self.turn(&mut octets)?;
        }
        Ok(())
    }

    // Starts the session, and runs until it has left. Answers the status.
    fn speak(&mut self) -> io::Result<u8> {
        self.host.tell(Event::Start);
        if !is_up(self.host.session().state()) {
            tell(self.rt, NAME, "the peer can't be reached");
            return Ok(BROKEN);
        }
        self.go_on()?;
        self.voice.ends(self.ear.messages)?;
        Ok(self.status())
    }

    // The status of the run.
    fn status(&self) -> u8 {
        if self.faulty
            || self.ear.faulty
            || self.host.connection.blamed
            || !self.host.observer.established
        {
            UNCLEAN
        } else {
            CLEAN
        }
    }
}

// Runs the session of a request, which sends these UPDATEs.
fn run(rt: &HostRuntime, request: &Request<'_>, updates: Vec<Update>) -> io::Result<u8> {
    let voice = Voice {
        rt,
        json: request.json,
    };
    let until = end_of(rt, request.seconds)?;
    let connection = TcpConnection::new(
        voice,
        request.address,
        request.listens,
        request.source,
        until,
    );
    let mut run = Conversation {
        rt,
        voice,
        host: Host::new(
            request.config,
            connection,
            Timers::new(rt),
            Teller::new(voice),
        ),
        ear: Ear::new(voice),
        updates,
        sent: 0,
        faulty: false,
        messages: request.messages,
        until,
    };
    run.speak()
}

// The UPDATEs of a file, or the status where it can't be read or has others.
fn updates_of(rt: &HostRuntime, file: Option<&str>) -> io::Result<Result<Vec<Update>, u8>> {
    let Some(file) = file else {
        return Ok(Ok(Vec::new(rt.alloc())));
    };
    match read_updates(rt, file) {
        Ok(Reading::Updates(updates)) => Ok(Ok(updates)),
        Err(error) if error.kind() == ErrorKind::OutOfMemory => Err(error),
        Err(error) => {
            let _ = eprintln!(rt; "bgp_speaker: {file}: {error}");
            Ok(Err(BROKEN))
        }
        Ok(Reading::Bad(at)) => {
            let _ = eprintln!(rt; "bgp_speaker: {file}: no UPDATE that can be sent at {at}");
            Ok(Err(UNCLEAN))
        }
    }
}

/// Speaks with a peer as the command line asks, and answers the status.
pub(crate) fn speak(rt: &HostRuntime, request: &Request<'_>) -> io::Result<u8> {
    match updates_of(rt, request.file)? {
        Ok(updates) => run(rt, request, updates),
        Err(status) => Ok(status),
    }
}
