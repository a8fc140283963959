//! The connection to the peer, over TCP.

use crate::source;
use crate::voice::{Voice, told_in};
use bgp_frame::{Step, front};
use bgp_host::Connection;
use bgp_machine::RETRY_SECONDS;
use bgp_numbers::error::CEASE;
use std::io::{ErrorKind, Read, Write};
use std::net::{IpAddr, SocketAddr, TcpListener, TcpStream};
use std::time::{Duration, Instant};
use std::{io, thread};

/// The seconds that a write may wait for the peer to read.
const PATIENCE: u64 = 10;

/// The milliseconds slept between two attempts to connect or to accept.
const PAUSE: u64 = 20;

/// One connection, which is made once.
#[derive(Drop)]
pub(crate) struct TcpConnection<'a> {
    voice: Voice<'a>,
    address: &'a str,
    listens: bool,
    /// The address of this machine that it connects from, where one was named.
    source: Option<IpAddr>,
    /// When the program ends, at the latest.
    until: Option<Instant>,
    stream: Option<TcpStream>,
    /// A NOTIFICATION was sent that isn't a Cease: the peer was at fault, or silent.
    pub(crate) blamed: bool,
    /// A write to the output failed.
    pub(crate) mute: bool,
}

/// The result of a read.
#[derive(Clone, Copy)]
pub(crate) enum Came {
    /// This number of octets.
    Octets(usize),
    /// None within the time.
    Nothing,
    /// The peer closed the connection, or it failed.
    End,
}

// Sets a stream to send without delay, and to wait for the peer only for a limited time.
fn set_up(stream: TcpStream) -> io::Result<TcpStream> {
    stream.set_nonblocking(false)?;
    stream.set_nodelay(true)?;
    stream.set_write_timeout(Some(Duration::from_secs(PATIENCE)))?;
    Ok(stream)
}

// Whether octets are a NOTIFICATION other than a Cease.
fn blames(octets: &[u8]) -> bool {
    match front(octets) {
        Step::Frame(frame) => match told_in(frame) {
            Some((code, _)) => code != CEASE,
            None => false,
        },
        _ => false,
    }
}

impl<'a> TcpConnection<'a> {
    /// No connection.
    pub(crate) fn new(
        voice: Voice<'a>,
        address: &'a str,
        listens: bool,
        source: Option<IpAddr>,
        until: Option<Instant>,
    ) -> TcpConnection<'a> {
        TcpConnection {
            voice,
            address,
            listens,
            source,
            until,
            stream: None,
            blamed: false,
            mute: false,
        }
    }

    // Whether there is time for one more attempt.
    fn has_time(&self, began: Instant) -> bool {
        let Ok(now) = Instant::now(self.voice.rt) else {
            return false;
        };
        let over = match self.until {
            Some(until) => now >= until,
            None => false,
        };
        !over && now.duration_since(began).as_secs() < RETRY_SECONDS as u64
    }

    // Connects, from the address that was named where one was.
    fn connect(&self) -> Option<TcpStream> {
        let Some(source) = self.source else {
            return TcpStream::connect(self.voice.rt, self.address).ok();
        };
        let to = self.address.parse::<SocketAddr>().ok()?;
        source::connect(self.voice.rt, source, to).ok()
    }

    // Accepts a connection, or connects. None where that has to be tried again.
    fn attempt(&self, listener: Option<&TcpListener>) -> Option<TcpStream> {
        let stream = match listener {
            Some(listener) => listener.accept().ok()?.0,
            None => self.connect()?,
        };
        set_up(stream).ok()
    }

    // What accepts connections, where the peer connects.
    fn listener(&self) -> io::Result<Option<TcpListener>> {
        if !self.listens {
            return Ok(None);
        }
        let listener = TcpListener::bind(self.voice.rt, self.address)?;
        listener.set_nonblocking(true)?;
        Ok(Some(listener))
    }

    // Tries until there is a connection, or the time is over.
    fn find(&self) -> io::Result<Option<TcpStream>> {
        let began = Instant::now(self.voice.rt)?;
        let listener = self.listener()?;
        for _turn in 0..u64::MAX {
            if let Some(stream) = self.attempt(listener.as_ref()) {
                return Ok(Some(stream));
            }
            if !self.has_time(began) {
                return Ok(None);
            }
            thread::sleep(self.voice.rt, Duration::from_millis(PAUSE));
        }
        Ok(None)
    }

    /// Reads what has arrived, and waits for it at most this long, which isn't 0.
    pub(crate) fn read(&mut self, octets: &mut [u8], wait: Duration) -> Came {
        let Some(stream) = &mut self.stream else {
            return Came::End;
        };
        if stream.set_read_timeout(Some(wait)).is_err() {
            return Came::End;
        }
        match stream.read(octets) {
            Ok(0) => Came::End,
            Ok(count) => Came::Octets(count),
            Err(error) => match error.kind() {
                ErrorKind::WouldBlock | ErrorKind::TimedOut | ErrorKind::Interrupted =>
                    Came::Nothing,
                _ => Came::End,
            },
        }
    }
}

impl Connection for TcpConnection<'_> {
    fn seek(&mut self) -> bool {
        if self.voice.seeks(self.address, self.listens).is_err() {
            self.mute = true;
        }
        self.stream = match self.find() {
            Ok(stream) => stream,
            Err(_) => None,
        };
        self.stream.is_some()
    }

    fn send(&mut self, octets: &[u8]) -> bool {
        let Some(stream) = &mut self.stream else {
            return false;
        };
        if stream.write_all(octets).is_err() {
            return false;
        }
        if blames(octets) {
            self.blamed = true;
        }
        if self.voice.sent(octets).is_err() {
            self.mute = true;
        }
        true
    }

    fn close(&mut self) {
        self.stream = None;
        if self.voice.closed().is_err() {
            self.mute = true;
        }
    }
}
