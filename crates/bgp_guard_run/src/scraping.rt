//! The socket at which counters are read: HTTP, whose requests aren't parsed.

use mio::event::Event;
use mio::net::{TcpListener, TcpStream};
use mio::{Interest, Registry, Token};
use std::alloc::Global;
use std::io;
use std::io::{ErrorKind, Read, Write};
use std::net::{Shutdown, SocketAddr};

/// The tokens of the socket and of its client, which no session has.
const LISTENER: usize = usize::MAX - 1;

const READER: usize = usize::MAX;

/// The time limit of a client in seconds.
const SECONDS: u8 = 5;

/// A client.
#[derive(Drop)]
struct Reader {
    stream: TcpStream,
    /// Its request, or some of it, has arrived.
    has_asked: bool,
    /// The response.
    text: String,
    sent: usize,
    left: u8,
}

/// The socket, where there is one, and its client: one at a time.
#[derive(Drop)]
pub(crate) struct Scraping {
    listener: Option<TcpListener>,
    reader: Option<Reader>,
    has_guests: bool,
}

impl Reader {
    // Whether the whole response was sent.
    fn has_all(&self) -> bool {
        !self.text.is_empty() && self.sent >= self.text.len()
    }

    // Reads the request from the connection. Answers whether the client is done.
    fn hear(&mut self) -> bool {
        let mut asked = [0_u8; 1024];
        match self.stream.read(&mut asked) {
            Ok(0) => !self.has_asked || self.has_all(),
            Ok(_) => {
                self.has_asked = true;
                false
            }
            Err(error) => error.kind() != ErrorKind::WouldBlock,
        }
    }

    // Sends the rest. Answers whether the client is done.
    fn send(&mut self) -> bool {
        let Some(rest) = self.text.as_bytes().get(self.sent..) else {
            return false;
        };
        if rest.is_empty() {
            return false;
        }
        match self.stream.write(rest) {
            Ok(count) => {
                self.sent = self.sent.saturating_add(count);
                self.has_all() && self.stream.shutdown(Shutdown::Write).is_err()
            }
            Err(error) => error.kind() != ErrorKind::WouldBlock,
        }
    }
}

impl Scraping {
    /// Listens at an address, where there is one.
    ///
    /// # Errors
    /// That of the system.
    pub(crate) fn new(
        rt: &HostRuntime,
        registry: &Registry,
        address: Option<SocketAddr>,
    ) -> io::Result<Scraping> {
        let listener = match address {
            Some(address) => {
                let mut listener = TcpListener::bind(rt, address)?;
                registry.register(&mut listener, Token(LISTENER), Interest::READABLE)?;
                Some(listener)
            }
            None => None,
        };
        Ok(Scraping {
            listener,
            reader: None,
            has_guests: false,
        })
    }

    /// The address it listens at.
    pub(crate) fn address(&self) -> Option<SocketAddr> {
        self.listener.as_ref()?.local_addr().ok()
    }

    /// Whether an event is of its sockets.
    pub(crate) fn wake(&mut self, event: &Event) -> bool {
        let Token(token) = event.token();
        if token == LISTENER {
            self.has_guests = true;
        }
        token == LISTENER || token == READER
    }

    // Accepts the next client, where there is none.
    fn accept(&mut self, alloc: Global, registry: &Registry) {
        if self.reader.is_some() || !self.has_guests {
            return;
        }
        let Some(listener) = &self.listener else {
            return;
        };
        match listener.accept() {
            Ok((mut stream, _)) => {
                let both = Interest::READABLE | Interest::WRITABLE;
                if registry.register(&mut stream, Token(READER), both).is_ok() {
                    self.reader = Some(Reader {
                        stream,
                        has_asked: false,
                        text: String::new(alloc),
                        sent: 0,
                        left: SECONDS,
                    });
                }
            }
            Err(_) => self.has_guests = false,
        }
    }

    /// Whether a client has asked and has no response yet.
    pub(crate) fn is_asked(&mut self, alloc: Global, registry: &Registry) -> bool {
        self.accept(alloc, registry);
        let Some(reader) = &mut self.reader else {
            return false;
        };
        let is_over = reader.hear() || reader.send();
        let is_asked = reader.has_asked && reader.text.is_empty();
        if is_over {
            self.reader = None;
        }
        is_asked && !is_over
    }

    /// Gives the client its response.
    pub(crate) fn tell(&mut self, text: String) {
        if let Some(reader) = &mut self.reader {
            reader.text = text;
            if reader.send() {
                self.reader = None;
            }
        }
    }

    /// A second has passed.
    pub(crate) fn tick(&mut self) {
        let Some(reader) = &mut self.reader else {
            return;
        };
        if reader.left == 0 {
            self.reader = None;
        } else {
            reader.left = reader.left.saturating_sub(1);
        }
    }
}
