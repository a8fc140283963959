//! The run of the program: one thread that waits for all sockets at once.

use crate::commands::NAME;
use crate::counts::count;
use crate::lines::Name;
use crate::log::Log;
use crate::neighbours::{Admission, Neighbour, admit};
use crate::owner::{Order, Owner};
use crate::request::Request;
use crate::roster::{Unread, neighbours_of};
use crate::scraping::Scraping;
use crate::session::{Ends, Session};
use crate::why::Why;
use bgp_guard::{DRAIN_SECONDS, Side};
use bgp_guard_net::{connect_from, probe};
use bgp_words::{BROKEN, status_of};
use mio::event::Event;
use mio::net::{TcpListener, TcpStream};
use mio::{Events, Interest, Poll, Token};
use std::io;
use std::io::ErrorKind;
use std::net::{IpAddr, SocketAddr};
use std::time::{Duration, Instant};

/// The number of events handled at once.
const EVENTS: usize = 256;

/// The number of connections accepted before sessions continue.
const BATCH: usize = 16;

/// The seconds between two lines of counts.
const MINUTE: u64 = 60;

/// The seconds between two lines on what wasn't printed.
const DECADE: u64 = 10;

/// The status where a line of the file of neighbours is faulty, as for a fault of the command line.
const MISUSE: u8 = 2;

/// The token of the socket that listens. Those of sessions follow, two for each.
const LISTENER: usize = 0;

/// The state of the program.
#[derive(Drop)]
struct Server<'a> {
    rt: &'a HostRuntime,
    request: &'a Request,
    /// Who may connect, where not everyone may.
    neighbours: Vec<Neighbour>,
    owner: Owner,
    log: Log<'a>,
    poll: Poll,
    listener: TcpListener,
    scraping: Scraping,
    /// Connections may be pending.
    has_guests: bool,
    /// A slot for each possible session.
    places: Vec<Option<Session>>,
    /// When the current second ends.
    next: Instant,
    /// The number of seconds passed.
    seconds: u64,
    /// Its owner has asked it to stop.
    is_stopping: bool,
    /// Once it stops or its time is over, when it abandons the sessions that remain.
    last: Option<u64>,
}

// The token of a side of the session in a slot.
fn token_of(place: usize, side: Side) -> Token {
    let first = place.saturating_mul(2).saturating_add(1);
    match side {
        Side::Outer => Token(first),
        Side::Inner => Token(first.saturating_add(1)),
    }
}

// Passes an event to its session. Answers whether it is one of the listening socket.
fn wake(places: &mut [Option<Session>], event: &Event) -> bool {
    let Token(token) = event.token();
    if token == LISTENER {
        return true;
    }
    let place = (token - 1) / 2;
    let side = if token % 2 == 1 {
        Side::Outer
    } else {
        Side::Inner
    };
    if let Some(Some(session)) = places.get_mut(place) {
        session.wake(side, event);
    }
    false
}

// A free slot.
fn free_place(places: &[Option<Session>]) -> Option<usize> {
    for (place, session) in places.iter().enumerate() {
        if session.is_none() {
            return Some(place);
        }
    }
    None
}

// A slot for each session that there may be.
fn places_for(rt: &HostRuntime, most: u64) -> io::Result<Vec<Option<Session>>> {
    let mut places = Vec::new(rt.alloc());
    for _place in 0..most {
        places.push(None)?;
    }
    Ok(places)
}

impl<'a> Server<'a> {
    // Listens.
    fn new(
        rt: &'a HostRuntime,
        request: &'a Request,
        neighbours: Vec<Neighbour>,
    ) -> io::Result<Server<'a>> {
        let poll = Poll::new(rt)?;
        let mut listener = TcpListener::bind(rt, request.listen)?;
        poll.registry()
            .register(&mut listener, Token(LISTENER), Interest::READABLE)?;
        let scraping = Scraping::new(rt, poll.registry(), request.metrics)?;
        let now = Instant::now(rt)?;
        Ok(Server {
            rt,
            request,
            neighbours,
            owner: Owner::new(request.has_owner),
            log: Log::new(rt, request.form, request.metrics.is_some()),
            poll,
            listener,
            scraping,
            has_guests: true,
            places: places_for(rt, request.most)?,
            next: now.checked_add(Duration::from_secs(1)).unwrap_or(now),
            seconds: 0,
            is_stopping: false,
            last: None,
        })
    }

    // The side that connects.
    fn guest_side(&self) -> Side {
        if self.request.inner_connects {
            Side::Inner
        } else {
            Side::Outer
        }
    }

    // Registers the events of a stream, without Nagle's algorithm.
    fn watch(&self, stream: &mut TcpStream, token: Token) -> io::Result<()> {
        stream.set_nodelay(true)?;
        probe(stream)?;
        let both = Interest::READABLE | Interest::WRITABLE;
        self.poll.registry().register(stream, token, both)
    }

    // Begins to connect to the other side.
    fn seek(&self, source: Option<IpAddr>, token: Token) -> io::Result<TcpStream> {
        let to = self.request.to;
        let mut stream = match source {
            Some(source) => connect_from(self.rt, source, to)?,
            None => TcpStream::connect(self.rt, to)?,
        };
        self.watch(&mut stream, token)?;
        Ok(stream)
    }

    // The name of the next session.
    fn name(&self, from: SocketAddr) -> Name {
        let number = self.log.counts.begun.saturating_add(1);
        let to = self.request.to;
        match self.guest_side() {
            Side::Outer => Name {
                number,
                outer: from,
                inner: to,
            },
            Side::Inner => Name {
                number,
                outer: to,
                inner: from,
            },
        }
    }

    // A session for the peer that has connected, in a slot.
    fn session(
        &self,
        mut stream: TcpStream,
        from: SocketAddr,
        source: Option<IpAddr>,
        place: usize,
    ) -> io::Result<Session> {
        let side = self.guest_side();
        self.watch(&mut stream, token_of(place, side))?;
        let ends = Ends {
            side,
            accepted: stream,
            sought: self.seek(source, token_of(place, side.other())),
            source,
        };
        let name = self.name(from);
        Ok(Session::new(self.rt.alloc(), self.request.rules, name, ends)?)
    }

    // Whether the sessions of an address are at their limit.
    fn is_crowded(&self, from: IpAddr) -> bool {
        let side = self.guest_side();
        let mut count = 0_u64;
        for place in self.places.iter() {
            if let Some(session) = place {
                count = count.saturating_add(u64::from(session.address(side) == from));
            }
        }
        count >= self.request.most_of_peer
    }

    // Begins a session with the peer that has connected, where there is a free slot.
    fn begin(&mut self, stream: TcpStream, from: SocketAddr, source: Option<IpAddr>) {
        if self.is_crowded(from.ip()) {
            count(&mut self.log.counts.crowded);
            return;
        }
        let Some(place) = free_place(&self.places) else {
            count(&mut self.log.counts.full);
            return;
        };
        match self.session(stream, from, source, place) {
            Ok(session) => {
                self.log.begins(session.name);
                if let Some(free) = self.places.get_mut(place) {
                    *free = Some(session);
                }
            }
            Err(error) => {
                count(&mut self.log.counts.failed);
                self.log.fails(&error);
            }
        }
    }

    // What is done for a peer that connects from an address.
    fn admission(&self, from: IpAddr) -> Admission {
        if self.request.is_open() {
            Admission::Anyhow
        } else {
            admit(&self.neighbours, from)
        }
    }

    // Begins a session with the peer that has connected, where it is a neighbour.
    fn greet(&mut self, stream: TcpStream, from: SocketAddr) {
        match self.admission(from.ip()) {
            Admission::Anyhow => self.begin(stream, from, None),
            Admission::From(source) => self.begin(stream, from, Some(source)),
            Admission::Refused => self.log.refuses(from.ip()),
        }
    }

    // Whether the requested number of sessions has begun, or its time is over.
    fn has_begun_all(&self) -> bool {
        let all = match self.request.sessions {
            Some(sessions) => self.log.counts.begun >= sessions,
            None => false,
        };
        all || self.last.is_some()
    }

    // Accepts pending connections. After a fault it continues with the next second.
    fn accept(&mut self) {
        for _turn in 0..BATCH {
            if !self.has_guests || self.has_begun_all() {
                break;
            }
            match self.listener.accept() {
                Ok((stream, from)) => self.greet(stream, from),
                Err(error) => match error.kind() {
                    ErrorKind::WouldBlock => self.has_guests = false,
                    ErrorKind::Interrupted | ErrorKind::ConnectionAborted => {}
                    _ => {
                        self.has_guests = false;
                        self.log.fails(&error);
                    }
                },
            }
        }
    }

    // Does what there is to do in each session. Answers whether there may be more.
    fn work(&mut self) -> bool {
        let mut is_busy = false;
        for place in self.places.iter_mut() {
            let Some(session) = place else {
                continue;
            };
            session.work(&mut self.log);
            is_busy = is_busy || session.is_busy();
            if let Some(why) = session.end() {
                self.log.ends(session.name, why);
                *place = None;
            }
        }
        is_busy
    }

    // Passes the end of a second to each session, where it is over.
    fn tick(&mut self, now: Instant) {
        if now < self.next {
            return;
        }
        self.next = self.next.checked_add(Duration::from_secs(1)).unwrap_or(now);
        self.seconds = self.seconds.saturating_add(1);
        self.has_guests = true;
        for place in self.places.iter_mut() {
            if let Some(session) = place {
                session.tick();
            }
        }
        self.obey();
        self.scraping.tick();
        self.log.tick();
        if self.seconds % DECADE == 0 {
            self.log.tells_more();
        }
        if self.seconds % MINUTE == 0 {
            self.log.tells_counts();
        }
    }

    // Ends each session whose neighbour was removed, or has another local address. Answers their number.
    fn dismiss(&mut self) -> u64 {
        let side = self.guest_side();
        let mut ended = 0_u64;
        for place in self.places.iter_mut() {
            let Some(session) = place else {
                continue;
            };
            let stays = match admit(&self.neighbours, session.address(side)) {
                Admission::From(source) => session.source == Some(source),
                Admission::Anyhow | Admission::Refused => false,
            };
            if !stays {
                session.stop();
                ended = ended.saturating_add(1);
            }
        }
        ended
    }

    // Reads the file of neighbours again. Where it can't be used, they are unchanged.
    fn reload(&mut self) {
        if self.request.peers.is_none() {
            return self.log.complains("reload, and there is no --peers");
        }
        match neighbours_of(self.rt, self.request) {
            Ok(neighbours) => {
                self.neighbours = neighbours;
                let ended = self.dismiss();
                self.log.reloads(self.neighbours.len(), ended);
            }
            Err(why) => self.log.misreads(self.request.peers.as_ref(), &why),
        }
    }

    // Does what its owner asks for.
    fn obey(&mut self) {
        match self.owner.order(&mut self.rt.stdin()) {
            Ok(None) => {}
            Ok(Some(Order::Reload)) => self.reload(),
            Ok(Some(Order::Stop)) => self.is_stopping = true,
            Ok(Some(Order::Unknown)) => {
                self.log
                    .complains("a line of standard input is neither reload nor stop");
            }
            Err(error) => self.log.fails(&error),
        }
    }

    // Once it is to stop or its time is over, ends each session: both sides get a NOTIFICATION, and some seconds to
    // read what is queued.
    fn end_in_time(&mut self) {
        let is_late = match self.request.seconds {
            Some(seconds) => self.seconds >= seconds,
            None => false,
        };
        let is_time = is_late || self.is_stopping;
        if !is_time || self.last.is_some() {
            return;
        }
        self.last = Some(self.seconds.saturating_add(u64::from(DRAIN_SECONDS)));
        for place in self.places.iter_mut() {
            if let Some(session) = place {
                session.stop();
            }
        }
    }

    // Waits for events, and for the next second at most.
    fn wait(&mut self, events: &mut Events, time: Duration) -> io::Result<()> {
        self.poll.poll(events, Some(time))?;
        for event in events.iter() {
            if !self.scraping.wake(event) && wake(&mut self.places, event) {
                self.has_guests = true;
            }
        }
        Ok(())
    }

    // Serves counters to a client: nothing where the allocation fails.
    fn show(&mut self) {
        let alloc = self.rt.alloc();
        if !self.scraping.is_asked(alloc, self.poll.registry()) {
            return;
        }
        let metrics = self.log.metrics();
        let text = format!(in alloc;
            "HTTP/1.0 200 OK\r\nContent-Type: text/plain; version=0.0.4\r\nConnection: close\r\n\r\n{metrics}"
        );
        if let Ok(text) = text {
            self.scraping.tell(text);
        }
    }

    // Whether it has run for the requested time.
    fn is_over(&self) -> bool {
        let ended = match self.request.sessions {
            Some(sessions) => self.log.counts.ended >= sessions,
            None => false,
        };
        let late = match self.last {
            Some(last) => self.seconds >= last || self.log.counts.is_empty(),
            None => false,
        };
        ended || late
    }

    // Runs until it is over.
    fn run(&mut self) -> io::Result<()> {
        let mut events = Events::with_capacity(self.rt.alloc(), EVENTS)?;
        self.log.listens(self.listener.local_addr()?);
        if let Some(address) = self.scraping.address() {
            self.log.serves(address);
        }
        let neighbours = self.neighbours.len();
        if self.request.most < neighbours as u64 {
            self.log.warns(self.request.most, neighbours);
        }
        for _turn in 0..u64::MAX {
            let now = Instant::now(self.rt)?;
            self.tick(now);
            self.end_in_time();
            self.accept();
            self.show();
            let is_busy = self.work() || self.has_guests && !self.has_begun_all();
            if self.is_over() {
                break;
            }
            let time = if is_busy {
                Duration::ZERO
            } else {
                self.next.duration_since(now)
            };
            self.wait(&mut events, time)?;
        }
        Ok(())
    }

    // Prints the end of each remaining session, and the counts.
    fn stop(&mut self) {
        for place in self.places.iter() {
            if let Some(session) = place {
                self.log.ends(session.name, &Why::Stopped);
            }
        }
        self.log.tells_more();
        self.log.tells_counts();
    }
}

// Prints why the file of neighbours can't be used, and answers the status: 2 where a line is faulty.
fn refuse(rt: &HostRuntime, request: &Request, why: &Unread) -> u8 {
    match why {
        Unread::Io(error) if error.kind() == ErrorKind::OutOfMemory => status_of(rt, NAME, error),
        _ => {
            let path = request.peers.as_ref().map_or("", |path| path.as_str());
            let _ = eprintln!(rt; "{NAME}: {path}: {why}");
            match why {
                Unread::Line(_) => MISUSE,
                Unread::Io(_) => BROKEN,
            }
        }
    }
}

/// Runs guards as the command line asks, and answers the status.
pub(crate) fn serve(rt: &HostRuntime, request: &Request) -> io::Result<u8> {
    let neighbours = match neighbours_of(rt, request) {
        Ok(neighbours) => neighbours,
        Err(why) => return Ok(refuse(rt, request, &why)),
    };
    let mut server = Server::new(rt, request, neighbours)?;
    server.run()?;
    server.stop();
    Ok(0)
}
