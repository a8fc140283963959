//! The connection of one side of a session.

ghost use Rattle.std.specs.Prelude.{◌≡◌, drop, IfOk, OnErr};
ghost use Rattle.std.specs.Io.KnownBytes.{Keeps, WriteAppends};
ghost use Rattle.bgp_guard.specs.Prelude.{IsHeard, for_side, sent, half};
ghost use Rattle.bgp_guard_run.specs.steps.Reading.{IsReadAndHeard};

use crate::lines::{Name, Place};
use crate::log::Log;
use crate::piece::{PIECE, Piece};
use crate::reasons::{Deed, Judged};
use crate::why::{Code, Why};
use bgp_frame::{Kind, WideKind};
use bgp_guard::{Came, DRAIN_SECONDS, Guard, Side};
use bgp_open::{Context, agreed_context};
use bgp_wire::OctetSet;
use mio::event::Event;
use mio::net::TcpStream;
use std::alloc::{AllocError, Global};
use std::io;
use std::io::{ErrorKind, Read, Write};
use std::net::Shutdown;

/// The offset of the error code in a NOTIFICATION.
const CODE_AT: usize = 19;

/// The state of a connection.
#[derive(Clone, Copy, PartialEq, Eq)]
enum Phase {
    /// It is being made.
    Sought,
    /// Octets go both ways.
    Stands,
    /// Nothing more is sent. What still arrives is read for this many seconds, since TCP resets a connection that is
    /// closed earlier, and may lose what was sent.
    Lingers(u8),
    /// It is closed.
    Gone,
}

/// The result of reading.
#[derive(Drop)]
enum Brought {
    /// The number of octets that the guard consumed, and their result.
    Octets(usize, Came),
    /// Nothing for now.
    Nothing,
    /// The side closed the connection.
    End,
    /// The connection failed.
    Fault(io::Error),
}

/// The connection of one side, and the octets read from it that the guard hasn't consumed.
#[derive(Drop)]
pub(crate) struct Connection {
    side: Side,
    /// The types of unrecognised attributes that are left out.
    drops: OctetSet,
    stream: Option<TcpStream>,
    phase: Phase,
    /// There may be something to read.
    readable: bool,
    /// There may be room to write.
    writable: bool,
    /// The side sends no more, or the connection has failed: what it sent before may still be read.
    is_hung: bool,
    has_failed: bool,
    /// Octets were sent to it in the current second.
    has_moved: bool,
    /// The number of seconds in a row at whose end octets were queued for it, and in which none was sent.
    still: u16,
    piece: Piece,
    /// The octets that the guard has consumed of the incomplete message.
    message: Vec<u8>,
    /// The number of octets of the side that the guard has consumed.
    heard: u64,
    /// The offset where the incomplete message begins.
    begun: u64,
    /// A KEEPALIVE from it was passed on.
    pub(crate) is_ready: bool,
}

// The code and the subcode of the NOTIFICATION that was queued after the first `before` octets.
fn code_in(way: &[u8], before: usize) -> Option<Code> {
    match way.get(before..)?.get(CODE_AT..)? {
        [code, subcode, ..] => Some(Code {
            code: *code,
            subcode: *subcode,
        }),
        _ => None,
    }
}

// Writes once from the queue for a side. What was written leaves the queue, and all else is unchanged.
fn pass_on<W: Write>(guard: &mut Guard, side: Side, to: &mut W) -> io::Result<usize>
    ensures written { WriteAppends (W.contents to.old) (W.contents to.new) result (half side guard.old).way }
    ensures sent { IfOk result (λ n. guard.new ≡ for_side (sent n) side guard.old) }
    ensures kept { OnErr result (guard.new ≡ guard.old) }
{
    let count = to.write(guard.way(side))?;
    guard.sent(side, count);
    Ok(count)
}

// Keeps octets that the guard has consumed, for the log: where the allocation fails it has none.
fn keep(message: &mut Vec<u8>, octets: &[u8], count: usize) {
    let kept = match octets.get(..count) {
        Some(octets) => message.extend_from_slice(octets).is_ok(),
        None => false,
    };
    if !kept {
        message.clear();
    }
}

// Passes the guard what was read of a side, up to the end of a message, and removes what it consumed.
fn hear_once(
    guard: &mut Guard,
    side: Side,
    piece: &mut Piece,
    message: &mut Vec<u8>,
) -> (usize, Came)
    ensures heard { IsHeard side guard.old piece.old result.0 result.1 guard.new }
    ensures left { piece.new ≡ drop result.0 piece.old }
{
    let (taken, came) = guard.hear(side, piece.as_slice());
    keep(message, piece.as_slice(), taken);
    piece.take_off(taken);
    (taken, came)
}

// Reads once where nothing remains of what was read before, and passes the guard what there is, up to the end of a
// message. Answers the number of octets read, the number that the guard consumed, and their result.
fn read_and_hear<R: Read>(
    guard: &mut Guard,
    side: Side,
    piece: &mut Piece,
    message: &mut Vec<u8>,
    from: &mut R,
) -> io::Result<(usize, usize, Came)>
    ensures heard { IfOk result (λ r. IsReadAndHeard side guard.old guard.new (R.remaining from.old) (R.remaining from.new) piece.old piece.new r.0 r.1 r.2) }
    ensures kept { OnErr result (guard.new ≡ guard.old) }
    ensures unread { OnErr result (Keeps (R.remaining from.old) (R.remaining from.new)) }
{
    if !piece.is_empty() {
        let (taken, came) = hear_once(guard, side, piece, message);
        return Ok((0, taken, came));
    }
    let count = piece.fill(from)?;
    let (taken, came) = hear_once(guard, side, piece, message);
    Ok((count, taken, came))
}

impl Connection {
    // A connection in a phase.
    fn new(
        alloc: Global,
        side: Side,
        drops: OctetSet,
        stream: Option<TcpStream>,
        phase: Phase,
    ) -> Result<Connection, AllocError> {
        Ok(Connection {
            side,
            drops,
            stream,
            phase,
            readable: false,
            writable: false,
            is_hung: false,
            has_failed: false,
            has_moved: false,
            still: 0,
            piece: Piece::new(alloc)?,
            message: Vec::new(alloc),
            heard: 0,
            begun: 0,
            is_ready: false,
        })
    }

    /// One that was accepted.
    ///
    /// # Errors
    /// `AllocError` where an allocation failed.
    pub(crate) fn accepted(
        alloc: Global,
        side: Side,
        drops: OctetSet,
        stream: TcpStream,
    ) -> Result<Connection, AllocError> {
        Connection::new(alloc, side, drops, Some(stream), Phase::Stands)
    }

    /// One that is being made: none where that failed at once.
    ///
    /// # Errors
    /// `AllocError` where an allocation failed.
    pub(crate) fn sought(
        alloc: Global,
        side: Side,
        drops: OctetSet,
        stream: Option<TcpStream>,
    ) -> Result<Connection, AllocError> {
        let phase = match &stream {
            Some(_) => Phase::Sought,
            None => Phase::Gone,
        };
        Connection::new(alloc, side, drops, stream, phase)
    }

    /// Records an event of it.
    pub(crate) fn wake(&mut self, event: &Event) {
        let failed = event.is_error();
        self.is_hung = self.is_hung || event.is_read_closed();
        self.has_failed = self.has_failed || failed || event.is_write_closed();
        if failed || event.is_readable() || event.is_read_closed() {
            self.readable = true;
        }
        if failed || event.is_writable() || event.is_write_closed() {
            self.writable = true;
        }
    }

    /// Whether it is closed.
    pub(crate) fn is_gone(&self) -> bool {
        self.phase == Phase::Gone
    }

    // Closes it at once.
    fn close(&mut self) {
        self.stream = None;
        self.phase = Phase::Gone;
    }

    // Closes it, and reports that to the guard.
    fn lose(&mut self, guard: &mut Guard, why: Why) -> Option<Why> {
        self.close();
        guard.closed(self.side);
        Some(why)
    }

    // Whether a connection that is being made is up by now.
    fn reached(&self) -> io::Result<bool> {
        let Some(stream) = &self.stream else {
            return Ok(false);
        };
        match stream.take_error()? {
            Some(error) => Err(error),
            None => Ok(stream.peer_addr().is_ok()),
        }
    }

    /// Reports the result of connecting to the guard.
    pub(crate) fn meet(&mut self, guard: &mut Guard) -> Option<Why> {
        if self.phase != Phase::Sought || !self.writable {
            return None;
        }
        match self.reached() {
            Ok(true) => {
                self.phase = Phase::Stands;
                self.is_hung = false;
                self.has_failed = false;
                guard.stood(self.side);
                None
            }
            Ok(false) => {
                self.writable = false;
                None
            }
            Err(error) => {
                self.close();
                guard.unreachable(self.side);
                Some(Why::Unreachable(self.side, error))
            }
        }
    }

    // Reads where nothing remains of what was read before, and passes the guard what there is.
    fn read(&mut self, guard: &mut Guard) -> Brought {
        let Some(stream) = &mut self.stream else {
            return Brought::Nothing;
        };
        let was_empty = self.piece.is_empty();
        match read_and_hear(guard, self.side, &mut self.piece, &mut self.message, stream) {
            Ok((0, _, _)) if was_empty => Brought::End,
            Ok((_, taken, came)) => Brought::Octets(taken, came),
            Err(error) => match error.kind() {
                ErrorKind::WouldBlock => {
                    self.readable = false;
                    Brought::Nothing
                }
                ErrorKind::Interrupted => Brought::Nothing,
                _ => Brought::Fault(error),
            },
        }
    }

    /// Reads once where the guard listens and has consumed all before, and passes it what was read until it consumes
    /// nothing.
    pub(crate) fn listen(
        &mut self,
        guard: &mut Guard,
        log: &mut Log<'_>,
        name: Name,
    ) -> Option<Why> {
        for turn in 0..PIECE {
            let has_more = !self.piece.is_empty() || turn == 0 && self.readable;
            if self.phase != Phase::Stands || !has_more || !guard.listens(self.side) {
                return None;
            }
            let before = guard.way(self.side.other()).len();
            match self.read(guard) {
                Brought::Octets(taken, came) => {
                    self.heard = self.heard.saturating_add(taken as u64);
                    let why = self.note(guard, before, came, log, name);
                    if why.is_some() {
                        return why;
                    }
                }
                Brought::Nothing => return None,
                Brought::End => return self.lose(guard, Why::Closed(self.side)),
                Brought::Fault(error) => return self.lose(guard, Why::Lost(self.side, error)),
            }
        }
        None
    }

    // Logs the result of octets, where the queue for the other side had `before` octets. Answers whether that ends the
    // session.
    fn note(
        &mut self,
        guard: &Guard,
        before: usize,
        came: Came,
        log: &mut Log<'_>,
        name: Name,
    ) -> Option<Why> {
        let place = Place {
            name,
            outer_as: guard.peer(Side::Outer).map(|peer| peer.as_number()),
            side: self.side,
            at: self.begun,
        };
        let why = match came {
            Came::Nothing => return None,
            Came::Dropped { kind } => {
                log.drops(place, kind, &self.judged(guard, Deed::Dropped, before));
                None
            }
            Came::HandedOn { kind, same } => {
                self.is_ready = self.is_ready || kind == WideKind::Base(Kind::Keepalive);
                if same {
                    log.passes(name);
                } else {
                    log.changes(place, kind, &self.judged(guard, Deed::Changed, before));
                }
                match (kind, code_in(guard.way(self.side.other()), before)) {
                    (WideKind::Base(Kind::Notification), Some(code)) => {
                        Some(Why::Notified(self.side, code))
                    }
                    _ => None,
                }
            }
            Came::Answered { code, subcode } => {
                let code = Code { code, subcode };
                log.answers(place, code, &self.judged(guard, Deed::Answered, before));
                Some(Why::Answered(self.side, code))
            }
        };
        self.begun = self.heard;
        self.message.clear();
        why
    }

    // The received message, and what it was judged by, where the queue for the other side had `before` octets.
    fn judged<'a>(&'a self, guard: &'a Guard, deed: Deed, before: usize) -> Judged<'a> {
        let away = self.side.other();
        let ctx = match (guard.peer(self.side), guard.peer(away)) {
            (Some(ours), Some(theirs)) => agreed_context(ours, theirs),
            _ => Context {
                internal: false,
                as4: false,
                ip4: false,
                ip6: false,
                hold: 0,
            },
        };
        Judged {
            deed,
            ctx,
            drops: self.drops,
            octets: self.message.as_slice(),
            handed: guard.way(away).get(before..).unwrap_or(&[]),
        }
    }

    // The error of a connection that has failed.
    fn fault(&self) -> io::Error {
        if let Some(stream) = &self.stream {
            if let Ok(Some(error)) = stream.take_error() {
                return error;
            }
        }
        io::Error::from(ErrorKind::ConnectionReset)
    }

    /// Ends the session of a side that isn't read where its connection has failed, or where it hangs up and the other
    /// side reads nothing.
    pub(crate) fn miss(&mut self, guard: &mut Guard, is_other_still: bool) -> Option<Why> {
        if self.phase != Phase::Stands || guard.listens(self.side) {
            return None;
        }
        if self.has_failed {
            let error = self.fault();
            return self.lose(guard, Why::Lost(self.side, error));
        }
        if self.is_hung && is_other_still {
            return self.lose(guard, Why::Closed(self.side));
        }
        None
    }

    /// Whether octets are queued for it, and none was sent for a whole second.
    pub(crate) fn is_still(&self) -> bool {
        self.still > 1
    }

    /// Ends the session where octets queued for the side have stayed unsent for as long as they may.
    pub(crate) fn stall(&mut self, guard: &mut Guard) -> Option<Why> {
        let seconds = guard.stall_seconds();
        if guard.has_ended() || self.still <= seconds {
            return None;
        }
        guard.stalled(self.side);
        Some(Why::Stalled(self.side, seconds))
    }

    /// Reads what arrives once the session has ended, and drops it.
    pub(crate) fn drain(&mut self, guard: &mut Guard) {
        let reads = match self.phase {
            Phase::Stands | Phase::Lingers(_) => self.readable,
            Phase::Sought | Phase::Gone => false,
        };
        if !reads {
            return;
        }
        self.piece.clear();
        if let Brought::End | Brought::Fault(_) = self.read(guard) {
            self.close();
            guard.closed(self.side);
        }
    }

    /// Sends what is queued for it.
    pub(crate) fn send(&mut self, guard: &mut Guard) -> Option<Why> {
        let has_way = !guard.way(self.side).is_empty();
        if self.phase != Phase::Stands || !self.writable || !has_way {
            return None;
        }
        match pass_on(guard, self.side, self.stream.as_mut()?) {
            Ok(count) => {
                self.has_moved = self.has_moved || count > 0;
                None
            }
            Err(error) => match error.kind() {
                ErrorKind::WouldBlock => {
                    self.writable = false;
                    None
                }
                ErrorKind::Interrupted => None,
                _ => self.lose(guard, Why::Lost(self.side, error)),
            },
        }
    }

    /// Sends no more where the guard closes the side.
    pub(crate) fn leave(&mut self, guard: &Guard) {
        if !guard.closes(self.side) {
            return;
        }
        match self.phase {
            Phase::Sought => self.close(),
            Phase::Stands => self.shut(),
            Phase::Lingers(_) | Phase::Gone => {}
        }
    }

    // Shuts down sending to the side.
    fn shut(&mut self) {
        let shut = match &self.stream {
            Some(stream) => stream.shutdown(Shutdown::Write).is_ok(),
            None => false,
        };
        if shut {
            self.phase = Phase::Lingers(DRAIN_SECONDS);
        } else {
            self.close();
        }
    }

    /// A second has passed.
    pub(crate) fn tick(&mut self, guard: &Guard) {
        match self.phase {
            Phase::Lingers(0) => self.close(),
            Phase::Lingers(left) => self.phase = Phase::Lingers(left.saturating_sub(1)),
            Phase::Stands if !self.has_moved && !guard.way(self.side).is_empty() => {
                self.still = self.still.saturating_add(1);
            }
            Phase::Sought | Phase::Stands | Phase::Gone => self.still = 0,
        }
        self.has_moved = false;
    }

    /// Whether there may be more to do before an event or the next second.
    pub(crate) fn is_busy(&self, guard: &Guard, has_ended: bool) -> bool {
        let writes = self.writable && !guard.way(self.side).is_empty();
        match self.phase {
            Phase::Stands if has_ended => self.readable || writes,
            Phase::Stands => {
                let has_rest = !self.piece.is_empty();
                (self.readable || has_rest) && guard.listens(self.side) || writes
            }
            Phase::Lingers(_) => self.readable,
            Phase::Sought | Phase::Gone => false,
        }
    }
}
