//! Readers and writers over memory that handle few octets at a time, or fail. They count their calls, and allocate nothing.

use arrayvec::ArrayVec;
use std::io::{self, ErrorKind, Read, Write};

/// Gives at most `step` octets a call, and fails from a call on.
#[derive(Drop)]
pub(super) struct Drip<'a> {
    octets: &'a [u8],
    step: usize,
    calls_left: Option<u32>,
    pub(super) has_failed: bool,
    /// The number of its calls.
    pub(super) calls: u32,
    /// The longest buffer that it was given to fill, and the shortest.
    pub(super) longest: usize,
    pub(super) shortest: usize,
}

impl<'a> Drip<'a> {
    pub(super) fn new(octets: &'a [u8], step: usize) -> Drip<'a> {
        Drip {
            octets,
            step,
            calls_left: None,
            has_failed: false,
            calls: 0,
            longest: 0,
            shortest: usize::MAX,
        }
    }

    pub(super) fn failing_after(mut self, calls: u32) -> Drip<'a> {
        self.calls_left = Some(calls);
        self
    }

    fn note_call(&mut self, len: usize) {
        self.calls = self.calls.wrapping_add(1);
        self.longest = self.longest.max(len);
        self.shortest = self.shortest.min(len);
    }
}

impl Read for Drip<'_> {
    fn read(&mut self, buf: &mut [u8]) -> io::Result<usize> {
        self.note_call(buf.len());
        match self.calls_left {
            None => {}
            Some(0) => {
                self.has_failed = true;
                return Err(io::Error::from(ErrorKind::Other));
            }
            Some(calls) => self.calls_left = Some(calls - 1),
        }
        let count = self.step.min(buf.len()).min(self.octets.len());
        let (front, rest) = self.octets.split_at(count);
        buf[..count].copy_from_slice(front);
        self.octets = rest;
        Ok(count)
    }
}

/// Holds what is written, up to a limit.
#[derive(Drop)]
pub(super) struct Sheet {
    pub(super) text: ArrayVec<u8, 8192>,
    /// The number of its calls.
    pub(super) writes: u32,
    calls_left: Option<u32>,
    pub(super) has_failed: bool,
    room: usize,
    takes_nothing: bool,
}

impl Sheet {
    ghost use Rattle.std.specs.Prelude.{◌≡◌, IfOk};

    pub(super) fn new() -> Sheet {
        Sheet {
            text: ArrayVec::new(),
            writes: 0,
            calls_left: None,
            has_failed: false,
            room: 8192,
            takes_nothing: false,
        }
    }

    /// Accepts this number of octets, and then fails: by an error, or by accepting nothing.
    pub(super) fn with_room(mut self, room: usize, takes_nothing: bool) -> Sheet {
        self.room = room;
        self.takes_nothing = takes_nothing;
        self
    }

    pub(super) fn failing_after(mut self, calls: u32) -> Sheet {
        self.calls_left = Some(calls);
        self
    }

    fn fail(&mut self) -> io::Result<usize>
        ensures { IfOk result (λ n. n ≡ 0) }
    {
        self.has_failed = true;
        if self.takes_nothing {
            return Ok(0);
        }
        Err(io::Error::from(ErrorKind::Other))
    }
}

impl Write for Sheet {
    fn write(&mut self, buf: &[u8]) -> io::Result<usize> {
        self.writes = self.writes.wrapping_add(1);
        match self.calls_left {
            None => {}
            Some(0) => return self.fail(),
            Some(calls) => self.calls_left = Some(calls - 1),
        }
        let count = buf.len().min(self.room);
        let is_kept = self.text.try_extend_from_slice(&buf[..count]).is_ok();
        if count == 0 || !is_kept {
            return self.fail();
        }
        self.room -= count;
        Ok(count)
    }

    fn flush(&mut self) -> io::Result<()> {
        Ok(())
    }
}
