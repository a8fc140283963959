//! A reader and a writer over memory that allocate nothing.

use arrayvec::ArrayVec;
use std::io::{self, ErrorKind, Read, Write};

/// Gives at most `step` octets a call.
#[derive(Drop)]
pub struct Drip<'a> {
    octets: &'a [u8],
    step: usize,
}

impl<'a> Drip<'a> {
    pub fn new(octets: &'a [u8], step: usize) -> Drip<'a> {
        Drip { octets, step }
    }
}

impl Read for Drip<'_> {
    fn read(&mut self, buf: &mut [u8]) -> io::Result<usize> {
        let count = self.step.min(buf.len()).min(self.octets.len());
        let (front, rest) = self.octets.split_at(count);
        buf[..count].copy_from_slice(front);
        self.octets = rest;
        Ok(count)
    }
}

/// Holds what is written.
#[derive(Drop)]
pub struct Sheet {
    pub octets: ArrayVec<u8, 65536>,
}

impl Sheet {
    pub fn new() -> Sheet {
        Sheet {
            octets: ArrayVec::new(),
        }
    }
}

impl Write for Sheet {
    fn write(&mut self, buf: &[u8]) -> io::Result<usize> {
        if self.octets.try_extend_from_slice(buf).is_err() {
            return Err(io::Error::from(ErrorKind::Other));
        }
        Ok(buf.len())
    }

    fn flush(&mut self) -> io::Result<()> {
        Ok(())
    }
}
