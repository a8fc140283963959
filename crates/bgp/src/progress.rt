//! Progress of long work, and a reader that prints it.

use crate::hints::Recorded;
use crate::record::Record;
use std::io::{self, IsTerminal, Read};
use std::time::Instant;

/// The seconds between two reports of progress.
const PAUSE: u64 = 1;

/// Counts octets, and prints each second their number and rate. It prints on standard error, and only where that is a
/// terminal and standard output isn't, so that it doesn't mix with lines of output.
#[derive(Drop)]
struct Meter<'a> {
    rt: &'a HostRuntime,
    octets: u64,
    // When it began, and when it last printed: none where it prints nothing.
    times: Option<(Instant, Instant)>,
}

impl<'a> Meter<'a> {
    fn new(rt: &'a HostRuntime) -> Meter<'a> {
        let is_told = rt.stderr().is_terminal() && !rt.stdout().is_terminal();
        let times = match Instant::now(rt) {
            Ok(now) if is_told => Some((now, now)),
            _ => None,
        };
        Meter {
            rt,
            octets: 0,
            times,
        }
    }

    // Counts octets, and prints their number, where that wasn't printed for a while. A failed write has no effect.
    fn count(&mut self, more: usize) {
        self.octets = self.octets.saturating_add(more as u64);
        let Some((began, told)) = self.times else {
            return;
        };
        let Ok(now) = Instant::now(self.rt) else {
            return;
        };
        if now.duration_since(told).as_secs() < PAUSE {
            return;
        }
        self.times = Some((began, now));
        let octets = self.octets;
        let rate = octets / now.duration_since(began).as_secs().max(1);
        let _ = eprintln!(self.rt; "bgp: {octets} octets, {rate} a second");
    }
}

/// A reader that prints its progress, and keeps what hints are made of.
#[derive(Drop)]
pub(crate) struct Watched<'a, R> {
    input: R,
    meter: Meter<'a>,
    record: Record,
    /// What is printed before the first read.
    notice: Option<&'static str>,
}

impl<'a, R: Read + IsTerminal> Watched<'a, R> {
    /// A reader of these octets, or of text. Before it waits for a terminal it prints that, where standard error is one
    /// too.
    pub(crate) fn new(rt: &'a HostRuntime, input: R, is_text: bool) -> Watched<'a, R> {
        let notice = if !input.is_terminal() || !rt.stderr().is_terminal() {
            None
        } else if is_text {
            Some(
                "reading hexadecimal text from the terminal; end with Ctrl-D, or give a file: < FILE",
            )
        } else {
            Some("reading octets from the terminal; end with Ctrl-D, or give a file: < FILE")
        };
        Watched {
            input,
            meter: Meter::new(rt),
            record: Record::new(rt.alloc(), is_text),
            notice,
        }
    }
}

impl<R> Recorded for Watched<'_, R> {
    fn record(&self) -> &Record {
        &self.record
    }
}

impl<R: Read> Read for Watched<'_, R> {
    ghost remaining = { λ w. R.remaining w.input };

    fn read(&mut self, buf: &mut [u8]) -> io::Result<usize> {
        if let Some(notice) = self.notice {
            self.notice = None;
            let _ = eprintln!(self.meter.rt; "bgp: {notice}");
        }
        let count = self.input.read(buf)?;
        self.meter.count(count);
        let (octets, _) = buf.split_at(count.min(buf.len()));
        self.record.keep(octets);
        Ok(count)
    }
}
