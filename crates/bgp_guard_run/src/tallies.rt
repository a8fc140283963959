//! The counts of each neighbour, by reason.

use crate::counts::{Counts, count};
use crate::reasons::{REASONS, Reason, Reasons};
use std::alloc::Global;
use std::fmt;
use std::net::IpAddr;

/// At most this many neighbours are counted separately.
const NEIGHBOURS: usize = 4096;

/// At most this many reasons of a neighbour are.
const KINDS: usize = 64;

/// What was done with a neighbour's messages.
#[derive(Clone, Copy, PartialEq, Eq)]
pub(crate) enum Counted {
    /// A session of it began.
    Begun,
    /// One was passed on.
    Passed,
    /// One was passed on with other octets.
    Changed,
    /// Nothing was passed on of one.
    Dropped,
    /// One was answered.
    Answered,
}

/// The count of a reason.
#[derive(Clone, Copy)]
struct Often {
    reason: Reason,
    count: u64,
}

/// The counts of a neighbour.
#[derive(Drop)]
struct Tally {
    from: IpAddr,
    begun: u64,
    messages: u64,
    changed: u64,
    dropped: u64,
    answered: u64,
    reasons: Vec<Often>,
}

/// The counts of all neighbours, where they are requested.
#[derive(Drop)]
pub(crate) struct Tallies {
    alloc: Global,
    is_kept: bool,
    tallies: Vec<Tally>,
}

impl Tally {
    // All zero.
    fn new(alloc: Global, from: IpAddr) -> Tally {
        Tally {
            from,
            begun: 0,
            messages: 0,
            changed: 0,
            dropped: 0,
            answered: 0,
            reasons: Vec::new(alloc),
        }
    }

    // The numbers, with their names.
    fn named(&self) -> [(&'static str, u64); 5] {
        [
            ("sessions", self.begun),
            ("messages", self.messages),
            ("changed", self.changed),
            ("dropped", self.dropped),
            ("answered", self.answered),
        ]
    }

    // Counts what was done with a message.
    fn count(&mut self, counted: Counted) {
        match counted {
            Counted::Begun => count(&mut self.begun),
            Counted::Passed => count(&mut self.messages),
            Counted::Changed => {
                count(&mut self.messages);
                count(&mut self.changed);
            }
            Counted::Dropped => count(&mut self.dropped),
            Counted::Answered => count(&mut self.answered),
        }
    }

    // Counts a reason once more.
    fn add(&mut self, reason: Reason) {
        for known in self.reasons.iter_mut() {
            if known.reason == reason {
                return count(&mut known.count);
            }
        }
        if self.reasons.len() < KINDS {
            // Where the allocation fails, it isn't counted.
            let _ = self.reasons.push(Often { reason, count: 1 });
        }
    }
}

impl Tallies {
    /// All zero.
    pub(crate) fn new(alloc: Global, is_kept: bool) -> Tallies {
        Tallies {
            alloc,
            is_kept,
            tallies: Vec::new(alloc),
        }
    }

    /// Whether anything is counted.
    pub(crate) fn is_kept(&self) -> bool {
        self.is_kept
    }

    // The index of a neighbour: after the last one where it is new.
    fn place_of(&self, from: IpAddr) -> usize {
        for (place, tally) in self.tallies.iter().enumerate() {
            if tally.from == from {
                return place;
            }
        }
        self.tallies.len()
    }

    /// Counts what was done with a message of a neighbour, or of its session, and why.
    pub(crate) fn count(&mut self, from: IpAddr, counted: Counted, reasons: &Reasons) {
        if !self.is_kept {
            return;
        }
        let place = self.place_of(from).min(NEIGHBOURS - 1);
        if place == self.tallies.len() {
            // Where the allocation fails, it isn't counted.
            let _ = self.tallies.push(Tally::new(self.alloc, from));
        }
        let Some(tally) = self.tallies.get_mut(place) else {
            return;
        };
        tally.count(counted);
        for at in 0..REASONS {
            if let Some(reason) = reasons.get(at) {
                tally.add(reason);
            }
        }
    }
}

/// The counts, as text for Prometheus.
#[derive(Clone, Copy)]
pub(crate) struct Metrics<'a> {
    pub(crate) counts: Counts,
    pub(crate) tallies: &'a Tallies,
}

const PREFIX: &str = "ristulva_guard_";

fn put_counts<W: fmt::Write>(f: &mut fmt::Formatter<W>, counts: &Counts) -> fmt::Result {
    let up = counts.begun.saturating_sub(counts.ended);
    write!(f, "# TYPE {PREFIX}up gauge\n{PREFIX}up {up}\n")?;
    for (name, count) in counts.named() {
        write!(
            f,
            "# TYPE {PREFIX}{name}_total counter\n{PREFIX}{name}_total {count}\n"
        )?;
    }
    Ok(())
}

fn put_neighbour<W: fmt::Write>(f: &mut fmt::Formatter<W>, tally: &Tally) -> fmt::Result {
    let from = tally.from;
    for (name, count) in tally.named() {
        write!(
            f,
            "{PREFIX}neighbour_{name}_total{{neighbour=\"{from}\"}} {count}\n"
        )?;
    }
    Ok(())
}

fn put_often<W: fmt::Write>(f: &mut fmt::Formatter<W>, tally: &Tally) -> fmt::Result {
    let from = tally.from;
    for often in tally.reasons.iter() {
        let Often { reason, count } = often;
        write!(
            f,
            "{PREFIX}reasons_total{{neighbour=\"{from}\",reason=\"{reason}\"}} {count}\n"
        )?;
    }
    Ok(())
}

impl fmt::Display for Metrics<'_> {
    fn fmt<W: fmt::Write>(&self, f: &mut fmt::Formatter<W>) -> fmt::Result {
        put_counts(f, &self.counts)?;
        for tally in self.tallies.tallies.iter() {
            put_neighbour(f, tally)?;
        }
        for tally in self.tallies.tallies.iter() {
            put_often(f, tally)?;
        }
        Ok(())
    }
}
