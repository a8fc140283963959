//! What the program counts.

use std::fmt;

/// The counts since the program began.
#[derive(Clone, Copy)]
pub(crate) struct Counts {
    /// Sessions that began.
    pub(crate) begun: u64,
    /// Those of them that ended.
    pub(crate) ended: u64,
    /// Messages that were passed on.
    pub(crate) messages: u64,
    /// Those of them that were changed.
    pub(crate) changed: u64,
    /// Messages of which nothing was passed on.
    pub(crate) dropped: u64,
    /// Messages that were answered.
    pub(crate) answered: u64,
    /// Connections that were closed at once, since the number of sessions was at its limit.
    pub(crate) full: u64,
    /// Connections that were closed at once, since the number of sessions of their address was at its limit.
    pub(crate) crowded: u64,
    /// Connections that were closed at once, since they weren't from a neighbour.
    pub(crate) strangers: u64,
    /// Connections that were closed at once, since something failed.
    pub(crate) failed: u64,
}

impl Counts {
    /// All zero.
    pub(crate) fn new() -> Counts {
        Counts {
            begun: 0,
            ended: 0,
            messages: 0,
            changed: 0,
            dropped: 0,
            answered: 0,
            full: 0,
            crowded: 0,
            strangers: 0,
            failed: 0,
        }
    }

    /// Whether each session has ended.
    pub(crate) fn is_empty(&self) -> bool {
        self.begun == self.ended
    }

    /// The numbers, with their names.
    pub(crate) fn named(&self) -> [(&'static str, u64); 10] {
        [
            ("begun", self.begun),
            ("ended", self.ended),
            ("messages", self.messages),
            ("changed", self.changed),
            ("dropped", self.dropped),
            ("answered", self.answered),
            ("full", self.full),
            ("crowded", self.crowded),
            ("strangers", self.strangers),
            ("failed", self.failed),
        ]
    }
}

/// Counts one more.
pub(crate) fn count(number: &mut u64) {
    *number = number.saturating_add(1);
}

impl fmt::Display for Counts {
    fn fmt<W: fmt::Write>(&self, f: &mut fmt::Formatter<W>) -> fmt::Result {
        let up = self.begun.saturating_sub(self.ended);
        write!(f, "up {up}")?;
        for (name, count) in self.named() {
            write!(f, " {name} {count}")?;
        }
        Ok(())
    }
}
