//! Counts the outcomes of a stream's messages.

use crate::stream::{See, decode};
use bgp_msg::{Kind, Outcome};
use std::alloc::{AllocError, Global};
use std::io;

/// How many messages had each kind of outcome, and their octets.
#[derive(Clone, Copy)]
struct Tally {
    opens: u64,
    updates: u64,
    notifications: u64,
    keepalives: u64,
    withdrawn: u64,
    resets: u64,
    octets: u64,
}

impl Tally {
    fn new() -> Tally {
        Tally {
            opens: 0,
            updates: 0,
            notifications: 0,
            keepalives: 0,
            withdrawn: 0,
            resets: 0,
            octets: 0,
        }
    }

    /// The count that an outcome belongs to.
    fn count_of(&mut self, outcome: &Outcome) -> &mut u64 {
        match outcome {
            Outcome::Took(message, _) => match message.kind() {
                Kind::Open => &mut self.opens,
                Kind::Update => &mut self.updates,
                Kind::Notification => &mut self.notifications,
                Kind::Keepalive => &mut self.keepalives,
            },
            Outcome::Withdraw(_, _) => &mut self.withdrawn,
            Outcome::Reset(_) => &mut self.resets,
        }
    }

    fn messages(&self) -> u64 {
        [
            self.opens,
            self.updates,
            self.notifications,
            self.keepalives,
            self.withdrawn,
            self.resets,
        ]
        .iter()
        .fold(0, |sum: u64, count| sum.saturating_add(*count))
    }
}

impl See for Tally {
    fn see(&mut self, _alloc: Global, len: u16, outcome: &Outcome) -> Result<(), AllocError> {
        self.octets = self.octets.saturating_add(len as u64);
        let count = self.count_of(outcome);
        *count = count.saturating_add(1);
        Ok(())
    }
}

/// Decodes the stream `rounds` times, and prints the counts of one round.
pub(crate) fn run(rt: &(impl Print + AllocGlobal), octets: &[u8], rounds: u32) -> io::Result<()> {
    let mut tally = Tally::new();
    for _round in 0..rounds {
        tally = Tally::new();
        decode(rt.alloc(), octets, &mut tally)?;
    }
    println!(rt; "messages {} octets {}", tally.messages(), tally.octets)
}
