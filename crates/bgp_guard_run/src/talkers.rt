//! How much is printed of each neighbour.

use crate::lines::Name;
use std::alloc::Global;
use std::net::IpAddr;

/// At most this many lines of a neighbour are printed each second,
const LINES: u32 = 100;

/// this many of them on messages that were changed or dropped: the others are on its sessions.
pub(crate) const LINES_OF_MESSAGES: u32 = 90;

/// At most this many in ten seconds: a flood of ten minutes makes less than a megabyte.
const LINES_OF_TEN: u32 = 400;

/// this many of them on messages.
const MESSAGES_OF_TEN: u32 = 300;

/// Neighbours beyond this number in ten seconds share one count.
const TALKERS: usize = 4096;

/// The lines printed on a neighbour.
#[derive(Clone, Copy)]
pub(crate) struct Talker {
    from: IpAddr,
    /// In this second.
    lines: u32,
    /// In these ten seconds.
    sum: u32,
    /// Lines that weren't printed.
    pub(crate) more: u64,
    /// The last session of which a line wasn't printed.
    pub(crate) number: u64,
}

/// The lines printed on all neighbours in these ten seconds.
#[derive(Drop)]
pub(crate) struct Talkers {
    talkers: Vec<Talker>,
}

impl Talkers {
    /// Nothing was printed.
    pub(crate) fn new(alloc: Global) -> Talkers {
        Talkers {
            talkers: Vec::new(alloc),
        }
    }

    // The index of a neighbour: after the last one where it is new.
    fn place_of(&self, from: IpAddr) -> usize {
        for (place, talker) in self.talkers.iter().enumerate() {
            if talker.from == from {
                return place;
            }
        }
        self.talkers.len()
    }

    // Counts a line of a neighbour. Answers whether it is printed.
    fn count(&mut self, name: Name, most: u32, most_of_ten: u32) -> bool {
        let place = self.place_of(name.outer.ip()).min(TALKERS - 1);
        let Some(talker) = self.talkers.get_mut(place) else {
            let talker = Talker {
                from: name.outer.ip(),
                lines: 1,
                sum: 1,
                more: 0,
                number: name.number,
            };
            // Where the allocation fails, its lines aren't counted.
            let _ = self.talkers.push(talker);
            return true;
        };
        let is_printed = talker.lines < most && talker.sum < most_of_ten;
        if is_printed {
            talker.lines = talker.lines.saturating_add(1);
            talker.sum = talker.sum.saturating_add(1);
        } else {
            talker.more = talker.more.saturating_add(1);
            talker.number = name.number;
        }
        is_printed
    }

    /// Whether a line on a session is printed.
    pub(crate) fn may_tell(&mut self, name: Name) -> bool {
        self.count(name, LINES, LINES_OF_TEN)
    }

    /// Whether a line on a message that was changed or dropped is printed.
    pub(crate) fn may_tell_message(&mut self, name: Name) -> bool {
        self.count(name, LINES_OF_MESSAGES, MESSAGES_OF_TEN)
    }

    /// A second has passed.
    pub(crate) fn tick(&mut self) {
        for talker in self.talkers.iter_mut() {
            talker.lines = 0;
        }
    }

    /// One of the neighbours on which lines were printed.
    pub(crate) fn get(&self, place: usize) -> Option<Talker> {
        self.talkers.get(place).copied()
    }

    /// Ten seconds have passed.
    pub(crate) fn clear(&mut self) {
        self.talkers.clear();
    }
}
