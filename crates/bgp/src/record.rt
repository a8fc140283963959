//! What was read of the input, as far as hints need it.

use bgp_words::{Spot, spot_behind};
use std::alloc::Global;

/// How many first octets are kept.
const FRONT: usize = 4096;

/// What was read of the input: its first octets, and of text the last block. A fault is reported where it is found, so
/// nothing else is needed again.
#[derive(Drop)]
pub(crate) struct Record {
    first: Vec<u8>,
    is_text: bool,
    last: Vec<u8>,
    /// The number of characters before that block.
    before: u64,
    /// The position where it begins.
    spot: Spot,
}

impl Record {
    /// An empty record, of octets or of text.
    pub(crate) fn new(alloc: Global, is_text: bool) -> Record {
        Record {
            first: Vec::new(alloc),
            is_text,
            last: Vec::new(alloc),
            before: 0,
            spot: Spot { line: 1, column: 1 },
        }
    }

    /// Keeps what was read next. A failed allocation loses the hints, and has no other effect.
    pub(crate) fn keep(&mut self, octets: &[u8]) {
        let room = FRONT - self.first.len().min(FRONT);
        let (front, _) = octets.split_at(octets.len().min(room));
        let _ = self.first.extend_from_slice(front);
        if self.is_text && !octets.is_empty() {
            self.spot = spot_behind(self.spot, &self.last);
            self.before = self.before.saturating_add(self.last.len() as u64);
            self.last.clear();
            let _ = self.last.extend_from_slice(octets);
        }
    }

    /// The first octets: at most 4096.
    pub(crate) fn first(&self) -> &[u8] {
        &self.first
    }

    /// The position of the character at an offset, the character before it, and itself: none where it isn't held.
    pub(crate) fn spot(&self, at: u64) -> Option<(Spot, Option<u8>, u8)> {
        let inside = usize::try_from(at.checked_sub(self.before)?).ok()?;
        let character = *self.last.get(inside)?;
        let (front, _) = self.last.split_at(inside.min(self.last.len()));
        let before = front.last().copied();
        Some((spot_behind(self.spot, front), before, character))
    }
}
