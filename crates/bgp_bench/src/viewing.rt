//! Counts the outcomes of a stream's messages as views, without memory.

use crate::stream::CONTEXT;
use bgp_msg::{OutcomeView, Step, front, view_frame};
use bgp_update::UpdateView;
use std::io;

/// How many messages had each kind of outcome, and their octets.
#[derive(Clone, Copy)]
struct Viewed {
    taken: u64,
    withdrawn: u64,
    resets: u64,
    octets: u64,
}

impl Viewed {
    /// Counts an outcome. Answers whether the stream continues after it. It is inlined, as a call would have the view
    /// built in memory.
    #[inline(always)]
    fn add(&mut self, len: u16, outcome: &OutcomeView<'_>) -> bool {
        self.octets = self.octets.saturating_add(len as u64);
        match outcome {
            OutcomeView::Withdraw(_) => self.withdrawn = self.withdrawn.saturating_add(1),
            OutcomeView::Reset(_) => {
                self.resets = self.resets.saturating_add(1);
                return false;
            }
            _ => self.taken = self.taken.saturating_add(1),
        }
        true
    }

    fn messages(&self) -> u64 {
        self.taken
            .saturating_add(self.withdrawn)
            .saturating_add(self.resets)
    }
}

/// Judges the messages of a stream, up to the first reset.
fn view(octets: &[u8]) -> Viewed {
    let mut viewed = Viewed {
        taken: 0,
        withdrawn: 0,
        resets: 0,
        octets: 0,
    };
    let mut place = UpdateView::empty();
    let mut rest = octets;
    for _turn in 0..u64::MAX {
        let Step::Frame(frame) = front(rest) else {
            break;
        };
        let len = frame.len;
        let goes_on = viewed.add(len, &view_frame(&CONTEXT, frame, &mut place));
        match rest.get(len as usize..) {
            Some(behind) if goes_on => rest = behind,
            _ => break,
        }
    }
    viewed
}

/// Views the stream `rounds` times, and prints the counts of one round.
pub(crate) fn run(rt: &impl Print, octets: &[u8], rounds: u32) -> io::Result<()> {
    let mut viewed = view(&[]);
    for _round in 0..rounds {
        viewed = view(octets);
    }
    println!(rt; "messages {} octets {}", viewed.messages(), viewed.octets)
}
