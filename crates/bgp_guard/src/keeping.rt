//! KEEPALIVEs of the guard's own, where messages to a side are dropped.

ghost use Rattle.std.specs.Prelude.{◌≡◌, ◌≤◌, ℕ, List, length};
ghost use Rattle.bgp_guard.specs.Prelude.{half_with, is_due, kept, reminded};

use crate::line::Line;
use bgp_frame::{Kind, head};

/// Whether a KEEPALIVE is due: one is owed, nothing is queued for the side, and for a third of the Hold Time nothing
/// was passed on to it.
fn is_due(hold: u16, line: &Line) -> bool
    ensures { (held : List ℕ) → result ≡ is_due hold (half_with held line.now) }
{
    line.owed && line.way.as_slice().is_empty() && u32::from(hold) <= 3 * u32::from(line.quiet)
}

/// One more second has passed. Queues a KEEPALIVE for a side where one is due.
pub(crate) fn keep(hold: u16, line: &mut Line)
    requires { length line.old.way ≤ 65536 }
    ensures kept { (held : List ℕ) → half_with held line.new ≡ kept hold (half_with held line.old) }
    ensures room { length line.new.way ≤ 65536 }
{
    line.quiet = line.quiet.saturating_add(1);
    if is_due(hold, line) {
        line.way.put(&head(Kind::Keepalive, 0));
        line.quiet = 0;
        line.owed = false;
    }
}
