//! The sides of a guard, and the events of one, as numbers.

ghost use Rattle.std.specs.Prelude.{◌≡◌, ◌==◌};
ghost use Rattle.bgp_guard.specs.Prelude.{for_side};
ghost use Rattle.ristulva_c.specs.Prelude.{side_of, rule_of};
ghost use Rattle.ristulva_c.specs.Guard.{event_of};

use bgp_guard::{Guard, Side};

/// The peer that is guarded against.
pub const OUTER: u32 = 0;

/// The speaker that is guarded.
pub const INNER: u32 = 1;

/// The connection of a side is up.
pub const STOOD: u32 = 1;

/// A side can't be reached.
pub const UNREACHABLE: u32 = 2;

/// A side has closed its connection, or lost it.
pub const CLOSED: u32 = 3;

/// What is queued for a side has stayed unsent for too long.
pub const STALLED: u32 = 4;

/// The events of a side, but for octets.
#[derive(Clone, Copy, PartialEq, Eq)]
pub(crate) enum SideEvent {
    Stood,
    Unreachable,
    Closed,
    Stalled,
}

/// The side with a number, where there is one.
pub(crate) fn side_of(number: u32) -> Option<Side>
    ensures { result ≡ side_of number }
{
    match number {
        OUTER => Some(Side::Outer),
        INNER => Some(Side::Inner),
        _ => None,
    }
}

/// The event with a number, where there is one.
pub(crate) fn event_of(number: u32) -> Option<SideEvent>
    ensures { result ≡ event_of number }
{
    match number {
        STOOD => Some(SideEvent::Stood),
        UNREACHABLE => Some(SideEvent::Unreachable),
        CLOSED => Some(SideEvent::Closed),
        STALLED => Some(SideEvent::Stalled),
        _ => None,
    }
}

/// Passes an event of a side to a guard.
pub(crate) fn happen(guard: &mut Guard, side: Side, event: SideEvent)
    ensures { guard.new ≡ for_side (rule_of event) side guard.old }
{
    match event {
        SideEvent::Stood => guard.stood(side),
        SideEvent::Unreachable => guard.unreachable(side),
        SideEvent::Closed => guard.closed(side),
        SideEvent::Stalled => guard.stalled(side),
    }
}
