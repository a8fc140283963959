//! A guard's life: it is made, gets events, receives octets, and is freed.

ghost use Rattle.std.specs.Prelude.{◌≡◌, Some, option_map};
ghost use Rattle.ristulva_c.specs.Prelude.{side_of, rule_of, came_told, GoesOn, IsStopped, IsTicked, GuardHears, HearsOf};
ghost use Rattle.ristulva_c.specs.Guard.{event_of, IsMade, IsFreed};
ghost use Rattle.ristulva_c.specs.declared.status.TheConstants.{OK};

use crate::front_in::wide_code;
use crate::handle::GuardHandle;
use crate::rules::rules_of;
use crate::sides::{event_of, happen, side_of};
use crate::status::{IN_USE, MEMORY, NO_SESSION, OK, RANGE};
use bgp_guard::{Came, Guard, Side};
use std::alloc::Global;

/// No message is whole yet, or nothing is read of the side.
pub const CAME_NOTHING: u8 = 0;

/// A message was passed on: unchanged, or changed.
pub const CAME_HANDED_ON: u8 = 1;

/// The side was answered by a NOTIFICATION, and the guard has ended.
pub const CAME_ANSWERED: u8 = 2;

/// Nothing was passed on of a message: of an UPDATE without routes, or whose routes stay inside; of a ROUTE-REFRESH that
/// the other side has no use for.
pub const CAME_DROPPED: u8 = 3;

/// The result of the octets that a side sent.
#[repr(C)]
#[derive(Clone, Copy)]
pub struct ToldCame {
    /// `CAME_NOTHING` to `CAME_DROPPED`.
    pub what: u8,
    /// The type of the message that was passed on or dropped, 1 to 5; else 0.
    pub kind: u8,
    /// Whether what was passed on has the same octets; else 0.
    pub same: u8,
    /// The code of the NOTIFICATION that answers the side; else 0.
    pub code: u8,
    /// Its subcode.
    pub subcode: u8,
}

/// The result of octets, in numbers.
fn came_told(came: Came) -> ToldCame
    ensures { result ≡ came_told came }
{
    let (what, kind, same, code, subcode) = match came {
        Came::Nothing => (CAME_NOTHING, 0, 0, 0, 0),
        Came::Dropped { kind } => (CAME_DROPPED, wide_code(kind), 0, 0, 0),
        Came::HandedOn { kind, same } => (CAME_HANDED_ON, wide_code(kind), u8::from(same), 0, 0),
        Came::Answered { code, subcode } => (CAME_ANSWERED, 0, 0, code, subcode),
    };
    ToldCame {
        what,
        kind,
        same,
        code,
        subcode,
    }
}

/// Makes a guard of which neither side is up yet, where the handle has none.
#[unsafe(no_mangle)]
pub extern "C" fn ristulva_guard_new(
    alloc: Global,
    pass: &[u8],
    one_way: u8,
    guard: &mut GuardHandle,
) -> u32
    ensures { IsMade pass.now one_way guard.old.value result guard.new.value }
{
    if let Some(body) = guard.take(alloc) {
        guard.put(body);
        return IN_USE;
    }
    let Ok(made) = Guard::new(alloc, rules_of(pass, one_way)) else {
        return MEMORY;
    };
    match Box::new(alloc, made) {
        Err(_) => MEMORY,
        Ok(body) => {
            guard.put(body);
            OK
        }
    }
}

/// Frees a guard.
#[unsafe(no_mangle)]
pub extern "C" fn ristulva_guard_free(alloc: Global, guard: &mut GuardHandle) -> u32
    ensures { IsFreed guard.old.value result guard.new.value }
{
    match guard.take(alloc) {
        None => NO_SESSION,
        Some(_body) => OK,
    }
}

/// Reports an event of a side to a guard.
#[unsafe(no_mangle)]
pub extern "C" fn ristulva_guard_event(
    alloc: Global,
    guard: &mut GuardHandle,
    side: u32,
    event: u32,
) -> u32
    ensures { GoesOn (side_of side) (option_map rule_of (event_of event)) guard.old.value result guard.new.value }
{
    let Some(side) = side_of(side) else {
        return RANGE;
    };
    let Some(event) = event_of(event) else {
        return RANGE;
    };
    let Some(mut body) = guard.take(alloc) else {
        return NO_SESSION;
    };
    happen(&mut body, side, event);
    guard.put(body);
    OK
}

/// Reports to a guard that a second has passed.
#[unsafe(no_mangle)]
pub extern "C" fn ristulva_guard_tick(alloc: Global, guard: &mut GuardHandle) -> u32
    ensures { IsTicked guard.old.value result guard.new.value }
{
    let Some(mut body) = guard.take(alloc) else {
        return NO_SESSION;
    };
    body.tick();
    guard.put(body);
    OK
}

/// Reports to a guard that its owner ends the session.
#[unsafe(no_mangle)]
pub extern "C" fn ristulva_guard_stop(alloc: Global, guard: &mut GuardHandle) -> u32
    ensures { IsStopped guard.old.value result guard.new.value }
{
    let Some(mut body) = guard.take(alloc) else {
        return NO_SESSION;
    };
    body.stop();
    guard.put(body);
    OK
}

/// Passes octets of a side to a guard.
fn hear(guard: &mut Guard, side: Side, octets: &[u8], taken: &mut usize, came: &mut ToldCame)
    ensures { HearsOf side guard.old octets.now (record { status = OK; old = Some guard.old; new = Some guard.new; taken_before = taken.old; taken_behind = taken.new; came_before = came.old; came_behind = came.new }) }
{
    let (count, what) = guard.hear(side, octets);
    *taken = count;
    *came = came_told(what);
}

/// Consumes octets of a side up to the end of a message, and reports the number consumed, and the result.
#[unsafe(no_mangle)]
pub extern "C" fn ristulva_guard_hear(
    alloc: Global,
    guard: &mut GuardHandle,
    side: u32,
    octets: &[u8],
    taken: &mut usize,
    came: &mut ToldCame,
) -> u32
    ensures { GuardHears (side_of side) guard.old.value octets.now (record { status = result; old = guard.old.value; new = guard.new.value; taken_before = taken.old; taken_behind = taken.new; came_before = came.old; came_behind = came.new }) }
{
    let Some(side) = side_of(side) else {
        return RANGE;
    };
    let Some(mut body) = guard.take(alloc) else {
        return NO_SESSION;
    };
    hear(&mut body, side, octets, taken, came);
    guard.put(body);
    OK
}
