//! What a guard requires of its owner, and what is queued for its sides.

ghost use Rattle.std.specs.Prelude.{◌≡◌, ◌≤◌, Some, length, option_map, take};
ghost use Rattle.ristulva_c.specs.Prelude.{side_of, asks_told, GoesOn, IsAsked, IsFrontOf, ShowsWay, TellsStall, IsKnown};
ghost use Rattle.ristulva_c.specs.Guard.{IsPeerTold};
ghost use Rattle.bgp_guard.specs.Prelude.{half, sent};
ghost use Rattle.ristulva_c.specs.declared.status.TheConstants.{OK};

use crate::agreed::{ToldPeer, peer_said};
use crate::handle::GuardHandle;
use crate::messages::put;
use crate::sides::side_of;
use crate::status::{NO_SESSION, OK, RANGE, STATE};
use bgp_guard::{Guard, Side};
use std::alloc::Global;

/// What a guard requires of its owner for a side. All but `way` are 0 or 1.
#[repr(C)]
#[derive(Clone, Copy)]
pub struct Asks {
    /// Whether octets of the side are read.
    pub listens: u8,
    /// Whether the side is to be closed, or no longer sought.
    pub closes: u8,
    /// Whether the guard has ended.
    pub ended: u8,
    /// The number of octets queued for the side.
    pub way: usize,
}

/// What a guard requires.
fn asks_told(guard: &Guard, side: Side) -> Asks
    ensures { result ≡ asks_told side guard.now }
{
    Asks {
        listens: u8::from(guard.listens(side)),
        closes: u8::from(guard.closes(side)),
        ended: u8::from(guard.has_ended()),
        way: guard.way(side).len(),
    }
}

/// Reports what a guard requires of its owner for a side.
#[unsafe(no_mangle)]
pub extern "C" fn ristulva_guard_asks(
    alloc: Global,
    guard: &mut GuardHandle,
    side: u32,
    asks: &mut Asks,
) -> u32
    ensures kept { guard.new.value ≡ guard.old.value }
    ensures told { IsAsked (side_of side) guard.old.value result asks.old asks.new }
{
    let Some(side) = side_of(side) else {
        return RANGE;
    };
    let Some(body) = guard.take(alloc) else {
        return NO_SESSION;
    };
    *asks = asks_told(&body, side);
    guard.put(body);
    OK
}

/// Reports for how many seconds what is queued for a side may stay unsent.
#[unsafe(no_mangle)]
pub extern "C" fn ristulva_guard_stall(
    alloc: Global,
    guard: &mut GuardHandle,
    seconds: &mut u16,
) -> u32
    ensures kept { guard.new.value ≡ guard.old.value }
    ensures told { TellsStall guard.old.value result seconds.old seconds.new }
{
    let Some(body) = guard.take(alloc) else {
        return NO_SESSION;
    };
    *seconds = body.stall_seconds();
    guard.put(body);
    OK
}

/// The first octets, as many as fit.
fn front_of(octets: &[u8], room: usize) -> &[u8]
    ensures { result.now ≡ take room octets.now }
{
    if octets.len() <= room {
        return octets;
    }
    let (front, _) = octets.split_at(room);
    front
}

/// Copies the first octets queued for a side.
fn show_way(guard: &Guard, side: Side, buffer: &mut [u8], len: &mut usize)
    ensures { IsFrontOf (half side guard.now).way (record { status = OK; before = buffer.old; behind = buffer.new; len_before = len.old; len_behind = len.new }) }
{
    let front = front_of(guard.way(side), buffer.len());
    *len = put(front, buffer);
}

/// Copies the first octets queued for a side, as many as there is room for.
#[unsafe(no_mangle)]
pub extern "C" fn ristulva_guard_way(
    alloc: Global,
    guard: &mut GuardHandle,
    side: u32,
    buffer: &mut [u8],
    len: &mut usize,
) -> u32
    ensures kept { guard.new.value ≡ guard.old.value }
    ensures told { ShowsWay (side_of side) guard.old.value (record { status = result; before = buffer.old; behind = buffer.new; len_before = len.old; len_behind = len.new }) }
{
    let Some(side) = side_of(side) else {
        return RANGE;
    };
    let Some(body) = guard.take(alloc) else {
        return NO_SESSION;
    };
    show_way(&body, side, buffer, len);
    guard.put(body);
    OK
}

/// Reports to a guard how many of the octets queued for a side are sent.
#[unsafe(no_mangle)]
pub extern "C" fn ristulva_guard_sent(
    alloc: Global,
    guard: &mut GuardHandle,
    side: u32,
    count: usize,
) -> u32
    ensures { GoesOn (side_of side) (Some (sent count)) guard.old.value result guard.new.value }
{
    let Some(side) = side_of(side) else {
        return RANGE;
    };
    let Some(mut body) = guard.take(alloc) else {
        return NO_SESSION;
    };
    body.sent(side, count);
    guard.put(body);
    OK
}

/// Writes what the OPEN of a side says, once it was passed on.
fn tell_peer(guard: &Guard, side: Side, peer: &mut ToldPeer) -> u32
    ensures { IsKnown (option_map (λ s. s.said) (half side guard.now).peer) result peer.old peer.new }
{
    let Some(said) = guard.peer(side) else {
        return STATE;
    };
    *peer = peer_said(said);
    OK
}

/// Reports what the OPEN of a side said, once it was passed on.
#[unsafe(no_mangle)]
pub extern "C" fn ristulva_guard_peer(
    alloc: Global,
    guard: &mut GuardHandle,
    side: u32,
    peer: &mut ToldPeer,
) -> u32
    ensures kept { guard.new.value ≡ guard.old.value }
    ensures told { IsPeerTold (side_of side) guard.old.value result peer.old peer.new }
{
    let Some(side) = side_of(side) else {
        return RANGE;
    };
    let Some(body) = guard.take(alloc) else {
        return NO_SESSION;
    };
    let status = tell_peer(&body, side, peer);
    guard.put(body);
    status
}
