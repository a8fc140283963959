//! The queue of octets for a side.

ghost use Rattle.std.specs.Prelude.{◌≡◌, ◌+◌, ◌-◌, ◌≤◌, ◌++◌, [], length, take, drop, IfOk};
ghost use Rattle.std.specs.List.{slice_range};

use std::alloc::{AllocError, Global};
use std::marker::Model;

/// With this many octets queued for a side, or fewer, the other side is read.
pub const ROOM: usize = 53248;

/// At most this many octets are queued for a side: 64 KB of messages, and a NOTIFICATION after them.
pub const WAY_MAX: usize = 69632;

/// The octets queued for a side, in memory that is allocated once.
#[derive(Drop)]
pub(crate) struct Way {
    octets: Vec<u8>,
    start: usize,
    end: usize,
}

impl Model for Way {
    ghost use Rattle.std.specs.Prelude.{◌≡◌, ◌≤◌, ℕ, List, length};
    ghost use Rattle.std.specs.List.{slice_range};

    ghost Value = { List ℕ };

    ghost view = { λ w. slice_range w.octets.items w.start w.end };

    ghost invariant = { λ w. (w.start ≤ w.end) × (w.end ≤ 69632) × (length w.octets.items ≡ 69632) };
}

impl Way {
    /// Empty.
    ///
    /// # Errors
    /// `AllocError` where an allocation failed.
    pub(crate) fn new(alloc: Global) -> Result<Way, AllocError>
        ensures { IfOk result (λ w. w ≡ []) }
    {
        Ok(Way {
            octets: vec![in alloc; 0; WAY_MAX]?,
            start: 0,
            end: 0,
        })
    }

    /// The number of octets.
    pub(crate) fn len(&self) -> usize
        ensures value { result ≡ length self.now }
        ensures bound { result ≤ WAY_MAX }
    {
        self.end - self.start
    }

    /// The octets.
    pub(crate) fn as_slice(&self) -> &[u8]
        ensures { result.now ≡ self.now }
    {
        &self.octets[self.start..self.end]
    }

    /// Removes the first `n` octets: all of them where there are fewer.
    pub(crate) fn take_off(&mut self, n: usize)
        ensures { self.new ≡ drop n self.old }
    {
        if n < self.len() {
            self.start += n;
        } else {
            self.clear();
        }
    }

    /// Removes all octets.
    pub(crate) fn clear(&mut self)
        ensures { self.new ≡ [] }
    {
        self.start = 0;
        self.end = 0;
    }

    /// Appends octets.
    pub(crate) fn put(&mut self, octets: &[u8])
        requires { length self.old + length octets.now ≤ WAY_MAX }
        ensures { self.new ≡ self.old ++ octets.now }
    {
        let (start, end) = put_in(&mut self.octets, self.start, self.end, octets);
        self.start = start;
        self.end = end;
    }
}

/// Writes octets into the room from `end` on.
fn overwrite(room: &mut [u8], end: usize, octets: &[u8])
    requires { end + length octets.now ≤ length room.old }
    ensures { room.new ≡ take end room.old ++ (octets.now ++ drop (end + length octets.now) room.old) }
{
    let last = end + octets.len();
    room[end..last].copy_from_slice(octets);
}

/// Appends octets to those from `start` to `end`, which are moved to the beginning where there is no room after them.
/// Answers the range of all of them.
fn put_in(room: &mut [u8], start: usize, end: usize, octets: &[u8]) -> (usize, usize)
    requires order { start ≤ end }
    requires within { end ≤ length room.old }
    requires fits { (end - start) + length octets.now ≤ length room.old }
    ensures order { result.0 ≤ result.1 }
    ensures within { result.1 ≤ length room.old }
    ensures same_room { length room.new ≡ length room.old }
    ensures put { slice_range room.new result.0 result.1 ≡ slice_range room.old start end ++ octets.now }
{
    if octets.len() <= room.len() - end {
        overwrite(room, end, octets);
        return (start, end + octets.len());
    }
    room.rotate_left(start);
    overwrite(room, end - start, octets);
    (0, end - start + octets.len())
}
