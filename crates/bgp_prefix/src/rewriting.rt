//! Prefixes copied from octets to octets, with no list between.

ghost use Rattle.std.specs.Prelude.{◌≡◌, ◌+◌, ◌<◌, ◌++◌, ◌∷◌, ℕ, List, true, length, OnOk, OnErr};
ghost use Rattle.std.specs.List.{flat_map};
ghost use Rattle.bgp_wire.specs.Prelude.{Extends};
ghost use Rattle.bgp_prefix.specs.Prelude.{octets_for, leading_bits, spelling_of, prefixes_left, run_of};

use crate::front::{Front, cut_front};
use crate::iter::PrefixIter;
use crate::mask::mask;
use bgp_wire::Output;
use std::alloc::AllocError;

/// Appends a length and the octets after it, of which only the last can have bits past the length.
#[inline(always)]
fn append_front<O: Output>(front: Front<'_>, out: &mut O) -> Result<(), AllocError>
    requires { length front.read.now ≡ octets_for front.len }
    ensures ok { OnOk result (O.written out.new ≡ O.written out.old ++ front.entry.len ∷ leading_bits front.entry.len front.entry.read.now) }
    ensures err { OnErr result (Extends (O.written out.old) (O.written out.new)) }
    ensures full { OnErr result (O.room < length (O.written out.old) + length (front.entry.len ∷ leading_bits front.entry.len front.entry.read.now)) }
{
    out.put(&[front.len])?;
    if let Some((last, whole)) = front.read.split_last() {
        out.put(whole)?;
        out.put(&[*last & mask(front.len, whole.len())])?;
    }
    Ok(())
}

/// Whether the bits past the length are 0.
#[inline(always)]
fn is_clear(front: Front<'_>) -> bool
    requires { length front.read.now ≡ octets_for front.len }
    ensures { result ≡ true → leading_bits front.entry.len front.entry.read.now ≡ front.entry.read.now }
{
    match front.read.split_last() {
        None => true,
        Some((last, whole)) => *last & mask(front.len, whole.len()) == *last,
    }
}

/// Whether octets are prefixes as they are written, and nothing else: the bits past each length are 0.
fn is_written<const W: usize>(octets: &[u8]) -> bool
    ensures { result ≡ true → flat_map spelling_of (run_of W octets.now).0 ≡ octets.now }
{
    let mut rest = octets;
    'run: while let Some(front) = cut_front::<W>(rest) {
        if !is_clear(front) {
            return false;
        }
        rest = front.after;
    }
    rest.is_empty()
}

/// Appends the prefixes that octets begin with; after an error the first ones may remain.
fn append_octets<const W: usize, O: Output>(octets: &[u8], out: &mut O) -> Result<(), AllocError>
    ensures ok { OnOk result (O.written out.new ≡ O.written out.old ++ flat_map spelling_of (run_of W octets.now).0) }
    ensures err { OnErr result (Extends (O.written out.old) (O.written out.new)) }
    ensures full { OnErr result (O.room < length (O.written out.old) + length (flat_map spelling_of (run_of W octets.now).0)) }
{
    let mut rest = octets;
    'run: while let Some(front) = cut_front::<W>(rest) {
        append_front(front, out)?;
        rest = front.after;
    }
    Ok(())
}

impl<'a, const W: usize> PrefixIter<'a, W> {
    /// Appends the octets of the prefixes that are left, as [`write_run`](crate::write_run) does those of a list: each with 0 for the
    /// bits past its length (RFC 4271, section 4.3).
    ///
    /// # Errors
    /// `AllocError` where there was no room; what was written before is then as it was.
    pub fn write<O: Output>(self, out: &mut O) -> Result<(), AllocError>
        ensures ok { OnOk result (O.written out.new ≡ O.written out.old ++ flat_map spelling_of (prefixes_left self.entry)) }
        ensures err { OnErr result (O.written out.new ≡ O.written out.old) }
        ensures full { OnErr result (O.room < length (O.written out.old) + length (flat_map spelling_of (prefixes_left self.entry))) }
    {
        if is_written::<W>(self.rest) {
            return out.put(self.rest);
        }
        let start = out.len();
        let written = append_octets::<W, O>(self.rest, out);
        if written.is_err() {
            out.truncate(start);
        }
        written
    }
}
