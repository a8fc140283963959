//! Runs: octets that are prefixes one after another, with nothing between or after them.

ghost use Rattle.std.specs.Prelude.{◌≡◌, ◌<◌, ◌+◌, ◌↔◌, [], ◌++◌, length, IsTrue, OnOk, OnErr};
ghost use Rattle.std.specs.List.{flat_map, AllByRecursion};
ghost use Rattle.bgp_wire.specs.Prelude.{Row, Extends};
ghost use Rattle.bgp_prefix.specs.Prelude.{IsPrefix, IsValid, spelling_of, run_of, fault_at, IsReading};

use crate::bits::is_allowed;
use crate::fault::RunFault;
use crate::front::{cut_front, skip_run};
use crate::prefix::{Prefix, Prefix4, Prefix6};
use bgp_wire::{List, Output};
use std::alloc::{AllocError, Global};

/// Whether octets are a run of IPv4 prefixes (RFC 4271, section 4.3). It allocates nothing.
pub fn check_run4(octets: &[u8]) -> bool
    ensures { IsTrue result ↔ ((run_of 4 octets.now).1 ≡ []) }
{
    check_run::<4>(octets)
}

/// Whether octets are a run of IPv6 prefixes (RFC 4760, section 5). It allocates nothing.
pub fn check_run6(octets: &[u8]) -> bool
    ensures { IsTrue result ↔ ((run_of 16 octets.now).1 ≡ []) }
{
    check_run::<16>(octets)
}

fn check_run<const W: usize>(octets: &[u8]) -> bool
    ensures { IsTrue result ↔ ((run_of W octets.now).1 ≡ []) }
{
    skip_run::<W>(octets).1.is_empty()
}

/// The IPv4 prefixes of a run (RFC 4271, section 4.3).
///
/// # Errors
/// The first fault from the left, or `Memory` where an allocation failed before that.
pub fn read_run4(alloc: Global, octets: &[u8]) -> Result<List<Prefix4>, RunFault>
    ensures { IsReading 4 octets.now result }
{
    read_run::<4>(alloc, octets)
}

/// The IPv6 prefixes of a run (RFC 4760, section 5).
///
/// # Errors
/// The first fault from the left, or `Memory` where an allocation failed before that.
pub fn read_run6(alloc: Global, octets: &[u8]) -> Result<List<Prefix6>, RunFault>
    ensures { IsReading 16 octets.now result }
{
    read_run::<16>(alloc, octets)
}

fn read_run<const W: usize>(alloc: Global, octets: &[u8]) -> Result<List<Prefix<W>>, RunFault>
    ensures { IsReading W octets.now result }
{
    let mut prefixes = List::new(alloc);
    let mut rest = octets;
    'run: while let Some(front) = cut_front::<W>(rest) {
        prefixes.push(Prefix::from_front(front))?;
        rest = front.after;
    }
    match rest.first() {
        None => Ok(prefixes),
        Some(len) => Err(fault_at::<W>(*len)),
    }
}

/// Why no prefix begins with this length.
fn fault_at<const W: usize>(len: u8) -> RunFault
    ensures { result ≡ fault_at W len }
{
    if is_allowed::<W>(len) {
        RunFault::PastEnd
    } else {
        RunFault::TooLong
    }
}

/// Appends the octets of the prefixes, each with 0 for the bits past its length.
///
/// # Errors
/// `AllocError` where an allocation failed; the vector is then as it was.
pub fn write_run4(prefixes: &[Prefix4], out: &mut Vec<u8>) -> Result<(), AllocError>
    ensures ok { OnOk result (out.new.items ≡ out.old.items ++ flat_map spelling_of prefixes.now) }
    ensures row { OnOk result (Row (IsPrefix 4) prefixes.now (flat_map spelling_of prefixes.now)) }
    ensures back { OnOk result (run_of 4 (flat_map spelling_of prefixes.now)
        ≡ (prefixes.now, [])) }
    ensures err { OnErr result (out.new.items ≡ out.old.items) }
{
    write_run(prefixes, out)
}

/// Appends the octets of the prefixes, each with 0 for the bits past its length.
///
/// # Errors
/// `AllocError` where an allocation failed; the vector is then as it was.
pub fn write_run6(prefixes: &[Prefix6], out: &mut Vec<u8>) -> Result<(), AllocError>
    ensures ok { OnOk result (out.new.items ≡ out.old.items ++ flat_map spelling_of prefixes.now) }
    ensures row { OnOk result (Row (IsPrefix 16) prefixes.now (flat_map spelling_of prefixes.now)) }
    ensures back { OnOk result (run_of 16 (flat_map spelling_of prefixes.now)
        ≡ (prefixes.now, [])) }
    ensures err { OnErr result (out.new.items ≡ out.old.items) }
{
    write_run(prefixes, out)
}

/// Appends the octets of prefixes of either family, each with 0 for the bits past its length.
///
/// # Errors
/// `AllocError` where there was no room; what was written before is then as it was.
pub fn write_run<const W: usize, O: Output>(
    prefixes: &[Prefix<W>],
    out: &mut O,
) -> Result<(), AllocError>
    ensures ok { OnOk result (O.written out.new ≡ O.written out.old ++ flat_map spelling_of prefixes.now) }
    ensures valid { OnOk result (AllByRecursion (IsValid W) prefixes.now) }
    ensures row { OnOk result (Row (IsPrefix W) prefixes.now (flat_map spelling_of prefixes.now)) }
    ensures back { OnOk result (run_of W (flat_map spelling_of prefixes.now)
        ≡ (prefixes.now, [])) }
    ensures err { OnErr result (O.written out.new ≡ O.written out.old) }
    ensures full { OnErr result (O.room < length (O.written out.old) + length (flat_map spelling_of prefixes.now)) }
{
    let start = out.len();
    let written = append_run(prefixes, out);
    if written.is_err() {
        out.truncate(start);
    }
    written
}

/// Appends the octets of the prefixes; after an error those of the first ones may remain.
fn append_run<const W: usize, O: Output>(
    prefixes: &[Prefix<W>],
    out: &mut O,
) -> Result<(), AllocError>
    ensures ok { OnOk result (O.written out.new ≡ O.written out.old ++ flat_map spelling_of prefixes.now) }
    ensures valid { OnOk result (AllByRecursion (IsValid W) prefixes.now) }
    ensures err { OnErr result (Extends (O.written out.old) (O.written out.new)) }
    ensures full { OnErr result (O.room < length (O.written out.old) + length (flat_map spelling_of prefixes.now)) }
{
    'run: for prefix in prefixes {
        prefix.append_to(out)?;
    }
    Ok(())
}
