//! Routes after their path identifiers.

ghost use Rattle.std.specs.Prelude.{◌≡◌, ◌+◌, ◌<◌, ◌≤◌, ◌++◌, length, OnOk, OnErr};
ghost use Rattle.bgp_paths.specs.Families.{width_of};
ghost use Rattle.bgp_paths.specs.PathBody.{route_octets, routes_with, run_with};
ghost use Rattle.bgp_paths.specs.Runs.{numbers_left};

use crate::families::Width;
use crate::plain_routes::BODY;
use crate::runs::PathRun;
use bgp_prefix::{Prefix, first_prefix, write_run};
use bgp_wire::{Output, Page};
use std::alloc::AllocError;
use std::slice;

/// Appends a prefix after its path identifier.
fn put_route<const W: usize>(
    path: u32,
    prefix: &Prefix<W>,
    out: &mut Page<BODY>,
) -> Result<(), AllocError>
    ensures ok { OnOk result (out.new ≡ out.old ++ route_octets path prefix.now) }
    ensures full { OnErr result (4077 < length out.old + length (route_octets path prefix.now)) }
{
    out.put(&path.to_be_bytes())?;
    write_run(slice::from_ref(prefix), out)
}

/// Appends prefixes, each after its path identifier.
fn put_each<const W: usize>(
    numbers: PathRun<'_>,
    octets: &[u8],
    out: &mut Page<BODY>,
) -> Result<(), AllocError>
    requires { W ≤ 16 }
    ensures ok { OnOk result (out.new ≡ out.old ++ routes_with W (numbers_left numbers.entry) octets.now) }
    ensures full { OnErr result (4077 < length out.old + length (routes_with W (numbers_left numbers.entry) octets.now)) }
{
    let mut left = numbers;
    let mut rest = octets;
    'run: while let Some((prefix, after)) = first_prefix::<W>(rest) {
        put_route(left.step(), &prefix, out)?;
        rest = after;
    }
    out.put(rest)
}

/// Appends prefixes of a family, each after its path identifier.
pub(crate) fn put_routes_with(
    width: Width,
    numbers: PathRun<'_>,
    octets: &[u8],
    out: &mut Page<BODY>,
) -> Result<(), AllocError>
    ensures ok { OnOk result (out.new ≡ out.old ++ routes_with (width_of width) (numbers_left numbers.entry) octets.now) }
    ensures full { OnErr result (4077 < length out.old + length (routes_with (width_of width) (numbers_left numbers.entry) octets.now)) }
{
    match width {
        Width::Ip4 => put_each::<4>(numbers, octets, out),
        Width::Ip6 => put_each::<16>(numbers, octets, out),
    }
}

/// Appends a run of IPv4 prefixes, after the path identifiers that they may have.
pub(crate) fn put_run_with(
    paths: bool,
    numbers: PathRun<'_>,
    octets: &[u8],
    out: &mut Page<BODY>,
) -> Result<(), AllocError>
    ensures ok { OnOk result (out.new ≡ out.old ++ run_with paths (numbers_left numbers.entry) octets.now) }
    ensures full { OnErr result (4077 < length out.old + length (run_with paths (numbers_left numbers.entry) octets.now)) }
{
    if paths {
        put_routes_with(Width::Ip4, numbers, octets, out)
    } else {
        out.put(octets)
    }
}
