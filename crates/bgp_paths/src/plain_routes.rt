//! Routes without their path identifiers.

ghost use Rattle.std.specs.Prelude.{◌≡◌, ◌+◌, ◌≤◌, ◌++◌, length};
ghost use Rattle.bgp_prefix.specs.Prelude.{spelling_of};
ghost use Rattle.bgp_paths.specs.Families.{width_of};
ghost use Rattle.bgp_paths.specs.Plain.{left_over, plain_routes, plain_run};

use crate::families::Width;
use crate::route::first_path_prefix;
use bgp_prefix::{Prefix, write_run};
use bgp_wire::{Output, Page};
use std::slice;

/// The greatest length of a body: 4096 octets without the header.
pub(crate) const BODY: usize = 4077;

/// A length in bits that no prefix has.
const NO_PREFIX: u8 = 255;

/// Appends octets, for which there is room.
pub(crate) fn put(octets: &[u8], out: &mut Page<BODY>)
    requires { length out.old + length octets.now ≤ 4077 }
    ensures { out.new ≡ out.old ++ octets.now }
{
    let Ok(()) = out.put(octets) else {
        unreachable!();
    };
}

/// Appends a prefix.
fn put_prefix<const W: usize>(prefix: &Prefix<W>, out: &mut Page<BODY>)
    requires { length out.old + length (spelling_of prefix.now) ≤ 4077 }
    ensures { out.new ≡ out.old ++ spelling_of prefix.now }
{
    let Ok(()) = write_run(slice::from_ref(prefix), out) else {
        unreachable!();
    };
}

/// Appends what stands for octets that are left after the last route.
fn put_left_over(rest: &[u8], out: &mut Page<BODY>)
    requires { length out.old + length (left_over rest.now) ≤ 4077 }
    ensures { out.new ≡ out.old ++ left_over rest.now }
{
    if !rest.is_empty() {
        put(&[NO_PREFIX], out);
    }
}

/// Appends the prefixes of routes, without the path identifiers before them.
fn put_prefixes<const W: usize>(octets: &[u8], out: &mut Page<BODY>)
    requires width { W ≤ 16 }
    requires room { length out.old + length (plain_routes W octets.now) ≤ 4077 }
    ensures { out.new ≡ out.old ++ plain_routes W octets.now }
{
    let mut rest = octets;
    'run: while let Some((route, after)) = first_path_prefix::<W>(rest) {
        put_prefix(&route.prefix, out);
        rest = after;
    }
    put_left_over(rest, out);
}

/// Appends the prefixes of routes of a family, without the path identifiers before them.
pub(crate) fn put_routes(width: Width, octets: &[u8], out: &mut Page<BODY>)
    requires { length out.old + length (plain_routes (width_of width) octets.now) ≤ 4077 }
    ensures { out.new ≡ out.old ++ plain_routes (width_of width) octets.now }
{
    match width {
        Width::Ip4 => put_prefixes::<4>(octets, out),
        Width::Ip6 => put_prefixes::<16>(octets, out),
    }
}

/// Appends a run of IPv4 routes, without the path identifiers that they may have.
pub(crate) fn put_run(paths: bool, octets: &[u8], out: &mut Page<BODY>)
    requires { length out.old + length (plain_run paths octets.now) ≤ 4077 }
    ensures { out.new ≡ out.old ++ plain_run paths octets.now }
{
    if paths {
        put_routes(Width::Ip4, octets, out);
    } else {
        put(octets, out);
    }
}
