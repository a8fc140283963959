//! Values that several tests use.

mod copies;
mod fakes;
mod frames;
mod hosts;
mod lists;
mod longest;
mod opens;
mod prefixes;
mod refusals;
mod sending;

use bgp_attr::{AsPath, SegKind, Segment};
use bgp_open::Context;
use bgp_prefix::AsNumber;
use bgp_update::{Update, Verdict, read_update};
use bgp_wire::List;
use std::alloc::{AllocError, Global};
use std::test::*;

/// The body of an UPDATE of 10.0.0.0/8 via AS 65000 and 192.0.2.1, with AS numbers of four octets.
const PLAIN: &[u8] = &[
    0, 0, 0, 0x14, 0x40, 1, 1, 0, 0x40, 2, 6, 2, 1, 0, 0, 0xfd, 0xe8, 0x40, 3, 4, 192, 0, 2, 1, 8,
    10,
];

/// An external session with both families, and AS numbers of four octets where `as4`.
fn session(as4: bool) -> Context {
    Context {
        internal: false,
        as4,
        ip4: true,
        ip6: true,
        hold: 90,
    }
}

/// The plain UPDATE.
fn plain(alloc: Global) -> Result<Update, Fail> {
    match read_update(alloc, &session(true), PLAIN)? {
        Verdict::Take(update, _notes) => Ok(update),
        _ => Err("an UPDATE that is taken".into()),
    }
}

/// A path of one sequence.
fn path(alloc: Global, numbers: &[u32]) -> Result<AsPath, AllocError> {
    let mut list = List::new(alloc);
    for number in numbers {
        list.push(AsNumber(*number))?;
    }
    let segment = Segment {
        kind: SegKind::Seq,
        numbers: list,
    };
    Ok(AsPath {
        segments: List::from_vec(vec![in alloc; segment]?),
    })
}
