//! Values that no input is read as, and why they aren't written (RFC 4271, 5; RFC 7606; RFC 7607; RFC 8092).

use super::*;
use bgp_attr::{
    As4Path, Attr, AttrRef, Communities, LargeCommunities, Opaque, Unwritable, why_unwritable,
    writable,
};
use bgp_msg::{Message, encode};
use bgp_open::Open;
use bgp_update::{Invalid, WriteFault};
use std::process::Abort;

/// A message is refused, and nothing is appended.
fn assert_refused(
    rt: &(impl Abort + AllocGlobal),
    ctx: &Context,
    message: &Message,
    wanted: WriteFault,
) -> Result<(), Fail> {
    let mut out = vec![in rt.alloc(); 1, 2]?;
    assert!(rt; encode(ctx, message, &mut out) == Err(wanted));
    assert!(rt; out.as_slice() == [1, 2].as_slice());
    Ok(())
}

/// An UPDATE isn't valid, for this reason.
fn assert_not_valid(
    rt: &(impl Abort + AllocGlobal),
    as4: bool,
    update: Update,
    why: Invalid,
) -> Result<(), Fail> {
    let message = Message::Update(update);
    assert_refused(rt, &session(as4), &message, WriteFault::NotValid(why))
}

#[test]
fn routes_need_an_origin(rt: HostRuntime) -> Result<(), Fail> {
    let mut update = plain(rt.alloc())?;
    update.attrs.origin = None;
    assert_not_valid(&rt, true, update, Invalid::Missing)
}

#[test]
fn routes_need_a_path(rt: HostRuntime) -> Result<(), Fail> {
    let mut update = plain(rt.alloc())?;
    update.attrs.as_path = None;
    assert_not_valid(&rt, true, update, Invalid::Missing)
}

#[test]
fn routes_need_a_next_hop(rt: HostRuntime) -> Result<(), Fail> {
    let mut update = plain(rt.alloc())?;
    update.attrs.next_hop = None;
    assert_not_valid(&rt, true, update, Invalid::Missing)
}

/// The first of two reasons is reported.
#[test]
fn a_next_hop_needs_routes(rt: HostRuntime) -> Result<(), Fail> {
    let mut update = plain(rt.alloc())?;
    update.nlri = List::new(rt.alloc());
    update.attrs.local_pref = Some(100);
    assert_not_valid(&rt, true, update, Invalid::NextHop)
}

#[test]
fn a_path_has_no_as_0(rt: HostRuntime) -> Result<(), Fail> {
    for as4 in [false, true] {
        let mut update = plain(rt.alloc())?;
        update.attrs.as_path = Some(path(rt.alloc(), &[0])?);
        assert_not_valid(&rt, as4, update, Invalid::AsZero)?;
    }
    Ok(())
}

#[test]
fn segments_have_1_to_255_numbers(rt: HostRuntime) -> Result<(), Fail> {
    for numbers in [&[][..], &[7; 256][..]] {
        let mut update = plain(rt.alloc())?;
        update.attrs.as_path = Some(path(rt.alloc(), numbers)?);
        assert_not_valid(&rt, true, update, Invalid::Empty)?;
    }
    Ok(())
}

#[test]
fn an_as4_path_has_segments(rt: HostRuntime) -> Result<(), Fail> {
    let mut update = plain(rt.alloc())?;
    let path = AsPath {
        segments: List::new(rt.alloc()),
    };
    update.attrs.as4_path = Some(As4Path {
        partial: false,
        path,
    });
    assert_not_valid(&rt, false, update, Invalid::Empty)
}

#[test]
fn communities_are_some(rt: HostRuntime) -> Result<(), Fail> {
    let mut update = plain(rt.alloc())?;
    update.attrs.communities = Some(Communities {
        partial: false,
        values: List::new(rt.alloc()),
    });
    assert_not_valid(&rt, true, update, Invalid::Empty)
}

#[test]
fn no_large_community_stands_twice(rt: HostRuntime) -> Result<(), Fail> {
    let values = vec![in rt.alloc(); [9, 1, 2], [9, 1, 3], [9, 1, 2]]?;
    let mut update = plain(rt.alloc())?;
    update.attrs.large = Some(LargeCommunities {
        partial: false,
        values: List::from_vec(values),
    });
    assert_not_valid(&rt, true, update, Invalid::Twice)
}

/// An attribute of a type that isn't recognised, of `len` zeros.
fn opaque(alloc: Global, kind: u8, count: usize) -> Result<Opaque, AllocError> {
    Ok(Opaque {
        kind,
        transitive: true,
        partial: false,
        value: List::from_vec(vec![in alloc; 0u8; count]?),
    })
}

#[test]
fn others_rise(rt: HostRuntime) -> Result<(), Fail> {
    let mut others = List::new(rt.alloc());
    for _ in 0..2u8 {
        others.push(opaque(rt.alloc(), 99, 0)?)?;
    }
    let mut update = plain(rt.alloc())?;
    update.attrs.others = others;
    assert_not_valid(&rt, true, update, Invalid::Others)
}

#[test]
fn others_are_not_recognised(rt: HostRuntime) -> Result<(), Fail> {
    let mut others = List::new(rt.alloc());
    others.push(opaque(rt.alloc(), 3, 0)?)?;
    let mut update = plain(rt.alloc())?;
    update.attrs.others = others;
    assert_not_valid(&rt, true, update, Invalid::Others)
}

/// One attribute isn't written for this reason; None where it is.
#[test]
fn attributes_alone(rt: HostRuntime) -> Result<(), Fail> {
    for (kind, count, reason) in [
        (32, 12, Some(Unwritable::Recognised)),
        (99, 65536, Some(Unwritable::TooLong)),
        (99, 65535, None),
    ] {
        let attr = Attr::Opaque(opaque(rt.alloc(), kind, count)?);
        assert!(&rt; why_unwritable(&session(true), AttrRef::from(&attr)) == reason);
        assert!(&rt; writable(&session(true), &attr) == reason.is_none());
    }
    Ok(())
}

#[test]
fn an_open_has_a_hold_time_of_0_or_3_seconds(rt: HostRuntime) -> Result<(), Fail> {
    let said = Message::Open(Open {
        as_field: 65001,
        hold: 2,
        id: [192, 0, 2, 9],
        caps: List::new(rt.alloc()),
    });
    assert_refused(
        &rt,
        &session(true),
        &said,
        WriteFault::NotValid(Invalid::BadOpen),
    )
}
