//! Messages written down by hand from RFC 2918 and RFC 7313.

use crate::fault::RefreshFault;
use crate::mark::RefreshMark;
use crate::view::view_refresh;
use crate::writing::write_refresh;
use bgp_terms::Refreshes;
use std::test::*;

#[test]
fn bodies_that_are_read(rt: HostRuntime) {
    let cases = [
        (Refreshes::Plain, [0, 1, 0, 1], 1, 1, RefreshMark::Request),
        (Refreshes::Plain, [0, 1, 1, 1], 1, 1, RefreshMark::Request),
        (Refreshes::Enhanced, [0, 1, 1, 1], 1, 1, RefreshMark::Begin),
        (Refreshes::Enhanced, [0, 2, 2, 1], 2, 1, RefreshMark::End),
        (
            Refreshes::Enhanced,
            [0, 1, 255, 1],
            1,
            1,
            RefreshMark::Ignored(255),
        ),
        (
            Refreshes::Plain,
            [0, 1, 0, 128],
            1,
            128,
            RefreshMark::Request,
        ),
    ];
    for (refreshes, body, afi, safi, mark) in cases {
        let is_read = match view_refresh(refreshes, &body) {
            Ok(view) => view.afi == afi
                && view.safi == safi
                && view.mark == mark
                && view.rest.is_empty(),
            Err(_) => false,
        };
        assert!(rt; is_read);
    }
}

#[test]
fn bodies_of_a_wrong_length(rt: HostRuntime) {
    assert!(rt; view_refresh(Refreshes::Plain, &[0, 1, 0]) == Err(RefreshFault::Short));
    assert!(rt; view_refresh(Refreshes::Enhanced, &[0, 1, 1]) == Err(RefreshFault::Length));
    assert!(rt; view_refresh(Refreshes::Enhanced, &[0, 1]) == Err(RefreshFault::Short));
    assert!(rt; view_refresh(Refreshes::Enhanced, &[]) == Err(RefreshFault::Short));
    assert!(rt; view_refresh(Refreshes::Enhanced, &[0, 1, 2, 1, 0]) == Err(RefreshFault::Length));
    assert!(rt; view_refresh(Refreshes::Plain, &[0, 1, 2, 1, 0]).is_ok());
}

#[test]
fn notifications(rt: HostRuntime) {
    let short = RefreshFault::Short.notification(&[0, 1, 0]);
    assert!(rt; short.code == 1 && short.subcode == 2);
    assert!(rt; short.info[..] == [0, 22]);
    let long = RefreshFault::Length.notification(&[0, 1, 1]);
    assert!(rt; long.code == 7 && long.subcode == 1 && long.info.len() == 22);
    assert!(rt; long.info[16..] == [0, 22, 5, 0, 1, 1]);
    assert!(rt; RefreshFault::Length.notification(&[1; 4077]).info.len() == 4075);
}

#[test]
fn messages_that_are_written(rt: HostRuntime) {
    assert!(rt; write_refresh(1, 1, RefreshMark::Request)[16..] == [0, 23, 5, 0, 1, 0, 1]);
    assert!(rt; write_refresh(2, 128, RefreshMark::End)[16..] == [0, 23, 5, 0, 2, 2, 128]);
}
