//! OPENs and configurations that no row can express: which reason is reported first, and the OPENs that aren't written.

use bgp_frame::Notification;
use bgp_open::*;
use bgp_wire::List;
use std::alloc::{AllocError, Global};
use std::test::*;

/// An OPEN of two capabilities, each in a parameter of its own.
const TWO_PARAMETERS: [u8; 22] = [
    4, 0xfd, 0xe9, 0, 0x5a, 192, 0, 2, 1, 12, 2, 6, 1, 4, 0, 1, 0, 1, 2, 2, 2, 0,
];

fn other(alloc: Global, code: u8, value: &[u8]) -> Result<Capability, AllocError> {
    Ok(Capability::Other(code, List::from_vec(Vec::from_slice(alloc, value)?)))
}

/// An OPEN of one capability whose value is zeros.
fn open_of(
    alloc: Global,
    hold: u16,
    last: u8,
    code: u8,
    octets: usize,
) -> Result<Open, AllocError> {
    let value = other(alloc, code, vec![in alloc; 0u8; octets]?.as_slice())?;
    Ok(Open {
        as_field: 1,
        hold,
        id: [0, 0, 0, last],
        caps: List::from_vec(vec![in alloc; value]?),
    })
}

/// A body that is read with memory of its own.
#[test]
fn an_open_of_two_parameters(rt: HostRuntime) -> Result<(), Fail> {
    let read = read_open(rt.alloc(), &TWO_PARAMETERS)?;
    assert!(rt; (read.as_field, read.hold, read.id) == (65001, 90, [192, 0, 2, 1]));
    assert!(rt; read.caps.len() == 2);
    assert!(rt; read.caps.as_slice().first() == Some(&Capability::Multi(1, 1)));
    Ok(())
}

#[test]
fn a_version_is_answered_with_ours(rt: HostRuntime) {
    let body = [3, 0xfd, 0xe9, 0, 1, 192, 0, 2, 1, 0];
    assert!(rt; read_open(rt.alloc(), &body).err() == Some(OpenFault::Version));
    assert!(rt; OpenFault::Version.notification() == Some(Notification::new(2, 1, &[0, 4])));
    assert!(rt; OpenFault::Memory.notification().is_none());
}

/// The result of writing an OPEN after an octet, and the number of octets then.
fn written(alloc: Global, open: &Open) -> Result<(Result<(), WriteOpenFault>, usize), AllocError> {
    let mut out = vec![in alloc; 7u8]?;
    let answer = write_open(open, &mut out);
    Ok((answer, out.len()))
}

#[test]
fn opens_that_are_not_valid(rt: HostRuntime) -> Result<(), Fail> {
    // A Hold Time, the last octet of the identifier, a code, the octets of a value, and whether the OPEN is valid.
    let rows: [(u16, u8, u8, usize, bool); 9] = [
        (90, 1, 2, 251, true),
        (0, 1, 2, 0, true),
        (3, 1, 0, 0, true),
        (1, 1, 2, 0, false),
        (2, 1, 2, 0, false),
        (90, 0, 2, 0, false),
        (90, 1, 1, 4, false),
        (90, 1, 65, 4, false),
        (90, 1, 2, 252, false),
    ];
    for (hold, last, code, octets, is_valid) in rows {
        let open = open_of(rt.alloc(), hold, last, code, octets)?;
        let wanted = if is_valid {
            (Ok(()), octets.wrapping_add(15))
        } else {
            (Err(WriteOpenFault::NotValid), 1)
        };
        assert!(rt; written(rt.alloc(), &open)? == wanted);
    }
    Ok(())
}

#[test]
fn configurations_that_are_refused(rt: HostRuntime) {
    // Both AS numbers, the last octet of the identifier, a Hold Time, whether AS numbers of four octets are offered, the reason.
    let rows: [(u32, u32, u8, u16, bool, Option<BadConfig>); 10] = [
        (1, 1, 1, 0, false, None),
        (65535, 4_200_000_000, 1, 3, false, None),
        (65536, 1, 1, 90, true, None),
        (0, 0, 0, 1, false, Some(BadConfig::LocalAs)),
        (1, 0, 0, 1, false, Some(BadConfig::PeerAs)),
        (200000, 1, 0, 1, false, Some(BadConfig::Identifier)),
        (200000, 1, 1, 1, false, Some(BadConfig::Hold)),
        (200000, 1, 1, 2, false, Some(BadConfig::Hold)),
        (200000, 1, 1, 90, false, Some(BadConfig::AsWidth)),
        (65536, 1, 1, 90, false, Some(BadConfig::AsWidth)),
    ];
    for (local_as, peer_as, last, hold, as4, wanted) in rows {
        let made = Config::new(local_as, peer_as, [0, 0, 0, last], hold, as4, true, false);
        assert!(rt; made.err() == wanted);
    }
}
