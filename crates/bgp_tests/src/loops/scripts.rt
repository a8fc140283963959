//! A wire over TCP, and writers that fail.

use bgp_engine::{Tally, ToolFault};
use bgp_loop::*;
use bgp_script::SCRIPT_MAX;
use bgp_session::{MemoryWire, Side, Wire};
use std::io;
use std::io::{ErrorKind, Write};
use std::net::Net;
use std::process::Abort;
use std::test::*;

/// A session that finds no connection, and an UPDATE that can't be sent.
const REFUSED: &str =
    "a as 65001 peer 65002 id 192.0.2.1 hold 90\nb as 65002 peer 65001 id 192.0.2.2 hold 30\nstart a\nrefuse a\nsend b 00000000\n";

const REFUSED_TEXT: &str = "refused b 1\nstate a Idle\nstate b Idle\n";

const REFUSED_TRACE: &str =
    "move start a\na start: Connect; arm retry 120; connect\nmove refuse a\na failed: Idle; disarm retry\nmove send b\nb refused 1: Idle\nrefused b 1\nstate a Idle\nstate b Idle\n";

/// A writer that accepts this number of octets, and then fails: by an error, or by accepting none.
#[derive(Drop)]
struct Full {
    text: Vec<u8>,
    room: usize,
    takes_nothing: bool,
}

impl Write for Full {
    fn write(&mut self, buf: &[u8]) -> io::Result<usize> {
        let count = buf.len().min(self.room);
        let is_kept = self.text.extend_from_slice(&buf[..count]).is_ok();
        if count > 0 && is_kept {
            self.room -= count;
            return Ok(count);
        }
        if self.takes_nothing {
            Ok(0)
        } else {
            Err(io::Error::from(ErrorKind::Other))
        }
    }

    fn flush(&mut self) -> io::Result<()> {
        Ok(())
    }
}

/// A run of the script, with or without a trace.
fn run(rt: &impl AllocGlobal, is_traced: bool, output: &mut Full) -> Result<Tally, ToolFault> {
    if REFUSED.len() > SCRIPT_MAX {
        return Err(ToolFault::Read);
    }
    let script = REFUSED.as_bytes();
    if is_traced {
        return trace_loop(rt.alloc(), script, &mut MemoryWire, output);
    }
    run_loop(rt.alloc(), script, &mut MemoryWire, output)
}

/// What fits is written, and the run fails if something doesn't.
fn assert_front(
    rt: &(impl Abort + AllocGlobal),
    is_traced: bool,
    room: usize,
    takes_nothing: bool,
    lines: &[u8],
) {
    let mut full = Full {
        text: Vec::new(rt.alloc()),
        room,
        takes_nothing,
    };
    let outcome = run(rt, is_traced, &mut full);
    assert!(rt;
        outcome.err()
            == if room < lines.len() {
                Some(ToolFault::Write)
            } else {
                None
            }
    );
    assert!(rt; lines.starts_with(full.text.as_slice()));
    assert!(rt; full.text.len() == room.min(lines.len()));
}

#[test]
fn writers_that_fail(rt: HostRuntime) {
    for (is_traced, lines) in [(false, REFUSED_TEXT), (true, REFUSED_TRACE)] {
        for takes_nothing in [false, true] {
            for room in 0..=lines.len() {
                assert_front(&rt, is_traced, room, takes_nothing, lines.as_bytes());
            }
        }
    }
}

#[test]
fn a_wire_over_tcp(rt: HostRuntime) -> Result<(), Fail> {
    let mut wire = TcpWire::new(&rt).map_err(|_| "a listener")?;
    let mut octets = [7; 4096];
    assert!(rt;
        !wire.pass(Side::A, &mut octets),
        "nothing passes without a connection"
    );
    assert!(rt; wire.failures() == 1);
    assert!(rt; wire.join());
    for side in [Side::A, Side::B, Side::A] {
        assert!(rt; wire.pass(side, &mut octets));
        assert!(rt; octets == [7; 4096]);
    }
    wire.cut();
    assert!(rt; !wire.pass(Side::B, &mut octets));
    assert!(rt; wire.join() && wire.pass(Side::B, &mut octets[..1]));
    assert!(rt; wire.failures() == 2);
    Ok(())
}
