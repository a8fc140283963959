//! Wires that fail at a call, that change what they are given, and that record it: what `run_loop` writes then.

ghost use Rattle.std.specs.Prelude.{◌≡◌, ◌+◌, true, false, nat_lt, if◌then◌else◌};
ghost use Rattle.bgp_session.specs.Prelude.{failed_after};

use bgp_loop::run_loop;
use bgp_script::SCRIPT_MAX;
use bgp_session::{MemoryWire, Side, Wire};
use std::process::Abort;
use std::test::*;

/// Two speakers establish a session, A announces a route, and then stops.
const TWO_SPEAKERS: &str =
    "a as 65001 peer 65002 id 192.0.2.1 hold 90 as4 ip4\nb as 65002 peer 65001 id 192.0.2.2 hold 30 as4 ip4\nstart a\nstart b\njoin\ndeliver b 9999\ndeliver a 9999\ndeliver b 9999\nsend a 000000144001010040020602010000fde8400304c0000201080a\ndeliver b 45\nstop a\ndeliver b 9999\n";

/// A wire that returns false at one call of `join` and `pass`, and counts how often it is cut, and what it hands to B.
#[derive(Drop)]
struct Flaky {
    calls: u32,
    failing: u32,
    failures: u32,
    cuts: u32,
    octets_to_a: usize,
    octets_to_b: usize,
}

impl Flaky {
    fn new(failing: u32) -> Flaky {
        Flaky {
            calls: 0,
            failing,
            failures: 0,
            cuts: 0,
            octets_to_a: 0,
            octets_to_b: 0,
        }
    }

    fn answer(&mut self) -> bool
        ensures { self.new.failures ≡ failed_after self.old.failures result }
    {
        let call = self.calls;
        self.calls = call.saturating_add(1);
        if call != self.failing {
            return true;
        }
        self.failures = self.failures.saturating_add(1);
        false
    }
}

impl Wire for Flaky {
    ghost use Rattle.std.specs.Prelude.{true};

    ghost honest = { λ _. true };

    ghost failed = { λ w. w.failures };

    fn join(&mut self) -> bool {
        self.answer()
    }

    fn pass(&mut self, to: Side, octets: &mut [u8]) -> bool {
        match to {
            Side::A => self.octets_to_a = self.octets_to_a.saturating_add(octets.len()),
            Side::B => self.octets_to_b = self.octets_to_b.saturating_add(octets.len()),
        }
        self.answer()
    }

    fn cut(&mut self) {
        self.cuts = self.cuts.saturating_add(1);
    }

    fn failures(&self) -> u32 {
        self.failures
    }
}

/// A wire that passes a KEEPALIVE instead of the first octets.
#[derive(Drop)]
struct Lying {
    passed: bool,
}

impl Wire for Lying {
    ghost use Rattle.std.specs.Prelude.{false};

    ghost honest = { λ _. false };

    ghost failed = { λ _. 0 };

    fn join(&mut self) -> bool
        ensures { result ≡ true }
    {
        true
    }

    fn pass(&mut self, _to: Side, octets: &mut [u8]) -> bool
        ensures { result ≡ true }
    {
        if !self.passed && octets.len() >= 19 {
            octets[16] = 0;
            octets[17] = 19;
            octets[18] = 4;
        }
        self.passed = true;
        true
    }

    fn cut(&mut self) {}

    fn failures(&self) -> u32
        ensures { result ≡ 0 }
    {
        0
    }
}

/// The two speakers over a wire write these lines.
fn assert_lines<W: Wire>(
    rt: &(impl Abort + AllocGlobal),
    wire: &mut W,
    lines: &str,
) -> Result<(), Fail> {
    let mut text = Vec::new(rt.alloc());
    assert!(rt; TWO_SPEAKERS.len() <= SCRIPT_MAX);
    let answer = run_loop(rt.alloc(), TWO_SPEAKERS.as_bytes(), wire, &mut text);
    assert!(rt; answer.is_ok());
    assert!(rt; text.as_slice() == lines.as_bytes(), "{lines}");
    Ok(())
}

const WHOLE: &str =
    "round 1\na sent 1 got 0 gone 0 notes 6/0\nb sent 0 got 1 gone 0 notes -\nstate a Idle\nstate b Idle\n";

/// The output if the connection, an OPEN, a KEEPALIVE, the UPDATE or the NOTIFICATION is lost, and how often the wire is cut.
const LOST: [(&str, u32); 6] = [
    ("refused a 1\nstate a Idle\nstate b Idle\n", 0),
    (
        "round 1\na sent 0 got 0 gone 0 notes -\nb sent 0 got 0 gone 0 notes -\nrefused a 1\nstate a Idle\nstate b Active\n",
        1,
    ),
    (
        "round 1\na sent 0 got 0 gone 0 notes -\nb sent 0 got 0 gone 0 notes -\nrefused a 1\nstate a Idle\nstate b Idle\n",
        1,
    ),
    (
        "round 1\na sent 0 got 0 gone 0 notes -\nb sent 0 got 0 gone 0 notes -\nrefused a 1\nstate a Idle\nstate b Idle\n",
        1,
    ),
    (
        "round 1\na sent 1 got 0 gone 0 notes -\nb sent 0 got 0 gone 0 notes -\nstate a Idle\nstate b Idle\n",
        1,
    ),
    (WHOLE, 1),
];

/// A call of the wire fails, the first of them that of a connection.
#[test]
fn a_piece_is_lost(rt: HostRuntime) -> Result<(), Fail> {
    let mut failing = 0u32;
    for (lines, cuts) in LOST {
        let mut wire = Flaky::new(failing);
        failing = failing.wrapping_add(1);
        assert_lines(&rt, &mut wire, lines)?;
        assert!(&rt; (wire.calls, wire.failures, wire.cuts) == (failing, 1, cuts));
    }
    Ok(())
}

/// Each side is handed what the other sent: B an OPEN, a KEEPALIVE, an UPDATE and a NOTIFICATION, A an OPEN and a KEEPALIVE. The wire is cut
/// once.
#[test]
fn each_piece_goes_to_its_side(rt: HostRuntime) -> Result<(), Fail> {
    let mut wire = Flaky::new(u32::MAX);
    assert_lines(&rt, &mut wire, WHOLE)?;
    assert!(&rt; (wire.calls, wire.failures, wire.cuts) == (6, 0, 1));
    assert!(&rt; (wire.octets_to_a, wire.octets_to_b) == (62, 43 + 19 + 45 + 21));
    Ok(())
}

/// A peer that is out of step (RFC 6608).
#[test]
fn a_wire_that_lies(rt: HostRuntime) -> Result<(), Fail> {
    let lines =
        "round 1\na sent 0 got 0 gone 0 notes -\nb sent 0 got 0 gone 0 notes 5/1\nrefused a 1\nstate a Idle\nstate b Idle\n";
    assert_lines(&rt, &mut Lying { passed: false }, lines)
}
