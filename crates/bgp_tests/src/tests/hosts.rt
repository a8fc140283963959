//! What a host does if a send fails, if no connection can be had, and if octets arrive one by one.

use crate::tests::fakes::{Line, NOTHING, Running, STILL, Told};
use crate::tests::longest::repeated;
use bgp_frame::{Kind, head};
use bgp_host::Host;
use bgp_machine::{Event, State, Timer};
use bgp_open::{Config, own_frame};
use std::alloc::AllocError;
use std::process::Abort;
use std::test::*;

/// No send fails.
const NEVER: u32 = u32::MAX;

// An UPDATE that announces 10.0.0.0/8 with this ORIGIN.
fn update(origin: u8) -> [u8; 45] {
    [
        255, 255, 255, 255, 255, 255, 255, 255, 255, 255, 255, 255, 255, 255, 255, 255, 0, 45, 2,
        0, 0, 0, 20, 64, 1, 1, origin, 64, 2, 6, 2, 1, 0, 0, 253, 233, 64, 3, 4, 192, 0, 2, 1, 8,
        10,
    ]
}

fn own() -> Config {
    Config::new(65002, 65001, [192, 0, 2, 2], 90, true, true, false).unwrap()
}

fn peer() -> Config {
    Config::new(65001, 65002, [192, 0, 2, 1], 30, true, true, false).unwrap()
}

fn host(stands: bool, failing: u32) -> Host<Line, Running, Told> {
    Host::new(own(), Line::new(stands, failing), STILL, NOTHING)
}

// Establishes the session.
fn rise(rt: &impl AllocGlobal, host: &mut Host<Line, Running, Told>) -> Result<(), AllocError> {
    host.tell(Event::Start);
    host.hear(rt.alloc(), &own_frame(&peer()))?;
    host.hear(rt.alloc(), &head(Kind::Keepalive, 0))
}

// Establishes the session, sends a KEEPALIVE, and stops: four sends, if none fails.
fn live(rt: &impl AllocGlobal, host: &mut Host<Line, Running, Told>) -> Result<(), AllocError> {
    rise(rt, host)?;
    host.tell(Event::Expired(Timer::Keepalive));
    host.tell(Event::Stop);
    Ok(())
}

#[test]
fn nothing_is_sent_behind_a_send_that_failed(rt: HostRuntime) {
    // Which send fails; how often it was closed, whether routes were flushed, and the state of the session.
    for (failing, closes, flushes, state) in [
        (0, 1, 0, State::Idle),
        (1, 0, 0, State::Idle),
        (2, 0, 1, State::Idle),
        (3, 1, 1, State::Idle),
    ] {
        let mut host = host(true, failing);
        assert!(&rt; live(&rt, &mut host).is_ok());
        assert!(&rt; host.connection.sends == failing.wrapping_add(1));
        assert!(&rt; (host.connection.closes, host.observer.flushes) == (closes, flushes));
        assert!(&rt; host.session().state() == state);
        assert!(&rt; host.clock == STILL);
    }
}

#[test]
fn a_lost_open_waits_for_the_retry_timer(rt: HostRuntime) {
    let mut host = host(true, 0);
    host.tell(Event::Start);
    assert!(&rt; host.session().state() == State::Active);
    assert!(&rt;
        host.clock
            == Running {
                retry: true,
                hold: false,
                keepalive: false
            }
    );
    // The timer expires, and the next connection comes up.
    host.tell(Event::Expired(Timer::Retry));
    assert!(&rt; (host.session().state(), host.connection.sends) == (State::OpenSent, 2));
}

#[test]
fn a_connection_that_cannot_be_had_ends_in_idle(rt: HostRuntime) {
    let mut host = host(false, NEVER);
    host.tell(Event::Start);
    assert!(&rt; host.session().state() == State::Idle);
    assert!(&rt; host.connection.sends == 0);
    assert!(&rt; host.clock == STILL);
}

#[test]
fn octets_may_come_one_by_one(rt: HostRuntime) {
    let mut host = host(true, NEVER);
    host.tell(Event::Start);
    for octets in [
        &own_frame(&peer())[..],
        &head(Kind::Keepalive, 0),
        &update(0),
        &update(5),
    ] {
        for octet in octets {
            assert!(&rt; host.hear(rt.alloc(), &[*octet]).is_ok());
        }
    }
    assert!(&rt; (host.observer.routes, host.observer.gone) == (1, 1));
    assert!(&rt; host.observer.state == State::Established);
    assert!(&rt; host.connection.sends == 2);
}

// Sends an UPDATE of 2026 routes, and returns whether it was sent.
fn sends_much(rt: &impl AllocGlobal, host: &mut Host<Line, Running, Told>) -> Result<bool, Fail> {
    let update = repeated(rt.alloc(), 2026)?;
    Ok(host.send(rt.alloc(), &update).is_ok())
}

// Establishes the session, and sends it.
fn live_long(rt: &impl AllocGlobal, host: &mut Host<Line, Running, Told>) -> Result<bool, Fail> {
    rise(rt, host)?;
    sends_much(rt, host)
}

#[test]
fn a_message_of_4095_octets_is_sent(rt: HostRuntime) -> Result<(), Fail> {
    let mut host = host(true, NEVER);
    let is_sent = live_long(&rt, &mut host)?;
    assert!(&rt; is_sent);
    assert!(&rt; (host.connection.sends, host.connection.longest) == (3, 4095));
    Ok(())
}
