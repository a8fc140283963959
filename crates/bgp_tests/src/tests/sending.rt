//! What a session doesn't send of values that no input is read as.

use super::*;
use bgp_frame::head;
use bgp_msg::Kind;
use bgp_open::{Config, own_frame};
use bgp_prefix::Prefix4;
use bgp_session::{Event, SendFault, Session, State};
use bgp_update::Invalid;
use std::process::Abort;

/// A session of AS 65002 that is Established with AS 65001, both with AS numbers of four octets.
fn established(rt: &(impl Abort + AllocGlobal)) -> Result<Session, Fail> {
    let own = Config::new(65002, 65001, [192, 0, 2, 2], 30, true, true, false);
    let peer = Config::new(65001, 65002, [192, 0, 2, 1], 90, true, true, false);
    let mut session = Session::new(own.map_err(|_| "settings")?);
    let peer = peer.map_err(|_| "settings")?;
    session.event(Event::Start);
    session.event(Event::Connected);
    let _taken = session.feed(&own_frame(&peer));
    let _actions = session.step(rt.alloc())?;
    let _taken = session.feed(&head(Kind::Keepalive, 0));
    let _actions = session.step(rt.alloc())?;
    assert!(rt; session.state() == State::Established);
    Ok(session)
}

/// An UPDATE isn't sent, and nothing is appended.
fn assert_unsent(
    rt: &(impl Abort + AllocGlobal),
    update: &Update,
    wanted: SendFault,
) -> Result<(), Fail> {
    let session = established(rt)?;
    let mut out = vec![in rt.alloc(); 7]?;
    match session.send(rt.alloc(), update, &mut out) {
        Ok(_) => assert!(rt; false),
        Err(fault) => assert!(rt; fault == wanted),
    }
    assert!(rt; out.as_slice() == [7].as_slice());
    Ok(())
}

/// Of two reasons that with the lower number is reported: a mixture of routes and withdrawn routes comes before AS 0.
#[test]
fn a_mixture_is_not_sent(rt: HostRuntime) -> Result<(), Fail> {
    let ten = Prefix4::new(8, [10, 0, 0, 0]).ok_or("a prefix")?;
    let mut update = plain(rt.alloc())?;
    update.attrs.as_path = Some(path(rt.alloc(), &[0])?);
    update.withdrawn.push(ten)?;
    assert_unsent(&rt, &update, SendFault::NotValid(Invalid::Mixed))
}
