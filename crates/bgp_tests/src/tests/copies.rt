//! Copies equal their source: for each kind of attribute, verdict, message and action, and so for all that they hold.

use super::*;
use bgp_attr::{Attr, Judged, MpReach, MpUnreach, Tlv, TlvIter, judge};
use bgp_frame::{Notification, head};
use bgp_msg::{Kind, Message, Outcome, decode_all};
use bgp_open::{Capability, Config, read_open};
use bgp_session::{Action, MemoryWire, Move, Report, SendFault, Side, Timer, run_pair};
use bgp_update::{Invalid, PathInfo, Routes, Verdict, View, reconcile, view_update};
use bgp_wire::TryCopy;
use std::process::Abort;

// Each `number_of` names each case of its type. A new one gets the next number, and its value follows the others below.

fn assert_copied<R: Abort + AllocGlobal, T: TryCopy + PartialEq + Drop>(
    rt: &R,
    value: &T,
) -> Result<(), AllocError> {
    let copy = value.try_copy(rt.alloc())?;
    assert!(rt; copy == *value);
    Ok(())
}

/// The attributes of an UPDATE inside an AS, of each type and of one that isn't recognised; then an ORIGIN of 3, which is a treat-as-withdraw, an
/// AS4_AGGREGATOR of 2 octets, which is discarded, and an unrecognised well-known attribute, which is a reset.
const ATTRIBUTES: &[u8] = &[
    0x80, 14, 11, 0, 1, 1, 4, 192, 0, 2, 1, 0, 8, 10, // MP_REACH_NLRI of IPv4
    0x80, 14, 26, 0, 2, 1, 16, // MP_REACH_NLRI of IPv6
    0x20, 0x01, 0x0d, 0xb8, 0, 0, 0, 0, 0, 0, 0, 0, 0, 0, 0, 1, 0, 32, 0x20, 0x01, 0x0d, 0xb8,
    0x80, 14, 37, 0, 2, 1, 32, // the same with a link-local address
    0x20, 0x01, 0x0d, 0xb8, 0, 0, 0, 0, 0, 0, 0, 0, 0, 0, 0, 1, 0xfe, 0x80, 0, 0, 0, 0, 0, 0, 0, 0,
    0, 0, 0, 0, 0, 1, 0, 0x80, 15, 5, 0, 1, 1, 8, 10, // MP_UNREACH_NLRI of IPv4
    0x80, 15, 8, 0, 2, 1, 32, 0x20, 0x01, 0x0d, 0xb8, // MP_UNREACH_NLRI of IPv6
    0x40, 1, 1, 1, // ORIGIN
    0x40, 2, 6, 1, 2, 0, 1, 0, 2, // AS_PATH
    0x40, 3, 4, 192, 0, 2, 1, // NEXT_HOP
    0x80, 4, 4, 0, 0, 0, 7, // MULTI_EXIT_DISC
    0x40, 5, 4, 0, 0, 0, 100, // LOCAL_PREF
    0x40, 6, 0, // ATOMIC_AGGREGATE
    0xe0, 7, 6, 0xfd, 0xe8, 192, 0, 2, 1, // AGGREGATOR
    0xc0, 8, 8, 0, 0, 0, 2, 0, 0, 0, 1, // COMMUNITIES
    0xe0, 17, 6, 2, 1, 0, 3, 0x0d, 0x40, // AS4_PATH
    0xe0, 18, 8, 0, 0, 0xfd, 0xe8, 192, 0, 2, 1, // AS4_AGGREGATOR
    0xc0, 32, 12, 0, 0, 0, 9, 0, 0, 0, 1, 0, 0, 0, 2, // LARGE_COMMUNITY
    0xc0, 99, 2, 7, 8, // one that isn't recognised
    0x40, 1, 1, 3, // ORIGIN
    0xc0, 18, 2, 7, 8, // AS4_AGGREGATOR
    0, 99, 0, // a well-known one
];

/// The session on which they are received.
const INSIDE: Context = Context {
    internal: true,
    as4: false,
    ip4: true,
    ip6: true,
    hold: 90,
};

fn number_of_attr(attr: &Attr) -> u8 {
    match attr {
        Attr::MpReach(MpReach::Ip4 { .. }) => 0,
        Attr::MpReach(MpReach::Ip6 { link_local, .. }) => 1 + u8::from(link_local.is_some()),
        Attr::MpUnreach(MpUnreach::Ip4(_)) => 3,
        Attr::MpUnreach(MpUnreach::Ip6(_)) => 4,
        Attr::Origin(_) => 5,
        Attr::AsPath(_) => 6,
        Attr::NextHop(_) => 7,
        Attr::Med(_) => 8,
        Attr::LocalPref(_) => 9,
        Attr::Atomic => 10,
        Attr::Aggregator(_) => 11,
        Attr::Communities(_) => 12,
        Attr::As4Path(_) => 13,
        Attr::As4Aggregator(_) => 14,
        Attr::Large(_) => 15,
        Attr::Opaque(_) => 16,
    }
}

fn number_of_judged(judged: &Judged) -> u8 {
    match judged {
        Judged::Keep(attr) => number_of_attr(attr),
        Judged::Withdraw(_) => 17,
        Judged::Discard(_) => 18,
        Judged::Reset(_) => 19,
    }
}

fn assert_judged_copied(
    rt: &(impl Abort + AllocGlobal),
    judged: &Judged,
) -> Result<(), AllocError> {
    let copy = judged.copy(rt.alloc())?;
    assert!(rt; copy == *judged);
    Ok(())
}

/// The judgement of an attribute of at most 4075 octets equals its copy, and has this number.
fn assert_judgement_copied(
    rt: &(impl Abort + AllocGlobal),
    tlv: &Tlv<'_>,
    number: u8,
) -> Result<(), AllocError> {
    assert!(rt; tlv.whole.len() <= 4075);
    let judged = judge(rt.alloc(), &INSIDE, true, tlv)?;
    assert!(rt; number_of_judged(&judged) == number);
    assert_judged_copied(rt, &judged)
}

#[test]
fn judgements(rt: HostRuntime) -> Result<(), Fail> {
    let mut number = 0u8;
    for tlv in TlvIter::new(ATTRIBUTES) {
        assert_judgement_copied(&rt, &tlv, number)?;
        number = number.wrapping_add(1);
    }
    assert!(&rt; number == 20);
    Ok(())
}

/// The plain UPDATE with an ORIGIN of 3, and with a length of Withdrawn Routes that exceeds its body.
const WITHDRAWN: &[u8] = &[
    0, 0, 0, 0x14, 0x40, 1, 1, 3, 0x40, 2, 6, 2, 1, 0, 0, 0xfd, 0xe8, 0x40, 3, 4, 192, 0, 2, 1, 8,
    10,
];

const CUT_OFF: &[u8] = &[0, 9, 0, 0];

fn number_of_verdict(verdict: &Verdict) -> u8 {
    match verdict {
        Verdict::Take(_, _) => 0,
        Verdict::Withdraw(_, _) => 1,
        Verdict::Reset(_) => 2,
    }
}

fn assert_verdict_copied(
    rt: &(impl Abort + AllocGlobal),
    verdict: &Verdict,
    number: u8,
) -> Result<(), AllocError> {
    assert!(rt; number_of_verdict(verdict) == number);
    let copy = verdict.copy(rt.alloc())?;
    assert!(rt; copy == *verdict);
    Ok(())
}

fn assert_reading_copied(
    rt: &(impl Abort + AllocGlobal),
    body: &[u8],
    number: u8,
) -> Result<(), AllocError> {
    assert!(rt; body.len() >= 4 && body.len() <= 4077);
    let verdict = read_update(rt.alloc(), &session(true), body)?;
    assert_verdict_copied(rt, &verdict, number)
}

#[test]
fn verdicts(rt: HostRuntime) -> Result<(), Fail> {
    assert_reading_copied(&rt, PLAIN, 0)?;
    assert_reading_copied(&rt, WITHDRAWN, 1)?;
    assert_reading_copied(&rt, CUT_OFF, 2)?;
    Ok(())
}

/// The plain UPDATE with AS numbers of two octets.
const NARROW: &[u8] = &[
    0, 0, 0, 0x12, 0x40, 1, 1, 0, 0x40, 2, 4, 2, 1, 0xfd, 0xe8, 0x40, 3, 4, 192, 0, 2, 1, 8, 10,
];

/// The plain UPDATE, as it is read with AS numbers of two octets.
fn narrow(alloc: Global) -> Result<Update, Fail> {
    match read_update(alloc, &session(false), NARROW)? {
        Verdict::Take(update, _notes) => Ok(update),
        _ => Err("an UPDATE that is accepted".into()),
    }
}

fn is_plain(alloc: Global, update: &Update) -> Result<bool, Fail> {
    Ok(plain(alloc)? == *update)
}

#[test]
fn an_update_with_as_numbers_of_two_octets(rt: HostRuntime) -> Result<(), Fail> {
    let update = narrow(rt.alloc())?;
    let same = is_plain(rt.alloc(), &update)?;
    assert!(&rt; same);
    Ok(())
}

/// The body of an OPEN with a capability of each kind.
const OPEN: &[u8] = &[
    4, 0xfd, 0xe9, 0, 0x5a, 192, 0, 2, 1, 16, 2, 14, 1, 4, 0, 1, 0, 1, 65, 4, 0, 0, 0xfd, 0xe9, 2,
    0,
];

fn number_of_capability(capability: &Capability) -> u8 {
    match capability {
        Capability::Multi(_, _) => 0,
        Capability::As4(_) => 1,
        Capability::Other(_, _) => 2,
    }
}

#[test]
fn capabilities(rt: HostRuntime) -> Result<(), Fail> {
    let open = read_open(rt.alloc(), OPEN)?;
    let mut number = 0u8;
    for capability in open.caps.iter() {
        assert!(&rt; number_of_capability(capability) == number);
        assert_copied(&rt, capability)?;
        number = number.wrapping_add(1);
    }
    assert!(&rt; number == 3);
    assert!(&rt; open.copy(rt.alloc())? == open);
    Ok(())
}

/// A message of each kind: an UPDATE that is accepted, one that is treated as a withdrawal, a KEEPALIVE, an OPEN, and a NOTIFICATION.
const MESSAGES: [(Kind, &[u8]); 5] = [
    (Kind::Update, PLAIN),
    (Kind::Update, WITHDRAWN),
    (Kind::Keepalive, &[]),
    (Kind::Open, OPEN),
    (Kind::Notification, &[6, 2, 0x41]),
];

/// The messages as a stream, and after them 19 octets whose header has a fault.
fn stream(alloc: Global) -> Result<Vec<u8>, AllocError> {
    let mut octets = Vec::new(alloc);
    for (kind, body) in MESSAGES {
        octets.extend_from_slice(&head(kind, body.len() as u16))?;
        octets.extend_from_slice(body)?;
    }
    octets.extend_from_slice(&[0; 19])?;
    Ok(octets)
}

fn number_of_outcome(outcome: &Outcome) -> u8 {
    match outcome {
        Outcome::Took(Message::Update(_), _) => 0,
        Outcome::Withdraw(_, _) => 1,
        Outcome::Took(Message::Keepalive, _) => 2,
        Outcome::Took(Message::Open(_), _) => 3,
        Outcome::Took(Message::Notification(_), _) => 4,
        Outcome::Reset(_) => 5,
    }
}

#[test]
fn outcomes(rt: HostRuntime) -> Result<(), Fail> {
    let octets = stream(rt.alloc())?;
    let seen = decode_all(rt.alloc(), &session(true), &[octets.as_slice()])?;
    let mut number = 0u8;
    for (_len, outcome) in seen.outs.iter() {
        assert!(&rt; number_of_outcome(outcome) == number);
        number = number.wrapping_add(1);
    }
    assert!(&rt; number == 6);
    assert!(&rt; seen.copy(rt.alloc())? == seen);
    Ok(())
}

fn number_of_action(action: &Action) -> u8 {
    match action {
        Action::Connect => 0,
        Action::Close => 1,
        Action::SendOpen => 2,
        Action::SendKeepalive => 3,
        Action::Disarm(_) => 4,
        Action::Flush => 5,
        Action::Arm(_, _) => 6,
        Action::SendNotification(_) => 7,
        Action::Withdraw(_) => 8,
        Action::Announce(_, _) => 9,
    }
}

fn assert_action_copied(
    rt: &(impl Abort + AllocGlobal),
    action: &Action,
    number: u8,
) -> Result<(), AllocError> {
    assert!(rt; number_of_action(action) == number);
    let copy = action.copy(rt.alloc())?;
    assert!(rt; copy == *action);
    Ok(())
}

/// An UPDATE with a route of IPv6 in MP_REACH_NLRI and one of IPv4 after its attributes.
const BOTH: &[u8] = &[
    0, 0, 0, 0x31, 0x80, 14, 26, 0, 2, 1, 16, 0x20, 0x01, 0x0d, 0xb8, 0, 0, 0, 0, 0, 0, 0, 0, 0, 0,
    0, 1, 0, 32, 0x20, 0x01, 0x0d, 0xb8, 0x40, 1, 1, 0, 0x40, 2, 6, 2, 1, 0, 0, 0xfd, 0xe8, 0x40,
    3, 4, 192, 0, 2, 1, 8, 10,
];

/// The routes of that UPDATE.
fn routes(alloc: Global) -> Result<Routes, Fail> {
    match view_update(&session(true), BOTH) {
        View::Take(view) => Ok(view.routes(alloc)?),
        _ => Err("taken".into()),
    }
}

fn plain_action(number: u8) -> Action {
    match number {
        0 => Action::Connect,
        1 => Action::Close,
        2 => Action::SendOpen,
        3 => Action::SendKeepalive,
        4 => Action::Disarm(Timer::Retry),
        5 => Action::Flush,
        6 => Action::Arm(Timer::Hold, 90),
        _ => Action::SendNotification(Notification::new(6, 2, b"down")),
    }
}

#[test]
fn actions_without_routes(rt: HostRuntime) -> Result<(), Fail> {
    for number in 0..8u8 {
        let action = plain_action(number);
        assert_action_copied(&rt, &action, number)?;
    }
    Ok(())
}

#[test]
fn routes_of_both_families(rt: HostRuntime) -> Result<(), Fail> {
    let routes = routes(rt.alloc())?;
    assert!(&rt; (routes.ip4.len(), routes.ip6.len()) == (1, 1));
    assert_copied(&rt, &routes)?;
    Ok(())
}

#[test]
fn withdrawals(rt: HostRuntime) -> Result<(), Fail> {
    let action = Action::Withdraw(routes(rt.alloc())?);
    assert_action_copied(&rt, &action, 8)?;
    Ok(())
}

#[test]
fn announcements(rt: HostRuntime) -> Result<(), Fail> {
    let update = plain(rt.alloc())?;
    let info = reconcile(rt.alloc(), &update.attrs)?;
    let action = Action::Announce(update, info);
    assert_action_copied(&rt, &action, 9)?;
    Ok(())
}

/// Withdrawn routes have no path, and so no aggregator.
#[test]
fn no_path(rt: HostRuntime) -> Result<(), Fail> {
    let info = PathInfo {
        path: None,
        aggregator: None,
    };
    assert_copied(&rt, &info)?;
    Ok(())
}

fn number_of_move(one: &Move) -> u8 {
    match one {
        Move::Start(_) => 0,
        Move::Stop(_) => 1,
        Move::Join => 2,
        Move::Refuse(_) => 3,
        Move::Deliver(_, _) => 4,
        Move::Lose => 5,
        Move::Expire(_, _) => 6,
        Move::Send(_, _) => 7,
    }
}

fn assert_move_copied(
    rt: &(impl Abort + AllocGlobal),
    one: &Move,
    number: u8,
) -> Result<(), AllocError> {
    assert!(rt; number_of_move(one) == number);
    let copy = one.copy(rt.alloc())?;
    assert!(rt; copy == *one);
    Ok(())
}

fn plain_move(number: u8) -> Move {
    match number {
        0 => Move::Start(Side::A),
        1 => Move::Stop(Side::B),
        2 => Move::Join,
        3 => Move::Refuse(Side::B),
        4 => Move::Deliver(Side::A, 9999),
        5 => Move::Lose,
        _ => Move::Expire(Side::A, Timer::Keepalive),
    }
}

#[test]
fn moves_without_updates(rt: HostRuntime) -> Result<(), Fail> {
    for number in 0..7u8 {
        let one = plain_move(number);
        assert_move_copied(&rt, &one, number)?;
    }
    Ok(())
}

#[test]
fn moves_that_send(rt: HostRuntime) -> Result<(), Fail> {
    let one = Move::Send(Side::B, plain(rt.alloc())?);
    assert_move_copied(&rt, &one, 7)?;
    Ok(())
}

fn number_of_fault(fault: SendFault) -> u8 {
    match fault {
        SendFault::NotEstablished => 0,
        SendFault::NotValid(_) => 1,
        SendFault::TooLong => 2,
        SendFault::Memory => 3,
    }
}

#[test]
fn refusals_to_send(rt: HostRuntime) -> Result<(), Fail> {
    let mut number = 0u8;
    for fault in [
        SendFault::NotEstablished,
        SendFault::NotValid(Invalid::Mixed),
        SendFault::TooLong,
        SendFault::Memory,
    ] {
        assert!(&rt; number_of_fault(fault) == number);
        assert_copied(&rt, &fault)?;
        number = number.wrapping_add(1);
    }
    assert!(&rt; number == 4);
    Ok(())
}

/// Two speakers establish a session, and A sends an UPDATE and stops; before, B sends one that is refused.
fn schedule(alloc: Global) -> Result<Vec<Move>, Fail> {
    let refused = Move::Send(Side::B, plain(alloc)?);
    let sent = Move::Send(Side::A, plain(alloc)?);
    Ok(vec![in alloc;
        refused,
        Move::Start(Side::A),
        Move::Start(Side::B),
        Move::Join,
        Move::Deliver(Side::B, 9999),
        Move::Deliver(Side::A, 9999),
        Move::Deliver(Side::B, 9999),
        sent,
        Move::Deliver(Side::B, 9999),
        Move::Stop(Side::A),
        Move::Deliver(Side::B, 9999),
    ]?)
}

/// The report of that schedule.
fn report(alloc: Global) -> Result<Report, Fail> {
    let a = Config::new(65001, 65002, [192, 0, 2, 1], 90, true, true, false);
    let b = Config::new(65002, 65001, [192, 0, 2, 2], 30, true, true, false);
    let (a, b) = (a.map_err(|_| "settings")?, b.map_err(|_| "settings")?);
    let moves = schedule(alloc)?;
    Ok(run_pair(alloc, a, b, &moves, &mut MemoryWire)?)
}

/// Each round has an UPDATE that was sent, one that was announced, and a NOTIFICATION.
fn is_full(report: &Report) -> bool {
    for round in report.rounds.iter() {
        if (round.sent_a.len(), round.got_b.len(), round.notes.len()) != (1, 1, 1) {
            return false;
        }
    }
    !report.answers.is_empty()
}

#[test]
fn reports(rt: HostRuntime) -> Result<(), Fail> {
    let report = report(rt.alloc())?;
    assert!(&rt; (report.rounds.len(), report.refused.len()) == (1, 1));
    assert!(&rt; is_full(&report));
    assert!(&rt; report.copy(rt.alloc())? == report);
    Ok(())
}
