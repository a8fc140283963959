//! Carrying out actions.

ghost use Rattle.std.specs.Prelude.{◌≡◌, [], ◌∷◌};
ghost use Rattle.bgp_machine.specs.Prelude.{notification_octets};
ghost use Rattle.bgp_host.specs.Prelude.{Sought, Grows, ticks_of, notices_of, sends, sought, sent, Answers, Asks, CarriesOut};

use crate::clock::Clock;
use crate::connection::Connection;
use crate::link::Link;
use crate::observer::Observer;
use arrayvec::ArrayVec;
use bgp_frame::{Kind, Notification, head};
use bgp_machine::{Action, Actions};

/// The length of the longest message.
const MESSAGE_MAX: usize = 4096;

/// The whole message of a NOTIFICATION.
fn notification(why: &Notification) -> ArrayVec<u8, MESSAGE_MAX>
    ensures { result.items ≡ notification_octets why.now }
{
    let info = why.info.as_slice();
    let mut octets = ArrayVec::new();
    let _ = octets.try_extend_from_slice(&head(Kind::Notification, (2 + info.len()) as u16));
    let _ = octets.try_extend_from_slice(&[why.code, why.subcode]);
    let _ = octets.try_extend_from_slice(info);
    octets
}

/// Seeks a connection.
fn seek<C: Connection>(connection: &mut C) -> Link
    ensures { Answers (λ answer. Sought answer ∷ []) sought (C.calls connection.old) (C.calls connection.new) result }
{
    if connection.seek() {
        Link::Up
    } else {
        Link::Down
    }
}

/// Sends octets, unless the connection has failed.
#[tactic(auto, using(crate::proofs::Records::grows_none))]
pub(crate) fn put<C: Connection>(connection: &mut C, link: Link, octets: &[u8]) -> Link
    ensures { Answers (sends link octets.now) (sent link) (C.calls connection.old) (C.calls connection.new) result }
{
    if link == Link::Down {
        return link;
    }
    if connection.send(octets) {
        link
    } else {
        Link::Down
    }
}

/// Makes the call of the connection for an action.
#[tactic(auto, using(crate::proofs::Records::grows_none))]
fn ask<C: Connection>(connection: &mut C, own: &[u8], link: Link, action: &Action) -> Link
    ensures { Asks own.now link action.now (C.calls connection.old) (C.calls connection.new) result }
{
    match action {
        Action::Connect => seek(connection),
        Action::Close => {
            connection.close();
            link
        }
        Action::SendOpen => put(connection, link, own),
        Action::SendKeepalive => put(connection, link, &head(Kind::Keepalive, 0)),
        Action::SendNotification(why) => put(connection, link, &notification(why)),
        Action::Arm(_, _)
        | Action::Disarm(_)
        | Action::Announce(_, _)
        | Action::Withdraw(_)
        | Action::Flush => link,
    }
}

/// Makes the call of the clock for an action.
#[tactic(auto, using(crate::proofs::Records::grows_none))]
fn tick<K: Clock>(clock: &mut K, action: &Action)
    ensures { Grows (K.ticks clock.old) (K.ticks clock.new) (ticks_of action.now) }
{
    match action {
        Action::Arm(timer, seconds) => clock.arm(*timer, *seconds),
        Action::Disarm(timer) => clock.disarm(*timer),
        Action::Connect
        | Action::Close
        | Action::SendOpen
        | Action::SendKeepalive
        | Action::SendNotification(_)
        | Action::Announce(_, _)
        | Action::Withdraw(_)
        | Action::Flush => {}
    }
}

/// Makes the call of the observer for an action.
#[tactic(auto, using(crate::proofs::Records::grows_none))]
fn notice<O: Observer>(observer: &mut O, action: &Action)
    ensures { Grows (O.notices observer.old) (O.notices observer.new) (notices_of action.now) }
{
    match action {
        Action::Announce(update, info) => observer.announce(update, info),
        Action::Withdraw(routes) => observer.withdraw(routes),
        Action::Flush => observer.flush(),
        Action::Connect
        | Action::Close
        | Action::SendOpen
        | Action::SendKeepalive
        | Action::SendNotification(_)
        | Action::Arm(_, _)
        | Action::Disarm(_) => {}
    }
}

/// Carries out actions, in order. Once the connection has failed nothing more is sent; all else is done.
pub(crate) fn carry_out<C: Connection, K: Clock, O: Observer>(
    own: &[u8],
    link: Link,
    actions: &Actions,
    connection: &mut C,
    clock: &mut K,
    observer: &mut O,
) -> Link
    ensures { CarriesOut own.now link actions.now.items
        (record { calls = C.calls connection.old; ticks = K.ticks clock.old; notices = O.notices observer.old })
        (record { calls = C.calls connection.new; ticks = K.ticks clock.new; notices = O.notices observer.new }) result }
{
    let mut link = link;
    'actions: for action in actions {
        link = ask(connection, own, link, action);
        tick(clock, action);
        notice(observer, action);
    }
    link
}
