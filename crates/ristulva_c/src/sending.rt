//! An UPDATE as a session sends it.

ghost use Rattle.std.specs.Prelude.{◌≡◌, ◌<◌, ◌≤◌, ◌⊎◌, true, None, Some, length};
ghost use Rattle.bgp_update.specs.Prelude.{verdict_of, update_value, notes_value, with_as4, invalid_of};
ghost use Rattle.bgp_machine.specs.declared.state.State.TheVariants as state;
ghost use Rattle.bgp_machine.specs.Prelude.{keepalive_on};
ghost use Rattle.ristulva_c.specs.Prelude.{actions_told, taken_of, without_notes, WithRoom};
ghost use Rattle.ristulva_c.specs.Sending.{IsOutgoing, Sends, SendsBody};

use crate::actions::{Actions, actions_told};
use crate::encode::with_as4;
use crate::handle::SessionHandle;
use crate::messages::{MESSAGE_MAX, put};
use crate::status::{MEMORY, MIXED, NO_SESSION, OK, RANGE, REFUSED, ROOM, STATE, UNWRITABLE};
use bgp_machine::{ActionView, SendFault, Session, State, Timer};
use bgp_open::Context;
use bgp_update::{Found, Update, UpdateView};
use bgp_wire::are_octets;
use std::alloc::Global;

/// The result of a body that is to be sent.
#[derive(Drop)]
pub(crate) enum Outgoing {
    /// It isn't accepted whole.
    Refused,
    /// It has routes of several kinds.
    Mixed,
    /// Its message would be too long.
    TooLong,
    /// An allocation failed.
    Memory,
    /// The message that the session sends.
    Octets(Vec<u8>),
}

/// The result of a valid UPDATE in an Established session.
fn sent(alloc: Global, session: &Session, context: &Context, update: &Update) -> Outgoing
    requires state { session.now.standing.state ≡ state.Established }
    requires agreed { session.now.standing.context ≡ Some context.now }
    requires valid { invalid_of (with_as4 true context.now) update.now ≡ None }
    ensures { IsOutgoing session.now context.now (Some update.now) result }
{
    let mut octets = Vec::new(alloc);
    match session.send(alloc, update, &mut octets) {
        Ok(_) => Outgoing::Octets(octets),
        // No other reason remains.
        Err(SendFault::NotValid(_)) => Outgoing::Mixed,
        Err(SendFault::TooLong) => Outgoing::TooLong,
        Err(SendFault::Memory) => Outgoing::Memory,
        Err(SendFault::NotEstablished) => Outgoing::Refused,
    }
}

/// The result of an UPDATE that is accepted, where it has no note.
fn whole(alloc: Global, session: &Session, context: &Context, view: &UpdateView<'_>) -> Outgoing
    requires state { session.now.standing.state ≡ state.Established }
    requires agreed { session.now.standing.context ≡ Some context.now }
    requires valid { invalid_of (with_as4 true context.now) (update_value view.now) ≡ None }
    ensures { IsOutgoing session.now context.now (without_notes (update_value view.now) (notes_value view.now)) result }
{
    match view.notes().next() {
        Some(_) => Outgoing::Refused,
        None => match view.own(alloc) {
            Ok(update) => sent(alloc, session, context, &update),
            Err(_) => Outgoing::Memory,
        },
    }
}

/// The result of a body, with 4-octet AS numbers.
fn made_of(alloc: Global, session: &Session, context: &Context, body: &[u8]) -> Outgoing
    requires state { session.now.standing.state ≡ state.Established }
    requires agreed { session.now.standing.context ≡ Some context.now }
    requires short { length body.now ≤ 4077 }
    ensures { IsOutgoing session.now context.now (taken_of (verdict_of (with_as4 true context.now) body.now)) result }
{
    are_octets(body);
    let wide = with_as4(true, context);
    let mut view = UpdateView::empty();
    match view.judge(&wide, body) {
        Found::Take => whole(alloc, session, context, &view),
        Found::Withdraw | Found::Reset(_) => Outgoing::Refused,
    }
}

/// What is to be done when an UPDATE was sent: the Keepalive Timer is restarted.
fn rearmed(context: &Context) -> Actions
    ensures { result ≡ actions_told (keepalive_on context.now) }
{
    if context.hold > 0 {
        actions_told(&[ActionView::Arm(Timer::Keepalive, context.hold / 3)])
    } else {
        actions_told(&[])
    }
}

/// Sends a body in the context of a session that is Established.
fn send_body(
    alloc: Global,
    session: &Session,
    context: &Context,
    body: &[u8],
    actions: &mut Actions,
    message: &mut [u8],
    len: &mut usize,
) -> u32
    requires state { session.now.standing.state ≡ state.Established }
    requires agreed { session.now.standing.context ≡ Some context.now }
    ensures { SendsBody session.now context.now body.now (record { status = result; old = Some session.now; new = Some session.now; actions_before = actions.old; actions_behind = actions.new; message_before = message.old; message_behind = message.new; len_before = len.old; len_behind = len.new }) }
{
    if body.len() > 4077 {
        return RANGE;
    }
    match made_of(alloc, session, context, body) {
        Outgoing::Refused => REFUSED,
        Outgoing::Mixed => MIXED,
        Outgoing::TooLong => UNWRITABLE,
        Outgoing::Memory => MEMORY,
        Outgoing::Octets(octets) => {
            *actions = rearmed(context);
            *len = put(&octets, message);
            OK
        }
    }
}

/// Sends a body as the session sends it now.
fn send(
    alloc: Global,
    session: &Session,
    body: &[u8],
    actions: &mut Actions,
    message: &mut [u8],
    len: &mut usize,
) -> u32
    ensures { Sends (Some session.now) body.now (record { status = result; old = Some session.now; new = Some session.now; actions_before = actions.old; actions_behind = actions.new; message_before = message.old; message_behind = message.new; len_before = len.old; len_behind = len.new }) }
{
    match session.state() {
        State::Established => match session.context() {
            Some(context) => send_body(alloc, session, context, body, actions, message, len),
            None => STATE,
        },
        State::Idle | State::Connect | State::Active | State::OpenSent | State::OpenConfirm =>
            STATE,
    }
}

/// Writes an UPDATE with 4-octet AS numbers, given as a body in any form, as a session sends it now, and reports what
/// is to be done.
#[unsafe(no_mangle)]
pub extern "C" fn ristulva_session_send(
    alloc: Global,
    session: &mut SessionHandle,
    body: &[u8],
    actions: &mut Actions,
    message: &mut [u8],
    len: &mut usize,
) -> u32
    ensures { WithRoom (Sends session.old.value body.now) (record { status = result; old = session.old.value; new = session.new.value; actions_before = actions.old; actions_behind = actions.new; message_before = message.old; message_behind = message.new; len_before = len.old; len_behind = len.new }) }
{
    if message.len() < MESSAGE_MAX {
        return ROOM;
    }
    let Some(session_body) = session.take(alloc) else {
        return NO_SESSION;
    };
    let status = send(alloc, &session_body, body, actions, message, len);
    session.put(session_body);
    status
}
