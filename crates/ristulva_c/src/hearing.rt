//! What a session receives.

ghost use Rattle.std.specs.Prelude.{◌≡◌, ◌≤◌, ◌⊎◌, Some, length, take, drop};
ghost use Rattle.bgp_frame.specs.Prelude.{notification_of_view};
ghost use Rattle.ristulva_c.specs.Hearing.{number_of_heard, said_in, parts_heard, heard_told, SessionHears, HearsFirst, IsFoundTold};

use crate::actions::{Actions, actions_told};
use crate::handle::SessionHandle;
use crate::judge::{KEEPALIVE, NOTIFICATION, OPEN, RESET, UPDATE, WITHDRAW};
use crate::messages::{MESSAGE_MAX, send_first};
use crate::parts::{ToldParts, no_parts, parts_in};
use crate::states::is_up;
use crate::status::{INCOMPLETE, NO_SESSION, OK, ROOM, STATE};
use bgp_frame::NotificationView;
use bgp_machine::{ActionViews, Heard, Look, Next, Session};
use bgp_update::UpdateView;
use std::alloc::Global;

/// What a session received: a message, or a header with a fault.
#[repr(C)]
#[derive(Clone, Copy)]
pub struct ToldHeard {
    /// `OPEN`, `UPDATE`, `NOTIFICATION`, `KEEPALIVE`, `WITHDRAW` or `RESET`.
    pub heard: u8,
    /// The code of the NOTIFICATION that was received or that ends the session; else 0.
    pub code: u8,
    /// Its subcode.
    pub subcode: u8,
    /// The number of octets consumed.
    pub len: u32,
    /// The parts of an UPDATE, where it doesn't end the session.
    pub parts: ToldParts,
}

/// The number of what is received.
fn number_of_heard(heard: &Heard<'_>) -> u8
    ensures { result ≡ number_of_heard heard.now }
{
    match heard {
        Heard::Open(_, _) => OPEN,
        Heard::Keepalive => KEEPALIVE,
        Heard::Update(_) => UPDATE,
        Heard::Withdraw(_) => WITHDRAW,
        Heard::Notification(_) => NOTIFICATION,
        Heard::Reset(_) | Heard::Refused(_) => RESET,
    }
}

/// The NOTIFICATION that was received or that ends the session: zeros where there is none.
fn said_in<'a>(heard: &'a Heard<'a>) -> NotificationView<'a>
    ensures { notification_of_view result ≡ said_in heard.now }
{
    match heard {
        Heard::Notification(said) => *said,
        Heard::Reset(why) => *why,
        Heard::Refused(why) => why.view(),
        Heard::Open(_, _) | Heard::Keepalive | Heard::Update(_) | Heard::Withdraw(_) => {
            NotificationView {
                code: 0,
                subcode: 0,
                info: &[],
            }
        }
    }
}

/// The spans of the parts of what is received, in the message with this body.
fn parts_heard(heard: &Heard<'_>, body: &[u8]) -> ToldParts
    requires { length body.now ≤ 4077 }
    ensures { result ≡ parts_heard heard.now body.now }
{
    match heard {
        Heard::Update(_) | Heard::Withdraw(_) => parts_in(body),
        _ => no_parts(),
    }
}

/// The body of the message of length `len` that octets begin with.
fn body_of(octets: &[u8], len: usize) -> &[u8]
    requires short { length octets.now ≤ 4096 }
    requires within { len ≤ length octets.now }
    ensures body { result.now ≡ drop 19 (take len octets.now) }
    ensures short { length result.now ≤ 4077 }
{
    let (message, _) = octets.split_at(len);
    if message.len() < 19 {
        return &[];
    }
    let (_, body) = message.split_at(19);
    body
}

/// What is received, in numbers.
fn heard_told(look: &Look<'_>, octets: &[u8]) -> ToldHeard
    requires short { length octets.now ≤ 4096 }
    requires within { look.now.taken ≤ length octets.now }
    ensures { result ≡ heard_told look.now octets.now }
{
    let taken = look.taken();
    let heard = look.heard();
    let said = said_in(heard);
    ToldHeard {
        heard: number_of_heard(heard),
        code: said.code,
        subcode: said.subcode,
        len: taken as u32,
        parts: parts_heard(heard, body_of(octets, taken)),
    }
}

/// The first octets, at most the length of the longest message.
fn longest(octets: &[u8]) -> &[u8]
    ensures front { result.now ≡ take 4096 octets.now }
    ensures short { length result.now ≤ 4096 }
{
    if octets.len() <= MESSAGE_MAX {
        return octets;
    }
    let (front, _) = octets.split_at(MESSAGE_MAX);
    front
}

/// Reports what the message that octets begin with makes a session do, and where it continues then: none where they are
/// less than a message.
fn tell_found(
    session: &Session,
    octets: &[u8],
    heard: &mut ToldHeard,
    actions: &mut Actions,
    message: &mut [u8],
    len: &mut usize,
) -> Option<Next>
    requires { length octets.now ≤ 4096 }
    ensures { IsFoundTold session.now octets.now result
        (record { heard_before = heard.old; heard_behind = heard.new })
        (λ status new. record { status = status; old = Some session.now; new = Some new; actions_before = actions.old; actions_behind = actions.new; message_before = message.old; message_behind = message.new; len_before = len.old; len_behind = len.new }) }
{
    let mut view = UpdateView::empty();
    let look = session.look(octets, &mut view)?;
    *heard = heard_told(&look, octets);
    let mut found = ActionViews::new();
    let next = look.act(&mut found);
    *actions = actions_told(found.as_slice());
    *len = send_first(session.own_frame(), found.as_slice(), message);
    Some(next)
}

/// Passes the message that octets begin with to a session.
fn hear(
    session: &mut Session,
    octets: &[u8],
    heard: &mut ToldHeard,
    actions: &mut Actions,
    message: &mut [u8],
    len: &mut usize,
) -> u32
    requires { length octets.now ≤ 4096 }
    ensures { SessionHears (Some session.old) octets.now
        (record { heard_before = heard.old; heard_behind = heard.new })
        (record { status = result; old = Some session.old; new = Some session.new; actions_before = actions.old; actions_behind = actions.new; message_before = message.old; message_behind = message.new; len_before = len.old; len_behind = len.new }) }
{
    if !is_up(session.state()) {
        return STATE;
    }
    match tell_found(session, octets, heard, actions, message, len) {
        None => INCOMPLETE,
        Some(next) => {
            session.go(next);
            OK
        }
    }
}

/// Passes the message, or the header with a fault, that octets begin with to a session, and reports what is to be done.
#[unsafe(no_mangle)]
pub extern "C" fn ristulva_session_hear(
    alloc: Global,
    session: &mut SessionHandle,
    octets: &[u8],
    heard: &mut ToldHeard,
    actions: &mut Actions,
    message: &mut [u8],
    len: &mut usize,
) -> u32
    ensures { HearsFirst session.old.value octets.now
        (record { heard_before = heard.old; heard_behind = heard.new })
        (record { status = result; old = session.old.value; new = session.new.value; actions_before = actions.old; actions_behind = actions.new; message_before = message.old; message_behind = message.new; len_before = len.old; len_behind = len.new }) }
{
    if message.len() < MESSAGE_MAX {
        return ROOM;
    }
    let Some(mut body) = session.take(alloc) else {
        return NO_SESSION;
    };
    let status = hear(&mut body, longest(octets), heard, actions, message, len);
    session.put(body);
    status
}
