//! What a session wants done.

ghost use Rattle.std.specs.Prelude.{◌≡◌, ◌≤◌, ◌∷◌, [], length, map};
ghost use Rattle.bgp_machine.specs.Prelude.{action_of};
ghost use Rattle.ristulva_c.specs.Prelude.{plain, no_action, action_told, first_told, rest_of, count_of, actions_told};

use crate::states::number_of_timer;
use bgp_machine::ActionView;

/// Nothing is to be done.
pub const NOTHING: u8 = 0;

/// Seek a connection to the peer.
pub const SEEK: u8 = 1;

/// Close the connection, or abandon the attempt.
pub const CLOSE: u8 = 2;

/// Send the session's own OPEN.
pub const SEND_OPEN: u8 = 3;

/// Send a KEEPALIVE.
pub const SEND_KEEPALIVE: u8 = 4;

/// Send a NOTIFICATION.
pub const SEND_NOTIFICATION: u8 = 5;

/// Start or restart the timer.
pub const ARM: u8 = 6;

/// Stop the timer.
pub const DISARM: u8 = 7;

/// The peer announces and withdraws routes.
pub const ANNOUNCE: u8 = 8;

/// The peer's message is treated as a withdrawal of its routes (RFC 7606, section 2).
pub const WITHDRAW_ROUTES: u8 = 9;

/// The session has ended, and all routes of the peer with it.
pub const FLUSH: u8 = 10;

/// One thing to be done.
#[repr(C)]
#[derive(Clone, Copy)]
pub struct Action {
    /// `SEEK` to `FLUSH`, or `NOTHING`.
    pub kind: u8,
    /// The number of the timer; else 0.
    pub timer: u8,
    /// How long it is to run, in seconds, where it is started; else 0.
    pub seconds: u16,
    /// The code of the NOTIFICATION; else 0.
    pub code: u8,
    /// Its subcode.
    pub subcode: u8,
}

/// What is to be done, in order.
#[repr(C)]
#[derive(Clone, Copy)]
pub struct Actions {
    /// The number of actions: at most five.
    pub count: usize,
    /// The actions, and `NOTHING` after the last.
    pub list: [Action; 5],
}

/// Nothing is to be done.
#[inline(always)]
fn no_action() -> Action
    ensures { result ≡ no_action }
{
    plain(NOTHING)
}

/// An action without arguments.
#[inline(always)]
fn plain(kind: u8) -> Action
    ensures { result ≡ plain kind }
{
    Action {
        kind,
        timer: 0,
        seconds: 0,
        code: 0,
        subcode: 0,
    }
}

/// An action in numbers.
fn action_told(action: &ActionView<'_>) -> Action
    ensures { result ≡ action_told (action_of action.now) }
{
    match action {
        ActionView::Connect => plain(SEEK),
        ActionView::Close => plain(CLOSE),
        ActionView::SendOpen => plain(SEND_OPEN),
        ActionView::SendKeepalive => plain(SEND_KEEPALIVE),
        ActionView::SendNotification(why) => Action {
            code: why.code,
            subcode: why.subcode,
            ..plain(SEND_NOTIFICATION)
        },
        ActionView::Arm(timer, seconds) => Action {
            timer: number_of_timer(*timer),
            seconds: *seconds,
            ..plain(ARM)
        },
        ActionView::Disarm(timer) => Action {
            timer: number_of_timer(*timer),
            ..plain(DISARM)
        },
        ActionView::Announce(_) => plain(ANNOUNCE),
        ActionView::Withdraw(_) => plain(WITHDRAW_ROUTES),
        ActionView::Flush => plain(FLUSH),
    }
}

/// The first action in numbers, and those after it.
#[inline(always)]
fn first<'a, 'b>(actions: &'b [ActionView<'a>]) -> (Action, &'b [ActionView<'a>])
    ensures first { result.0 ≡ first_told (map action_of actions.now) }
    ensures rest { map action_of result.1.now ≡ rest_of (map action_of actions.now) }
{
    match actions.split_first() {
        None => (no_action(), actions),
        Some((action, rest)) => (action_told(action), rest),
    }
}

/// The number of actions.
#[inline(always)]
fn count_of(actions: &[ActionView<'_>]) -> usize
    ensures value { result ≡ count_of (map action_of actions.now) }
    ensures bound { result ≤ 5 }
{
    let count = actions.len();
    if count > 5 { 5 } else { count }
}

/// The actions in numbers.
#[inline(always)]
pub(crate) fn actions_told(actions: &[ActionView<'_>]) -> Actions
    ensures told { result ≡ actions_told (map action_of actions.now) }
    ensures bound { result.count ≤ 5 }
{
    let (one, rest) = first(actions);
    let (two, rest) = first(rest);
    let (three, rest) = first(rest);
    let (four, rest) = first(rest);
    let (five, _) = first(rest);
    Actions {
        count: count_of(actions),
        list: [one, two, three, four, five],
    }
}
