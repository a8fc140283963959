//! What a session does, as lines.

use crate::copies::is_action_copied;
use crate::speakers::put_context;
use bgp_open::Context;
use bgp_rows::copies::OTHERWISE;
use bgp_rows::page::Page;
use bgp_rows::paths::put_path;
use bgp_rows::trouble::Trouble;
use bgp_session::{Action, Actions, Session, Timer};
use std::alloc::Global;

/// Why what a session announces can't be printed.
const NO_CONTEXT: Trouble = Trouble::Row("an UPDATE where both sides agreed");

/// The timers by their names.
const TIMERS: [(Timer, &str); 3] = [
    (Timer::Retry, "Retry"),
    (Timer::Hold, "Hold"),
    (Timer::Keepalive, "Keepalive"),
];

fn timer_name(timer: Timer) -> &'static str {
    match timer {
        Timer::Retry => "Retry",
        Timer::Hold => "Hold",
        Timer::Keepalive => "Keepalive",
    }
}

/// Adds the line of an action, and those of what it carries.
fn put_action(
    alloc: Global,
    page: &mut Page,
    ctx: Option<&Context>,
    action: &Action,
) -> Result<(), Trouble> {
    match action {
        Action::Connect => page.put("connect\n"),
        Action::Close => page.put("close\n"),
        Action::SendOpen => page.put("send OPEN\n"),
        Action::SendKeepalive => page.put("send KEEPALIVE\n"),
        Action::Flush => page.put("flush\n"),
        Action::SendNotification(told) => {
            page.put("send NOTIFICATION ")?;
            page.put_notification(alloc, told)?;
            page.put("\n")
        }
        Action::Arm(timer, seconds) => {
            let timer = timer_name(*timer);
            let seconds = *seconds;
            Ok(write!(page.text, "arm {timer} {seconds}\n")?)
        }
        Action::Disarm(timer) => {
            page.put("disarm ")?;
            page.put(timer_name(*timer))?;
            page.put("\n")
        }
        Action::Announce(update, info) => {
            page.put("announce\n")?;
            page.put_update(alloc, ctx.ok_or(NO_CONTEXT)?, update)?;
            page.put("by way of\n")?;
            put_path(alloc, page, info.copy(alloc)?)
        }
        Action::Withdraw(routes) => {
            page.put("withdraw\n")?;
            page.put_routes(routes)
        }
    }
}

/// Adds the lines of actions of a session, and a line for one that doesn't equal its copy.
pub(crate) fn put_actions(
    alloc: Global,
    page: &mut Page,
    session: &Session,
    actions: &Actions,
) -> Result<(), Trouble> {
    for action in actions.as_slice() {
        if !is_action_copied(alloc, action)? {
            page.put(OTHERWISE)?;
        }
        put_action(alloc, page, session.context(), action)?;
    }
    Ok(())
}

/// Adds a session's state, what was agreed on, the timers that run, and the number of octets held.
pub(crate) fn put_standing(
    alloc: Global,
    page: &mut Page,
    session: &Session,
) -> Result<(), Trouble> {
    page.put("is ")?;
    page.put_name(alloc, &session.state())?;
    if let Some(ctx) = session.context() {
        page.put(", ")?;
        put_context(alloc, page, ctx)?;
    }
    for (timer, name) in TIMERS {
        if session.running(timer) {
            page.put(", ")?;
            page.put(name)?;
            page.put(" runs")?;
        }
    }
    if session.held() > 0 {
        page.put(", held ")?;
        page.put_value(alloc, &session.held())?;
    }
    page.put("\n")
}
