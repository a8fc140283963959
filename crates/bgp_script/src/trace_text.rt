//! The printed form of a move's outcome.

ghost use Rattle.std.specs.Prelude.{◌≡◌, ◌++◌, codes, OnOk, IfOk};
ghost use Rattle.std.specs.List.{flat_map};
ghost use Rattle.std.specs.String.{string_bytes};
ghost use Rattle.bgp_script.specs.NoteList.{side_name};
ghost use Rattle.bgp_script.specs.TraceText.{timer_name, move_words, move_line, action_words, behind_semicolon, step_line, event_words, tried_words, heard_words, cut_line};

use crate::note_list::side_name;
use crate::report_text::{fault_number, state_name};
use bgp_session::{Action, Event, Move, SendFault, Side, State, Timer};
use std::alloc::{AllocError, Global};

// The name of a timer.
fn timer_name(timer: Timer) -> &'static str
    ensures { result.now ≡ timer_name timer }
{
    match timer {
        Timer::Retry => "retry",
        Timer::Hold => "hold",
        Timer::Keepalive => "keepalive",
    }
}

// Adds a name and a side.
fn put_named(text: &mut String, name: &str, side: Side) -> Result<(), AllocError>
    ensures { OnOk result (string_bytes text.new ≡ string_bytes text.old ++ (name.now ++ side_name side)) }
{
    text.push_str(name)?;
    text.push_str(side_name(side))
}

// Adds the words of a move.
fn put_move_words(text: &mut String, one: &Move) -> Result<(), AllocError>
    ensures { OnOk result (string_bytes text.new ≡ string_bytes text.old ++ move_words one.now) }
{
    match one {
        Move::Start(side) => put_named(text, "start ", *side),
        Move::Stop(side) => put_named(text, "stop ", *side),
        Move::Join => text.push_str("join"),
        Move::Refuse(side) => put_named(text, "refuse ", *side),
        Move::Deliver(side, count) => {
            let side = side_name(*side);
            write!(text, "deliver {side} {count}")
        }
        Move::Lose => text.push_str("lose"),
        Move::Expire(side, timer) => {
            let side = side_name(*side);
            let timer = timer_name(*timer);
            write!(text, "expire {side} {timer}")
        }
        Move::Send(side, _) => put_named(text, "send ", *side),
    }
}

/// Adds the line of a move: `move`, and its words as in a script, without the octets of an UPDATE.
///
/// # Errors
/// `AllocError` where an allocation failed: a part of the line may remain.
pub fn put_move(text: &mut String, one: &Move) -> Result<(), AllocError>
    ensures { OnOk result (string_bytes text.new ≡ string_bytes text.old ++ move_line one.now) }
{
    text.push_str("move ")?;
    put_move_words(text, one)?;
    text.push_str("\n")
}

// Adds an action of a session.
fn put_action(text: &mut String, action: &Action) -> Result<(), AllocError>
    ensures { OnOk result (string_bytes text.new ≡ string_bytes text.old ++ action_words action.now) }
{
    match action {
        Action::Connect => text.push_str("connect"),
        Action::Close => text.push_str("close"),
        Action::SendOpen => text.push_str("send OPEN"),
        Action::SendKeepalive => text.push_str("send KEEPALIVE"),
        Action::SendNotification(why) => {
            let code = why.code;
            let subcode = why.subcode;
            write!(text, "send NOTIFICATION {code}/{subcode}")
        }
        Action::Arm(timer, seconds) => {
            let timer = timer_name(*timer);
            write!(text, "arm {timer} {seconds}")
        }
        Action::Disarm(timer) => {
            text.push_str("disarm ")?;
            text.push_str(timer_name(*timer))
        }
        Action::Announce(_, _) => text.push_str("announce"),
        Action::Withdraw(_) => text.push_str("withdraw"),
        Action::Flush => text.push_str("flush"),
    }
}

// Adds it after a semicolon.
fn put_behind_semicolon(text: &mut String, action: &Action) -> Result<(), AllocError>
    ensures { OnOk result (string_bytes text.new ≡ string_bytes text.old ++ behind_semicolon action.now) }
{
    text.push_str("; ")?;
    put_action(text, action)
}

// Adds all actions of a session.
fn put_actions(text: &mut String, actions: &[Action]) -> Result<(), AllocError>
    ensures { OnOk result (string_bytes text.new ≡ string_bytes text.old ++ flat_map behind_semicolon actions.now) }
{
    'actions: for action in actions {
        put_behind_semicolon(text, action)?;
    }
    Ok(())
}

// Adds the line of an event at a side.
fn put_step(
    text: &mut String,
    side: Side,
    cause: &str,
    state: State,
    actions: &[Action],
) -> Result<(), AllocError>
    ensures { OnOk result (string_bytes text.new ≡ string_bytes text.old ++ step_line side cause.now state actions.now) }
{
    let side = side_name(side);
    let state = state_name(state);
    write!(text, "{side} {cause}: {state}")?;
    put_actions(text, actions)?;
    text.push_str("\n")
}

// The event, in words.
fn event_words(event: Event) -> &'static str
    ensures { result.now ≡ event_words event }
{
    match event {
        Event::Start => "start",
        Event::Stop => "stop",
        Event::Connected => "connected",
        Event::Failed => "failed",
        Event::Expired(Timer::Retry) => "expired retry",
        Event::Expired(Timer::Hold) => "expired hold",
        Event::Expired(Timer::Keepalive) => "expired keepalive",
    }
}

/// Adds the line of an event at a side: the side, the event, the state after it and the actions of the session.
///
/// # Errors
/// `AllocError` where an allocation failed: a part of the line may remain.
pub fn put_event(
    text: &mut String,
    side: Side,
    event: Event,
    state: State,
    actions: &[Action],
) -> Result<(), AllocError>
    ensures { OnOk result (string_bytes text.new ≡ string_bytes text.old ++ step_line side (event_words event) state actions.now) }
{
    put_step(text, side, event_words(event), state, actions)
}

/// Adds the line of a message that a side received, after the lines of the message itself.
///
/// # Errors
/// `AllocError` where an allocation failed: a part of the line may remain.
pub fn put_heard(
    text: &mut String,
    side: Side,
    state: State,
    actions: &[Action],
) -> Result<(), AllocError>
    ensures { OnOk result (string_bytes text.new ≡ string_bytes text.old ++ step_line side heard_words state actions.now) }
{
    put_step(text, side, "heard", state, actions)
}

// The outcome of an UPDATE that was to be sent, in words.
fn tried_words(alloc: Global, fault: Option<SendFault>) -> Result<String, AllocError>
    ensures { IfOk result (λ text. string_bytes text ≡ tried_words fault) }
{
    match fault {
        None => "sends".to_string(alloc),
        Some(fault) => {
            let number = fault_number(&fault);
            format!(in alloc; "refused {number}")
        }
    }
}

/// Adds the line of an UPDATE that a side was to send: that it sends it, or why it doesn't, with the number that a report has for that.
///
/// # Errors
/// `AllocError` where an allocation failed: a part of the line may remain.
pub fn put_tried(
    alloc: Global,
    text: &mut String,
    side: Side,
    fault: Option<SendFault>,
    state: State,
    actions: &[Action],
) -> Result<(), AllocError>
    ensures { OnOk result (string_bytes text.new ≡ string_bytes text.old ++ step_line side (tried_words fault) state actions.now) }
{
    let words = tried_words(alloc, fault)?;
    put_step(text, side, words.as_str(), state, actions)
}

/// Adds the line that both sides have left the connection.
///
/// # Errors
/// `AllocError` where an allocation failed.
pub fn put_cut(text: &mut String) -> Result<(), AllocError>
    ensures { OnOk result (string_bytes text.new ≡ string_bytes text.old ++ cut_line) }
{
    text.push_str("cut\n")
}
