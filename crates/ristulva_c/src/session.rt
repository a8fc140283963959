//! A session's life: it is made, gets events, and is freed.

ghost use Rattle.std.specs.Prelude.{◌≡◌, ◌≤◌, ◌⊎◌};
ghost use Rattle.bgp_open.specs.Prelude.{config_of};
ghost use Rattle.ristulva_c.specs.Prelude.{settings_of, IsStateTold, Follows, WithRoom};
ghost use Rattle.ristulva_c.specs.Session.{IsMade, IsFreed};
ghost use Rattle.ristulva_c.specs.States.{event_of};

use crate::actions::{Actions, actions_told};
use crate::config::{SpeakerConfig, config_of};
use crate::handle::SessionHandle;
use crate::messages::{MESSAGE_MAX, send_first};
use crate::states::{event_of, number_of_state};
use crate::status::{CONFIG, IN_USE, MEMORY, NO_SESSION, OK, RANGE, ROOM};
use bgp_machine::Session;
use std::alloc::Global;

/// Makes a session in Idle, where the handle has none.
#[unsafe(no_mangle)]
pub extern "C" fn ristulva_session_new(
    alloc: Global,
    config: &SpeakerConfig,
    session: &mut SessionHandle,
) -> u32
    ensures { IsMade (config_of (settings_of config.now)) session.old.value result session.new.value }
{
    if let Some(body) = session.take(alloc) {
        session.put(body);
        return IN_USE;
    }
    let Ok(config) = config_of(config) else {
        return CONFIG;
    };
    match Box::new(alloc, Session::new(config)) {
        Err(_) => MEMORY,
        Ok(body) => {
            session.put(body);
            OK
        }
    }
}

/// Frees a session.
#[unsafe(no_mangle)]
pub extern "C" fn ristulva_session_free(alloc: Global, session: &mut SessionHandle) -> u32
    ensures { IsFreed session.old.value result session.new.value }
{
    match session.take(alloc) {
        None => NO_SESSION,
        Some(_body) => OK,
    }
}

/// Reports the state of a session.
#[unsafe(no_mangle)]
pub extern "C" fn ristulva_session_state(
    alloc: Global,
    session: &mut SessionHandle,
    state: &mut u8,
) -> u32
    ensures kept { session.new.value ≡ session.old.value }
    ensures told { IsStateTold session.old.value result state.old state.new }
{
    let Some(body) = session.take(alloc) else {
        return NO_SESSION;
    };
    *state = number_of_state(body.state());
    session.put(body);
    OK
}

/// Passes an event to a session, and reports what is to be done.
#[unsafe(no_mangle)]
pub extern "C" fn ristulva_session_event(
    alloc: Global,
    session: &mut SessionHandle,
    event: u32,
    actions: &mut Actions,
    message: &mut [u8],
    len: &mut usize,
) -> u32
    ensures { WithRoom (Follows (event_of event) session.old.value) (record { status = result; old = session.old.value; new = session.new.value; actions_before = actions.old; actions_behind = actions.new; message_before = message.old; message_behind = message.new; len_before = len.old; len_behind = len.new }) }
{
    if message.len() < MESSAGE_MAX {
        return ROOM;
    }
    let Some(event) = event_of(event) else {
        return RANGE;
    };
    let Some(mut body) = session.take(alloc) else {
        return NO_SESSION;
    };
    let found = body.event_view(event);
    *actions = actions_told(found.as_slice());
    *len = send_first(body.own_frame(), found.as_slice(), message);
    session.put(body);
    OK
}
