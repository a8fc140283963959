//! A session's events, octets and sends, and what it does for each.

use crate::scripts::config_of;
use crate::steps::{put_actions, put_standing};
use bgp_frame::head;
use bgp_msg::{Kind, Message};
use bgp_open::Context;
use bgp_rows::octets::{Octets, add_octets};
use bgp_rows::page::Page;
use bgp_rows::row::{Row, split_word};
use bgp_rows::trouble::Trouble;
use bgp_rows::written::message_of;
use bgp_session::{Actions, Event, SendFault, Session, State, Timer};
use bgp_update::Update;
use std::alloc::Global;

/// The line for a session that a refused call changed.
const CHANGED: &str = "a session that lacked memory isn't as it was\n";

/// How octets are handed to a session.
#[derive(Clone, Copy)]
enum Way {
    /// Fed in one piece, and again while octets are left, with steps until there is no outcome.
    Whole,
    /// Fed octet by octet.
    Octets,
    /// Pulled from the piece.
    Pulled,
}

const WAYS: [(Way, &str); 3] = [
    (Way::Whole, ""),
    (Way::Octets, "octet by octet:\n"),
    (Way::Pulled, "by pull:\n"),
];

/// The event of a word and the words after it.
fn event_of(word: &str, rest: &str) -> Option<Event> {
    match (word, rest) {
        ("start", "") => Some(Event::Start),
        ("stop", "") => Some(Event::Stop),
        ("connected", "") => Some(Event::Connected),
        ("failed", "") => Some(Event::Failed),
        ("expire", "retry") => Some(Event::Expired(Timer::Retry)),
        ("expire", "hold") => Some(Event::Expired(Timer::Hold)),
        ("expire", "keepalive") => Some(Event::Expired(Timer::Keepalive)),
        _ => None,
    }
}

/// What a call whose allocation failed must leave unchanged.
fn standing(session: &Session) -> (State, Option<Context>, usize) {
    (session.state(), session.context().copied(), session.held())
}

/// Judges the octets held, and again after a failed allocation.
fn step_again(
    alloc: Global,
    session: &mut Session,
    page: &mut Page,
) -> Result<Option<Actions>, Trouble> {
    let before = standing(session);
    match session.step(alloc) {
        Ok(found) => return Ok(found),
        Err(_) if standing(session) != before => page.put(CHANGED)?,
        Err(_) => {}
    }
    Ok(session.step(alloc)?)
}

/// Pulls octets, and again after a failed allocation.
fn pull_again(
    alloc: Global,
    session: &mut Session,
    octets: &[u8],
    page: &mut Page,
) -> Result<(usize, Option<Actions>), Trouble> {
    let before = standing(session);
    match session.pull(alloc, octets) {
        Ok(pulled) => return Ok(pulled),
        Err(_) if standing(session) != before => page.put(CHANGED)?,
        Err(_) => {}
    }
    Ok(session.pull(alloc, octets)?)
}

/// Hands octets over, and what is left again while any is accepted.
fn take(
    alloc: Global,
    session: &mut Session,
    octets: &[u8],
    way: Way,
    page: &mut Page,
) -> Result<(), Trouble> {
    let mut rest = octets;
    for _ in 0..u16::MAX {
        let (taken, found) = match way {
            Way::Whole | Way::Octets => (session.feed(rest), step_again(alloc, session, page)?),
            Way::Pulled => pull_again(alloc, session, rest, page)?,
        };
        rest = rest.get(taken..).unwrap_or(&[]);
        match found {
            Some(actions) => put_actions(alloc, page, session, &actions)?,
            None if taken == 0 => break,
            None => {}
        }
    }
    Ok(())
}

/// Hands octets over, in one piece or one by one.
fn hear(
    alloc: Global,
    session: &mut Session,
    octets: &[u8],
    way: Way,
    page: &mut Page,
) -> Result<(), Trouble> {
    match way {
        Way::Whole | Way::Pulled => take(alloc, session, octets, way, page),
        Way::Octets => {
            for octet in octets {
                take(alloc, session, &[*octet], way, page)?;
            }
            Ok(())
        }
    }
}

/// The context in which the body of an UPDATE to be sent is read.
const SENT: Context = Context {
    internal: true,
    as4: true,
    ip4: true,
    ip6: true,
    hold: 0,
};

/// The UPDATE of a body.
fn update_of(alloc: Global, body: &[u8]) -> Result<Update, Trouble> {
    if body.len() < 4 || body.len() > 4077 {
        return Err(Trouble::Row("the body of an UPDATE"));
    }
    let mut octets = Octets::new();
    let header = head(Kind::Update, body.len() as u16);
    let _fits = octets.try_extend_from_slice(&header);
    let _fits = octets.try_extend_from_slice(body);
    match message_of(alloc, &SENT, octets.as_slice())? {
        Message::Update(update) => Ok(update),
        _ => Err(Trouble::Row("an UPDATE")),
    }
}

/// Sends an UPDATE, and again after a failed allocation.
fn send_again(
    alloc: Global,
    session: &Session,
    update: &Update,
    out: &mut Vec<u8>,
    page: &mut Page,
) -> Result<Result<Actions, SendFault>, Trouble> {
    match session.send(alloc, update, out) {
        Err(SendFault::Memory) if out.len() != 1 => page.put(CHANGED)?,
        Err(SendFault::Memory) => {}
        answer => return Ok(answer),
    }
    Ok(session.send(alloc, update, out))
}

/// Adds that an UPDATE is sent: its octets, and the actions.
fn put_sent(
    alloc: Global,
    page: &mut Page,
    session: &Session,
    octets: &[u8],
    actions: &Actions,
) -> Result<(), Trouble> {
    page.put("sends ")?;
    page.put_digits(alloc, octets)?;
    page.put("\n")?;
    put_actions(alloc, page, session, actions)
}

/// Adds why an UPDATE isn't sent.
fn put_unsent(
    alloc: Global,
    page: &mut Page,
    octets: &[u8],
    fault: SendFault,
) -> Result<(), Trouble> {
    page.put("refuses ")?;
    page.put_name(alloc, &fault)?;
    page.put(if octets.is_empty() {
        "\n"
    } else {
        " and appends octets\n"
    })
}

/// Adds the result of sending an UPDATE: the octets after one that must not change, and the actions, or why it isn't sent.
fn send_update(
    alloc: Global,
    session: &Session,
    update: &Update,
    page: &mut Page,
) -> Result<(), Trouble> {
    let mut out = Vec::from_slice(alloc, &[7])?;
    let answer = send_again(alloc, session, update, &mut out, page)?;
    let octets = out.as_slice().get(1..).unwrap_or(&[]);
    match answer {
        Ok(actions) => put_sent(alloc, page, session, octets, &actions),
        Err(fault) => put_unsent(alloc, page, octets, fault),
    }
}

/// Sends the UPDATE of a body.
fn send(alloc: Global, session: &Session, body: &[u8], page: &mut Page) -> Result<(), Trouble> {
    let update = update_of(alloc, body)?;
    send_update(alloc, session, &update, page)
}

/// Carries out a line.
fn make(
    alloc: Global,
    row: &Row<'_>,
    session: &mut Session,
    line: &str,
    way: Way,
    page: &mut Page,
) -> Result<(), Trouble> {
    let (word, rest) = split_word(line);
    if let Some(event) = event_of(word, rest) {
        let actions = session.event(event);
        return put_actions(alloc, page, session, &actions);
    }
    let mut octets = Octets::new();
    add_octets(row, rest, &mut octets)?;
    match word {
        "hear" => hear(alloc, session, octets.as_slice(), way, page),
        "send" => send(alloc, session, octets.as_slice(), page),
        _ => Err(Trouble::Row("an event, hear or send")),
    }
}

/// What a session does for a row's lines, where octets come in one way: the result of the lines `after` isn't printed.
fn put_life(alloc: Global, row: &Row<'_>, way: Way) -> Result<Page, Trouble> {
    let mut session = match config_of(alloc, row.settings) {
        Ok(config) => Session::new(config),
        Err(trouble) => return Err(trouble),
    };
    let mut page = Page::new(alloc);
    for line in row.given.split('\n') {
        if let Some(line) = line.strip_prefix("after ") {
            make(alloc, row, &mut session, line, way, &mut Page::new(alloc))?;
        } else if let Some(line) = line.strip_prefix("do ") {
            make(alloc, row, &mut session, line, way, &mut page)?;
            put_standing(alloc, &mut page, &session)?;
        }
    }
    Ok(page)
}

/// What a session does for a row's lines, in all ways that octets can come.
pub(crate) fn put_session(alloc: Global, row: &Row<'_>) -> Result<Page, Trouble> {
    let mut page = put_life(alloc, row, Way::Whole)?;
    for (way, name) in WAYS {
        let other = put_life(alloc, row, way)?;
        if other.text != page.text {
            page.put(name)?;
            page.put(other.text.as_str())?;
        }
    }
    Ok(page)
}
