//! The lines that are printed, as text or as JSON.

use crate::counts::Counts;
use crate::reasons::{Reasons, put_reasons, put_reasons_json};
use crate::stamp::Stamp;
use crate::why::{Code, Why, name_of};
use bgp_frame::{Kind, WideKind};
use bgp_guard::Side;
use bgp_names::subcode_name;
use bgp_open::Peer;
use std::fmt;
use std::net::{IpAddr, Ipv4Addr, SocketAddr};

/// The name of a session.
#[derive(Clone, Copy)]
pub(crate) struct Name {
    pub(crate) number: u64,
    pub(crate) outer: SocketAddr,
    pub(crate) inner: SocketAddr,
}

/// A message of a side, which began at this offset of what the side sent.
#[derive(Clone, Copy)]
pub(crate) struct Place {
    pub(crate) name: Name,
    /// The AS of the outer peer, once its OPEN was passed on.
    pub(crate) outer_as: Option<u32>,
    pub(crate) side: Side,
    pub(crate) at: u64,
}

/// What is reported.
#[derive(Clone, Copy)]
pub(crate) enum Event<'a> {
    /// It listens for connections.
    Listens(SocketAddr),
    /// Counters are served.
    Serves(SocketAddr),
    /// A session begins.
    Begins(Name),
    /// OPEN and KEEPALIVE of both sides were passed on.
    IsUp(Name, &'a Peer, &'a Peer),
    /// A message was passed on with other octets.
    Changed(Place, WideKind, &'a Reasons),
    /// Nothing was passed on of a message.
    Dropped(Place, WideKind, &'a Reasons),
    /// A side was answered.
    Answered(Place, Code, &'a Reasons),
    /// A session has ended.
    Ends(Name, &'a Why),
    /// The number of neighbours now, and of sessions that end.
    Reloads(usize, u64),
    /// The number of lines on the neighbour of a session that weren't printed.
    More(u64, u64),
    /// The number of lines that couldn't be written.
    Lost(u64),
    /// The counts so far, and the last stranger that connected.
    Counts(Counts, Option<IpAddr>),
}

/// How lines are printed.
#[derive(Clone, Copy)]
pub(crate) struct Form {
    pub(crate) has_times: bool,
    pub(crate) is_json: bool,
}

/// A line, and its time where it has one.
#[derive(Clone, Copy)]
pub(crate) struct Line<'a> {
    pub(crate) form: Form,
    pub(crate) time: Option<Stamp>,
    pub(crate) event: Event<'a>,
}

// The name of a type of message.
fn kind_name(kind: WideKind) -> &'static str {
    match kind {
        WideKind::Base(Kind::Open) => "OPEN",
        WideKind::Base(Kind::Update) => "UPDATE",
        WideKind::Base(Kind::Notification) => "NOTIFICATION",
        WideKind::Base(Kind::Keepalive) => "KEEPALIVE",
        WideKind::Refresh => "ROUTE-REFRESH",
    }
}

// ---- text

// A message: where lines have times, the neighbour's address and AS too.
fn put_place<W: fmt::Write>(
    f: &mut fmt::Formatter<W>,
    verb: &str,
    place: &Place,
    form: Form,
) -> fmt::Result {
    let number = place.name.number;
    write!(f, "{verb} {number}")?;
    if form.has_times {
        let from = place.name.outer.ip();
        write!(f, " {from}")?;
        if let Some(number) = place.outer_as {
            write!(f, " AS {number}")?;
        }
    }
    let side = name_of(place.side);
    let at = place.at;
    write!(f, " {side} at {at}")
}

fn put_message<W: fmt::Write>(
    f: &mut fmt::Formatter<W>,
    verb: &str,
    place: &Place,
    kind: WideKind,
    reasons: &Reasons,
    form: Form,
) -> fmt::Result {
    put_place(f, verb, place, form)?;
    let kind = kind_name(kind);
    write!(f, " {kind}")?;
    put_reasons(f, reasons)
}

// An answer: where lines have times, the subcode's name and the section too.
fn put_answer<W: fmt::Write>(
    f: &mut fmt::Formatter<W>,
    place: &Place,
    code: Code,
    reasons: &Reasons,
    form: Form,
) -> fmt::Result {
    put_place(f, "answered", place, form)?;
    write!(f, " {code}")?;
    let name = subcode_name(code.code, code.subcode);
    if form.has_times && !name.is_empty() {
        write!(f, " {name}")?;
    }
    put_reasons(f, reasons)
}

fn put_up<W: fmt::Write>(
    f: &mut fmt::Formatter<W>,
    number: u64,
    outer: &Peer,
    inner: &Peer,
) -> fmt::Result {
    let (outer_as, outer_id) = (outer.as_number(), Ipv4Addr::from(outer.id));
    let (inner_as, inner_id) = (inner.as_number(), Ipv4Addr::from(inner.id));
    write!(f, "up {number} outer AS {outer_as} id {outer_id}")?;
    write!(f, " inner AS {inner_as} id {inner_id}")
}

fn put_text<W: fmt::Write>(
    f: &mut fmt::Formatter<W>,
    event: &Event<'_>,
    form: Form,
) -> fmt::Result {
    match event {
        Event::Listens(address) => write!(f, "listen {address}"),
        Event::Serves(address) => write!(f, "metrics {address}"),
        Event::Begins(name) => write!(
            f,
            "begin {} outer {} inner {}",
            name.number, name.outer, name.inner
        ),
        Event::IsUp(name, outer, inner) => put_up(f, name.number, outer, inner),
        Event::Changed(place, kind, reasons) => {
            put_message(f, "changed", place, *kind, reasons, form)
        }
        Event::Dropped(place, kind, reasons) => {
            put_message(f, "dropped", place, *kind, reasons, form)
        }
        Event::Answered(place, code, reasons) => put_answer(f, place, *code, reasons, form),
        Event::Ends(name, why) => write!(
            f,
            "end {} outer {} inner {}: {why}",
            name.number, name.outer, name.inner
        ),
        Event::Reloads(neighbours, ended) => {
            write!(f, "reload neighbours {neighbours} ended {ended}")
        }
        Event::More(number, more) => write!(f, "more {number}: and {more} more in 10 s"),
        Event::Lost(lines) => write!(f, "lost {lines} lines"),
        Event::Counts(counts, None) => write!(f, "counts {counts}"),
        Event::Counts(counts, Some(last)) => write!(f, "counts {counts} last {last}"),
    }
}

// ---- JSON

fn put_name_json<W: fmt::Write>(f: &mut fmt::Formatter<W>, verb: &str, name: &Name) -> fmt::Result {
    let Name {
        number,
        outer,
        inner,
    } = name;
    write!(
        f,
        "\"event\":\"{verb}\",\"session\":{number},\"outer\":\"{outer}\",\"inner\":\"{inner}\""
    )
}

fn put_place_json<W: fmt::Write>(
    f: &mut fmt::Formatter<W>,
    verb: &str,
    place: &Place,
) -> fmt::Result {
    let (number, from) = (place.name.number, place.name.outer.ip());
    write!(
        f,
        "\"event\":\"{verb}\",\"session\":{number},\"neighbour\":\"{from}\""
    )?;
    if let Some(number) = place.outer_as {
        write!(f, ",\"as\":{number}")?;
    }
    let side = name_of(place.side);
    let at = place.at;
    write!(f, ",\"side\":\"{side}\",\"offset\":{at}")
}

fn put_message_json<W: fmt::Write>(
    f: &mut fmt::Formatter<W>,
    verb: &str,
    place: &Place,
    kind: WideKind,
    reasons: &Reasons,
) -> fmt::Result {
    put_place_json(f, verb, place)?;
    let kind = kind_name(kind);
    write!(f, ",\"message\":\"{kind}\"")?;
    put_reasons_json(f, reasons)
}

fn put_answer_json<W: fmt::Write>(
    f: &mut fmt::Formatter<W>,
    place: &Place,
    code: Code,
    reasons: &Reasons,
) -> fmt::Result {
    put_place_json(f, "answered", place)?;
    write!(f, ",\"code\":{},\"subcode\":{}", code.code, code.subcode)?;
    let name = subcode_name(code.code, code.subcode);
    if !name.is_empty() {
        write!(f, ",\"name\":\"{name}\"")?;
    }
    put_reasons_json(f, reasons)
}

fn put_peer_json<W: fmt::Write>(f: &mut fmt::Formatter<W>, side: &str, peer: &Peer) -> fmt::Result {
    let (number, id) = (peer.as_number(), Ipv4Addr::from(peer.id));
    write!(f, ",\"{side}_as\":{number},\"{side}_id\":\"{id}\"")
}

fn put_counts_json<W: fmt::Write>(
    f: &mut fmt::Formatter<W>,
    counts: &Counts,
    last: &Option<IpAddr>,
) -> fmt::Result {
    write!(f, "\"event\":\"counts\"")?;
    for (name, count) in counts.named() {
        write!(f, ",\"{name}\":{count}")?;
    }
    match last {
        Some(last) => write!(f, ",\"last\":\"{last}\""),
        None => Ok(()),
    }
}

fn put_json<W: fmt::Write>(f: &mut fmt::Formatter<W>, event: &Event<'_>) -> fmt::Result {
    match event {
        Event::Listens(address) => write!(f, "\"event\":\"listen\",\"address\":\"{address}\""),
        Event::Serves(address) => write!(f, "\"event\":\"metrics\",\"address\":\"{address}\""),
        Event::Begins(name) => put_name_json(f, "begin", name),
        Event::IsUp(name, outer, inner) => {
            put_name_json(f, "up", name)?;
            put_peer_json(f, "outer", outer)?;
            put_peer_json(f, "inner", inner)
        }
        Event::Changed(place, kind, reasons) => {
            put_message_json(f, "changed", place, *kind, reasons)
        }
        Event::Dropped(place, kind, reasons) => {
            put_message_json(f, "dropped", place, *kind, reasons)
        }
        Event::Answered(place, code, reasons) => put_answer_json(f, place, *code, reasons),
        Event::Ends(name, why) => {
            put_name_json(f, "end", name)?;
            write!(f, ",\"why\":\"{why}\"")
        }
        Event::Reloads(neighbours, ended) => write!(
            f,
            "\"event\":\"reload\",\"neighbours\":{neighbours},\"ended\":{ended}"
        ),
        Event::More(number, more) => write!(
            f,
            "\"event\":\"more\",\"session\":{number},\"lines\":{more}"
        ),
        Event::Lost(lines) => write!(f, "\"event\":\"lost\",\"lines\":{lines}"),
        Event::Counts(counts, last) => put_counts_json(f, counts, last),
    }
}

impl fmt::Display for Line<'_> {
    fn fmt<W: fmt::Write>(&self, f: &mut fmt::Formatter<W>) -> fmt::Result {
        if self.form.is_json {
            write!(f, "{{")?;
            if let Some(time) = self.time {
                write!(f, "\"time\":\"{time}\",")?;
            }
            put_json(f, &self.event)?;
            return write!(f, "}}");
        }
        if let Some(time) = self.time {
            write!(f, "{time} ")?;
        }
        put_text(f, &self.event, self.form)
    }
}
