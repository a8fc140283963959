//! What is printed. It never ends or blocks the program: a line that can't be written is counted, and the count is
//! printed once one can.

use crate::commands::NAME;
use crate::counts::{Counts, count};
use crate::lines::{Event, Form, Line, Name, Place};
use crate::reasons::{Judged, Reasons};
use crate::roster::Unread;
use crate::stamp::Stamp;
use crate::talkers::Talkers;
use crate::tallies::{Counted, Metrics, Tallies};
use crate::why::{Code, Why};
use bgp_frame::WideKind;
use bgp_guard_net::has_room;
use bgp_open::Peer;
use std::io;
use std::net::{IpAddr, SocketAddr};
use std::time::SystemTime;

/// The descriptors of standard output and standard error.
const OUTPUT: i32 = 1;

const ERRORS: i32 = 2;

/// At most this many faults are printed each second.
const FAULTS: u32 = 100;

/// Prints what happens, and counts it.
#[derive(Drop)]
pub(crate) struct Log<'a> {
    rt: &'a HostRuntime,
    form: Form,
    pub(crate) counts: Counts,
    /// The last stranger that connected.
    stranger: Option<IpAddr>,
    talkers: Talkers,
    tallies: Tallies,
    /// Lines that couldn't be written.
    lost: u64,
    /// Faults that were printed in this second.
    faults: u32,
}

impl<'a> Log<'a> {
    /// Nothing has happened.
    pub(crate) fn new(rt: &'a HostRuntime, form: Form, has_tallies: bool) -> Log<'a> {
        Log {
            rt,
            form,
            counts: Counts::new(),
            stranger: None,
            talkers: Talkers::new(rt.alloc()),
            tallies: Tallies::new(rt.alloc(), has_tallies),
            lost: 0,
            faults: 0,
        }
    }

    // The time, where lines have it and there is one.
    fn time(&self) -> Option<Stamp> {
        if !self.form.has_times {
            return None;
        }
        let now = SystemTime::now(self.rt).ok()?;
        let since = now.duration_since(SystemTime::UNIX_EPOCH).ok()?;
        Some(Stamp(since.as_secs()))
    }

    // Writes a line. Answers whether it could.
    fn put(&self, event: Event<'_>) -> bool {
        if !has_room(OUTPUT) {
            return false;
        }
        let line = Line {
            form: self.form,
            time: self.time(),
            event,
        };
        let written = println!(self.rt; "{line}");
        written.is_ok()
    }

    // Prints a line, or counts it as lost; before it, the number lost.
    fn tell(&mut self, event: Event<'_>) {
        if self.lost > 0 && self.put(Event::Lost(self.lost)) {
            self.lost = 0;
        }
        if self.lost > 0 || !self.put(event) {
            count(&mut self.lost);
        }
    }

    /// It listens for connections.
    pub(crate) fn listens(&mut self, address: SocketAddr) {
        self.tell(Event::Listens(address));
    }

    /// Counters are served.
    pub(crate) fn serves(&mut self, address: SocketAddr) {
        self.tell(Event::Serves(address));
    }

    /// A session begins, with the peer that connected and the address that is connected to.
    pub(crate) fn begins(&mut self, name: Name) {
        count(&mut self.counts.begun);
        self.counts(name, Counted::Begun, &Reasons::none());
        if self.talkers.may_tell(name) {
            self.tell(Event::Begins(name));
        }
    }

    /// Both sides have sent OPEN and KEEPALIVE.
    pub(crate) fn is_up(&mut self, name: Name, outer: &Peer, inner: &Peer) {
        if self.talkers.may_tell(name) {
            self.tell(Event::IsUp(name, outer, inner));
        }
    }

    // Counts what was done with a message of a neighbour's session.
    fn counts(&mut self, name: Name, counted: Counted, reasons: &Reasons) {
        self.tallies.count(name.outer.ip(), counted, reasons);
    }

    /// The counts, as text for Prometheus.
    pub(crate) fn metrics(&self) -> Metrics<'_> {
        Metrics {
            counts: self.counts,
            tallies: &self.tallies,
        }
    }

    // The reasons of a message, where lines or counters have them.
    fn reasons(&self, judged: &Judged<'_>, is_told: bool) -> Reasons {
        let has_place = self.form.has_times || self.form.is_json;
        if is_told && has_place || self.tallies.is_kept() {
            Reasons::of(judged)
        } else {
            Reasons::none()
        }
    }

    /// A message of a side was passed on unchanged.
    pub(crate) fn passes(&mut self, name: Name) {
        count(&mut self.counts.messages);
        self.counts(name, Counted::Passed, &Reasons::none());
    }

    /// A message of a side was passed on with other octets.
    pub(crate) fn changes(&mut self, place: Place, kind: WideKind, judged: &Judged<'_>) {
        count(&mut self.counts.messages);
        count(&mut self.counts.changed);
        let is_told = self.talkers.may_tell_message(place.name);
        let reasons = self.reasons(judged, is_told);
        self.counts(place.name, Counted::Changed, &reasons);
        if is_told {
            self.tell(Event::Changed(place, kind, &reasons));
        }
    }

    /// Nothing was passed on of a message of a side.
    pub(crate) fn drops(&mut self, place: Place, kind: WideKind, judged: &Judged<'_>) {
        count(&mut self.counts.dropped);
        let is_told = self.talkers.may_tell_message(place.name);
        let reasons = self.reasons(judged, is_told);
        self.counts(place.name, Counted::Dropped, &reasons);
        if is_told {
            self.tell(Event::Dropped(place, kind, &reasons));
        }
    }

    /// A message of a side was answered.
    pub(crate) fn answers(&mut self, place: Place, code: Code, judged: &Judged<'_>) {
        count(&mut self.counts.answered);
        let is_told = self.talkers.may_tell(place.name);
        let reasons = self.reasons(judged, is_told);
        self.counts(place.name, Counted::Answered, &reasons);
        if is_told {
            self.tell(Event::Answered(place, code, &reasons));
        }
    }

    /// A session has ended.
    pub(crate) fn ends(&mut self, name: Name, why: &Why) {
        count(&mut self.counts.ended);
        if self.talkers.may_tell(name) {
            self.tell(Event::Ends(name, why));
        }
    }

    /// A stranger, which isn't a neighbour, has connected.
    pub(crate) fn refuses(&mut self, from: IpAddr) {
        count(&mut self.counts.strangers);
        self.stranger = Some(from);
    }

    /// Prints a fault that ends a connection at most.
    pub(crate) fn fails(&mut self, error: &io::Error) {
        if self.faults < FAULTS && has_room(ERRORS) {
            self.faults = self.faults.saturating_add(1);
            let _ = eprintln!(self.rt; "bgp_guard_run: {error}");
        }
    }

    /// Prints that its owner asked for what can't be done.
    pub(crate) fn complains(&mut self, what: &str) {
        if has_room(ERRORS) {
            let _ = eprintln!(self.rt; "{NAME}: {what}");
        }
    }

    /// Prints why the file of neighbours can't be used.
    pub(crate) fn misreads(&mut self, path: Option<&String>, why: &Unread) {
        if has_room(ERRORS) {
            let path = path.map_or("", |path| path.as_str());
            let _ = eprintln!(self.rt; "{NAME}: {path}: {why}: neighbours stay as they are");
        }
    }

    /// The file of neighbours was read again: the number of neighbours, and of sessions that end.
    pub(crate) fn reloads(&mut self, neighbours: usize, ended: u64) {
        self.tell(Event::Reloads(neighbours, ended));
    }

    /// Warns that the limit of sessions is below the number of neighbours.
    pub(crate) fn warns(&mut self, most: u64, neighbours: usize) {
        if has_room(ERRORS) {
            let _ = eprintln!(self.rt;
                "bgp_guard_run: --most {most} is less than the {neighbours} of --peer: not all can be there at once"
            );
        }
    }

    /// Prints the counts so far.
    pub(crate) fn tells_counts(&mut self) {
        self.tell(Event::Counts(self.counts, self.stranger));
    }

    /// A second has passed.
    pub(crate) fn tick(&mut self) {
        self.talkers.tick();
        self.faults = 0;
    }

    /// Ten seconds have passed: prints how many lines weren't printed of each neighbour.
    pub(crate) fn tells_more(&mut self) {
        for place in 0..usize::MAX {
            let Some(talker) = self.talkers.get(place) else {
                break;
            };
            if talker.more > 0 {
                self.tell(Event::More(talker.number, talker.more));
            }
        }
        self.talkers.clear();
    }
}
