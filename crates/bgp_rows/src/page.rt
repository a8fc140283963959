//! The lines that result from a row.

use crate::trouble::Trouble;
use bgp_frame::{End, Notification, NotificationView};
use bgp_msg::{Decoder, Look, Message, Outcome, OutcomeView, encode};
use bgp_open::Context;
use bgp_text::{put_end, put_viewed_outcome, why_name};
use bgp_update::{Note, Routes, Update, UpdateView, WriteFault};
use bgp_wire::List;
use std::alloc::{AllocError, Global};
use std::fmt::{Debug, Display};

/// The lines so far, and the offset in the stream that they have reached.
#[derive(Drop)]
pub struct Page {
    pub text: String,
    place: u64,
}

/// Why a value has no lines: they are those of its view, which is read from its written form.
const NO_VIEW: Trouble = Trouble::Row("a value that is read as itself where it is written");

/// The octets of a message.
fn octets_of(alloc: Global, ctx: &Context, message: &Message) -> Result<Vec<u8>, Trouble> {
    let mut octets = Vec::new(alloc);
    match encode(ctx, message, &mut octets) {
        Ok(()) => Ok(octets),
        Err(WriteFault::Memory) => Err(Trouble::Memory),
        Err(_) => Err(NO_VIEW),
    }
}

fn name_of<T: Debug>(alloc: Global, value: &T) -> Result<String, AllocError> {
    format!(in alloc; "{value:?}")
}

impl Page {
    pub fn new(alloc: Global) -> Page {
        Page {
            text: String::new(alloc),
            place: 0,
        }
    }

    /// Adds text.
    pub fn put(&mut self, text: &str) -> Result<(), Trouble> {
        Ok(self.text.push_str(text)?)
    }

    /// Adds the lines of a view of a message of this length.
    fn put_view(&mut self, alloc: Global, len: u16, view: &OutcomeView<'_>) -> Result<(), Trouble> {
        put_viewed_outcome(alloc, &mut self.text, self.place, len, view)?;
        self.place = self.place.saturating_add(u64::from(len));
        Ok(())
    }

    /// Adds the lines of a message that is accepted, without its notes: it is written in the context in which it was read, and its view printed.
    fn put_message(
        &mut self,
        alloc: Global,
        ctx: &Context,
        len: u16,
        message: &Message,
    ) -> Result<(), Trouble> {
        let octets = octets_of(alloc, ctx, message)?;
        let decoder = Decoder::new(*ctx);
        let mut place = UpdateView::empty();
        match decoder.look(octets.as_slice(), &mut place) {
            Look::Message(_taken, _len, view, _next) => self.put_view(alloc, len, &view),
            Look::Fault(_taken, _fault, _next) => Err(NO_VIEW),
            Look::Feed => Err(NO_VIEW),
        }
    }

    /// Adds the lines of notes.
    fn put_notes(&mut self, notes: &List<Note>) -> Result<(), Trouble> {
        for note in notes.iter() {
            let at = note.at;
            let kind = note.kind;
            let why = why_name(note.why);
            write!(self.text, "  note {at} {kind} {why}\n")?;
        }
        Ok(())
    }

    /// Adds the lines of withdrawn routes.
    pub fn put_routes(&mut self, routes: &Routes) -> Result<(), Trouble> {
        for prefix in routes.ip4.iter() {
            write!(self.text, "  route {prefix}\n")?;
        }
        for prefix in routes.ip6.iter() {
            write!(self.text, "  route {prefix}\n")?;
        }
        Ok(())
    }

    /// Adds the lines of an outcome of this length, in the context in which it was read.
    pub fn put_outcome(
        &mut self,
        alloc: Global,
        ctx: &Context,
        len: u16,
        outcome: &Outcome,
    ) -> Result<(), Trouble> {
        match outcome {
            Outcome::Took(message, notes) => {
                self.put_message(alloc, ctx, len, message)?;
                self.put_notes(notes)
            }
            Outcome::Withdraw(routes, notes) => {
                let place = self.place;
                self.place = self.place.saturating_add(u64::from(len));
                write!(self.text, "{place} {len} UPDATE withdraw\n")?;
                self.put_routes(routes)?;
                self.put_notes(notes)
            }
            Outcome::Reset(told) => {
                let view = NotificationView {
                    code: told.code,
                    subcode: told.subcode,
                    info: told.info.as_slice(),
                };
                self.put_view(alloc, len, &OutcomeView::Reset(view))
            }
        }
    }

    /// Adds the line of a stream's end.
    pub fn put_end(&mut self, end: End) -> Result<(), Trouble> {
        Ok(put_end(&mut self.text, end)?)
    }

    /// Adds the lines of an UPDATE that was accepted in a context.
    pub fn put_update(
        &mut self,
        alloc: Global,
        ctx: &Context,
        update: &Update,
    ) -> Result<(), Trouble> {
        let mut lines = Page::new(alloc);
        lines.put_message(alloc, ctx, 0, &Message::Update(update.copy(alloc)?))?;
        let (_head, lines) = lines.text.as_str().split_once('\n').unwrap_or(("", ""));
        self.put(lines)
    }

    /// Adds octets as digits, and `-` if there are none.
    pub fn put_digits(&mut self, alloc: Global, octets: &[u8]) -> Result<(), Trouble> {
        let digits = bgp_text::info_text(alloc, octets)?;
        self.put(digits.as_str())
    }

    /// Adds a NOTIFICATION as `CODE/SUBCODE INFO`.
    pub fn put_notification(&mut self, alloc: Global, told: &Notification) -> Result<(), Trouble> {
        let text = bgp_text::notification_text(alloc, told)?;
        self.put(text.as_str())
    }

    /// Adds a value as `Display` prints it.
    pub fn put_value<T: Display>(&mut self, alloc: Global, value: &T) -> Result<(), Trouble> {
        let text = value.to_string(alloc)?;
        self.put(text.as_str())
    }

    /// Adds a value's name, as `Debug` prints it.
    pub fn put_name<T: Debug>(&mut self, alloc: Global, value: &T) -> Result<(), Trouble> {
        let text = name_of(alloc, value)?;
        self.put(text.as_str())
    }
}
