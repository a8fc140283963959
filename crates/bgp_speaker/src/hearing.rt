//! The octets of the peer: each whole message is printed, and passed to the session.

ghost use Rattle.std.specs.Prelude.{◌+◌, length};
ghost use Rattle.bgp_frame.specs.Prelude.{IsLength};

use crate::tcp::TcpConnection;
use crate::timers::Timers;
use crate::voice::{Teller, Voice};
use bgp_fields::{header_span, message_span};
use bgp_frame::{Frame, HeadFault};
use bgp_host::Host;
use bgp_machine::State;
use bgp_msg::{OutcomeView, Step, front, view_frame};
use bgp_open::Context;
use bgp_text::{put_viewed_json, put_viewed_outcome};
use bgp_update::UpdateView;
use std::{io, mem};

/// The octets of a header.
const HEADER_LEN: usize = 19;

/// The host of this program.
pub(crate) type Speaker<'a> = Host<TcpConnection<'a>, Timers<'a>, Teller<'a>>;

/// The context in which a message is printed that arrives before both have agreed on one: nothing is agreed on.
const NARROW: Context = Context {
    internal: false,
    as4: false,
    ip4: false,
    ip6: false,
    hold: 0,
};

/// The octets of an incomplete message, and the counts so far.
#[derive(Drop)]
pub(crate) struct Ear<'a> {
    voice: Voice<'a>,
    held: Vec<u8>,
    /// The total length of all messages so far.
    place: u64,
    /// The number of messages so far.
    pub(crate) messages: u64,
    /// A message was at fault.
    pub(crate) faulty: bool,
}

impl<'a> Ear<'a> {
    /// Nothing has been received.
    pub(crate) fn new(voice: Voice<'a>) -> Ear<'a> {
        Ear {
            voice,
            held: Vec::new(voice.rt.alloc()),
            place: 0,
            messages: 0,
            faulty: false,
        }
    }

    // Prints the outcome of a message.
    fn print(&mut self, ctx: &Context, frame: Frame<'_>) -> io::Result<()>
        requires { IsLength frame.kind (19 + length frame.body.now) }
    {
        let alloc = self.voice.rt.alloc();
        let len = frame.len;
        let mut view = UpdateView::empty();
        let outcome = view_frame(ctx, frame, &mut view);
        let mut text = String::new(alloc);
        if self.voice.json {
            let span = match outcome {
                OutcomeView::Reset(_) => message_span(ctx, frame),
                _ => None,
            };
            put_viewed_json(alloc, &mut text, self.place, len, span, &outcome)?;
        } else {
            put_viewed_outcome(alloc, &mut text, self.place, len, &outcome)?;
        }
        if let OutcomeView::Withdraw(_) | OutcomeView::Reset(_) = outcome {
            self.faulty = true;
        }
        print!(self.voice.rt; "{text}")
    }

    // Prints the answer to a header with a fault.
    fn print_fault(&mut self, header: &[u8; HEADER_LEN], fault: HeadFault) -> io::Result<()> {
        let alloc = self.voice.rt.alloc();
        let why = fault.answer();
        let outcome = OutcomeView::Reset(why.view());
        let mut text = String::new(alloc);
        if self.voice.json {
            let span = Some(header_span(header, fault));
            put_viewed_json(alloc, &mut text, self.place, 0, span, &outcome)?;
        } else {
            put_viewed_outcome(alloc, &mut text, self.place, 0, &outcome)?;
        }
        self.faulty = true;
        print!(self.voice.rt; "{text}")
    }

    // Prints what the octets begin with, and passes it to the session. Answers the number of octets consumed: none
    // where a message is incomplete.
    fn hear_one(&mut self, host: &mut Speaker<'a>, octets: &[u8]) -> io::Result<usize> {
        let len = match front(octets) {
            Step::More => return Ok(0),
            Step::Frame(frame) => {
                let ctx = match host.session().context() {
                    Some(ctx) => *ctx,
                    None => NARROW,
                };
                self.print(&ctx, frame)?;
                frame.len as usize
            }
            Step::Fault(fault) => {
                let Some(header) = octets.first_chunk::<HEADER_LEN>() else {
                    return Ok(0);
                };
                self.print_fault(header, fault)?;
                HEADER_LEN
            }
        };
        let Some(message) = octets.get(..len) else {
            return Ok(0);
        };
        host.hear(self.voice.rt.alloc(), message)?;
        self.place = self.place.saturating_add(len as u64);
        self.messages = self.messages.saturating_add(1);
        Ok(len)
    }

    /// Receives octets: each whole message is printed and passed to the session, until that has left or `most` messages
    /// were received.
    pub(crate) fn hear(
        &mut self,
        host: &mut Speaker<'a>,
        octets: &[u8],
        most: Option<u64>,
    ) -> io::Result<()> {
        self.held.extend_from_slice(octets)?;
        let held = mem::replace(&mut self.held, Vec::new(self.voice.rt.alloc()));
        let mut rest = held.as_slice();
        for _turn in 0..u64::MAX {
            if !is_up(host.session().state()) || self.has_enough(most) {
                break;
            }
            let taken = self.hear_one(host, rest)?;
            rest = match rest.get(taken..) {
                Some(later) if taken > 0 => later,
                _ => break,
            };
        }
        Ok(self.held.extend_from_slice(rest)?)
    }

    /// Whether the requested number of messages was received.
    pub(crate) fn has_enough(&self, most: Option<u64>) -> bool {
        match most {
            Some(most) => self.messages >= most,
            None => false,
        }
    }
}

/// Whether the connection is up for a session in this state.
pub(crate) fn is_up(state: State) -> bool {
    match state {
        State::OpenSent | State::OpenConfirm | State::Established => true,
        State::Idle | State::Connect | State::Active => false,
    }
}
