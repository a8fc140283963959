//! Writes the trace of a run, move by move.

ghost use Rattle.std.specs.Prelude.{◌≡◌, ◌+◌, ◌++◌, codes, length, OnOk};
ghost use Rattle.std.specs.String.{string_bytes};
ghost use Rattle.bgp_frame.specs.Prelude.{IsLength, message_in};
ghost use Rattle.bgp_script.specs.NoteList.{side_name};
ghost use Rattle.bgp_loop.specs.Trace.{nothing_came, with_octets, behind_message, message_lines, fault_lines, heard_lines, context_or_none, nothing_traced, begins_at, message_heard};
ghost use Rattle.bgp_loop.specs.steps.Whole.{ShowsWhole};

use bgp_frame::{Frame, HeadFault, Step, front};
use bgp_msg::{OutcomeView, view_frame};
use bgp_open::Context;
use bgp_script::{put_cut, put_event, put_heard, put_move, put_tried, side_name};
use bgp_session::{Action, Event, Move, Observer, SendFault, Side, State};
use bgp_text::put_viewed_outcome;
use bgp_update::UpdateView;
use std::alloc::{AllocError, Global};
use std::marker::Model;

/// The context of a message before both agreed on anything: that of `show` without flags.
const UNAGREED: Context = Context {
    internal: false,
    as4: false,
    ip4: false,
    ip6: false,
    hold: 0,
};

/// What a side receives.
#[derive(Drop)]
struct Coming {
    /// The offset, in this direction of this connection, of the message that arrives.
    place: u64,
    /// Its octets so far.
    octets: Vec<u8>,
}

impl Model for Coming {
    ghost use Rattle.bgp_loop.specs.Trace as trace;

    ghost Value = { trace.Coming };

    ghost view = { λ c. record { place = c.place; octets = c.octets.items } };
}

impl Coming {
    fn new(alloc: Global) -> Coming
        ensures { result ≡ nothing_came }
    {
        Coming {
            place: 0,
            octets: Vec::new(alloc),
        }
    }

    // A connection begins.
    fn restart(&mut self)
        ensures { self.new ≡ nothing_came }
    {
        self.place = 0;
        self.octets.clear();
    }

    // Octets arrive.
    fn take(&mut self, octets: &[u8]) -> Result<(), AllocError>
        ensures { OnOk result (self.new ≡ with_octets self.old octets.now) }
    {
        self.octets.extend_from_slice(octets)
    }

    // The message was received.
    fn pass(&mut self)
        ensures { self.new ≡ behind_message self.old }
    {
        self.place = self.place.saturating_add(self.octets.len() as u64);
        self.octets.clear();
    }
}

// The message in octets, or the fault of their header, where they are exactly that.
fn whole(octets: &[u8]) -> Step<'_>
    ensures { ShowsWhole octets.now result }
{
    match front(octets) {
        Step::More => Step::More,
        Step::Frame(frame) => {
            if frame.len as usize == octets.len() {
                return Step::Frame(frame);
            }
            Step::More
        }
        Step::Fault(fault) => {
            if octets.len() == 19 {
                return Step::Fault(fault);
            }
            Step::More
        }
    }
}

// Adds the name of a side, before a message.
fn put_side(text: &mut String, side: Side) -> Result<(), AllocError>
    ensures { OnOk result (string_bytes text.new ≡ string_bytes text.old ++ (side_name side ++ codes " ")) }
{
    text.push_str(side_name(side))?;
    text.push_str(" ")
}

// Adds the lines of a message.
fn put_frame(
    alloc: Global,
    text: &mut String,
    side: Side,
    ctx: &Context,
    place: u64,
    frame: Frame<'_>,
) -> Result<(), AllocError>
    requires { IsLength frame.kind (19 + length frame.body.now) }
    ensures { OnOk result (string_bytes text.new ≡ string_bytes text.old ++ message_lines side ctx.now place frame.entry.len (message_in frame.entry)) }
{
    let len = frame.len;
    let mut view = UpdateView::empty();
    let outcome = view_frame(ctx, frame, &mut view);
    put_side(text, side)?;
    put_viewed_outcome(alloc, text, place, len, &outcome)
}

// Adds the line of a header's fault.
fn put_fault(
    alloc: Global,
    text: &mut String,
    side: Side,
    place: u64,
    fault: HeadFault,
) -> Result<(), AllocError>
    ensures { OnOk result (string_bytes text.new ≡ string_bytes text.old ++ fault_lines side place fault) }
{
    let why = fault.answer();
    put_side(text, side)?;
    put_viewed_outcome(alloc, text, place, 0, &OutcomeView::Reset(why.view()))
}

// Adds the lines of the message that a side received.
fn put_message(
    alloc: Global,
    text: &mut String,
    side: Side,
    ctx: &Context,
    coming: &Coming,
) -> Result<(), AllocError>
    ensures { OnOk result (string_bytes text.new ≡ string_bytes text.old ++ heard_lines side ctx.now coming.now) }
{
    match whole(&coming.octets) {
        Step::Frame(frame) => put_frame(alloc, text, side, ctx, coming.place, frame),
        Step::Fault(fault) => put_fault(alloc, text, side, coming.place, fault),
        Step::More => Ok(()),
    }
}

/// What is written so far, and what each side receives.
#[derive(Drop)]
pub(crate) struct Tracer {
    alloc: Global,
    text: String,
    a: Coming,
    b: Coming,
}

impl Model for Tracer {
    ghost use Rattle.std.specs.String.{string_bytes};
    ghost use Rattle.bgp_loop.specs.Trace.{Traced};

    ghost Value = { Traced };

    ghost view = { λ t. record { text = string_bytes t.text; a = t.a; b = t.b } };
}

impl Tracer {
    /// Nothing is written, and nothing received.
    pub(crate) fn new(alloc: Global) -> Tracer
        ensures { result ≡ nothing_traced }
    {
        Tracer {
            alloc,
            text: String::new(alloc),
            a: Coming::new(alloc),
            b: Coming::new(alloc),
        }
    }

    /// The text that is written.
    pub(crate) fn into_text(self) -> String
        ensures { string_bytes result ≡ self.text }
    {
        let Tracer { text, .. } = self;
        text
    }

    // A connection may begin.
    fn begin(&mut self, side: Side, event: Event)
        ensures { self.new ≡ begins_at event side self.old }
    {
        match (event, side) {
            (Event::Connected, Side::A) => self.a.restart(),
            (Event::Connected, Side::B) => self.b.restart(),
            _ => {}
        }
    }

    // Writes the message that a side received.
    fn hear(&mut self, side: Side, ctx: &Context) -> Result<(), AllocError>
        ensures { OnOk result (self.new ≡ message_heard side ctx.now self.old) }
    {
        match side {
            Side::A => {
                put_message(self.alloc, &mut self.text, side, ctx, &self.a)?;
                self.a.pass();
            }
            Side::B => {
                put_message(self.alloc, &mut self.text, side, ctx, &self.b)?;
                self.b.pass();
            }
        }
        Ok(())
    }
}

// The context in which a message is judged.
fn context_or_none(context: Option<Context>) -> Context
    ensures { result ≡ context_or_none context }
{
    match context {
        Some(ctx) => ctx,
        None => UNAGREED,
    }
}

impl Observer for Tracer {
    ghost use Rattle.bgp_loop.specs.Trace.{Traced, traced};

    ghost Seen = { Traced };

    ghost seen = { λ t. t };

    ghost after = { traced };

    fn begun(&mut self, one: &Move) -> Result<(), AllocError> {
        put_move(&mut self.text, one)
    }

    fn told(
        &mut self,
        side: Side,
        event: Event,
        state: State,
        actions: &[Action],
    ) -> Result<(), AllocError> {
        self.begin(side, event);
        put_event(&mut self.text, side, event, state, actions)
    }

    fn came(&mut self, side: Side, octets: &[u8]) -> Result<(), AllocError> {
        match side {
            Side::A => self.a.take(octets),
            Side::B => self.b.take(octets),
        }
    }

    fn heard(
        &mut self,
        side: Side,
        context: Option<Context>,
        state: State,
        actions: &[Action],
    ) -> Result<(), AllocError> {
        self.hear(side, &context_or_none(context))?;
        put_heard(&mut self.text, side, state, actions)
    }

    fn tried(
        &mut self,
        side: Side,
        fault: Option<SendFault>,
        state: State,
        actions: &[Action],
    ) -> Result<(), AllocError> {
        put_tried(self.alloc, &mut self.text, side, fault, state, actions)
    }

    fn ended(&mut self) -> Result<(), AllocError> {
        put_cut(&mut self.text)
    }
}
