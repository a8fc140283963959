//! The engine `show`.

ghost use Rattle.std.specs.Prelude.{◌≡◌, ◌+◌, ◌++◌, [], Some, length, IfOk, OnOk};
ghost use Rattle.bgp_engine.specs.Below.{string_bytes, IsLength, message_in, of_fault, out_of, header_place};
ghost use Rattle.bgp_engine.specs.Below.{reset_place};
ghost use Rattle.bgp_engine.specs.Run.{Answers, io};
ghost use Rattle.bgp_engine.specs.steps.PageSteps.{WritesIdentified, WritesOutcome};
ghost use Rattle.bgp_frame.specs.declared.kind.Kind.{Kind};
ghost use Rattle.bgp_paths.specs.Prelude.{outcome_with};
ghost use Rattle.bgp_engine.specs.Show.{Shown};

use crate::class::{Class, class_of};
use crate::fault::ToolFault;
use crate::form::{Form, Lines};
use crate::heard::span_of;
use crate::identified::{is_identified, no_paths, used_runs};
use crate::page::Page;
use crate::refreshing::{refresh_span, view_of};
use crate::tally::Tally;
use crate::walk::walk_stream;
use bgp_fields::header_span;
use bgp_frame::{Frame, HeadFault, Notification};
use bgp_msg::{OutcomeView, view_frame};
use bgp_open::Context;
use bgp_paths::{PathFamilies, PathShifts, PlainBody, path_runs, view_received};
use bgp_refresh::RefreshView;
use bgp_terms::WideTerms;
use bgp_update::UpdateView;
use std::alloc::{AllocError, Global};
use std::io::{Read, Write};

/// The outcome of each message, in a form.
#[derive(Drop)]
pub(crate) struct ShowPage<F> {
    alloc: Global,
    ctx: Context,
    /// Whose routes have path identifiers.
    families: PathFamilies,
    /// The body of an UPDATE without them.
    plain: PlainBody,
    form: F,
    text: String,
}

impl<F: Form> ShowPage<F> {
    ghost use Rattle.std.specs.Prelude.{◌≡◌, []};
    ghost use Rattle.bgp_engine.specs.Below.{string_bytes};

    /// An empty page, of messages whose routes of these families have path identifiers.
    pub(crate) fn new(alloc: Global, ctx: Context, families: PathFamilies, form: F) -> ShowPage<F>
        ensures context { result.ctx ≡ ctx }
        ensures families { result.families ≡ families }
        ensures empty { string_bytes result.text ≡ [] }
    {
        ShowPage {
            alloc,
            ctx,
            families,
            plain: PlainBody::new(),
            form,
            text: String::new(alloc),
        }
    }
}

// Adds the text of a message.
fn put_frame<F: Form>(
    form: &F,
    alloc: Global,
    ctx: &Context,
    text: &mut String,
    place: u64,
    frame: Frame<'_>,
) -> Result<Class, AllocError>
    requires { IsLength frame.kind (19 + length frame.body.now) }
    ensures { IfOk result (λ class. WritesOutcome F.shown (string_bytes text.old) (string_bytes text.new) place frame.entry.len
        (reset_place ctx.now (message_in frame.entry)) (out_of ctx.now (message_in frame.entry)) class) }
{
    let len = frame.len;
    let mut view = UpdateView::empty();
    let outcome = view_frame(ctx, frame, &mut view);
    let span = span_of(ctx, frame, &outcome);
    form.put(alloc, text, place, len, span, &outcome)?;
    Ok(class_of(&outcome))
}

// Adds the text of an UPDATE whose routes have path identifiers.
fn put_identified<F: Form>(
    form: &F,
    alloc: Global,
    ctx: &Context,
    families: PathFamilies,
    plain: &mut PlainBody,
    text: &mut String,
    place: u64,
    frame: Frame<'_>,
) -> Result<Class, AllocError>
    requires { IsLength Kind.Update (19 + length frame.body.now) }
    ensures { IfOk result (λ class. WritesIdentified F.shown_paths families ctx.now (string_bytes text.old) (string_bytes text.new) place frame.entry.len frame.entry.body.now
        (outcome_with ctx.now families frame.entry.body.now) class) }
{
    let body = frame.body;
    plain.fill(families, body);
    let runs = used_runs(ctx.ip4, path_runs(families, body));
    let shifts = PathShifts::between(plain.as_slice(), body);
    let mut view = UpdateView::empty();
    let outcome = view_received(ctx, body, plain.as_slice(), &mut view);
    form.put_paths(alloc, text, place, frame.len, &runs, &shifts, &outcome)?;
    Ok(class_of(&outcome))
}

// Adds the text of a header's fault.
fn put_fault<F: Form>(
    form: &F,
    alloc: Global,
    text: &mut String,
    place: u64,
    header: &[u8],
    fault: HeadFault,
) -> Result<(), AllocError>
    requires { length header.now ≡ 19 }
    ensures { OnOk result (string_bytes text.new ≡ string_bytes text.old ++ F.shown place 0 (Some (header_place header.now fault)) (of_fault fault)) }
{
    let span = header_span(header, fault);
    let why = fault.answer();
    form.put(
        alloc,
        text,
        place,
        0,
        Some(span),
        &OutcomeView::Reset(why.view()),
    )
}

impl<F: Form> Page for ShowPage<F> {
    ghost use Rattle.bgp_engine.specs.Agree.{any_terms};
    ghost use Rattle.std.specs.Prelude.{refl};
    ghost use Rattle.bgp_engine.specs.Below.{true, string_bytes};
    ghost use Rattle.bgp_engine.specs.Heard.{Heard};
    ghost use Rattle.bgp_engine.specs.Identified.{families_or};
    ghost use Rattle.bgp_engine.specs.Show.{path_rules};
    ghost use Rattle.bgp_engine.specs.steps.Pages.{context_or, plain};

    ghost Outcome = { Heard };

    ghost rules = { λ page. path_rules F.shown F.shown_paths F.shown_refresh F.shown_end page.families page.ctx };

    ghost told = { λ page. string_bytes page.text };

    ghost fits = { any_terms };

    ghost plan = { λ page terms. plain (path_rules F.shown F.shown_paths F.shown_refresh F.shown_end (families_or page.families terms) (context_or page.ctx terms)) };

    ghost plainly = { λ _. refl };

    fn reads_paths(&self) -> bool {
        true
    }

    fn agree(&mut self, terms: &WideTerms) -> bool {
        self.ctx = terms.context;
        self.families = PathFamilies::of(terms);
        true
    }

    fn first(&mut self, _frame: Frame<'_>) -> Result<bool, AllocError> {
        Ok(false)
    }

    fn message(&mut self, place: u64, frame: Frame<'_>) -> Result<Class, AllocError> {
        if is_identified(self.families, frame.kind) {
            return put_identified(
                &self.form,
                self.alloc,
                &self.ctx,
                self.families,
                &mut self.plain,
                &mut self.text,
                place,
                frame,
            );
        }
        put_frame(
            &self.form,
            self.alloc,
            &self.ctx,
            &mut self.text,
            place,
            frame,
        )
    }

    fn fault(&mut self, place: u64, header: &[u8], fault: HeadFault) -> Result<(), AllocError> {
        put_fault(&self.form, self.alloc, &mut self.text, place, header, fault)
    }

    fn refresh(
        &mut self,
        place: u64,
        len: u16,
        _body: &[u8],
        refresh: &RefreshView<'_>,
    ) -> Result<(), AllocError> {
        self.form.put_refresh(&mut self.text, place, len, refresh)
    }

    fn refuse(
        &mut self,
        place: u64,
        len: u16,
        _body: &[u8],
        why: &Notification,
    ) -> Result<(), AllocError> {
        let reset = OutcomeView::Reset(view_of(why));
        let span = refresh_span();
        self.form
            .put(self.alloc, &mut self.text, place, len, Some(span), &reset)
    }

    fn last(&mut self, tally: &Tally) -> Result<(), AllocError> {
        self.form.put_end(&mut self.text, tally.end)
    }

    fn rest(&mut self, _waiting: &[u8]) -> Result<(), AllocError> {
        Ok(())
    }

    fn answer(&self, tally: Tally, _place: u64) -> Result<Tally, ToolFault> {
        Ok(tally)
    }

    fn told(&self) -> &[u8] {
        self.text.as_bytes()
    }

    fn clear(&mut self) {
        self.text.clear();
    }
}

/// Prints the outcome of each message of a stream in a context. The stream is raw octets, or hexadecimal text.
///
/// The reader is asked for at most 4096 octets at a time, and at most 4,294,967,295 times. What a block yields is
/// written before the next read. After a reset nothing is read.
///
/// # Errors
/// `Memory`, `Read` and `Write` at once, without a second try; `BadHex` where the octets before a bad character didn't
/// end the stream. What was written before a fault remains, and no end line follows it.
pub fn show<R: Read, W: Write>(
    alloc: Global,
    ctx: &Context,
    hex: bool,
    input: &mut R,
    output: &mut W,
) -> Result<Tally, ToolFault>
    ensures { Answers (Shown ctx.now) hex (io R.remaining input.old input.new W.contents output.old output.new) result }
{
    show_within(alloc, u32::MAX, ctx, hex, input, output)
}

/// [`show`], with a reader that is called at most `turns` times.
///
/// # Errors
/// As `show`; `Read` too where that limit was reached before the reader ended.
pub fn show_within<R: Read, W: Write>(
    alloc: Global,
    turns: u32,
    ctx: &Context,
    hex: bool,
    input: &mut R,
    output: &mut W,
) -> Result<Tally, ToolFault>
    ensures { Answers (Shown ctx.now) hex (io R.remaining input.old input.new W.contents output.old output.new) result }
{
    let page = ShowPage::new(alloc, *ctx, no_paths(), Lines);
    walk_stream(turns, hex, page, input, output)
}
