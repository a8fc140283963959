//! The page of `explain`, in each form.

ghost use Rattle.std.specs.Prelude.{◌≡◌, ◌+◌, ◌≤◌, ◌++◌, [], Ok, Err, length, IfOk, OnOk, if◌then◌else◌};
ghost use Rattle.bgp_engine.specs.Below.{string_bytes, octets_of, IsLength, message_in, refresh_header};
ghost use Rattle.bgp_engine.specs.Below.{of_fault, out_of, outcome_value};
ghost use Rattle.bgp_engine.specs.steps.PageSteps.{WritesHeard, WritesIdentified};
ghost use Rattle.bgp_engine.specs.Explain.{heard_text, identified_fault, where_chosen};
ghost use Rattle.bgp_frame.specs.declared.kind.Kind.{Kind};
ghost use Rattle.bgp_paths.specs.Prelude.{outcome_with, path_numbers, shifted};

use crate::class::{Class, class_of};
use crate::fault::ToolFault;
use crate::field_form::FieldForm;
use crate::heard::{fault_of, identified_fault};
use crate::identified::{is_identified, used_runs};
use crate::only_faults::Choice;
use crate::page::Page;
use crate::refreshing::view_of;
use crate::tally::Tally;
use bgp_fields::{Fault, header_fault};
use bgp_frame::{Frame, HeadFault, Notification, head};
use bgp_msg::{OutcomeView, view_frame};
use bgp_open::Context;
use bgp_paths::{PathFamilies, PathShifts, PlainBody, path_runs, view_received};
use bgp_refresh::{RefreshView, refresh_header};
use bgp_terms::WideTerms;
use bgp_text::Identified;
use bgp_update::UpdateView;
use std::alloc::{AllocError, Global};

/// The outcome of each message, and its fields.
#[derive(Drop)]
pub(crate) struct ExplainPage<F, C> {
    alloc: Global,
    ctx: Context,
    /// Whose routes have path identifiers.
    families: PathFamilies,
    /// The body of an UPDATE without them.
    plain: PlainBody,
    form: F,
    text: String,
    /// The octets of a message.
    octets: Vec<u8>,
    choice: C,
}

impl<F: FieldForm, C: Choice> ExplainPage<F, C> {
    /// Nothing so far, of messages whose routes of these families have path identifiers.
    pub(crate) fn new(
        alloc: Global,
        ctx: Context,
        families: PathFamilies,
        form: F,
        choice: C,
    ) -> ExplainPage<F, C>
        ensures context { result.ctx ≡ ctx }
        ensures families { result.families ≡ families }
        ensures empty { string_bytes result.text ≡ [] }
    {
        ExplainPage {
            alloc,
            ctx,
            families,
            plain: PlainBody::new(),
            form,
            text: String::new(alloc),
            octets: Vec::new(alloc),
            choice,
        }
    }
}

/// The octets of a whole message.
fn put_octets(frame: Frame<'_>, octets: &mut Vec<u8>) -> Result<(), AllocError>
    requires { IsLength frame.kind (19 + length frame.body.now) }
    ensures { OnOk result (octets.new.items ≡ octets_of (message_in frame.entry)) }
{
    octets.clear();
    octets.extend_from_slice(&head(frame.kind, frame.body.len() as u16))?;
    octets.extend_from_slice(frame.body)
}

/// The octets of a whole ROUTE-REFRESH of this length.
fn put_refresh_octets(len: u16, body: &[u8], octets: &mut Vec<u8>) -> Result<(), AllocError>
    ensures { OnOk result (octets.new.items ≡ refresh_header len ++ body.now) }
{
    octets.clear();
    octets.extend_from_slice(&refresh_header(len))?;
    octets.extend_from_slice(body)
}

impl<F: FieldForm, C: Choice> ExplainPage<F, C> {
    /// Adds the text of a message of this length, or of a header's fault, of which these octets are held, where it is
    /// printed.
    fn put(
        &mut self,
        place: u64,
        len: u16,
        fault: Option<Fault>,
        outcome: &OutcomeView<'_>,
    ) -> Result<(), AllocError>
        requires { length self.old.octets.items ≤ 4096 }
        ensures lines { OnOk result (string_bytes self.new.text ≡ string_bytes self.old.text
            ++ (if C.printed.outcome (outcome_value outcome.now) then F.form.message self.old.ctx place len self.old.octets.items fault (outcome_value outcome.now) else [])) }
        ensures context { self.new.ctx ≡ self.old.ctx }
        ensures families { self.new.families ≡ self.old.families }
    {
        if !self.choice.prints(outcome) {
            return Ok(());
        }
        self.form.put_message(
            self.alloc,
            &mut self.text,
            &self.ctx,
            place,
            len,
            self.octets.as_slice(),
            fault,
            outcome,
        )
    }

    /// Adds the text of a whole message.
    fn put_frame(&mut self, place: u64, frame: Frame<'_>) -> Result<Class, AllocError>
        requires { IsLength frame.kind (19 + length frame.body.now) }
        ensures writes { IfOk result (λ class. WritesHeard F.form C.printed self.old.ctx (string_bytes self.old.text) (string_bytes self.new.text) place frame.entry.len
            (octets_of (message_in frame.entry)) (record { front = Ok (message_in frame.entry); outcome = out_of self.old.ctx (message_in frame.entry) }) class) }
        ensures context { self.new.ctx ≡ self.old.ctx }
        ensures families { self.new.families ≡ self.old.families }
    {
        put_octets(frame, &mut self.octets)?;
        let ctx = self.ctx;
        let mut view = UpdateView::empty();
        let outcome = view_frame(&ctx, frame, &mut view);
        let fault = fault_of(&ctx, frame, &outcome);
        self.put(place, frame.len, fault, &outcome)?;
        Ok(class_of(&outcome))
    }

    /// Adds the text of a header with a fault.
    fn put_fault(&mut self, place: u64, header: &[u8], fault: HeadFault) -> Result<(), AllocError>
        requires { length header.now ≡ 19 }
        ensures lines { OnOk result (string_bytes self.new.text ≡ string_bytes self.old.text
            ++ heard_text F.form C.printed self.old.ctx place 0 header.now (record { front = Err fault; outcome = of_fault fault })) }
        ensures context { self.new.ctx ≡ self.old.ctx }
        ensures families { self.new.families ≡ self.old.families }
    {
        self.octets.clear();
        self.octets.extend_from_slice(header)?;
        let why = fault.answer();
        let fault = header_fault(header, fault);
        self.put(place, 0, Some(fault), &OutcomeView::Reset(why.view()))
    }
}

/// Adds the text of an UPDATE of this length whose routes have path identifiers, where it is printed.
fn put_chosen<F: FieldForm, C: Choice>(
    form: &F,
    choice: &C,
    alloc: Global,
    ctx: &Context,
    text: &mut String,
    place: u64,
    len: u16,
    update: &Identified<'_>,
    outcome: &OutcomeView<'_>,
) -> Result<(), AllocError>
    requires { length update.now.octets.now ≤ 4096 }
    ensures { OnOk result (string_bytes text.new ≡ string_bytes text.old
        ++ where_chosen C.printed (F.form.identified ctx.now update.now.families update.now.octets.now update.now.fault) (path_numbers update.now.runs) (shifted update.now.shifts) place len (outcome_value outcome.now)) }
{
    if !choice.prints(outcome) {
        return Ok(());
    }
    form.put_identified(alloc, text, ctx, place, len, update, outcome)
}

/// Adds the text of an UPDATE whose routes have path identifiers, where it is printed.
fn put_identified<F: FieldForm, C: Choice>(
    form: &F,
    choice: &C,
    alloc: Global,
    ctx: &Context,
    families: PathFamilies,
    plain: &mut PlainBody,
    octets: &[u8],
    text: &mut String,
    place: u64,
    frame: Frame<'_>,
) -> Result<Class, AllocError>
    requires length { IsLength Kind.Update (19 + length frame.body.now) }
    requires short { length octets.now ≤ 4096 }
    ensures { IfOk result (λ class. WritesIdentified (where_chosen C.printed (F.form.identified ctx.now families octets.now (identified_fault ctx.now families frame.entry.body.now (outcome_with ctx.now families frame.entry.body.now)))) families ctx.now (string_bytes text.old) (string_bytes text.new)
        place frame.entry.len frame.entry.body.now (outcome_with ctx.now families frame.entry.body.now) class) }
{
    let body = frame.body;
    plain.fill(families, body);
    let runs = used_runs(ctx.ip4, path_runs(families, body));
    let shifts = PathShifts::between(plain.as_slice(), body);
    let mut view = UpdateView::empty();
    let outcome = view_received(ctx, body, plain.as_slice(), &mut view);
    let fault = identified_fault(ctx, families, body, plain.as_slice(), &shifts, &outcome);
    let update = Identified {
        octets,
        families,
        runs,
        shifts,
        fault,
    };
    put_chosen(
        form, choice, alloc, ctx, text, place, frame.len, &update, &outcome,
    )?;
    Ok(class_of(&outcome))
}

impl<F: FieldForm, C: Choice> Page for ExplainPage<F, C> {
    ghost use Rattle.bgp_engine.specs.Agree.{any_terms};
    ghost use Rattle.std.specs.Prelude.{refl};
    ghost use Rattle.bgp_engine.specs.Below.{true, string_bytes};
    ghost use Rattle.bgp_engine.specs.Explain.{explained_path_rules};
    ghost use Rattle.bgp_engine.specs.Heard.{Heard};
    ghost use Rattle.bgp_engine.specs.Identified.{families_or};
    ghost use Rattle.bgp_engine.specs.steps.Pages.{context_or, plain};

    ghost Outcome = { Heard };

    ghost rules = { λ page. explained_path_rules F.form C.printed page.families page.ctx };

    ghost told = { λ page. string_bytes page.text };

    ghost fits = { any_terms };

    ghost plan = { λ page terms. plain (explained_path_rules F.form C.printed (families_or page.families terms) (context_or page.ctx terms)) };

    ghost plainly = { λ _. refl };

    fn reads_paths(&self) -> bool {
        true
    }

    fn agree(&mut self, terms: &WideTerms) -> bool {
        self.ctx = terms.context;
        self.families = PathFamilies::of(terms);
        true
    }

    fn first(&mut self, _frame: Frame<'_>) -> Result<bool, AllocError> {
        Ok(false)
    }

    fn message(&mut self, place: u64, frame: Frame<'_>) -> Result<Class, AllocError> {
        if !is_identified(self.families, frame.kind) {
            return self.put_frame(place, frame);
        }
        put_octets(frame, &mut self.octets)?;
        put_identified(
            &self.form,
            &self.choice,
            self.alloc,
            &self.ctx,
            self.families,
            &mut self.plain,
            self.octets.as_slice(),
            &mut self.text,
            place,
            frame,
        )
    }

    fn fault(&mut self, place: u64, header: &[u8], fault: HeadFault) -> Result<(), AllocError> {
        self.put_fault(place, header, fault)
    }

    fn refresh(
        &mut self,
        place: u64,
        len: u16,
        body: &[u8],
        refresh: &RefreshView<'_>,
    ) -> Result<(), AllocError> {
        if !self.choice.prints_refresh(refresh) {
            return Ok(());
        }
        put_refresh_octets(len, body, &mut self.octets)?;
        self.form.put_refresh(
            self.alloc,
            &mut self.text,
            &self.ctx,
            place,
            len,
            self.octets.as_slice(),
            refresh,
        )
    }

    fn refuse(
        &mut self,
        place: u64,
        len: u16,
        body: &[u8],
        why: &Notification,
    ) -> Result<(), AllocError> {
        put_refresh_octets(len, body, &mut self.octets)?;
        self.put(place, len, None, &OutcomeView::Reset(view_of(why)))
    }

    fn last(&mut self, tally: &Tally) -> Result<(), AllocError> {
        self.form.put_last(&mut self.text, tally.end)
    }

    fn rest(&mut self, _waiting: &[u8]) -> Result<(), AllocError> {
        Ok(())
    }

    fn answer(&self, tally: Tally, _place: u64) -> Result<Tally, ToolFault> {
        Ok(tally)
    }

    fn told(&self) -> &[u8] {
        self.text.as_bytes()
    }

    fn clear(&mut self) {
        self.text.clear();
    }
}
