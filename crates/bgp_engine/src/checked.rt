//! The engine `check`.

ghost use Rattle.std.specs.Prelude.{◌≡◌, ◌+◌, ◌++◌, length, OnOk};
ghost use Rattle.bgp_frame.specs.declared.kind.Kind.{Kind};
ghost use Rattle.bgp_paths.specs.Prelude.{outcome_with};
ghost use Rattle.bgp_engine.specs.Below.{IsLength, is_reset};
ghost use Rattle.bgp_engine.specs.Prelude.{class_of, is_last};
ghost use Rattle.bgp_engine.specs.Below.{string_bytes};
ghost use Rattle.bgp_engine.specs.Below.{wide_terms};
ghost use Rattle.bgp_engine.specs.Check.{Checked, CheckedUnder, counts_line};
ghost use Rattle.bgp_engine.specs.Run.{Answers, io};

use crate::class::{Class, class_of};
use crate::fault::ToolFault;
use crate::identified::{is_identified, no_paths};
use crate::page::Page;
use crate::tally::Tally;
use crate::walk::{walk_stream, walk_under};
use bgp_frame::{Frame, HeadFault, Notification};
use bgp_msg::view_frame;
use bgp_open::Context;
use bgp_paths::{PathFamilies, PlainBody, view_received};
use bgp_refresh::RefreshView;
use bgp_terms::WideTerms;
use bgp_text::put_end;
use bgp_update::UpdateView;
use std::alloc::{AllocError, Global};
use std::io::{Read, Write};

// The counts in one line.
fn put_counts(text: &mut String, tally: &Tally) -> Result<(), AllocError>
    ensures { OnOk result (string_bytes text.new ≡ string_bytes text.old ++ counts_line tally.now) }
{
    let messages = tally.messages;
    let took = tally.took;
    let withdrawn = tally.withdrawn;
    let resets = tally.resets;
    write!(
        text,
        "messages {messages} took {took} withdraw {withdrawn} reset {resets}\n"
    )
}

/// Only the counts.
#[derive(Drop)]
pub(crate) struct CheckPage {
    ctx: Context,
    /// Whose routes have path identifiers.
    families: PathFamilies,
    /// The body of an UPDATE without them.
    plain: PlainBody,
    text: String,
}

impl CheckPage {
    ghost use Rattle.std.specs.Prelude.{[]};

    /// An empty page, of messages whose routes of these families have path identifiers.
    pub(crate) fn new(alloc: Global, ctx: Context, families: PathFamilies) -> CheckPage
        ensures context { result.ctx ≡ ctx }
        ensures families { result.families ≡ families }
        ensures empty { string_bytes result.text ≡ [] }
    {
        CheckPage {
            ctx,
            families,
            plain: PlainBody::new(),
            text: String::new(alloc),
        }
    }
}

// What an UPDATE whose routes have path identifiers counts as.
fn class_identified(
    ctx: &Context,
    families: PathFamilies,
    plain: &mut PlainBody,
    body: &[u8],
) -> Class
    requires { IsLength Kind.Update (19 + length body.now) }
    ensures counts { result ≡ class_of (outcome_with ctx.now families body.now) }
    ensures ends { is_reset (outcome_with ctx.now families body.now) ≡ is_last result }
{
    plain.fill(families, body);
    let mut view = UpdateView::empty();
    class_of(&view_received(ctx, body, plain.as_slice(), &mut view))
}

impl Page for CheckPage {
    ghost use Rattle.bgp_engine.specs.Agree.{any_terms};
    ghost use Rattle.std.specs.Prelude.{refl};
    ghost use Rattle.bgp_engine.specs.Below.{true, string_bytes};
    ghost use Rattle.bgp_msg.specs.declared.outcome.Outcome as outcomes;
    ghost use Rattle.bgp_engine.specs.Check.{check_path_rules};
    ghost use Rattle.bgp_engine.specs.Identified.{families_or};
    ghost use Rattle.bgp_engine.specs.steps.Pages.{context_or, plain};

    ghost Outcome = { outcomes.Outcome };

    ghost rules = { λ page. check_path_rules page.families page.ctx };

    ghost told = { λ page. string_bytes page.text };

    ghost fits = { any_terms };

    ghost plan = { λ page terms. plain (check_path_rules (families_or page.families terms) (context_or page.ctx terms)) };

    ghost plainly = { λ _. refl };

    fn reads_paths(&self) -> bool {
        true
    }

    fn agree(&mut self, terms: &WideTerms) -> bool {
        self.ctx = terms.context;
        self.families = PathFamilies::of(terms);
        true
    }

    fn first(&mut self, _frame: Frame<'_>) -> Result<bool, AllocError> {
        Ok(false)
    }

    fn message(&mut self, _place: u64, frame: Frame<'_>) -> Result<Class, AllocError> {
        if is_identified(self.families, frame.kind) {
            let class = class_identified(&self.ctx, self.families, &mut self.plain, frame.body);
            return Ok(class);
        }
        let mut view = UpdateView::empty();
        Ok(class_of(&view_frame(&self.ctx, frame, &mut view)))
    }

    fn fault(&mut self, _place: u64, _header: &[u8], _fault: HeadFault) -> Result<(), AllocError> {
        Ok(())
    }

    fn refresh(
        &mut self,
        _place: u64,
        _len: u16,
        _body: &[u8],
        _refresh: &RefreshView<'_>,
    ) -> Result<(), AllocError> {
        Ok(())
    }

    fn refuse(
        &mut self,
        _place: u64,
        _len: u16,
        _body: &[u8],
        _why: &Notification,
    ) -> Result<(), AllocError> {
        Ok(())
    }

    fn last(&mut self, tally: &Tally) -> Result<(), AllocError> {
        put_counts(&mut self.text, tally)?;
        put_end(&mut self.text, tally.end)
    }

    fn rest(&mut self, _waiting: &[u8]) -> Result<(), AllocError> {
        Ok(())
    }

    fn answer(&self, tally: Tally, _place: u64) -> Result<Tally, ToolFault> {
        Ok(tally)
    }

    fn told(&self) -> &[u8] {
        self.text.as_bytes()
    }

    fn clear(&mut self) {
        self.text.clear();
    }
}

/// Counts the outcomes of a stream's messages in a context, and prints the counts and the end. It reads as `show` does.
///
/// # Errors
/// As `show`; nothing is written before the last lines.
pub fn check<R: Read, W: Write>(
    alloc: Global,
    ctx: &Context,
    hex: bool,
    input: &mut R,
    output: &mut W,
) -> Result<Tally, ToolFault>
    ensures { Answers (Checked ctx.now) hex (io R.remaining input.old input.new W.contents output.old output.new) result }
{
    check_within(alloc, u32::MAX, ctx, hex, input, output)
}

/// [`check`], with a reader that is called at most `turns` times.
///
/// # Errors
/// As `check`; `Read` too where that limit was reached before the reader ended.
pub fn check_within<R: Read, W: Write>(
    alloc: Global,
    turns: u32,
    ctx: &Context,
    hex: bool,
    input: &mut R,
    output: &mut W,
) -> Result<Tally, ToolFault>
    ensures { Answers (Checked ctx.now) hex (io R.remaining input.old input.new W.contents output.old output.new) result }
{
    let page = CheckPage::new(alloc, *ctx, no_paths());
    walk_stream(turns, hex, page, input, output)
}

/// [`check`] by what was negotiated: a ROUTE-REFRESH is a message where the reader offers it, and routes have path identifiers where the terms say so.
///
/// # Errors
/// As `check`.
pub fn check_under<R: Read, W: Write>(
    alloc: Global,
    terms: &WideTerms,
    hex: bool,
    input: &mut R,
    output: &mut W,
) -> Result<Tally, ToolFault>
    ensures { Answers (CheckedUnder (wide_terms terms.now)) hex (io R.remaining input.old input.new W.contents output.old output.new) result }
{
    let page = CheckPage::new(alloc, terms.context, PathFamilies::of(terms));
    walk_under(u32::MAX, hex, page, terms.refresh, input, output)
}
