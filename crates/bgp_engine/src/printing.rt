//! What is printed of a stream, in each style.

ghost use Rattle.bgp_engine.specs.Agree.{any_terms};
ghost use Rattle.bgp_engine.specs.Prelude.{Printed, PrintedBy, PrintedUnder, ReportedBy, Answers, io};
ghost use Rattle.bgp_engine.specs.Below.{wide_terms};
ghost use Rattle.bgp_paths.specs.Prelude.{path_families};
ghost use Rattle.bgp_engine.specs.Explain.{Explained, ExplainedUnder};
ghost use Rattle.bgp_engine.specs.OnlyFaults.{chosen};
ghost use Rattle.bgp_engine.specs.Prelude.{IsReport, no_tally, wide_rules};
ghost use Rattle.bgp_engine.specs.Show.{path_rules};

use crate::explaining::ExplainPage;
use crate::fault::ToolFault;
use crate::field_form::FieldForm;
use crate::form::{Form, Json, Lines};
use crate::identified::no_paths;
use crate::only_faults::{Every, Faulty, OnlyFaults};
use crate::opening::open_stream;
use crate::opens::{UNKNOWN, show_by_opens_within, show_json_by_opens_within};
use crate::shown::{ShowPage, show_within};
use crate::shown_json::show_json_within;
use crate::tally::Tally;
use crate::walk::{walk_stream, walk_under};
use bgp_open::Context;
use bgp_paths::PathFamilies;
use bgp_terms::WideTerms;
use std::alloc::Global;
use std::io::{Read, Write};

/// How a message is printed.
#[derive(Clone, Copy, PartialEq, Eq)]
pub enum Style {
    /// In lines of text, as [`show`](crate::show) does.
    Lines,
    /// As an object of JSON on a line, as [`show_json`](crate::show_json) does.
    Json,
    /// In lines of text, with a line for each of its fields: `explain`.
    Explained,
    /// As that object of JSON, with its fields: `explain --json`.
    ExplainedJson,
}

// Prints messages with their fields, in a form.
fn explain_within<F: FieldForm + Drop, R: Read, W: Write>(
    alloc: Global,
    turns: u32,
    form: F,
    only_faults: bool,
    ctx: &Context,
    hex: bool,
    input: &mut R,
    output: &mut W,
) -> Result<Tally, ToolFault>
    ensures { Answers (Explained F.form (chosen only_faults) ctx.now) hex (io R.remaining input.old input.new W.contents output.old output.new) result }
{
    if only_faults {
        let page = ExplainPage::new(alloc, *ctx, no_paths(), form, Faulty);
        return walk_stream(turns, hex, page, input, output);
    }
    let page = ExplainPage::new(alloc, *ctx, no_paths(), form, Every);
    walk_stream(turns, hex, page, input, output)
}

// As `explain_within`, by what both OPENs agree on.
fn explain_by_opens<F: FieldForm + Drop, R: Read, W: Write>(
    alloc: Global,
    turns: u32,
    form: F,
    only_faults: bool,
    theirs: &[u8],
    hex: bool,
    input: &mut R,
    output: &mut W,
) -> Result<Tally, ToolFault>
    ensures { Answers (ReportedBy any_terms theirs.now (ExplainedUnder F.form (chosen only_faults))) hex (io R.remaining input.old input.new W.contents output.old output.new) result }
{
    if only_faults {
        let page = ExplainPage::new(alloc, UNKNOWN, no_paths(), form, Faulty);
        return open_stream(alloc, turns, theirs, hex, page, input, output);
    }
    let page = ExplainPage::new(alloc, UNKNOWN, no_paths(), form, Every);
    open_stream(alloc, turns, theirs, hex, page, input, output)
}

/// Prints the outcome of each message of a stream in a context, in a style; where `only_faults` is set, only of those
/// that aren't accepted without a note (RFC 7606), and of NOTIFICATIONs. It reads as [`show`](crate::show) does.
///
/// # Errors
/// As `show`.
pub fn print<R: Read, W: Write>(
    alloc: Global,
    style: Style,
    only_faults: bool,
    ctx: &Context,
    hex: bool,
    input: &mut R,
    output: &mut W,
) -> Result<Tally, ToolFault>
    ensures { Answers (Printed style only_faults ctx.now) hex (io R.remaining input.old input.new W.contents output.old output.new) result }
{
    print_within(alloc, u32::MAX, style, only_faults, ctx, hex, input, output)
}

/// [`print`], with a reader that is called at most `turns` times.
///
/// # Errors
/// As `print`; `Read` too where that limit was reached before the reader ended.
pub fn print_within<R: Read, W: Write>(
    alloc: Global,
    turns: u32,
    style: Style,
    only_faults: bool,
    ctx: &Context,
    hex: bool,
    input: &mut R,
    output: &mut W,
) -> Result<Tally, ToolFault>
    ensures { Answers (Printed style only_faults ctx.now) hex (io R.remaining input.old input.new W.contents output.old output.new) result }
{
    match (style, only_faults) {
        (Style::Lines, false) => show_within(alloc, turns, ctx, hex, input, output),
        (Style::Json, false) => show_json_within(alloc, turns, ctx, hex, input, output),
        (Style::Lines, true) => {
            let page = ShowPage::new(alloc, *ctx, no_paths(), OnlyFaults { form: Lines });
            walk_stream(turns, hex, page, input, output)
        }
        (Style::Json, true) => {
            let page = ShowPage::new(alloc, *ctx, no_paths(), OnlyFaults { form: Json });
            walk_stream(turns, hex, page, input, output)
        }
        (Style::Explained, _) => {
            explain_within(alloc, turns, Lines, only_faults, ctx, hex, input, output)
        }
        (Style::ExplainedJson, _) => {
            explain_within(alloc, turns, Json, only_faults, ctx, hex, input, output)
        }
    }
}

// As `explain_within`, by what was negotiated.
fn explain_under<F: FieldForm + Drop, R: Read, W: Write>(
    alloc: Global,
    form: F,
    only_faults: bool,
    terms: &WideTerms,
    hex: bool,
    input: &mut R,
    output: &mut W,
) -> Result<Tally, ToolFault>
    ensures { Answers (ExplainedUnder F.form (chosen only_faults) (wide_terms terms.now)) hex (io R.remaining input.old input.new W.contents output.old output.new) result }
{
    let families = PathFamilies::of(terms);
    if only_faults {
        let page = ExplainPage::new(alloc, terms.context, families, form, Faulty);
        return walk_under(u32::MAX, hex, page, terms.refresh, input, output);
    }
    let page = ExplainPage::new(alloc, terms.context, families, form, Every);
    walk_under(u32::MAX, hex, page, terms.refresh, input, output)
}

// As `print`, by what was negotiated, in a form of `show`.
fn show_under<F: Form + Drop, R: Read, W: Write>(
    alloc: Global,
    form: F,
    terms: &WideTerms,
    hex: bool,
    input: &mut R,
    output: &mut W,
) -> Result<Tally, ToolFault>
    ensures { Answers (IsReport (wide_rules (wide_terms terms.now).refresh (path_rules F.shown F.shown_paths F.shown_refresh F.shown_end (path_families (wide_terms terms.now)) (wide_terms terms.now).context)) 0 no_tally) hex (io R.remaining input.old input.new W.contents output.old output.new) result }
{
    let page = ShowPage::new(alloc, terms.context, PathFamilies::of(terms), form);
    walk_under(u32::MAX, hex, page, terms.refresh, input, output)
}

/// [`print`] by what was negotiated: a ROUTE-REFRESH is a message where the reader offers it (RFC 2918; RFC 7313); routes have path identifiers where the
/// terms say so (RFC 7911). What else is agreed on beyond the context has no effect.
///
/// # Errors
/// As `print`.
pub fn print_under<R: Read, W: Write>(
    alloc: Global,
    style: Style,
    only_faults: bool,
    terms: &WideTerms,
    hex: bool,
    input: &mut R,
    output: &mut W,
) -> Result<Tally, ToolFault>
    ensures { Answers (PrintedUnder style only_faults (wide_terms terms.now)) hex (io R.remaining input.old input.new W.contents output.old output.new) result }
{
    match (style, only_faults) {
        (Style::Lines, false) => show_under(alloc, Lines, terms, hex, input, output),
        (Style::Json, false) => show_under(alloc, Json, terms, hex, input, output),
        (Style::Lines, true) => {
            show_under(alloc, OnlyFaults { form: Lines }, terms, hex, input, output)
        }
        (Style::Json, true) => {
            show_under(alloc, OnlyFaults { form: Json }, terms, hex, input, output)
        }
        (Style::Explained, _) => {
            explain_under(alloc, Lines, only_faults, terms, hex, input, output)
        }
        (Style::ExplainedJson, _) => {
            explain_under(alloc, Json, only_faults, terms, hex, input, output)
        }
    }
}

/// [`print`] in the context that both OPENs agree on, as in [`show_by_opens`](crate::show_by_opens).
///
/// # Errors
/// As `show_by_opens`.
pub fn print_by_opens<R: Read, W: Write>(
    alloc: Global,
    style: Style,
    only_faults: bool,
    theirs: &[u8],
    hex: bool,
    input: &mut R,
    output: &mut W,
) -> Result<Tally, ToolFault>
    ensures { Answers (PrintedBy style only_faults theirs.now) hex (io R.remaining input.old input.new W.contents output.old output.new) result }
{
    print_by_opens_within(
        alloc,
        u32::MAX,
        style,
        only_faults,
        theirs,
        hex,
        input,
        output,
    )
}

/// [`print_by_opens`], with a reader that is called at most `turns` times.
///
/// # Errors
/// As `print_by_opens`; `Read` too where that limit was reached before the reader ended.
pub fn print_by_opens_within<R: Read, W: Write>(
    alloc: Global,
    turns: u32,
    style: Style,
    only_faults: bool,
    theirs: &[u8],
    hex: bool,
    input: &mut R,
    output: &mut W,
) -> Result<Tally, ToolFault>
    ensures { Answers (PrintedBy style only_faults theirs.now) hex (io R.remaining input.old input.new W.contents output.old output.new) result }
{
    match (style, only_faults) {
        (Style::Lines, false) => show_by_opens_within(alloc, turns, theirs, hex, input, output),
        (Style::Json, false) => show_json_by_opens_within(alloc, turns, theirs, hex, input, output),
        (Style::Lines, true) => {
            let page = ShowPage::new(alloc, UNKNOWN, no_paths(), OnlyFaults { form: Lines });
            open_stream(alloc, turns, theirs, hex, page, input, output)
        }
        (Style::Json, true) => {
            let page = ShowPage::new(alloc, UNKNOWN, no_paths(), OnlyFaults { form: Json });
            open_stream(alloc, turns, theirs, hex, page, input, output)
        }
        (Style::Explained, _) => {
            explain_by_opens(alloc, turns, Lines, only_faults, theirs, hex, input, output)
        }
        (Style::ExplainedJson, _) => {
            explain_by_opens(alloc, turns, Json, only_faults, theirs, hex, input, output)
        }
    }
}
