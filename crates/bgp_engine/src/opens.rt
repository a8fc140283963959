//! The engines that judge a stream by what its own OPEN and that of the other direction agree on.

ghost use Rattle.std.specs.Prelude.{true, false};
ghost use Rattle.bgp_engine.specs.Prelude.{CheckedBy, NarrowedBy, ShownBy, ShownJsonBy, Answers, io};

use crate::checked::CheckPage;
use crate::fault::ToolFault;
use crate::form::{Json, Lines};
use crate::identified::no_paths;
use crate::narrowing::NarrowPage;
use crate::opening::open_stream;
use crate::shown::ShowPage;
use crate::tally::Tally;
use bgp_open::Context;
use std::alloc::Global;
use std::io::{Read, Write};

/// The context of a page before one is agreed on: nothing is judged in it.
pub(crate) const UNKNOWN: Context = Context {
    internal: false,
    as4: true,
    ip4: false,
    ip6: false,
    hold: 0,
};

/// [`show`](crate::show) in the context that the stream's first OPEN and that of the other direction agree on. `theirs`
/// has the octets of the other direction, from its first message on: that message is enough.
///
/// # Errors
/// As `show`; `NoContext` where the first message of the stream, or of `theirs`, isn't a complete, valid OPEN: nothing is
/// written then. The stream's first message is read before that is reported.
pub fn show_by_opens<R: Read, W: Write>(
    alloc: Global,
    theirs: &[u8],
    hex: bool,
    input: &mut R,
    output: &mut W,
) -> Result<Tally, ToolFault>
    ensures { Answers (ShownBy theirs.now) hex (io R.remaining input.old input.new W.contents output.old output.new) result }
{
    show_by_opens_within(alloc, u32::MAX, theirs, hex, input, output)
}

/// [`show_by_opens`], with a reader that is called at most `turns` times.
///
/// # Errors
/// As `show_by_opens`; `Read` too where that limit was reached before the reader ended.
pub fn show_by_opens_within<R: Read, W: Write>(
    alloc: Global,
    turns: u32,
    theirs: &[u8],
    hex: bool,
    input: &mut R,
    output: &mut W,
) -> Result<Tally, ToolFault>
    ensures { Answers (ShownBy theirs.now) hex (io R.remaining input.old input.new W.contents output.old output.new) result }
{
    let page = ShowPage::new(alloc, UNKNOWN, no_paths(), Lines);
    open_stream(alloc, turns, theirs, hex, page, input, output)
}

/// [`show_json`](crate::show_json) in the context that both OPENs agree on, as in [`show_by_opens`].
///
/// # Errors
/// As `show_by_opens`.
pub fn show_json_by_opens<R: Read, W: Write>(
    alloc: Global,
    theirs: &[u8],
    hex: bool,
    input: &mut R,
    output: &mut W,
) -> Result<Tally, ToolFault>
    ensures { Answers (ShownJsonBy theirs.now) hex (io R.remaining input.old input.new W.contents output.old output.new) result }
{
    show_json_by_opens_within(alloc, u32::MAX, theirs, hex, input, output)
}

/// [`show_json_by_opens`], with a reader that is called at most `turns` times.
///
/// # Errors
/// As `show_json_by_opens`; `Read` too where that limit was reached before the reader ended.
pub fn show_json_by_opens_within<R: Read, W: Write>(
    alloc: Global,
    turns: u32,
    theirs: &[u8],
    hex: bool,
    input: &mut R,
    output: &mut W,
) -> Result<Tally, ToolFault>
    ensures { Answers (ShownJsonBy theirs.now) hex (io R.remaining input.old input.new W.contents output.old output.new) result }
{
    let page = ShowPage::new(alloc, UNKNOWN, no_paths(), Json);
    open_stream(alloc, turns, theirs, hex, page, input, output)
}

/// [`check`](crate::check) in the context that both OPENs agree on, as in [`show_by_opens`].
///
/// # Errors
/// As `show_by_opens`.
pub fn check_by_opens<R: Read, W: Write>(
    alloc: Global,
    theirs: &[u8],
    hex: bool,
    input: &mut R,
    output: &mut W,
) -> Result<Tally, ToolFault>
    ensures { Answers (CheckedBy theirs.now) hex (io R.remaining input.old input.new W.contents output.old output.new) result }
{
    check_by_opens_within(alloc, u32::MAX, theirs, hex, input, output)
}

/// [`check_by_opens`], with a reader that is called at most `turns` times.
///
/// # Errors
/// As `check_by_opens`; `Read` too where that limit was reached before the reader ended.
pub fn check_by_opens_within<R: Read, W: Write>(
    alloc: Global,
    turns: u32,
    theirs: &[u8],
    hex: bool,
    input: &mut R,
    output: &mut W,
) -> Result<Tally, ToolFault>
    ensures { Answers (CheckedBy theirs.now) hex (io R.remaining input.old input.new W.contents output.old output.new) result }
{
    let page = CheckPage::new(alloc, UNKNOWN, no_paths());
    open_stream(alloc, turns, theirs, hex, page, input, output)
}

/// [`narrow_stream`](crate::narrow_stream) in the context that both OPENs agree on, as in [`show_by_opens`]: with
/// 4-octet AS numbers. Routes keep the path identifiers that both agree on.
///
/// # Errors
/// As `narrow_under`; `NoContext` as in `show_by_opens`, and where they don't agree on 4-octet AS numbers.
pub fn narrow_by_opens<R: Read, W: Write>(
    alloc: Global,
    theirs: &[u8],
    input: &mut R,
    output: &mut W,
) -> Result<Tally, ToolFault>
    ensures { Answers (NarrowedBy theirs.now) false (io R.remaining input.old input.new W.contents output.old output.new) result }
{
    narrow_by_opens_within(alloc, u32::MAX, theirs, input, output)
}

/// [`narrow_by_opens`], with a reader that is called at most `turns` times.
///
/// # Errors
/// As `narrow_by_opens`; `Read` too where that limit was reached before the reader ended.
pub fn narrow_by_opens_within<R: Read, W: Write>(
    alloc: Global,
    turns: u32,
    theirs: &[u8],
    input: &mut R,
    output: &mut W,
) -> Result<Tally, ToolFault>
    ensures { Answers (NarrowedBy theirs.now) false (io R.remaining input.old input.new W.contents output.old output.new) result }
{
    let page = NarrowPage::new(alloc, UNKNOWN, no_paths());
    open_stream(alloc, turns, theirs, false, page, input, output)
}
