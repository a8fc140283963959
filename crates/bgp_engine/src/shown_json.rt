//! The engine `show --json`.

ghost use Rattle.bgp_engine.specs.Prelude.{Answers, io};
ghost use Rattle.bgp_engine.specs.ShowJson.{ShownJson};

use crate::fault::ToolFault;
use crate::form::Json;
use crate::identified::no_paths;
use crate::shown::ShowPage;
use crate::tally::Tally;
use crate::walk::walk_stream;
use bgp_open::Context;
use std::alloc::Global;
use std::io::{Read, Write};

/// Prints the outcome of each message of a stream in a context as a JSON object on a line, and one for the end. It reads as
/// [`show`](crate::show) does.
///
/// # Errors
/// As `show`.
pub fn show_json<R: Read, W: Write>(
    alloc: Global,
    ctx: &Context,
    hex: bool,
    input: &mut R,
    output: &mut W,
) -> Result<Tally, ToolFault>
    ensures { Answers (ShownJson ctx.now) hex (io R.remaining input.old input.new W.contents output.old output.new) result }
{
    show_json_within(alloc, u32::MAX, ctx, hex, input, output)
}

/// [`show_json`], with a reader that is called at most `turns` times.
///
/// # Errors
/// As `show_json`; `Read` too where that limit was reached before the reader ended.
pub fn show_json_within<R: Read, W: Write>(
    alloc: Global,
    turns: u32,
    ctx: &Context,
    hex: bool,
    input: &mut R,
    output: &mut W,
) -> Result<Tally, ToolFault>
    ensures { Answers (ShownJson ctx.now) hex (io R.remaining input.old input.new W.contents output.old output.new) result }
{
    let page = ShowPage::new(alloc, *ctx, no_paths(), Json);
    walk_stream(turns, hex, page, input, output)
}
