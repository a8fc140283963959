//! The command line of `bgp`.

ghost use Rattle.std.specs.Prelude.{◌≡◌, false, map, true};
ghost use Rattle.clap.specs.Words.{kind_of};
ghost use Rattle.bgp.specs.Command.{Answers, HasRun, IsExplained, IsQuiet, IsWide, Runs, RunsBy, Prints, are_plain, by_flags, cleaned_by, cleaned_in, cleaned_under, fields_style_of, flag_terms, style_of};
ghost use Rattle.bgp_terms.specs.Prelude.{wide_terms};
ghost use Rattle.bgp_engine.specs.Prelude.{Printed, PrintedBy, PrintedUnder, without_words, CheckedBy, CheckedUnder, NarrowedBy, NarrowedUnder, io};
ghost use Rattle.bgp_engine.specs.Check.{Checked};
ghost use Rattle.bgp_engine.specs.Narrow.{Narrowed};
ghost use Rattle.bgp_engine.specs.Run as engine;

use crate::hints::{Recorded, hint};
use bgp_clean::Limits;
use bgp_engine::{
    Style, Tally, ToolFault, check, check_by_opens, check_under, clean_by_opens, clean_stream,
    clean_under, from_hex, narrow_by_opens, narrow_stream, narrow_under, print, print_by_opens,
    print_under, status, to_hex, to_hex_with,
};
use bgp_loop::{read_file, run_file, trace_file};
use bgp_terms::{Refreshes, WideTerms};
use bgp_wire::OctetSet;
use bgp_words::{Asked, FlagTerms, Request, Session, parse};
use clap::Error;
use clap::error::ErrorKind;
use std::alloc::Global;
use std::fs::Files;
use std::io::{Read, Write};
use std::net::Net;

/// The status of a fault of the command line.
const MISUSE: u8 = 2;

/// The length of the longest message: only the first message of the other direction's file is read.
const MESSAGE_MAX: u64 = 4096;

// Prints a fault. A failed write has no effect.
fn tell<E: Write>(errors: &mut E, fault: ToolFault) {
    let _ = write!(errors, "bgp: {fault}\n");
}

// Prints help, or the fault of a command line that can't be carried out.
fn explain<W: Write, E: Write>(error: &Error, output: &mut W, errors: &mut E) -> u8
    ensures answer { IsExplained (kind_of error.now) result }
    ensures quiet { IsQuiet (kind_of error.now) (W.contents output.old) (W.contents output.new) }
{
    if error.kind() == ErrorKind::OutOfMemory {
        tell(errors, ToolFault::Memory);
        return status(&Err(ToolFault::Memory));
    }
    if error.use_stderr() {
        let _ = write!(errors, "{error}");
        return MISUSE;
    }
    match write!(output, "{error}") {
        Ok(()) => 0,
        Err(_) => {
            tell(errors, ToolFault::Write);
            status(&Err(ToolFault::Write))
        }
    }
}

// The style in which messages are shown.
fn style_of(json: bool) -> Style
    ensures { result ≡ style_of json }
{
    if json { Style::Json } else { Style::Lines }
}

// The style in which messages are shown with their fields.
fn fields_style_of(json: bool) -> Style
    ensures { result ≡ fields_style_of json }
{
    if json {
        Style::ExplainedJson
    } else {
        Style::Explained
    }
}

// Prints by the OPENs of both directions, of which a file has the other one.
fn print_opened<H: Files, R: Read, W: Write>(
    rt: &H,
    alloc: Global,
    file: &str,
    style: Style,
    only_faults: bool,
    hex: bool,
    input: &mut R,
    output: &mut W,
) -> Result<Tally, ToolFault>
    ensures { RunsBy (PrintedBy style only_faults) hex (io R.remaining input.old input.new W.contents output.old output.new) result }
{
    match read_file(rt, alloc, file, MESSAGE_MAX) {
        Ok(theirs) => print_by_opens(alloc, style, only_faults, &theirs, hex, input, output),
        Err(fault) => Err(fault),
    }
}

// Whether the flags say no more than a context.
fn are_plain(flags: &FlagTerms) -> bool
    ensures { result ≡ are_plain flags.now }
{
    let has_refresh = match flags.refresh {
        Refreshes::None => false,
        Refreshes::Plain | Refreshes::Enhanced => true,
    };
    !(has_refresh || flags.paths.ip4 || flags.paths.ip6)
}

// What the flags say, as terms.
fn terms_of(flags: &FlagTerms) -> WideTerms
    ensures { wide_terms result ≡ flag_terms flags.now }
{
    WideTerms {
        paths4: flags.paths.ip4,
        paths6: flags.paths.ip6,
        ..WideTerms::with_refresh(flags.context, flags.refresh)
    }
}

// Prints by the flags.
fn print_flagged<R: Read, W: Write>(
    alloc: Global,
    style: Style,
    only_faults: bool,
    flags: &FlagTerms,
    hex: bool,
    input: &mut R,
    output: &mut W,
) -> Result<Tally, ToolFault>
    ensures { engine.Answers (by_flags (Printed style only_faults) (PrintedUnder style only_faults) flags.now) hex (io R.remaining input.old input.new W.contents output.old output.new) result }
{
    if are_plain(flags) {
        return print(
            alloc,
            style,
            only_faults,
            &flags.context,
            hex,
            input,
            output,
        );
    }
    let terms = terms_of(flags);
    print_under(alloc, style, only_faults, &terms, hex, input, output)
}

// Checks by the flags.
fn check_flagged<R: Read, W: Write>(
    alloc: Global,
    flags: &FlagTerms,
    hex: bool,
    input: &mut R,
    output: &mut W,
) -> Result<Tally, ToolFault>
    ensures { engine.Answers (by_flags Checked CheckedUnder flags.now) hex (io R.remaining input.old input.new W.contents output.old output.new) result }
{
    if are_plain(flags) {
        return check(alloc, &flags.context, hex, input, output);
    }
    let terms = terms_of(flags);
    check_under(alloc, &terms, hex, input, output)
}

// Narrows by the flags.
fn narrow_flagged<R: Read, W: Write>(
    alloc: Global,
    flags: &FlagTerms,
    input: &mut R,
    output: &mut W,
) -> Result<Tally, ToolFault>
    requires { flags.now.context.as4 ≡ true }
    ensures { engine.Answers (by_flags Narrowed NarrowedUnder flags.now) false (io R.remaining input.old input.new W.contents output.old output.new) result }
{
    if are_plain(flags) {
        return narrow_stream(alloc, &flags.context, input, output);
    }
    let terms = terms_of(flags);
    narrow_under(alloc, &terms, input, output)
}

// Cleans by the flags.
fn clean_flagged<R: Read, W: Write>(
    alloc: Global,
    flags: &FlagTerms,
    drops: &OctetSet,
    hex: bool,
    input: &mut R,
    output: &mut W,
) -> Result<Tally, ToolFault>
    ensures { engine.Answers (by_flags (cleaned_in drops.now) (cleaned_under drops.now) flags.now) hex (io R.remaining input.old input.new W.contents output.old output.new) (without_words result) }
{
    if are_plain(flags) {
        return clean_stream(
            alloc,
            &flags.context,
            drops,
            &Limits::none(),
            hex,
            input,
            output,
        );
    }
    let terms = terms_of(flags);
    clean_under(alloc, &terms, drops, &Limits::none(), hex, input, output)
}

// Prints messages in a style.
fn print_messages<H: Files, R: Read, W: Write>(
    rt: &H,
    alloc: Global,
    file: &str,
    session: Session,
    style: Style,
    only_faults: bool,
    hex: bool,
    input: &mut R,
    output: &mut W,
) -> Result<Tally, ToolFault>
    ensures { Prints session style only_faults hex (io R.remaining input.old input.new W.contents output.old output.new) result }
{
    match session {
        Session::Flags(flags) => {
            print_flagged(alloc, style, only_faults, &flags, hex, input, output)
        }
        Session::Opens => { print_opened(rt, alloc, file, style, only_faults, hex, input, output) }
    }
}

// Checks by the OPENs of both directions.
fn check_opened<H: Files, R: Read, W: Write>(
    rt: &H,
    alloc: Global,
    file: &str,
    hex: bool,
    input: &mut R,
    output: &mut W,
) -> Result<Tally, ToolFault>
    ensures { RunsBy CheckedBy hex (io R.remaining input.old input.new W.contents output.old output.new) result }
{
    match read_file(rt, alloc, file, MESSAGE_MAX) {
        Ok(theirs) => check_by_opens(alloc, &theirs, hex, input, output),
        Err(fault) => Err(fault),
    }
}

// Narrows by the OPENs of both directions.
fn narrow_opened<H: Files, R: Read, W: Write>(
    rt: &H,
    alloc: Global,
    file: &str,
    input: &mut R,
    output: &mut W,
) -> Result<Tally, ToolFault>
    ensures { RunsBy NarrowedBy false (io R.remaining input.old input.new W.contents output.old output.new) result }
{
    match read_file(rt, alloc, file, MESSAGE_MAX) {
        Ok(theirs) => narrow_by_opens(alloc, &theirs, input, output),
        Err(fault) => Err(fault),
    }
}

// Cleans by the OPENs of both directions.
fn clean_opened<H: Files, R: Read, W: Write>(
    rt: &H,
    alloc: Global,
    file: &str,
    drops: &OctetSet,
    hex: bool,
    input: &mut R,
    output: &mut W,
) -> Result<Tally, ToolFault>
    ensures { RunsBy (cleaned_by drops.now) hex (io R.remaining input.old input.new W.contents output.old output.new) (without_words result) }
{
    match read_file(rt, alloc, file, MESSAGE_MAX) {
        Ok(theirs) => clean_by_opens(alloc, &theirs, drops, &Limits::none(), hex, input, output),
        Err(fault) => Err(fault),
    }
}

// Runs the engine of a request.
fn run<H: Files + Net, R: Read, W: Write>(
    rt: &H,
    alloc: Global,
    asked: Asked<'_>,
    input: &mut R,
    output: &mut W,
) -> Result<Tally, ToolFault>
    requires { IsWide asked.request }
    ensures { Runs asked.entry.request (io R.remaining input.old input.new W.contents output.old output.new) result }
{
    match asked.request {
        Request::Show {
            session,
            hex,
            json,
            only_faults,
        } => print_messages(
            rt,
            alloc,
            asked.file,
            session,
            style_of(json),
            only_faults,
            hex,
            input,
            output,
        ),
        Request::Explain {
            session,
            hex,
            json,
            only_faults,
        } => print_messages(
            rt,
            alloc,
            asked.file,
            session,
            fields_style_of(json),
            only_faults,
            hex,
            input,
            output,
        ),
        Request::Check { session, hex } => match session {
            Session::Flags(flags) => check_flagged(alloc, &flags, hex, input, output),
            Session::Opens => check_opened(rt, alloc, asked.file, hex, input, output),
        },
        Request::Narrow { session } => match session {
            Session::Flags(flags) => narrow_flagged(alloc, &flags, input, output),
            Session::Opens => narrow_opened(rt, alloc, asked.file, input, output),
        },
        Request::Clean {
            session,
            hex,
            drops,
        } => match session {
            Session::Flags(flags) => clean_flagged(alloc, &flags, &drops, hex, input, output),
            Session::Opens => clean_opened(rt, alloc, asked.file, &drops, hex, input, output),
        },
        Request::ToHex { refresh } if refresh => {
            to_hex_with(alloc, Refreshes::Plain, input, output)
        }
        Request::ToHex { .. } => to_hex(alloc, input, output),
        Request::FromHex => from_hex(alloc, input, output),
        Request::Loop { tcp, trace } if trace => trace_file(rt, alloc, asked.file, tcp, output),
        Request::Loop { tcp, .. } => run_file(rt, alloc, asked.file, tcp, output),
    }
}

// Runs the engine of a request, prints its fault and what may be wrong with the input, and gives its status.
fn answer<H: Files + Net, R: Read + Recorded, W: Write, E: Write>(
    rt: &H,
    alloc: Global,
    asked: Asked<'_>,
    input: &mut R,
    output: &mut W,
    errors: &mut E,
) -> u8
    requires { IsWide asked.request }
    ensures { HasRun asked.entry.request (io R.remaining input.old input.new W.contents output.old output.new) result }
{
    let outcome = run(rt, alloc, asked, input, output);
    if let Err(fault) = outcome {
        tell(errors, fault);
    }
    hint(rt, alloc, asked, &outcome, input.record(), errors);
    status(&outcome)
}

/// The whole program: does what the words of the command line ask, without the program's name, and answers its status.
/// `rt` opens the file of a script or of the other direction, and the sockets of a wire over TCP.
///
/// A failed write to `errors` has no effect.
pub fn command<H: Files + Net, R: Read + Recorded, W: Write, E: Write>(
    rt: &H,
    alloc: Global,
    words: &[&str],
    input: &mut R,
    output: &mut W,
    errors: &mut E,
) -> u8
    ensures { Answers (map (λ w. w.now) words.now) (io R.remaining input.old input.new W.contents output.old output.new) result }
{
    match parse(alloc, words) {
        Ok(Some(asked)) => answer(rt, alloc, asked, input, output, errors),
        Ok(None) => MISUSE,
        Err(error) => explain(&error, output, errors),
    }
}
