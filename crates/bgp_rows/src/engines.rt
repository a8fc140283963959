//! The engines of the program's commands, from a reader that gives one octet, seven or all at once.

use crate::page::Page;
use crate::row::Row;
use crate::sheet::{Drip, Sheet};
use crate::trouble::Trouble;
use bgp_clean::Limits;
use bgp_engine::{
    Style, Tally, ToolFault, check, clean_stream, from_hex, narrow_stream, print, show, status,
    to_hex,
};
use bgp_open::Context;
use bgp_wire::OctetSet;
use std::alloc::Global;

/// The types that a row leaves out: the numbers after `drop`.
fn drops_of(settings: &str) -> OctetSet {
    let mut drops = OctetSet::new();
    for word in settings.split_whitespace() {
        if let Ok(kind) = word.parse::<u8>() {
            drops.insert(kind);
        }
    }
    drops
}

/// Runs an engine.
fn run_engine(
    alloc: Global,
    row: &Row<'_>,
    ctx: &Context,
    input: &mut Drip<'_>,
    output: &mut Sheet,
) -> Result<Tally, ToolFault> {
    let hex = row.settings == "hex";
    match row.kind {
        "show" => show(alloc, ctx, hex, input, output),
        "explain" | "reasons" => print(alloc, Style::Explained, false, ctx, hex, input, output),
        "faults" => print(alloc, Style::Lines, true, ctx, hex, input, output),
        "check" => check(alloc, ctx, hex, input, output),
        "to-hex" => to_hex(alloc, input, output),
        "from-hex" => from_hex(alloc, input, output),
        "clean" => clean_stream(
            alloc,
            ctx,
            &drops_of(row.settings),
            &Limits::none(),
            hex,
            input,
            output,
        ),
        _ => narrow_stream(alloc, &Context { as4: true, ..*ctx }, input, output),
    }
}

/// Runs an engine, and again after a failed allocation: what was written before that must be a prefix of the output.
fn run_again(
    alloc: Global,
    row: &Row<'_>,
    ctx: &Context,
    octets: &[u8],
    step: usize,
    sheet: &mut Sheet,
) -> Result<Result<Tally, ToolFault>, Trouble> {
    let answer = run_engine(alloc, row, ctx, &mut Drip::new(octets, step), sheet);
    if answer != Err(ToolFault::Memory) {
        return Ok(answer);
    }
    if status(&answer) != 3 {
        return Err(Trouble::Row("a status of 3 where allocation failed"));
    }
    let mut again = Sheet::new();
    let answer = run_engine(alloc, row, ctx, &mut Drip::new(octets, step), &mut again);
    if !again.octets.as_slice().starts_with(sheet.octets.as_slice()) {
        return Err(Trouble::Row("a front of the output where allocation failed"));
    }
    sheet.octets.clear();
    let _fits = sheet.octets.try_extend_from_slice(again.octets.as_slice());
    Ok(answer)
}

/// Adds the reasons in lines of fields.
fn put_reasons(page: &mut Page, lines: &str) -> Result<(), Trouble> {
    for line in lines.split('\n') {
        if let Some((before, reason)) = line.split_once("! ") {
            if before == "  " {
                page.put(reason)?;
                page.put("\n")?;
            }
        }
    }
    Ok(())
}

/// Adds what was written: text as it is, octets as digits.
fn put_output(alloc: Global, page: &mut Page, row: &Row<'_>, octets: &[u8]) -> Result<(), Trouble> {
    if row.kind == "from-hex" || row.kind == "narrow" || row.kind == "clean" {
        page.put_digits(alloc, octets)?;
        return page.put("\n");
    }
    match std::str::from_utf8(octets) {
        Ok(text) if row.kind == "reasons" => put_reasons(page, text),
        Ok(text) => page.put(text),
        Err(_) => Err(Trouble::Row("output that is text")),
    }
}

/// One run: what was written, the fault if there is one, and the status.
fn put_run(
    alloc: Global,
    row: &Row<'_>,
    ctx: &Context,
    octets: &[u8],
    step: usize,
) -> Result<Page, Trouble> {
    let mut page = Page::new(alloc);
    let mut sheet = Sheet::new();
    let answer = run_again(alloc, row, ctx, octets, step, &mut sheet)?;
    put_output(alloc, &mut page, row, sheet.octets.as_slice())?;
    if let Err(fault) = &answer {
        page.put("bgp: ")?;
        page.put_value(alloc, fault)?;
        page.put("\n")?;
    }
    page.put("status ")?;
    page.put_value(alloc, &status(&answer))?;
    page.put("\n")?;
    Ok(page)
}

/// A row of kind `show`.
const SHOW: Row<'static> = Row {
    name: "",
    kind: "show",
    settings: "",
    given: "",
    want: "",
    file: "",
};

/// What `show` writes for a stream, from a reader that gives `step` octets at a time.
pub fn put_shown(
    alloc: Global,
    ctx: &Context,
    stream: &[u8],
    step: usize,
) -> Result<Page, Trouble> {
    let mut page = Page::new(alloc);
    let mut sheet = Sheet::new();
    if run_again(alloc, &SHOW, ctx, stream, step, &mut sheet)?.is_err() {
        page.put("a fault\n")?;
    }
    put_output(alloc, &mut page, &SHOW, sheet.octets.as_slice())?;
    Ok(page)
}

/// What an engine writes for octets, from each of three readers.
fn put_runs(alloc: Global, row: &Row<'_>, ctx: &Context, input: &[u8]) -> Result<Page, Trouble> {
    let page = put_run(alloc, row, ctx, input, 4096)?;
    for step in [1, 7] {
        let other = put_run(alloc, row, ctx, input, step)?;
        if other.text != page.text {
            return Ok(other);
        }
    }
    Ok(page)
}

/// The text of a row's lines `text`.
fn given_text(alloc: Global, row: &Row<'_>) -> Result<Page, Trouble> {
    let mut text = Page::new(alloc);
    for line in row.given.split('\n') {
        if let Some(line) = line.strip_prefix("text ") {
            put_text(&mut text, line)?;
        }
    }
    Ok(text)
}

/// What an engine writes for octets, or for the row's text if there are none.
pub fn put_engine(
    alloc: Global,
    row: &Row<'_>,
    ctx: &Context,
    octets: &[u8],
) -> Result<Page, Trouble> {
    if !octets.is_empty() {
        return put_runs(alloc, row, ctx, octets);
    }
    let text = given_text(alloc, row)?;
    put_runs(alloc, row, ctx, text.text.as_str().as_bytes())
}

/// Adds a line of text: `\n`, `\r` and `\t` are as in C, and `M` is a Marker's digits.
fn put_text(text: &mut Page, line: &str) -> Result<(), Trouble> {
    let mut is_escaped = false;
    for character in line.bytes() {
        if is_escaped {
            is_escaped = false;
            text.put(match character {
                b'n' => "\n",
                b'r' => "\r",
                b't' => "\t",
                _ => return Err(Trouble::Row("text with \\n, \\r and \\t")),
            })?;
        } else if character == b'\\' {
            is_escaped = true;
        } else {
            put_character(text, character)?;
        }
    }
    Ok(())
}

/// Adds a character that isn't escaped.
fn put_character(text: &mut Page, character: u8) -> Result<(), Trouble> {
    if character == b'M' {
        return text.put("ffffffffffffffffffffffffffffffff");
    }
    let one = [character];
    match std::str::from_utf8(&one) {
        Ok(one) => text.put(one),
        Err(_) => Err(Trouble::Row("text of ASCII")),
    }
}
