//! The engines, by name, over readers and writers that are made here.

use super::failing::{Drip, Sheet};
use bgp_clean::Limits;
use bgp_engine::*;
use bgp_open::Context;
use bgp_wire::OctetSet;
use std::alloc::Global;
use std::process::Abort;
use std::test::*;

/// An engine, and whether it reads octets or hexadecimal text.
#[derive(Clone, Copy, Debug, PartialEq, Eq)]
pub(super) enum Tool {
    Show,
    ShowText,
    Check,
    CheckText,
    ToHex,
    FromHex,
    Narrow,
    Clean,
}

pub(super) const TOOLS: [Tool; 8] = [
    Tool::Show,
    Tool::ShowText,
    Tool::Check,
    Tool::CheckText,
    Tool::ToHex,
    Tool::FromHex,
    Tool::Narrow,
    Tool::Clean,
];

/// Text with each `M` replaced by the digits of a Marker.
fn text_of(alloc: Global, text: &str) -> Result<Vec<u8>, Fail> {
    let mut spelled = Vec::new(alloc);
    for character in text.bytes() {
        if character == b'M' {
            spelled.extend_from_slice(&[b'f'; 32])?;
        } else {
            spelled.push(character)?;
        }
    }
    Ok(spelled)
}

/// Octets by their digits, where `M` is a Marker.
fn octets_of(alloc: Global, text: &str) -> Result<Vec<u8>, Fail> {
    let mut digits = Vec::new(alloc);
    for character in text.bytes() {
        if character == b'M' {
            digits.extend_from_slice(&[b'f'; 32])?;
        } else if character.is_ascii_hexdigit() {
            digits.push(character)?;
        }
    }
    match hex::decode(alloc, digits.as_slice()) {
        Ok(octets) => Ok(octets),
        Err(_) => Err(Fail::from("pairs of digits")),
    }
}

/// The input of an engine, by its digits.
pub(super) fn input_of(alloc: Global, tool: Tool, digits: &str) -> Result<Vec<u8>, Fail> {
    match tool {
        Tool::ShowText | Tool::CheckText | Tool::FromHex => text_of(alloc, digits),
        _ => octets_of(alloc, digits),
    }
}

/// The output of an engine: octets by their digits, or text.
pub(super) fn output_of(alloc: Global, tool: Tool, text: &str) -> Result<Vec<u8>, Fail> {
    match tool {
        Tool::FromHex | Tool::Narrow | Tool::Clean => octets_of(alloc, text),
        Tool::ToHex => text_of(alloc, text),
        _ => Ok(Vec::from_slice(alloc, text.as_bytes())?),
    }
}

/// A context by its words.
fn context_of(words: &str) -> Context {
    Context {
        internal: words.contains("internal"),
        as4: words.contains("as4"),
        ip4: words.contains("ip4"),
        ip6: words.contains("ip6"),
        hold: 0,
    }
}

pub(super) fn run_tool(
    alloc: Global,
    tool: Tool,
    words: &str,
    input: &mut Drip<'_>,
    output: &mut Sheet,
) -> Result<Tally, ToolFault> {
    let ctx = context_of(words);
    match tool {
        Tool::Show => show(alloc, &ctx, false, input, output),
        Tool::ShowText => show(alloc, &ctx, true, input, output),
        Tool::Check => check(alloc, &ctx, false, input, output),
        Tool::CheckText => check(alloc, &ctx, true, input, output),
        Tool::ToHex => to_hex(alloc, input, output),
        Tool::FromHex => from_hex(alloc, input, output),
        Tool::Narrow => narrow_stream(alloc, &Context { as4: true, ..ctx }, input, output),
        Tool::Clean => clean_stream(
            alloc,
            &ctx,
            &OctetSet::new(),
            &Limits::none(),
            false,
            input,
            output,
        ),
    }
}

pub(super) fn run_tool_within(
    alloc: Global,
    tool: Tool,
    turns: u32,
    input: &mut Drip<'_>,
    output: &mut Sheet,
) -> Result<Tally, ToolFault> {
    let ctx = context_of("as4");
    match tool {
        Tool::Show => show_within(alloc, turns, &ctx, false, input, output),
        Tool::ShowText => show_within(alloc, turns, &ctx, true, input, output),
        Tool::Check => check_within(alloc, turns, &ctx, false, input, output),
        Tool::CheckText => check_within(alloc, turns, &ctx, true, input, output),
        Tool::ToHex => to_hex_within(alloc, turns, input, output),
        Tool::FromHex => from_hex_within(alloc, turns, input, output),
        Tool::Narrow => {
            narrow_within(alloc, turns, &Context { as4: true, ..ctx }, input, output)
        }
        Tool::Clean => {
            clean_within(
                alloc,
                turns,
                &ctx,
                &OctetSet::new(),
                &Limits::none(),
                false,
                input,
                output,
            )
        }
    }
}
