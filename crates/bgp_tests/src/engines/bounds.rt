//! How often a reader and a writer are called.

use super::failing::{Drip, Sheet};
use super::tool::{TOOLS, Tool, input_of, run_tool, run_tool_within};
use bgp_engine::*;
use std::process::Abort;
use std::test::*;

/// Two KEEPALIVE messages.
const TWO: &str = "M001304M001304";

/// A run of two KEEPALIVE messages with a reader that is called at most `turns` times: the result, and the number of octets written.
fn assert_stopped(
    rt: &(impl Abort + AllocGlobal),
    tool: Tool,
    turns: u32,
    step: usize,
    written: usize,
) -> Result<(), Fail> {
    let input = input_of(rt.alloc(), tool, TWO)?;
    let mut reader = Drip::new(input.as_slice(), step);
    let mut sheet = Sheet::new();
    let outcome = run_tool_within(rt.alloc(), tool, turns, &mut reader, &mut sheet);
    assert_eq!(rt; outcome, Err(ToolFault::Read), "{tool:?}");
    assert!(rt; status(&outcome) == 4);
    assert_eq!(rt; reader.calls, turns, "{tool:?}");
    assert_eq!(rt; sheet.text.len(), written, "{tool:?}");
    Ok(())
}

#[test]
fn a_reader_that_gives_one_octet_is_asked_twice(rt: HostRuntime) -> Result<(), Fail> {
    for tool in TOOLS {
        // Two characters are one octet.
        let written = if tool == Tool::FromHex { 1 } else { 0 };
        assert_stopped(&rt, tool, 2, 1, written)?;
        assert_stopped(&rt, tool, 1, 1, 0)?;
        assert_stopped(&rt, tool, 0, 1, 0)?;
    }
    Ok(())
}

/// One turn too few to reach the end: the lines are written, and no last line follows them.
#[test]
fn a_reader_that_is_not_asked_for_its_end(rt: HostRuntime) -> Result<(), Fail> {
    for (tool, written) in [
        (Tool::Show, 31),
        (Tool::ShowText, 31),
        (Tool::Check, 0),
        (Tool::CheckText, 0),
        (Tool::ToHex, 78),
        (Tool::FromHex, 38),
        (Tool::Narrow, 38),
        (Tool::Clean, 38),
    ] {
        assert_stopped(&rt, tool, 1, 4096, written)?;
    }
    Ok(())
}

/// The turns needed, one for the block and one for the end: each reads up to 4096 octets, and a block is written in one call.
fn assert_ended(rt: &(impl Abort + AllocGlobal), tool: Tool, writes: u32) -> Result<(), Fail> {
    let input = input_of(rt.alloc(), tool, TWO)?;
    let mut reader = Drip::new(input.as_slice(), 4096);
    let mut sheet = Sheet::new();
    let outcome = run_tool_within(rt.alloc(), tool, 2, &mut reader, &mut sheet);
    assert_eq!(rt; status(&outcome), 0, "{tool:?}");
    assert_eq!(rt;
        (reader.calls, reader.longest, reader.shortest),
        (2, 4096, 4096),
        "{tool:?}"
    );
    assert_eq!(rt; sheet.writes, writes, "{tool:?}");
    Ok(())
}

#[test]
fn a_reader_that_is_asked_often_enough(rt: HostRuntime) -> Result<(), Fail> {
    for (tool, writes) in [
        (Tool::Show, 2),
        (Tool::ShowText, 2),
        (Tool::Check, 1),
        (Tool::CheckText, 1),
        (Tool::ToHex, 1),
        (Tool::FromHex, 1),
        (Tool::Narrow, 1),
        (Tool::Clean, 1),
    ] {
        assert_ended(&rt, tool, writes)?;
    }
    Ok(())
}

/// A run that calls its reader only once.
fn assert_asked_once(
    rt: &(impl Abort + AllocGlobal),
    tool: Tool,
    digits: &str,
) -> Result<(), Fail> {
    let input = input_of(rt.alloc(), tool, digits)?;
    let mut reader = Drip::new(input.as_slice(), 4096);
    let mut sheet = Sheet::new();
    let outcome = run_tool(rt.alloc(), tool, "as4", &mut reader, &mut sheet);
    assert_eq!(rt; status(&outcome), 1, "{tool:?}");
    assert_eq!(rt; reader.calls, 1, "{tool:?}");
    Ok(())
}

#[test]
fn nothing_is_read_behind_the_end(rt: HostRuntime) -> Result<(), Fail> {
    let wrong_type = "M 0017 05 M 0013 04";
    let version_3 = "M 001d01 03 fde9 005a c0000201 00 M 0013 04";
    for tool in [
        Tool::Show,
        Tool::ShowText,
        Tool::Check,
        Tool::CheckText,
        Tool::Narrow,
        Tool::Clean,
    ] {
        assert_asked_once(&rt, tool, wrong_type)?;
        assert_asked_once(&rt, tool, version_3)?;
    }
    assert_asked_once(&rt, Tool::ToHex, wrong_type)?;
    let withdrawn = "M 002d02 0000 0014 40010103 40020602010000fde8 400304c0000201 080a";
    assert_asked_once(&rt, Tool::Narrow, withdrawn)
}

/// A reader isn't called after a bad character either.
#[test]
fn nothing_is_read_behind_a_bad_character(rt: HostRuntime) -> Result<(), Fail> {
    for tool in [Tool::ShowText, Tool::CheckText, Tool::FromHex] {
        assert_asked_once(&rt, tool, "M001304 0g 00")?;
    }
    Ok(())
}
