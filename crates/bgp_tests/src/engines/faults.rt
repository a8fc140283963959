//! Readers and writers that fail, what is written then, and the counts.

use super::failing::{Drip, Sheet};
use super::tool::{Tool, input_of, output_of, run_tool};
use bgp_engine::*;
use std::process::Abort;
use std::test::*;

/// An engine, its input, the lines that it writes for that, and what it writes last.
const RUNS: [(Tool, &str, &str, &str); 13] = [
    (
        Tool::Show,
        "M 0013 04 M 0017 05",
        "0 19 KEEPALIVE\n19 0 HEADER reset 1/3 05\n",
        "end head\n",
    ),
    (
        Tool::ShowText,
        "M 001304\nM 001304\n",
        "0 19 KEEPALIVE\n19 19 KEEPALIVE\n",
        "end wait 0\n",
    ),
    (
        Tool::Show,
        "M 002d02 0000 0014 40010103 40020602010000fde8 400304c0000201 080a",
        "0 45 UPDATE withdraw\n  route 10.0.0.0/8\n  note 4 1 Value\n",
        "end wait 0\n",
    ),
    (
        Tool::Show,
        "M 001d01 03 fde9 005a c0000201 00",
        "0 29 OPEN reset 2/1 0004\n",
        "end reset\n",
    ),
    (
        Tool::Check,
        "M 0013 04 M 0017 05",
        "",
        "messages 1 took 1 withdraw 0 reset 1\nend head\n",
    ),
    (
        Tool::CheckText,
        "M 001304\nM 001304\n",
        "",
        "messages 2 took 2 withdraw 0 reset 0\nend wait 0\n",
    ),
    (
        Tool::ToHex,
        "M 0013 04 M 0013 04 ff",
        "M001304\nM001304\n",
        "rest ff\n",
    ),
    (
        Tool::ToHex,
        "M 0013 04 M 0017 05",
        "M001304\nfault 1/3 05\n",
        "",
    ),
    (Tool::FromHex, "M001304\nM001304\n", "M001304M001304", ""),
    (
        Tool::Narrow,
        "M 002d02 0000 0014 40010100 400206020100030d40 400304c0000201 080a M 0013 04",
        "M 003402 0000 001b 40010100 40020402015ba0 400304c0000201 c01106020100030d40 080a M 001304",
        "",
    ),
    (
        Tool::Narrow,
        "M 0013 04 M 0013 04 M 00",
        "M 001304 M 001304",
        "",
    ),
    (
        Tool::Clean,
        "M 001d01 04 fde9 005a c0000201 00 M 002d02 0000 0014 40010103 40020602010000fde8 400304c0000201 080a",
        "M 001d01 04 fde9 005a c0000201 00 M 001902 0002 080a 0000",
        "",
    ),
    (
        Tool::Clean,
        "M 0013 04 M 0013 04 M 00",
        "M 001304 M 001304",
        "",
    ),
];

/// A run over a reader that fails: no last line is written, and it isn't called again. Returns whether it failed.
fn assert_read_fault(
    rt: &(impl Abort + AllocGlobal),
    tool: Tool,
    input: &[u8],
    lines: &[u8],
    calls: u32,
) -> bool {
    let mut reader = Drip::new(input, 9).failing_after(calls);
    let mut sheet = Sheet::new();
    let outcome = run_tool(rt.alloc(), tool, "as4", &mut reader, &mut sheet);
    if reader.has_failed {
        assert!(rt; outcome == Err(ToolFault::Read));
        assert!(rt; status(&outcome) == 4);
        assert!(rt; lines.starts_with(sheet.text.as_slice()));
        assert!(rt; reader.calls == calls.wrapping_add(1));
    }
    reader.has_failed
}

#[test]
fn failing_readers(rt: HostRuntime) -> Result<(), Fail> {
    for (tool, digits, text, _) in RUNS {
        let input = input_of(rt.alloc(), tool, digits)?;
        let lines = output_of(rt.alloc(), tool, text)?;
        let mut failed = 0u32;
        for calls in 0..40u32 {
            if assert_read_fault(&rt, tool, input.as_slice(), lines.as_slice(), calls) {
                failed = failed.wrapping_add(1);
            }
        }
        assert!(rt; failed > 2 && failed < 40, "{tool:?}");
    }
    Ok(())
}

/// A run over a writer that fails at a call: a prefix of the output is written, and it isn't called again. Returns whether it failed.
fn assert_write_fault(
    rt: &(impl Abort + AllocGlobal),
    tool: Tool,
    input: &[u8],
    output: &[u8],
    calls: u32,
) -> bool {
    let mut reader = Drip::new(input, 9);
    let mut sheet = Sheet::new().failing_after(calls);
    let outcome = run_tool(rt.alloc(), tool, "as4", &mut reader, &mut sheet);
    assert!(rt; output.starts_with(sheet.text.as_slice()));
    if sheet.has_failed {
        assert!(rt; outcome == Err(ToolFault::Write));
        assert!(rt; status(&outcome) == 4);
        assert!(rt; sheet.writes == calls.wrapping_add(1));
    }
    sheet.has_failed
}

#[test]
fn failing_writers(rt: HostRuntime) -> Result<(), Fail> {
    for (tool, digits, text, last) in RUNS {
        let input = input_of(rt.alloc(), tool, digits)?;
        let mut output = output_of(rt.alloc(), tool, text)?;
        output.extend_from_slice(last.as_bytes())?;
        let mut failed = 0u32;
        for calls in 0..40u32 {
            if assert_write_fault(&rt, tool, input.as_slice(), output.as_slice(), calls) {
                failed = failed.wrapping_add(1);
            }
        }
        assert!(rt; failed > 0 && failed < 40, "{tool:?}");
    }
    Ok(())
}

/// A run over a writer with too little room: what fits is written.
fn assert_no_room(
    rt: &(impl Abort + AllocGlobal),
    tool: Tool,
    input: &[u8],
    output: &[u8],
    room: usize,
) {
    for takes_nothing in [false, true] {
        let mut sheet = Sheet::new().with_room(room, takes_nothing);
        let mut reader = Drip::new(input, 4096);
        let outcome = run_tool(rt.alloc(), tool, "as4", &mut reader, &mut sheet);
        assert_eq!(rt; outcome, Err(ToolFault::Write), "{tool:?}");
        assert_eq!(rt; sheet.text.len(), room, "{tool:?}");
        assert!(rt; output.starts_with(sheet.text.as_slice()), "{tool:?}");
    }
}

#[test]
fn writers_with_too_little_room(rt: HostRuntime) -> Result<(), Fail> {
    for (tool, digits, text, last) in RUNS {
        let input = input_of(rt.alloc(), tool, digits)?;
        let mut output = output_of(rt.alloc(), tool, text)?;
        output.extend_from_slice(last.as_bytes())?;
        for room in 0..output.len() {
            assert_no_room(&rt, tool, input.as_slice(), output.as_slice(), room);
        }
    }
    Ok(())
}

/// The counts of a run: messages, accepted, withdrawals, resets.
fn assert_tally(
    rt: &(impl Abort + AllocGlobal),
    tool: Tool,
    digits: &str,
    counts: [u64; 4],
    end: End,
) -> Result<(), Fail> {
    let input = input_of(rt.alloc(), tool, digits)?;
    let mut reader = Drip::new(input.as_slice(), 5);
    let mut sheet = Sheet::new();
    let outcome = run_tool(rt.alloc(), tool, "as4", &mut reader, &mut sheet);
    let [messages, took, withdrawn, resets] = counts;
    let tally = Tally {
        messages,
        took,
        withdrawn,
        resets,
        end,
    };
    assert_eq!(rt; outcome, Ok(tally), "{tool:?} {digits}");
    Ok(())
}

#[test]
fn counts_of_show_and_check(rt: HostRuntime) -> Result<(), Fail> {
    let wrong_type = "M 0013 04 M 0017 05";
    let version_3 =
        "M 002d02 0000 0014 40010103 40020602010000fde8 400304c0000201 080a M 0013 04 M 001d01 03 fde9 005a c0000201 00";
    for tool in [Tool::Show, Tool::ShowText, Tool::Check, Tool::CheckText] {
        assert_tally(&rt, tool, wrong_type, [1, 1, 0, 1], End::Head)?;
        assert_tally(&rt, tool, version_3, [3, 1, 1, 1], End::Reset)?;
        assert_tally(&rt, tool, "M 0013 04 ff", [1, 1, 0, 0], End::Wait(1))?;
    }
    Ok(())
}

#[test]
fn counts_of_other_engines(rt: HostRuntime) -> Result<(), Fail> {
    let wrong_type = "M 001d01 03 fde9 005a c0000201 00 M 0017 05";
    assert_tally(&rt, Tool::ToHex, wrong_type, [1, 1, 0, 1], End::Head)?;
    let rest = "M 0013 04 M 0013 04 ff";
    assert_tally(&rt, Tool::ToHex, rest, [2, 2, 0, 0], End::Wait(1))?;
    assert_tally(&rt, Tool::FromHex, "M001304", [0; 4], End::Wait(0))?;
    let wide = "M 0013 04 M 002d02 0000 0014 40010100 400206020100030d40 400304c0000201 080a";
    assert_tally(&rt, Tool::Narrow, wide, [2, 2, 0, 0], End::Wait(0))?;
    assert_tally(&rt, Tool::Clean, wide, [2, 2, 0, 0], End::Wait(0))
}
