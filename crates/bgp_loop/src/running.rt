//! Running a script.

ghost use Rattle.std.specs.Prelude.{◌≡◌, ◌≤◌, length, IfOk};
ghost use Rattle.std.specs.String.{string_bytes};
ghost use Rattle.bgp_script.specs.ReportText.{report_text};
ghost use Rattle.bgp_loop.specs.Loop.{Answers};

use bgp_engine::{End, Tally, ToolFault, put};
use bgp_script::{SCRIPT_MAX, ScriptFault, put_report, read_script};
use bgp_session::{Report, Wire, run_pair};
use std::alloc::{AllocError, Global};
use std::io::Write;

/// Nothing is counted where a script is run.
pub(crate) const NO_TALLY: Tally = Tally {
    messages: 0,
    took: 0,
    withdrawn: 0,
    resets: 0,
    end: End::Wait(0),
};

// The text of a report.
fn text_of(alloc: Global, report: &Report) -> Result<String, AllocError>
    ensures { IfOk result (λ text. string_bytes text ≡ report_text report.now) }
{
    let mut text = String::new(alloc);
    put_report(&mut text, report)?;
    Ok(text)
}

/// Runs a script over a wire, and writes the outcome: for each round `round N` and a line for each side, then the
/// UPDATEs that weren't sent, then the states of both sides. The script has at most `SCRIPT_MAX` octets.
///
/// # Errors
/// `Script` with the number of the lowest faulty line: the whole script is read before the first move, so nothing is
/// written then. `Write` where a write fails or writes no octet: what was written before remains. `Memory` where an
/// allocation failed: nothing is written then.
pub fn run_loop<W: Wire, O: Write>(
    alloc: Global,
    script: &[u8],
    wire: &mut W,
    output: &mut O,
) -> Result<Tally, ToolFault>
    requires { length script.now ≤ SCRIPT_MAX }
    ensures { Answers script.now (record { honest = W.honest wire.old; failed_old = W.failed wire.old; failed_new = W.failed wire.new; writer_old = O.contents output.old; writer_new = O.contents output.new }) result }
{
    let script = match read_script(alloc, script) {
        Ok(script) => script,
        Err(ScriptFault::Line(number)) => return Err(ToolFault::Script(number)),
        Err(ScriptFault::Memory) => return Err(ToolFault::Memory),
    };
    let report = run_pair(alloc, script.a, script.b, script.moves.as_slice(), wire)?;
    let text = text_of(alloc, &report)?;
    put(output, text.as_bytes())?;
    Ok(NO_TALLY)
}
