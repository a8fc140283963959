//! Running a script, and writing the trace of its moves.

ghost use Rattle.std.specs.Prelude.{◌≡◌, ◌≤◌, ◌++◌, length, IfOk};
ghost use Rattle.std.specs.String.{string_bytes};
ghost use Rattle.bgp_script.specs.ReportText.{report_text};
ghost use Rattle.bgp_loop.specs.Loop.{AnswersTrace};

use crate::running::NO_TALLY;
use crate::tracer::Tracer;
use bgp_engine::{Tally, ToolFault, put};
use bgp_script::{SCRIPT_MAX, ScriptFault, put_report, read_script};
use bgp_session::{Report, Wire, observe_pair};
use std::alloc::{AllocError, Global};
use std::io::Write;

// The text of the trace, and of the report after it.
fn traced_text(tracer: Tracer, report: &Report) -> Result<String, AllocError>
    ensures { IfOk result (λ text. string_bytes text ≡ tracer.text ++ report_text report.now) }
{
    let mut text = tracer.into_text();
    put_report(&mut text, report)?;
    Ok(text)
}

/// As [`run_loop`](crate::run_loop), and before the report writes, move by move, its trace: what each side received,
/// with the state of its session after that and what the session wants done, and each message as `show` prints it,
/// where the side receives it.
///
/// # Errors
/// As `run_loop`.
pub fn trace_loop<W: Wire, O: Write>(
    alloc: Global,
    script: &[u8],
    wire: &mut W,
    output: &mut O,
) -> Result<Tally, ToolFault>
    requires { length script.now ≤ SCRIPT_MAX }
    ensures { AnswersTrace script.now (record { honest = W.honest wire.old; failed_old = W.failed wire.old; failed_new = W.failed wire.new; writer_old = O.contents output.old; writer_new = O.contents output.new }) result }
{
    let script = match read_script(alloc, script) {
        Ok(script) => script,
        Err(ScriptFault::Line(number)) => return Err(ToolFault::Script(number)),
        Err(ScriptFault::Memory) => return Err(ToolFault::Memory),
    };
    let mut tracer = Tracer::new(alloc);
    let moves = script.moves.as_slice();
    let report = observe_pair(alloc, script.a, script.b, moves, wire, &mut tracer)?;
    let text = traced_text(tracer, &report)?;
    put(output, text.as_bytes())?;
    Ok(NO_TALLY)
}
