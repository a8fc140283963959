//! Reading a file, and running the script in it.

ghost use Rattle.std.specs.Prelude.{◌≤◌, length, IfOk, IfErr};
ghost use Rattle.bgp_loop.specs.Loop.{IsOfFile, RunsFile, TracesFile};

use crate::running::run_loop;
use crate::tcp::TcpWire;
use crate::tracing::trace_loop;
use bgp_engine::{Tally, ToolFault};
use bgp_script::SCRIPT_MAX;
use bgp_session::MemoryWire;
use std::alloc::Global;
use std::fs;
use std::fs::Files;
use std::io::{ErrorKind, Read, Write};
use std::net::Net;

/// The first octets of a file, at most this many.
///
/// # Errors
/// `Read` where the file can't be opened or read, and `Memory` where an allocation failed.
pub fn read_file<R: Files>(
    rt: &R,
    alloc: Global,
    path: &str,
    most: u64,
) -> Result<Vec<u8>, ToolFault>
    ensures ok { IfOk result (λ octets. length octets.items ≤ most) }
    ensures fault { IfErr result IsOfFile }
{
    let Ok(file) = fs::open(rt, path) else {
        return Err(ToolFault::Read);
    };
    let mut octets = Vec::new(alloc);
    match file.take(most).read_to_end(&mut octets) {
        Ok(_) if octets.len() as u64 <= most => Ok(octets),
        Err(error) if error.kind() == ErrorKind::OutOfMemory => Err(ToolFault::Memory),
        _ => Err(ToolFault::Read),
    }
}

// The text of a file, where it isn't longer than a script may be.
fn text_of_file<R: Files>(rt: &R, alloc: Global, path: &str) -> Result<Vec<u8>, ToolFault>
    ensures ok { IfOk result (λ text. length text.items ≤ SCRIPT_MAX) }
    ensures fault { IfErr result IsOfFile }
{
    match read_file(rt, alloc, path, SCRIPT_MAX as u64 + 1) {
        Ok(text) if text.len() <= SCRIPT_MAX => Ok(text),
        Ok(_) => Err(ToolFault::Read),
        Err(fault) => Err(fault),
    }
}

/// Runs the script in a file, over memory or over TCP.
///
/// # Errors
/// As `run_loop`; before that `Read` where the file can't be read or has more octets than a script may, and then `Net` where the listener
/// can't be set up. Nothing is written then.
pub fn run_file<R: Files + Net, W: Write>(
    rt: &R,
    alloc: Global,
    path: &str,
    tcp: bool,
    output: &mut W,
) -> Result<Tally, ToolFault>
    ensures { RunsFile (W.contents output.old) (W.contents output.new) result }
{
    let text = match text_of_file(rt, alloc, path) {
        Ok(text) => text,
        Err(fault) => return Err(fault),
    };
    if !tcp {
        return run_loop(alloc, &text, &mut MemoryWire, output);
    }
    match TcpWire::new(rt) {
        Ok(mut wire) => run_loop(alloc, &text, &mut wire, output),
        Err(fault) => Err(fault),
    }
}

/// As [`run_file`], with the trace of the moves before the report, as [`trace_loop`] writes it.
///
/// # Errors
/// As `run_file`.
pub fn trace_file<R: Files + Net, W: Write>(
    rt: &R,
    alloc: Global,
    path: &str,
    tcp: bool,
    output: &mut W,
) -> Result<Tally, ToolFault>
    ensures { TracesFile (W.contents output.old) (W.contents output.new) result }
{
    let text = match text_of_file(rt, alloc, path) {
        Ok(text) => text,
        Err(fault) => return Err(fault),
    };
    if !tcp {
        return trace_loop(alloc, &text, &mut MemoryWire, output);
    }
    match TcpWire::new(rt) {
        Ok(mut wire) => trace_loop(alloc, &text, &mut wire, output),
        Err(fault) => Err(fault),
    }
}
