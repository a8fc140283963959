//! The program `bgp_bench`: drives the library's own calls over the stream on standard input, which it reads whole first, for
//! `checks/bench/run` to measure. It has no clock.
#![tactic(auto)]

mod decoding;
mod encoding;
mod hearing;
mod owning;
mod request;
mod stream;
mod viewing;

use hearing::By;
use request::{Request, Work};
use std::io::Read;
use std::process::ExitCode;
use std::{env, io};

/// The status of a bad command line, of an allocation that failed, and of a read or a write that failed.
const MISUSE: u8 = 2;

const MEMORY: u8 = 3;

const IO: u8 = 4;

/// What the words after the program's name ask for.
fn asked(rt: &HostRuntime) -> io::Result<Option<Request>> {
    let words: Vec<String> = env::args(rt)?.skip(1).collect(rt.alloc())?;
    let words: Vec<&str> = words.iter().map(|word| word.as_str()).collect(rt.alloc())?;
    Ok(Request::parse(&words))
}

/// Does the work, and prints the counts of one round.
fn work(rt: &HostRuntime, request: Request) -> io::Result<()> {
    let mut octets = Vec::new(rt.alloc());
    rt.stdin().read_to_end(&mut octets)?;
    match request.work {
        Work::Decode => decoding::run(rt, &octets, request.rounds),
        Work::View => viewing::run(rt, &octets, request.rounds),
        Work::Own => owning::run(rt, &octets, request.rounds),
        Work::Encode => encoding::run(rt, &octets, request.rounds),
        Work::Session => hearing::run(rt, &octets, request.rounds, By::Sets),
        Work::SessionInto => hearing::run(rt, &octets, request.rounds, By::OneSet),
        Work::SessionView => hearing::run(rt, &octets, request.rounds, By::Views),
    }
}

/// Does what the command line asks for, and answers the status.
fn run(rt: &HostRuntime) -> io::Result<u8> {
    match asked(rt)? {
        Some(request) => {
            work(rt, request)?;
            Ok(0)
        }
        None => {
            eprintln!(rt;
                "bgp_bench: the words are decode, view, own, encode, session, session-into or session-view, and how many times"
            )?;
            Ok(MISUSE)
        }
    }
}

fn main(rt: HostRuntime) -> ExitCode {
    match run(&rt) {
        Ok(status) => ExitCode::from(status),
        Err(fault) => {
            let _ = eprintln!(rt; "bgp_bench: {fault}");
            match fault.kind() {
                io::ErrorKind::OutOfMemory => ExitCode::from(MEMORY),
                _ => ExitCode::from(IO),
            }
        }
    }
}
