//! The program `bgp_speaker`: one session with one peer, over TCP and the system's clock. It is an example of a host: `bgp_host` carries out what
//! the session wants done, and neither time nor sockets are proved.
#![tactic(auto)]

mod commands;
mod hearing;
mod help;
mod request;
mod source;
mod speaking;
mod status;
mod tcp;
mod timers;
mod updates;
mod voice;

use crate::commands::NAME;
use crate::request::parse;
use crate::speaking::speak;
use bgp_words::{explain, status_of, words};
use std::io;
use std::process::ExitCode;

// Does what the command line asks for, and answers the status.
fn run(rt: &HostRuntime) -> io::Result<u8> {
    let words = words(rt)?;
    let words: Vec<&str> = words.iter().map(|word| word.as_str()).collect(rt.alloc())?;
    match parse(rt.alloc(), &words) {
        Ok(request) => speak(rt, &request),
        Err(error) => Ok(explain(rt, NAME, &error)),
    }
}

fn main(rt: HostRuntime) -> ExitCode {
    match run(&rt) {
        Ok(status) => ExitCode::from(status),
        Err(error) => ExitCode::from(status_of(&rt, NAME, &error)),
    }
}
