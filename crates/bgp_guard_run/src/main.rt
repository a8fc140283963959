//! The program `bgp_guard_run`: a proxy between outer peers and an inner speaker, over TCP and the system's clock. What
//! is passed on, and how anything else is answered, is decided by `bgp_guard`; neither time nor sockets are proved.
#![tactic(auto)]

mod commands;
mod connection;
mod counts;
mod help;
mod lines;
mod log;
mod neighbours;
mod owner;
mod piece;
mod reasons;
mod request;
mod roster;
mod scraping;
mod serving;
mod session;
mod stamp;
mod talkers;
mod tallies;
mod why;

use crate::commands::NAME;
use crate::request::parse;
use crate::serving::serve;
use bgp_words::{explain, status_of, words};
use std::io;
use std::process::ExitCode;

// Does what the command line asks for, and answers the status.
fn run(rt: &HostRuntime) -> io::Result<u8> {
    let words = words(rt)?;
    let words: Vec<&str> = words.iter().map(|word| word.as_str()).collect(rt.alloc())?;
    match parse(rt.alloc(), &words) {
        Ok(request) => serve(rt, &request),
        Err(error) => Ok(explain(rt, NAME, &error)),
    }
}

fn main(rt: HostRuntime) -> ExitCode {
    match run(&rt) {
        Ok(status) => ExitCode::from(status),
        Err(error) => ExitCode::from(status_of(&rt, NAME, &error)),
    }
}
