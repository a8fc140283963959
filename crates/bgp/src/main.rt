//! The program `bgp`: passes its words and its three streams to its command line, and ends with the status of the
//! answer.
#![tactic(auto)]

mod cli;
mod colours;
mod hints;
mod progress;
mod record;

use crate::cli::command;
use crate::colours::{Coloured, is_choice, is_coloured};
use crate::progress::Watched;
use std::alloc::AllocError;
use std::process::ExitCode;
use std::{env, io};

// The words after the program's name.
fn words(rt: &HostRuntime) -> io::Result<Vec<String>> {
    Ok(env::args(rt)?.skip(1).collect(rt.alloc())?)
}

// Runs the program, where its words could be allocated.
fn run(rt: &HostRuntime, words: &[String]) -> Result<u8, AllocError> {
    let alloc = rt.alloc();
    let is_on = is_coloured(rt, words);
    let words: Vec<&str> = words
        .iter()
        .map(|word| word.as_str())
        .filter(|word| !is_choice(word))
        .collect(alloc)?;
    let is_text = words
        .iter()
        .any(|word| *word == "--hex" || *word == "from-hex");
    let input = &mut Watched::new(rt, rt.stdin(), is_text);
    let output = &mut Coloured::new(rt, rt.stdout(), is_on);
    let errors = &mut rt.stderr();
    Ok(command(rt, alloc, &words, input, output, errors))
}

fn main(rt: HostRuntime) -> ExitCode {
    let status = match words(&rt) {
        Ok(words) => run(&rt, &words).ok(),
        Err(error) if error.kind() == io::ErrorKind::OutOfMemory => None,
        Err(_) => {
            let _ = eprintln!(rt; "bgp: the words of the command line are no text");
            return ExitCode::from(2);
        }
    };
    match status {
        Some(status) => ExitCode::from(status),
        None => {
            let _ = eprintln!(rt; "bgp: memory");
            ExitCode::from(3)
        }
    }
}
