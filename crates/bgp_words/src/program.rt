//! What the programs other than `bgp` share: flags in a table, error reports, and exit statuses.

use clap::error::ErrorKind;
use clap::{Arg, ArgAction, Command, Error};
use std::alloc::{AllocError, Global};
use std::{env, io};

/// A fault of the command line.
const MISUSE: u8 = 2;

/// An allocation failed.
const MEMORY: u8 = 3;

/// A read, a write, a clock or a socket failed.
pub const BROKEN: u8 = 4;

/// What follows a flag.
#[derive(Clone, Copy)]
pub enum Behind {
    /// Nothing.
    Nothing,
    /// A value of this name.
    Value(&'static str),
    /// A value of this name, and the flag may be repeated.
    Values(&'static str),
    /// A value of this name, and the flag is required.
    Needed(&'static str),
}

// A flag of this name, with what follows it.
fn flag<'a>(alloc: Global, name: &'a str, behind: Behind, help: &'a str) -> Arg<'a> {
    let flag = Arg::new(alloc, name).long(name).help(help);
    match behind {
        Behind::Nothing => flag.action(ArgAction::SetTrue),
        Behind::Value(value) => flag.value_name(value),
        Behind::Values(value) => flag.value_name(value).action(ArgAction::Append),
        Behind::Needed(value) => flag.value_name(value).required(true),
    }
}

/// A command with these flags too: for each its name, what follows it, and its help.
///
/// # Errors
/// `AllocError` where an allocation failed.
pub fn with_flags<'a>(
    alloc: Global,
    command: Command<'a>,
    flags: &[(&'a str, Behind, &'a str)],
) -> Result<Command<'a>, AllocError> {
    let mut command = command;
    for (name, behind, help) in flags {
        command = command.arg(flag(alloc, name, *behind, help))?;
    }
    Ok(command)
}

/// The error of a value that a command doesn't accept.
pub fn bad_value(command: Result<Command<'_>, AllocError>, text: &str) -> Error {
    match command {
        Ok(mut command) => match command.error(ErrorKind::ValueValidation, text) {
            Ok(error) => error,
            Err(error) => Error::from(error),
        },
        Err(error) => Error::from(error),
    }
}

/// The words after a program's name.
pub fn words(rt: &HostRuntime) -> io::Result<Vec<String>> {
    Ok(env::args(rt)?.skip(1).collect(rt.alloc())?)
}

/// Reports a program's fault on standard error. A write that fails is ignored.
pub fn tell(rt: &HostRuntime, program: &str, fault: &str) {
    let _ = eprintln!(rt; "{program}: {fault}");
}

/// Reports an error, and returns its status.
pub fn status_of(rt: &HostRuntime, program: &str, error: &io::Error) -> u8 {
    if error.kind() == io::ErrorKind::OutOfMemory {
        tell(rt, program, "memory");
        return MEMORY;
    }
    let _ = eprintln!(rt; "{program}: {error}");
    BROKEN
}

/// Prints the text of a command line that can't be carried out, help or a fault, and returns the status.
pub fn explain(rt: &HostRuntime, program: &str, error: &Error) -> u8 {
    if error.kind() == ErrorKind::OutOfMemory {
        tell(rt, program, "memory");
        return MEMORY;
    }
    if error.use_stderr() {
        let _ = eprint!(rt; "{error}");
        return MISUSE;
    }
    match print!(rt; "{error}") {
        Ok(()) => 0,
        Err(error) => status_of(rt, program, &error),
    }
}
