//! Checks rows: text files of octets, scripts and events, each with its wanted lines (docs/ROWS.md says how they are written).
//! The arguments name the files; without any the rows are read from standard input. Prints each row that fails, and the number of rows.
#![tactic(auto)]

mod copies;
mod file;
mod guards;
mod scripts;
mod sessions;
mod speakers;
mod steps;

use file::check_file;
use std::fs::{self, Files};
use std::io::Read;
use std::process::ExitCode;
use std::{env, io};

/// The result of all files.
#[derive(Clone, Copy)]
struct Sums {
    passed: u64,
    failed: u64,
}

/// Checks a file's octets, and prints the result of its rows.
fn check_octets(
    rt: &(impl Print + AllocGlobal),
    name: &str,
    octets: &[u8],
    sums: &mut Sums,
) -> io::Result<()> {
    let Ok(text) = std::str::from_utf8(octets) else {
        sums.failed = sums.failed.saturating_add(1);
        return println!(rt; "{name}: no text");
    };
    let (passed, failed) = check_file(rt, text)?;
    println!(rt; "{name}: {passed} rows passed, {failed} failed")?;
    sums.passed = sums.passed.saturating_add(passed);
    sums.failed = sums.failed.saturating_add(failed);
    Ok(())
}

/// Checks the rows of a file.
fn check_named(
    rt: &(impl Files + Print + AllocGlobal),
    name: &str,
    sums: &mut Sums,
) -> io::Result<()> {
    let mut octets = Vec::new(rt.alloc());
    let _count = fs::open(rt, name)?.read_to_end(&mut octets)?;
    check_octets(rt, name, octets.as_slice(), sums)
}

/// The words after the program's name.
fn words(rt: &HostRuntime) -> io::Result<Vec<String>> {
    Ok(env::args(rt)?.skip(1).collect(rt.alloc())?)
}

fn run(rt: &HostRuntime) -> io::Result<Sums> {
    let mut sums = Sums {
        passed: 0,
        failed: 0,
    };
    let names = words(rt)?;
    for name in names.iter() {
        check_named(rt, name.as_str(), &mut sums)?;
    }
    if names.is_empty() {
        let mut octets = Vec::new(rt.alloc());
        let _count = rt.stdin().read_to_end(&mut octets)?;
        check_octets(rt, "standard input", octets.as_slice(), &mut sums)?;
    }
    println!(rt; "{} passed, {} failed", sums.passed, sums.failed)?;
    Ok(sums)
}

fn main(rt: HostRuntime) -> ExitCode {
    match run(&rt) {
        Ok(sums) if sums.failed == 0 => ExitCode::from(0),
        Ok(_) => ExitCode::from(1),
        Err(fault) => {
            let _ = eprintln!(rt; "bgp_check_rows: {fault}");
            ExitCode::from(2)
        }
    }
}
