//! Colours of outcomes and faults, on a terminal.

use std::env;
use std::io::{self, IsTerminal, Write};

/// Ends each colour.
const PLAIN: &[u8] = b"\x1b[0m";

const BOLD: &[u8] = b"\x1b[1m";

const YELLOW: &[u8] = b"\x1b[33m";

const RED: &[u8] = b"\x1b[31m";

const BOLD_RED: &[u8] = b"\x1b[1;31m";

/// When lines are coloured.
#[derive(Clone, Copy)]
enum Choice {
    /// On a terminal, where the environment has neither NO_COLOR nor a TERM without colours.
    Terminal,
    Always,
    Never,
}

/// The choice of colours in a word of the command line, where it has one.
fn choice_of(word: &str) -> Option<Choice> {
    match word {
        "--color=auto" => Some(Choice::Terminal),
        "--color=always" => Some(Choice::Always),
        "--color=never" => Some(Choice::Never),
        _ => None,
    }
}

/// Whether a word of the command line is only about colours.
pub(crate) fn is_choice(word: &str) -> bool {
    choice_of(word).is_some()
}

/// Whether a variable of the environment has a text.
fn is_set(rt: &HostRuntime, name: &str) -> bool {
    match env::var(rt, name) {
        Ok(value) => !value.is_empty(),
        Err(_) => false,
    }
}

/// Whether the terminal has no colours.
fn is_dumb(rt: &HostRuntime) -> bool {
    match env::var(rt, "TERM") {
        Ok(value) => value.as_str() == "dumb",
        Err(_) => false,
    }
}

/// Whether the command prints lines that have colours.
fn prints_lines(words: &[String]) -> bool {
    let is_shown = match words.first() {
        Some(command) => command.as_str() == "show" || command.as_str() == "explain",
        None => false,
    };
    is_shown && !words.iter().any(|word| word.as_str() == "--json")
}

/// Whether lines are coloured; of several words that say so the last one decides.
pub(crate) fn is_coloured(rt: &HostRuntime, words: &[String]) -> bool {
    let mut choice = Choice::Terminal;
    for word in words {
        if let Some(other) = choice_of(word.as_str()) {
            choice = other;
        }
    }
    match choice {
        Choice::Always => prints_lines(words),
        Choice::Never => false,
        Choice::Terminal => {
            rt.stdout().is_terminal()
                && !is_set(rt, "NO_COLOR")
                && !is_dumb(rt)
                && prints_lines(words)
        }
    }
}

/// The colour of a heading, by its verdict: the fourth word.
fn heading_colour(line: &[u8]) -> &'static [u8] {
    match line.split(|octet| *octet == b' ').nth(3) {
        Some(b"reset") => BOLD_RED,
        Some(b"withdraw") => YELLOW,
        _ => BOLD,
    }
}

/// The colour of a line; most have none.
fn colour_of(line: &[u8]) -> &'static [u8] {
    if line.starts_with(b"  !") {
        BOLD_RED
    } else if line.starts_with(b"  >") {
        RED
    } else if line.starts_with(b"  note") {
        YELLOW
    } else if line.starts_with(b" ") {
        b""
    } else {
        heading_colour(line)
    }
}

/// A writer that colours lines, where that is requested.
#[derive(Drop)]
pub(crate) struct Coloured<W> {
    output: W,
    is_on: bool,
    /// An incomplete line.
    line: Vec<u8>,
    /// Lines that aren't written yet.
    text: Vec<u8>,
}

impl<W: Write> Coloured<W> {
    /// An empty one.
    pub(crate) fn new(rt: &HostRuntime, output: W, is_on: bool) -> Coloured<W> {
        Coloured {
            output,
            is_on,
            line: Vec::new(rt.alloc()),
            text: Vec::new(rt.alloc()),
        }
    }

    /// Appends the finished line to those to be written.
    fn end_line(&mut self) -> io::Result<()> {
        let colour = colour_of(&self.line);
        self.text.extend_from_slice(colour)?;
        self.text.extend_from_slice(&self.line)?;
        if !colour.is_empty() {
            self.text.extend_from_slice(PLAIN)?;
        }
        self.text.push(b'\n')?;
        self.line.clear();
        Ok(())
    }

    /// Consumes text, and appends the lines that end in it to those to be written.
    fn keep(&mut self, text: &[u8]) -> io::Result<()> {
        for octet in text {
            if *octet == b'\n' {
                self.end_line()?;
            } else {
                self.line.push(*octet)?;
            }
        }
        Ok(())
    }
}

impl<W: Write> Write for Coloured<W> {
    fn write(&mut self, buf: &[u8]) -> io::Result<usize> {
        if !self.is_on {
            return self.output.write(buf);
        }
        self.text.clear();
        self.keep(buf)?;
        self.output.write_all(&self.text)?;
        Ok(buf.len())
    }

    fn flush(&mut self) -> io::Result<()> {
        self.output.flush()
    }
}
