//! Who may connect: the neighbours given by flags and by a file.

use crate::neighbours::{FileFault, Neighbour, add_lines, text_of};
use crate::request::{Request, families_of};
use std::alloc::{AllocError, Global};
use std::{fmt, fs, io};

/// Why the file of neighbours can't be used.
#[derive(Drop)]
pub(crate) enum Unread {
    /// It can't be read.
    Io(io::Error),
    /// A line of it is at fault.
    Line(FileFault),
}

impl From<io::Error> for Unread {
    fn from(error: io::Error) -> Unread {
        Unread::Io(error)
    }
}

impl From<AllocError> for Unread {
    fn from(error: AllocError) -> Unread {
        Unread::Io(io::Error::from(error))
    }
}

impl fmt::Display for Unread {
    fn fmt<W: fmt::Write>(&self, f: &mut fmt::Formatter<W>) -> fmt::Result {
        match self {
            Unread::Io(error) => write!(f, "{error}"),
            Unread::Line(FileFault { line, fault }) => {
                write!(f, "line {line}: {}", text_of(*fault))
            }
        }
    }
}

// The neighbours given by flags.
fn of_words(alloc: Global, request: &Request) -> Result<Vec<Neighbour>, AllocError> {
    let mut neighbours = Vec::new(alloc);
    for neighbour in request.neighbours.iter() {
        neighbours.push(*neighbour)?;
    }
    Ok(neighbours)
}

/// All neighbours as they are now: those given by flags, and after them those of the file, where there is one.
pub(crate) fn neighbours_of(rt: &HostRuntime, request: &Request) -> Result<Vec<Neighbour>, Unread> {
    let mut neighbours = of_words(rt.alloc(), request)?;
    let Some(path) = &request.peers else {
        return Ok(neighbours);
    };
    let text = fs::read_to_string(rt, path.as_str())?;
    let families = families_of(request.listen, request.to);
    match add_lines(&mut neighbours, &text, families)? {
        Some(fault) => Err(Unread::Line(fault)),
        None => Ok(neighbours),
    }
}
