//! Who may connect, and which local address is used for them.

use std::alloc::AllocError;
use std::net::IpAddr;

/// A peer that may connect, and the local address from which the other side is connected to then.
#[derive(Clone, Copy, PartialEq, Eq)]
pub(crate) struct Neighbour {
    /// The address it connects from.
    pub(crate) from: IpAddr,
    /// The local address that is used for it.
    pub(crate) bind: IpAddr,
}

/// What is done for a peer that connects.
#[derive(Clone, Copy, PartialEq, Eq)]
pub(crate) enum Admission {
    /// It isn't a neighbour.
    Refused,
    /// The system chooses the address from which the other side is connected to.
    Anyhow,
    /// The other side is connected to from this address.
    From(IpAddr),
}

/// What is wrong with a neighbour.
#[derive(Clone, Copy)]
pub(crate) enum NeighbourFault {
    /// It isn't two addresses with `=` between them.
    Form,
    /// FROM isn't of the family of the listening address.
    From,
    /// BIND isn't of the family of the address that is connected to.
    Bind,
    /// An earlier neighbour has this FROM or this BIND.
    Again,
}

/// The two addresses of `FROM=BIND`.
pub(crate) fn neighbour_of(word: &str) -> Option<Neighbour> {
    let (from, bind) = word.split_once('=')?;
    let from = from.parse::<IpAddr>().ok()?;
    let bind = bind.parse::<IpAddr>().ok()?;
    Some(Neighbour { from, bind })
}

/// The families of addresses: of outer peers where those connect, and of the inner speaker, or the other way round.
#[derive(Clone, Copy)]
pub(crate) struct Families {
    pub(crate) from_ipv4: bool,
    pub(crate) bind_ipv4: bool,
}

/// What is wrong with a neighbour of a file: the number of its line, counted from 1, and the fault.
#[derive(Clone, Copy)]
pub(crate) struct FileFault {
    pub(crate) line: u64,
    pub(crate) fault: NeighbourFault,
}

/// The text of what is wrong with a neighbour.
pub(crate) fn text_of(fault: NeighbourFault) -> &'static str {
    match fault {
        NeighbourFault::Form => "it needs two IP addresses, as 192.0.2.7=127.0.0.7",
        NeighbourFault::From => "FROM isn't of the family of --listen",
        NeighbourFault::Bind => "BIND isn't of the family of --to",
        NeighbourFault::Again => "FROM or BIND is that of another neighbour",
    }
}

// Whether one of these has the same FROM or the same BIND.
fn is_known(neighbours: &[Neighbour], neighbour: Neighbour) -> bool {
    for known in neighbours {
        if known.from == neighbour.from || known.bind == neighbour.bind {
            return true;
        }
    }
    false
}

/// What is wrong with a further neighbour.
pub(crate) fn fault_of(
    neighbours: &[Neighbour],
    neighbour: Neighbour,
    families: Families,
) -> Option<NeighbourFault> {
    if neighbour.from.is_ipv4() != families.from_ipv4 {
        return Some(NeighbourFault::From);
    }
    if neighbour.bind.is_ipv4() != families.bind_ipv4 {
        return Some(NeighbourFault::Bind);
    }
    if is_known(neighbours, neighbour) {
        return Some(NeighbourFault::Again);
    }
    None
}

// Adds the neighbour of a line: none where the line is empty or a comment.
fn add_line(
    neighbours: &mut Vec<Neighbour>,
    line: &str,
    families: Families,
) -> Result<Option<NeighbourFault>, AllocError> {
    let word = line.trim();
    if word.is_empty() || word.starts_with('#') {
        return Ok(None);
    }
    let Some(neighbour) = neighbour_of(word) else {
        return Ok(Some(NeighbourFault::Form));
    };
    let fault = fault_of(neighbours, neighbour, families);
    if fault.is_none() {
        neighbours.push(neighbour)?;
    }
    Ok(fault)
}

/// Adds the neighbours of a file, `FROM=BIND` a line, with empty lines and comments from `#` on. Answers what is wrong
/// with the first faulty line.
///
/// # Errors
/// `AllocError` where an allocation failed.
pub(crate) fn add_lines(
    neighbours: &mut Vec<Neighbour>,
    text: &str,
    families: Families,
) -> Result<Option<FileFault>, AllocError> {
    let mut number = 0_u64;
    for line in text.lines() {
        number = number.saturating_add(1);
        if let Some(fault) = add_line(neighbours, line, families)? {
            return Ok(Some(FileFault {
                line: number,
                fault,
            }));
        }
    }
    Ok(None)
}

/// What is done for a peer that connects from an address, where only neighbours may.
pub(crate) fn admit(neighbours: &[Neighbour], from: IpAddr) -> Admission {
    for neighbour in neighbours {
        if neighbour.from == from {
            return Admission::From(neighbour.bind);
        }
    }
    Admission::Refused
}
