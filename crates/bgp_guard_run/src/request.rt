//! The request of the command line.

use crate::commands::guard;
use crate::lines::Form;
use crate::neighbours::{Families, Neighbour, NeighbourFault, fault_of, neighbour_of, text_of};
use bgp_clean::Limits;
use bgp_guard::Rules;
use bgp_wire::OctetSet;
use bgp_words::{all_but, bad_value, list_fault, types_of};
use clap::{ArgMatches, Error};
use std::alloc::Global;
use std::net::SocketAddr;

/// The default limit of sessions at once.
const SESSIONS: u64 = 64;

/// The default limit of sessions of one neighbour at once.
const SESSIONS_OF_PEER: u64 = 2;

/// The default limit of AS numbers in a path.
const LONGEST_PATH: u16 = 500;

/// The default number of octets that an UPDATE leaves free for what the inner speaker adds.
const ROOM: u16 = 300;

/// The greatest limit that may be set.
const SESSIONS_MAX: u64 = 4096;

/// What the command line asks for.
#[derive(Drop)]
pub(crate) struct Request {
    /// The address to listen at.
    pub(crate) listen: SocketAddr,
    /// The address of the other side.
    pub(crate) to: SocketAddr,
    /// The inner speaker connects.
    pub(crate) inner_connects: bool,
    /// Who may connect, by flags alone: anyone where there are neither these nor a file.
    pub(crate) neighbours: Vec<Neighbour>,
    /// The file of more neighbours.
    pub(crate) peers: Option<String>,
    /// Standard input is read.
    pub(crate) has_owner: bool,
    pub(crate) rules: Rules,
    /// The limit of sessions at once.
    pub(crate) most: u64,
    /// The limit of sessions at once from one address.
    pub(crate) most_of_peer: u64,
    /// How lines are printed.
    pub(crate) form: Form,
    /// The address where counters are served.
    pub(crate) metrics: Option<SocketAddr>,
    /// The number of sessions after which it ends.
    pub(crate) sessions: Option<u64>,
    /// The number of seconds after which it ends.
    pub(crate) seconds: Option<u64>,
}

impl Request {
    /// Whether anyone may connect.
    pub(crate) fn is_open(&self) -> bool {
        self.neighbours.is_empty() && self.peers.is_none()
    }
}

// An error of a value.
fn bad(alloc: Global, text: &str) -> Error {
    bad_value(guard(alloc), text)
}

// The error of an argument that isn't a number within bounds.
fn bad_number(alloc: Global, name: &str, least: u64, most: u64) -> Error {
    match format!(in alloc; "--{name} needs a number from {least} to {most}") {
        Ok(text) => bad(alloc, &text),
        Err(error) => Error::from(error),
    }
}

// The number of an argument, where it is present.
fn number(
    alloc: Global,
    found: &ArgMatches<'_>,
    name: &str,
    least: u64,
    most: u64,
) -> Result<Option<u64>, Error> {
    let Some(text) = found.get_str(name) else {
        return Ok(None);
    };
    match text.parse::<u64>() {
        Ok(number) if number >= least && number <= most => Ok(Some(number)),
        _ => Err(bad_number(alloc, name, least, most)),
    }
}

// The 16-bit number of an argument, where it is present.
fn short(alloc: Global, found: &ArgMatches<'_>, name: &str) -> Result<Option<u16>, Error> {
    let Some(text) = found.get_str(name) else {
        return Ok(None);
    };
    match text.parse::<u16>() {
        Ok(number) => Ok(Some(number)),
        Err(_) => Err(bad_number(alloc, name, 0, u16::MAX as u64)),
    }
}

// The AS number of an argument, where it is present.
fn as_number(alloc: Global, found: &ArgMatches<'_>, name: &str) -> Result<Option<u32>, Error> {
    let Some(text) = found.get_str(name) else {
        return Ok(None);
    };
    match text.parse::<u32>() {
        Ok(number) if number > 0 => Ok(Some(number)),
        _ => Err(bad_number(alloc, name, 1, u32::MAX as u64)),
    }
}

// The address with a port of an argument.
fn address(alloc: Global, found: &ArgMatches<'_>, name: &str) -> Result<SocketAddr, Error> {
    match found.get_str(name).unwrap_or("").parse::<SocketAddr>() {
        Ok(address) => Ok(address),
        Err(_) => {
            let text = format!(in alloc;
                "--{name} needs an IP address and a port, as 192.0.2.1:179 or [2001:db8::1]:179"
            )?;
            Err(bad(alloc, &text))
        }
    }
}

// The types of unrecognised attributes that are left out.
fn drops(alloc: Global, found: &ArgMatches<'_>) -> Result<OctetSet, Error> {
    let Some(list) = found.get_str("pass") else {
        return Ok(all_but(OctetSet::new()));
    };
    if let Some(types) = types_of(alloc, list)? {
        return Ok(all_but(types));
    }
    let reason = list_fault(alloc, list)?;
    let text = format!(in alloc; "invalid value '{list}' for '--pass <LIST>': {reason}")?;
    Err(bad(alloc, &text))
}

// Which announcements of the outer peer are withdrawn.
fn limits(alloc: Global, found: &ArgMatches<'_>) -> Result<Limits, Error> {
    Ok(Limits {
        host_next_hops: !found.get_flag("any-next-hop"),
        local_pref: !found.get_flag("without-local-pref"),
        first_as: as_number(alloc, found, "first-as")?,
        longest_path: Some(short(alloc, found, "longest-path")?.unwrap_or(LONGEST_PATH)),
        most_communities: short(alloc, found, "most-communities")?,
        room: short(alloc, found, "room")?.unwrap_or(ROOM),
    })
}

// The error of a faulty neighbour.
fn bad_neighbour(alloc: Global, word: &str, fault: NeighbourFault) -> Error {
    let why = text_of(fault);
    match format!(in alloc; "invalid value '{word}' for '--peer <FROM=BIND>': {why}") {
        Ok(text) => bad(alloc, &text),
        Err(error) => Error::from(error),
    }
}

// The neighbours given by flags.
fn neighbours(alloc: Global, words: &[&str], families: Families) -> Result<Vec<Neighbour>, Error> {
    let mut neighbours = Vec::new(alloc);
    for word in words {
        let Some(neighbour) = neighbour_of(word) else {
            return Err(bad_neighbour(alloc, word, NeighbourFault::Form));
        };
        if let Some(fault) = fault_of(&neighbours, neighbour, families) {
            return Err(bad_neighbour(alloc, word, fault));
        }
        neighbours.push(neighbour)?;
    }
    Ok(neighbours)
}

/// The address families of the peer that connects, and of the one that is connected to.
pub(crate) fn families_of(listen: SocketAddr, to: SocketAddr) -> Families {
    Families {
        from_ipv4: listen.is_ipv4(),
        bind_ipv4: to.is_ipv4(),
    }
}

// What the arguments ask for.
fn asked(alloc: Global, found: &ArgMatches<'_>) -> Result<Request, Error> {
    let listen = address(alloc, found, "listen")?;
    let to = address(alloc, found, "to")?;
    if listen == to {
        return Err(bad(alloc, "--to is the address of --listen"));
    }
    let words = found.get_strs("peer").unwrap_or(&[]);
    let most = number(alloc, found, "most", 1, SESSIONS_MAX)?.unwrap_or(SESSIONS);
    let peers = match found.get_str("peers") {
        Some(path) => Some(format!(in alloc; "{path}")?),
        None => None,
    };
    let of_peer = if words.is_empty() && peers.is_none() {
        u64::MAX
    } else {
        SESSIONS_OF_PEER
    };
    Ok(Request {
        listen,
        to,
        inner_connects: found.get_flag("inner-connects"),
        neighbours: neighbours(alloc, words, families_of(listen, to))?,
        peers,
        has_owner: found.get_flag("control"),
        rules: Rules {
            drops: drops(alloc, found)?,
            limits: limits(alloc, found)?,
            first_as: !found.get_flag("any-first-as"),
            one_way: found.get_flag("one-way"),
        },
        most,
        most_of_peer: number(alloc, found, "most-of-peer", 1, SESSIONS_MAX)?.unwrap_or(of_peer),
        form: Form {
            has_times: found.get_flag("times"),
            is_json: found.get_flag("json"),
        },
        metrics: match found.get_str("metrics") {
            Some(_) => Some(address(alloc, found, "metrics")?),
            None => None,
        },
        sessions: number(alloc, found, "sessions", 1, u64::MAX)?,
        seconds: number(alloc, found, "seconds", 0, u32::MAX as u64)?,
    })
}

/// What the words of the command line, without the program's name, ask for.
pub(crate) fn parse(alloc: Global, words: &[&str]) -> Result<Request, Error> {
    let found = guard(alloc)?.try_get_matches_from(words)?;
    asked(alloc, &found)
}
