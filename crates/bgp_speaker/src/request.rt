//! The request of the command line.

ghost use Rattle.std.specs.Prelude.{◌≤◌, IfOk, IfSome};

use crate::commands::speaker;
use bgp_open::{BadConfig, Config};
use bgp_words::bad_value;
use clap::{ArgMatches, Error};
use std::alloc::Global;
use std::net::{IpAddr, Ipv4Addr, SocketAddr};

/// What the command line asks for.
#[derive(Clone, Copy)]
pub(crate) struct Request<'a> {
    pub(crate) config: Config,
    /// The address where the peer listens, or where this program does.
    pub(crate) address: &'a str,
    /// The peer connects.
    pub(crate) listens: bool,
    /// The address of this machine that it connects from.
    pub(crate) source: Option<IpAddr>,
    /// The file of the UPDATEs that are sent.
    pub(crate) file: Option<&'a str>,
    /// The number of the peer's messages after which the session is stopped.
    pub(crate) messages: Option<u64>,
    /// The number of seconds after which the session is stopped.
    pub(crate) seconds: Option<u64>,
    pub(crate) json: bool,
}

// An error of a value.
fn bad(alloc: Global, text: &str) -> Error {
    bad_value(speaker(alloc), text)
}

// The number of an argument, where it is present.
fn number(
    alloc: Global,
    found: &ArgMatches<'_>,
    name: &str,
    most: u64,
) -> Result<Option<u64>, Error>
    ensures { IfOk result (λ found. IfSome found (λ number. number ≤ most)) }
{
    let Some(text) = found.get_str(name) else {
        return Ok(None);
    };
    match text.parse::<u64>() {
        Ok(number) if number <= most => Ok(Some(number)),
        _ => {
            let text = format!(in alloc; "--{name} needs a number of at most {most}")?;
            Err(bad(alloc, &text))
        }
    }
}

// The BGP Identifier.
fn identifier(alloc: Global, found: &ArgMatches<'_>) -> Result<[u8; 4], Error> {
    match found.get_str("id").unwrap_or("").parse::<Ipv4Addr>() {
        Ok(id) => Ok(id.octets()),
        Err(_) => Err(bad(alloc, "--id needs an IPv4 address")),
    }
}

// Why a configuration is refused.
fn text_of(why: BadConfig) -> &'static str {
    match why {
        BadConfig::LocalAs => "--local-as is 0",
        BadConfig::PeerAs => "--peer-as is 0",
        BadConfig::Identifier => "--id is 0.0.0.0",
        BadConfig::Hold => "--hold is 1 or 2: it is 0, or at least 3",
        BadConfig::AsWidth => "--local-as is above 65535, and --as4 isn't offered",
    }
}

// The speaker's settings.
fn config(alloc: Global, found: &ArgMatches<'_>) -> Result<Config, Error> {
    let local_as = number(alloc, found, "local-as", u32::MAX as u64)?.unwrap_or(0) as u32;
    let peer_as = number(alloc, found, "peer-as", u32::MAX as u64)?.unwrap_or(0) as u32;
    let hold = number(alloc, found, "hold", u16::MAX as u64)?.unwrap_or(90) as u16;
    let id = identifier(alloc, found)?;
    let as4 = found.get_flag("as4");
    let ip4 = found.get_flag("ip4");
    let ip6 = found.get_flag("ip6");
    match Config::new(local_as, peer_as, id, hold, as4, ip4, ip6) {
        Ok(config) => Ok(config),
        Err(why) => Err(bad(alloc, text_of(why))),
    }
}

// The address that it connects from, where one is named.
fn source(alloc: Global, found: &ArgMatches<'_>) -> Result<Option<IpAddr>, Error> {
    let Some(text) = found.get_str("from") else {
        return Ok(None);
    };
    let Ok(source) = text.parse::<IpAddr>() else {
        return Err(bad(alloc, "--from needs an IP address"));
    };
    match found.get_str("ADDRESS").unwrap_or("").parse::<SocketAddr>() {
        Ok(to) if to.is_ipv4() == source.is_ipv4() && !found.get_flag("listen") => Ok(Some(source)),
        _ => Err(bad(
            alloc,
            "--from needs ADDRESS to be an IP address of its family with a port, and no --listen",
        )),
    }
}

// What the arguments ask for.
fn asked<'a>(alloc: Global, found: &ArgMatches<'a>) -> Result<Request<'a>, Error> {
    Ok(Request {
        config: config(alloc, found)?,
        address: found.get_str("ADDRESS").unwrap_or(""),
        listens: found.get_flag("listen"),
        source: source(alloc, found)?,
        file: found.get_str("send"),
        messages: number(alloc, found, "messages", u64::MAX)?,
        seconds: number(alloc, found, "seconds", u32::MAX as u64)?,
        json: found.get_flag("json"),
    })
}

/// What the words of the command line, without the program's name, ask for.
pub(crate) fn parse<'a>(alloc: Global, words: &'a [&'a str]) -> Result<Request<'a>, Error> {
    let found = speaker(alloc)?.try_get_matches_from(words)?;
    asked(alloc, &found)
}
