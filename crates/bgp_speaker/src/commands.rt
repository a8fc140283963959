//! The command line.

use crate::help::HELP;
use bgp_words::{Behind, with_flags};
use clap::{Arg, Command};
use std::alloc::{AllocError, Global};

/// The program's name.
pub(crate) const NAME: &str = "bgp_speaker";

/// The flags, with their arguments and their help.
const FLAGS: [(&str, Behind, &str); 13] = [
    (
        "local-as",
        Behind::Needed("AS"),
        "The speaker's own AS number",
    ),
    ("peer-as", Behind::Needed("AS"), "The peer's AS number"),
    (
        "id",
        Behind::Needed("ID"),
        "The BGP Identifier, as 192.0.2.1",
    ),
    (
        "hold",
        Behind::Value("SECONDS"),
        "The Hold Time; 90 where nothing is said",
    ),
    ("as4", Behind::Nothing, "Offer AS numbers of four octets"),
    ("ip4", Behind::Nothing, "Offer IPv4 unicast"),
    ("ip6", Behind::Nothing, "Offer IPv6 unicast"),
    (
        "listen",
        Behind::Nothing,
        "Wait for the peer at ADDRESS, and don't connect",
    ),
    (
        "from",
        Behind::Value("ADDRESS"),
        "Connect from this address of this machine, as 192.0.2.2",
    ),
    (
        "send",
        Behind::Value("FILE"),
        "Send the UPDATEs of this file",
    ),
    (
        "messages",
        Behind::Value("N"),
        "End after so many messages of the peer",
    ),
    ("seconds", Behind::Value("N"), "End after so many seconds"),
    ("json", Behind::Nothing, "Print objects of JSON"),
];

// The command without its flags.
fn bare<'a>(alloc: Global) -> Result<Command<'a>, AllocError> {
    let address = Arg::new(alloc, "ADDRESS")
        .required(true)
        .help("Where the peer listens, as 127.0.0.1:179");
    Command::new(alloc, NAME)
        .about("Speak BGP-4 with one peer, and print what it says")
        .after_help(HELP)
        .version("0.4.0")
        .no_binary_name(true)
        .arg(address)?
        .bin_name(NAME)
}

/// The whole command line.
pub(crate) fn speaker<'a>(alloc: Global) -> Result<Command<'a>, AllocError> {
    with_flags(alloc, bare(alloc)?, &FLAGS)
}
