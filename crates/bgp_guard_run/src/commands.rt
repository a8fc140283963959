//! The command line.

use crate::help::HELP;
use bgp_words::{Behind, with_flags};
use clap::Command;
use std::alloc::{AllocError, Global};

/// The program's name.
pub(crate) const NAME: &str = "bgp_guard_run";

/// The flags, with their arguments and their help.
const FLAGS: [(&str, Behind, &str); 22] = [
    (
        "listen",
        Behind::Needed("ADDRESS"),
        "Where outer peers connect, as 192.0.2.1:179",
    ),
    (
        "to",
        Behind::Needed("ADDRESS"),
        "Where the inner speaker listens, as 127.0.0.1:1179",
    ),
    (
        "inner-connects",
        Behind::Nothing,
        "The inner speaker connects, and the outer peer listens",
    ),
    (
        "peer",
        Behind::Values("FROM=BIND"),
        "Only FROM may connect, and BIND stands for it",
    ),
    (
        "peers",
        Behind::Value("FILE"),
        "More of them from a file, one a line",
    ),
    (
        "control",
        Behind::Nothing,
        "Read commands from standard input: reload, stop",
    ),
    (
        "pass",
        Behind::Value("LIST"),
        "Keep unrecognised attributes of these types",
    ),
    (
        "one-way",
        Behind::Nothing,
        "Keep the inner speaker's routes inside",
    ),
    (
        "any-next-hop",
        Behind::Nothing,
        "Hand on routes by a next hop that isn't a host's address",
    ),
    (
        "without-local-pref",
        Behind::Nothing,
        "Hand on routes without LOCAL_PREF on internal sessions",
    ),
    (
        "any-first-as",
        Behind::Nothing,
        "Hand on routes by any first AS, as from a route server",
    ),
    (
        "first-as",
        Behind::Value("AS"),
        "Withdraw routes whose AS_PATH doesn't begin with this AS",
    ),
    (
        "longest-path",
        Behind::Value("N"),
        "Withdraw routes of more AS numbers; 500 where nothing is said",
    ),
    (
        "most-communities",
        Behind::Value("N"),
        "Withdraw routes of more communities",
    ),
    (
        "room",
        Behind::Value("N"),
        "Octets that an UPDATE leaves free of 4096; 300 where nothing is said",
    ),
    (
        "most",
        Behind::Value("N"),
        "At most so many sessions at once; 64 where nothing is said",
    ),
    (
        "most-of-peer",
        Behind::Value("N"),
        "At most so many sessions of one address; 2 with --peer",
    ),
    (
        "times",
        Behind::Nothing,
        "Print the time before each line, and the peer in it",
    ),
    ("json", Behind::Nothing, "Print each line as a JSON object"),
    (
        "metrics",
        Behind::Value("ADDRESS"),
        "Serve counters for Prometheus there, as 127.0.0.1:9179",
    ),
    (
        "sessions",
        Behind::Value("N"),
        "End once so many sessions have ended",
    ),
    ("seconds", Behind::Value("N"), "End after so many seconds"),
];

// The command without its flags.
fn bare<'a>(alloc: Global) -> Result<Command<'a>, AllocError> {
    Command::new(alloc, NAME)
        .about("Stand between two BGP-4 speakers, and hand on what is clean")
        .after_help(HELP)
        .version("0.4.0")
        .no_binary_name(true)
        .bin_name(NAME)
}

/// The whole command line.
pub(crate) fn guard<'a>(alloc: Global) -> Result<Command<'a>, AllocError> {
    with_flags(alloc, bare(alloc)?, &FLAGS)
}
