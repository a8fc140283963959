//! What the words of the command line request.

ghost use Rattle.std.specs.Prelude.{◌≡◌, codes, map, true, Some, option_map, IfOk};
ghost use Rattle.clap.specs.Words.{FailsBy, first_of, found_of, rows_of};
ghost use Rattle.bgp_words.specs.CommandLine.{Asks, IsAsked, context_of, faults_of, file_in, flag_terms_of, is_told_twice, judged_in, kinds_in, refreshes_of, request_by, session_of, text_or_empty};

use crate::commands::{FILE, OPENS, bgp};
use crate::conflict::{conflict, has_session_flag};
use crate::drops::{
    bad_list, drop_conflict, drops_in, drops_twice, missing_drop_unknown, passes_alone,
};
use crate::given::{is_set, value_of};
use crate::numbered::{bad_families, is_no_list, paths_of};
use crate::path_list::PathFlags;
use bgp_open::Context;
use bgp_terms::Refreshes;
use bgp_wire::OctetSet;
use clap::{ArgMatches, Error};
use std::alloc::Global;

/// What the flags say of a session.
#[derive(Clone, Copy)]
pub struct FlagTerms {
    /// The context.
    pub context: Context,
    /// Which ROUTE-REFRESH the receiver accepts.
    pub refresh: Refreshes,
    /// Whose routes have path identifiers.
    pub paths: PathFlags,
}

/// What gives the context of a session.
#[derive(Clone, Copy)]
pub enum Session {
    /// The flags.
    Flags(FlagTerms),
    /// The OPENs of both directions: a file has the octets of the other one.
    Opens,
}

/// The request of a command line.
#[derive(Clone, Copy)]
pub enum Request {
    /// `show`, of octets or, if `hex` is set, of hexadecimal text; in lines of text or, if `json` is set, of JSON; if `only_faults` is set, only
    /// NOTIFICATIONs and what isn't accepted without a note.
    Show {
        session: Session,
        hex: bool,
        json: bool,
        only_faults: bool,
    },
    /// `explain`, with the form of input, JSON and the choice of messages as in `Show`.
    Explain {
        session: Session,
        hex: bool,
        json: bool,
        only_faults: bool,
    },
    /// `check`, with the form of input as in `Show`.
    Check {
        session: Session,
        hex: bool,
    },
    /// `narrow`, with AS numbers of four octets.
    Narrow {
        session: Session,
    },
    /// `clean`, with the form of input as in `Show`; unrecognised attributes of these types are left out.
    Clean {
        session: Session,
        hex: bool,
        drops: OctetSet,
    },
    /// `to-hex`, where ROUTE-REFRESH is a type if `refresh` is set.
    ToHex {
        refresh: bool,
    },
    /// `from-hex`.
    FromHex,
    /// `loop`, over TCP if `tcp` is set, else in memory; with the outcome of each move if `trace` is set.
    Loop {
        tcp: bool,
        trace: bool,
    },
}

/// The request of a command line, and the file that it names: empty if it names none.
#[derive(Clone, Copy)]
pub struct Asked<'a> {
    /// The command and its flags.
    pub request: Request,
    /// The name of the script of `loop`, or of the file with the octets of the other direction.
    pub file: &'a str,
}

// The context of the flags.
fn context(flags: &ArgMatches<'_>, as4: bool) -> Context
    ensures { result ≡ context_of as4 (rows_of (found_of flags.now)) }
{
    Context {
        internal: is_set(flags, "internal"),
        as4,
        ip4: is_set(flags, "ip4"),
        ip6: is_set(flags, "ip6"),
        hold: 0,
    }
}

// Which ROUTE-REFRESH the receiver accepts by the flags.
fn refreshes(flags: &ArgMatches<'_>) -> Refreshes
    ensures { result ≡ refreshes_of (rows_of (found_of flags.now)) }
{
    if is_set(flags, "enhanced-refresh") {
        return Refreshes::Enhanced;
    }
    if is_set(flags, "refresh") {
        Refreshes::Plain
    } else {
        Refreshes::None
    }
}

// What the flags say of a session.
fn flag_terms(flags: &ArgMatches<'_>, as4: bool) -> FlagTerms
    ensures { result ≡ flag_terms_of as4 (rows_of (found_of flags.now)) }
{
    FlagTerms {
        context: context(flags, as4),
        refresh: refreshes(flags),
        paths: paths_of(flags),
    }
}

// What gives the context: the flags, unless a file is given for it.
fn session_of(flags: &ArgMatches<'_>, as4: bool) -> Session
    ensures { result ≡ session_of as4 (rows_of (found_of flags.now)) }
{
    match value_of(flags, OPENS) {
        Some(_) => Session::Opens,
        None => Session::Flags(flag_terms(flags, as4)),
    }
}

// What gives the context of a command that shows or checks.
fn judged_in(flags: &ArgMatches<'_>) -> Session
    ensures { result ≡ judged_in (rows_of (found_of flags.now)) }
{
    let as4 = is_set(flags, "as4");
    session_of(flags, as4)
}

// The request of a command with these flags, where attributes of these types are left out.
fn asked_by(name: &str, flags: &ArgMatches<'_>, drops: OctetSet) -> Request
    ensures { result ≡ request_by name.now (rows_of (found_of flags.now)) drops }
{
    if name == "show" {
        return Request::Show {
            session: judged_in(flags),
            hex: is_set(flags, "hex"),
            json: is_set(flags, "json"),
            only_faults: is_set(flags, "only-faults"),
        };
    }
    if name == "explain" {
        return Request::Explain {
            session: judged_in(flags),
            hex: is_set(flags, "hex"),
            json: is_set(flags, "json"),
            only_faults: is_set(flags, "only-faults"),
        };
    }
    if name == "check" {
        return Request::Check {
            session: judged_in(flags),
            hex: is_set(flags, "hex"),
        };
    }
    if name == "narrow" {
        return Request::Narrow {
            session: session_of(flags, true),
        };
    }
    if name == "clean" {
        return Request::Clean {
            session: judged_in(flags),
            hex: is_set(flags, "hex"),
            drops,
        };
    }
    if name == "to-hex" {
        return Request::ToHex {
            refresh: is_set(flags, "refresh"),
        };
    }
    if name == "from-hex" {
        return Request::FromHex;
    }
    Request::Loop {
        tcp: is_set(flags, "tcp"),
        trace: is_set(flags, "trace"),
    }
}

// The script that the words name.
fn script_of<'a>(flags: &ArgMatches<'a>) -> &'a str
    ensures { result.now ≡ text_or_empty (first_of (codes "SCRIPT") (rows_of (found_of flags.now))) }
{
    match value_of(flags, FILE) {
        Some(script) => script,
        None => "",
    }
}

// The file that the words name.
fn file_of<'a>(flags: &ArgMatches<'a>) -> &'a str
    ensures { result.now ≡ file_in (rows_of (found_of flags.now)) }
{
    match value_of(flags, OPENS) {
        Some(file) => file,
        None => script_of(flags),
    }
}

// Whether the context is given twice.
fn is_told_twice(flags: &ArgMatches<'_>) -> bool
    ensures { result ≡ is_told_twice (rows_of (found_of flags.now)) }
{
    value_of(flags, OPENS).is_some() && has_session_flag(flags)
}

// The request of a command, if nothing is given twice and each list is valid.
fn ask<'a>(alloc: Global, name: &str, flags: &ArgMatches<'a>) -> Result<Option<Asked<'a>>, Error>
    ensures faults { FailsBy (kinds_in (rows_of (found_of flags.now))) result }
    ensures asked { IfOk result (λ found. IsAsked name.now (rows_of (found_of flags.now)) (option_map (λ asked. (asked.request, asked.file.now)) found)) }
{
    if is_told_twice(flags) {
        return Err(conflict(alloc, name, flags)?);
    }
    if is_no_list(flags) {
        return Err(bad_families(alloc, name, flags)?);
    }
    if drops_twice(flags) {
        return Err(drop_conflict(alloc)?);
    }
    if passes_alone(flags) {
        return Err(missing_drop_unknown(alloc)?);
    }
    match drops_in(alloc, flags)? {
        Some(drops) => Ok(Some(Asked {
            request: asked_by(name, flags, drops),
            file: file_of(flags),
        })),
        None => Err(bad_list(alloc, flags)?),
    }
}

/// The request of the words, which don't include the program's name.
pub fn parse<'a>(alloc: Global, words: &'a [&'a str]) -> Result<Option<Asked<'a>>, Error>
    ensures faults { FailsBy (faults_of (map (λ w. w.now) words.now)) result }
    ensures asked { IfOk result (λ found. Asks (map (λ w. w.now) words.now) (option_map (λ asked. (asked.request, asked.file.now)) found)) }
{
    let matches = bgp(alloc)?.try_get_matches_from(words)?;
    match matches.subcommand() {
        Some((name, flags)) => ask(alloc, name, flags),
        None => Ok(None),
    }
}
