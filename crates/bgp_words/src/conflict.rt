//! The error if the session is given twice: by both OPENs, and by flags.

ghost use Rattle.std.specs.Prelude.{◌≡◌, IfOk};
ghost use Rattle.clap.specs.Words.{found_of, kind_of, rows_of};
ghost use Rattle.clap.specs.declared.error.kind.ErrorKind.TheVariants as error;
ghost use Rattle.bgp_words.specs.CommandLine.{has_session_flag};

use crate::commands::{PATHS, judging_command};
use crate::given::{is_set, value_of};
use clap::error::ErrorKind;
use clap::{ArgMatches, Error};
use std::alloc::{AllocError, Global};

/// The flag for path identifiers, with its value.
const GIVEN_PATHS: &str = "--paths <FAMILIES>";

/// Whether one of the flags is set that both OPENs determine.
pub(crate) fn has_session_flag(flags: &ArgMatches<'_>) -> bool
    ensures { result ≡ has_session_flag (rows_of (found_of flags.now)) }
{
    is_set(flags, "as4")
        || is_set(flags, "ip4")
        || is_set(flags, "ip6")
        || is_set(flags, "internal")
        || is_set(flags, "refresh")
        || is_set(flags, "enhanced-refresh")
        || value_of(flags, PATHS).is_some()
}

// Adds the names of these flags that are set, each on a line of its own. Answers their number, and the last of them.
fn put_names<'a>(
    lines: &mut String,
    flags: &ArgMatches<'_>,
    names: &[&'a str],
) -> Result<(u8, &'a str), AllocError> {
    let mut count = 0_u8;
    let mut last = "";
    for name in names {
        if is_set(flags, name) {
            write!(lines, "\n  --{name}")?;
            count = count.saturating_add(1);
            last = name;
        }
    }
    Ok((count, last))
}

// The names of the flags of a session that are set, each on a line of its own if there are several.
fn names(alloc: Global, flags: &ArgMatches<'_>) -> Result<String, AllocError> {
    let session = [
        "as4",
        "ip4",
        "ip6",
        "internal",
        "refresh",
        "enhanced-refresh",
    ];
    let mut lines = String::new(alloc);
    let (count, last) = put_names(&mut lines, flags, &session)?;
    let has_paths = value_of(flags, PATHS).is_some();
    if has_paths {
        write!(lines, "\n  {GIVEN_PATHS}")?;
    }
    match (count, has_paths) {
        (0, true) => format!(in alloc; " '{GIVEN_PATHS}'"),
        (1, false) => format!(in alloc; " '--{last}'"),
        _ => format!(in alloc; ":{lines}"),
    }
}

/// The error of a command with a file for both OPENs and with flags.
pub(crate) fn conflict(
    alloc: Global,
    name: &str,
    flags: &ArgMatches<'_>,
) -> Result<Error, AllocError>
    ensures { IfOk result (λ e. kind_of e ≡ error.ArgumentConflict) }
{
    let others = names(alloc, flags)?;
    let text = format!(in alloc; "the argument '--opens <FILE>' cannot be used with{others}")?;
    judging_command(alloc, name)?.error(ErrorKind::ArgumentConflict, &text)
}
