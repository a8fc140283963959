//! The flag for path identifiers.

ghost use Rattle.std.specs.Prelude.{◌≡◌, codes, IfOk};
ghost use Rattle.clap.specs.Words.{first_of, found_of, kind_of, rows_of};
ghost use Rattle.clap.specs.declared.error.kind.ErrorKind.TheVariants as error;
ghost use Rattle.bgp_words.specs.CommandLine.{is_no_list, paths_of};

use crate::commands::{PATHS, judging_command};
use crate::given::value_of;
use crate::path_list::{PathFlags, are_families, names_ip4, names_ip6};
use clap::error::ErrorKind;
use clap::{ArgMatches, Error};
use std::alloc::{AllocError, Global};

/// The families whose routes have path identifiers by the flags: none of a faulty list.
pub(crate) fn paths_of(flags: &ArgMatches<'_>) -> PathFlags
    ensures { result ≡ paths_of (rows_of (found_of flags.now)) }
{
    match value_of(flags, PATHS) {
        Some(list) => PathFlags {
            ip4: names_ip4(list),
            ip6: names_ip6(list),
        },
        None => PathFlags {
            ip4: false,
            ip6: false,
        },
    }
}

/// Whether the list of families is faulty.
pub(crate) fn is_no_list(flags: &ArgMatches<'_>) -> bool
    ensures { result ≡ is_no_list (first_of (codes "paths") (rows_of (found_of flags.now))) }
{
    match value_of(flags, PATHS) {
        Some(list) => !are_families(list),
        None => false,
    }
}

/// The error of a command with a faulty list.
pub(crate) fn bad_families(
    alloc: Global,
    name: &str,
    flags: &ArgMatches<'_>,
) -> Result<Error, AllocError>
    ensures { IfOk result (λ e. kind_of e ≡ error.InvalidValue) }
{
    let list = value_of(flags, PATHS).unwrap_or("");
    let text = format!(in alloc;
        "invalid value '{list}' for '--paths <FAMILIES>': expected 'ip4', 'ip6' or 'ip4,ip6'"
    )?;
    judging_command(alloc, name)?.error(ErrorKind::InvalidValue, &text)
}
