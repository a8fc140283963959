//! What a parse found of a command's arguments.

ghost use Rattle.std.specs.Prelude.{◌≡◌, option_map};
ghost use Rattle.clap.specs.Words.{first_of, found_of, rows_of};
ghost use Rattle.bgp_words.specs.CommandLine.{is_set};

use clap::ArgMatches;

/// The value of an argument, if it has one.
pub(crate) fn value_of<'a>(found: &ArgMatches<'a>, name: &str) -> Option<&'a str>
    ensures { option_map (λ s. s.now) result ≡ first_of name.now (rows_of (found_of found.now)) }
{
    found.get_str(name)
}

/// Whether a flag is set.
pub(crate) fn is_set(found: &ArgMatches<'_>, name: &str) -> bool
    ensures { result ≡ is_set name.now (rows_of (found_of found.now)) }
{
    match value_of(found, name) {
        Some(value) => value == "true",
        None => false,
    }
}
