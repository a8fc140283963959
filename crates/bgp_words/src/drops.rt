//! The types of attributes that `clean` leaves out.

ghost use Rattle.std.specs.Prelude.{◌≡◌, option_map, IfOk};
ghost use Rattle.clap.specs.Words.{first_of, found_of, kind_of, rows_of};
ghost use Rattle.clap.specs.declared.error.kind.ErrorKind.TheVariants as error;
ghost use Rattle.bgp_wire.specs.Prelude.{has_octet};
ghost use Rattle.bgp_words.specs.CommandLine.{drops_in, drops_twice, passes_alone, types_in};

use crate::commands::{DROP, DROP_UNKNOWN, PASS, judging_command};
use crate::given::{is_set, value_of};
use crate::type_list::{all_but, list_fault, types_of};
use bgp_wire::OctetSet;
use clap::error::ErrorKind;
use clap::{ArgMatches, Error};
use std::alloc::{AllocError, Global};

// The types in the list of a flag.
fn types_in(
    alloc: Global,
    flags: &ArgMatches<'_>,
    name: &str,
) -> Result<Option<OctetSet>, AllocError>
    ensures { IfOk result (λ types. option_map has_octet types ≡ types_in (first_of name.now (rows_of (found_of flags.now)))) }
{
    match value_of(flags, name) {
        Some(list) => types_of(alloc, list),
        None => Ok(Some(OctetSet::new())),
    }
}

/// The types that are left out, if each list is valid.
pub(crate) fn drops_in(
    alloc: Global,
    flags: &ArgMatches<'_>,
) -> Result<Option<OctetSet>, AllocError>
    ensures { IfOk result (λ types. option_map has_octet types ≡ drops_in (rows_of (found_of flags.now))) }
{
    if !is_set(flags, DROP_UNKNOWN) {
        return types_in(alloc, flags, DROP);
    }
    match types_in(alloc, flags, PASS)? {
        Some(types) => Ok(Some(all_but(types))),
        None => Ok(None),
    }
}

/// Whether attributes are left out by type, and all unrecognised ones are left out too.
pub(crate) fn drops_twice(flags: &ArgMatches<'_>) -> bool
    ensures { result ≡ drops_twice (rows_of (found_of flags.now)) }
{
    value_of(flags, DROP).is_some() && is_set(flags, DROP_UNKNOWN)
}

/// Whether types pass, but not all are left out.
pub(crate) fn passes_alone(flags: &ArgMatches<'_>) -> bool
    ensures { result ≡ passes_alone (rows_of (found_of flags.now)) }
{
    value_of(flags, PASS).is_some() && !is_set(flags, DROP_UNKNOWN)
}

/// The error of attributes that are left out twice.
pub(crate) fn drop_conflict(alloc: Global) -> Result<Error, AllocError>
    ensures { IfOk result (λ e. kind_of e ≡ error.ArgumentConflict) }
{
    let text = "the argument '--drop <LIST>' cannot be used with '--drop-unknown'";
    judging_command(alloc, "clean")?.error(ErrorKind::ArgumentConflict, text)
}

/// The error of types that pass where not all are left out.
pub(crate) fn missing_drop_unknown(alloc: Global) -> Result<Error, AllocError>
    ensures { IfOk result (λ e. kind_of e ≡ error.MissingRequiredArgument) }
{
    let text = "the following required arguments were not provided:\n  --drop-unknown";
    judging_command(alloc, "clean")?.error(ErrorKind::MissingRequiredArgument, text)
}

/// The error of a faulty list.
pub(crate) fn bad_list(alloc: Global, flags: &ArgMatches<'_>) -> Result<Error, AllocError>
    ensures { IfOk result (λ e. kind_of e ≡ error.InvalidValue) }
{
    let (name, list) = match value_of(flags, PASS) {
        Some(list) => (PASS, list),
        None => (DROP, value_of(flags, DROP).unwrap_or("")),
    };
    let reason = list_fault(alloc, list)?;
    let text = format!(in alloc; "invalid value '{list}' for '--{name} <LIST>': {reason}")?;
    judging_command(alloc, "clean")?.error(ErrorKind::InvalidValue, &text)
}
