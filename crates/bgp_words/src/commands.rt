//! The commands of the program, with their flags and their help.

ghost use Rattle.std.specs.Prelude.{◌≡◌, codes, false, IfOk};
ghost use Rattle.clap.specs.Words.{app_of, rule_of, new_app};
ghost use Rattle.clap.specs.declared.builder.command.Command.TheViews.{out-Command};
ghost use Rattle.bgp_words.specs.CommandLine.{flag_rule, with_flag, option_rule, with_option, with_families, with_refresh, with_refreshes, with_paths, with_opens, with_session, with_path_session, with_input, with_judging, with_reading, with_dropping, clean_command, with_printing, show_command, explain_command, check_command, with_command, bare_command, printing_commands, judging_commands, file_rule, loop_command, to_hex_command, stream_commands, bgp_command};

use crate::help::{
    CHECK_HELP, CLEAN_HELP, EXPLAIN_HELP, FROM_HEX_HELP, HELP, LOOP_HELP, NARROW_HELP, SHOW_HELP,
    TO_HEX_HELP,
};
use clap::{Arg, ArgAction, Command};
use std::alloc::{AllocError, Global};

/// The flag that names the file with the octets of the other direction.
pub(crate) const OPENS: &str = "opens";

/// The flag with the families whose routes have path identifiers.
pub(crate) const PATHS: &str = "paths";

/// The flag with the types of attributes that are left out.
pub(crate) const DROP: &str = "drop";

/// The flag that leaves out all unrecognised attributes.
pub(crate) const DROP_UNKNOWN: &str = "drop-unknown";

/// The flag with the types of those that are kept nevertheless.
pub(crate) const PASS: &str = "pass";

// A flag without a value.
fn flag<'a>(alloc: Global, name: &'a str, help: &'a str) -> Arg<'a>
    ensures rule { rule_of result ≡ flag_rule name.now }
    ensures local { result.global ≡ false }
{
    Arg::new(alloc, name)
        .long(name)
        .help(help)
        .action(ArgAction::SetTrue)
}

// A command with one more flag.
fn with_flag<'a>(
    alloc: Global,
    command: Command<'a>,
    name: &'a str,
    help: &'a str,
) -> Result<Command<'a>, AllocError>
    ensures shape { IfOk result (λ c. app_of c ≡ with_flag (app_of command.entry) name.now) }
    ensures local { IfOk result (λ c. (out-Command c).has_globals ≡ (out-Command command.entry).has_globals) }
{
    command.arg(flag(alloc, name, help))
}

// A flag with a value.
fn option<'a>(alloc: Global, name: &'a str, value: &'a str, help: &'a str) -> Arg<'a>
    ensures rule { rule_of result ≡ option_rule name.now }
    ensures local { result.global ≡ false }
{
    Arg::new(alloc, name)
        .long(name)
        .value_name(value)
        .help(help)
}

// A command with one more flag that has a value.
fn with_option<'a>(
    alloc: Global,
    command: Command<'a>,
    name: &'a str,
    value: &'a str,
    help: &'a str,
) -> Result<Command<'a>, AllocError>
    ensures shape { IfOk result (λ c. app_of c ≡ with_option (app_of command.entry) name.now) }
    ensures local { IfOk result (λ c. (out-Command c).has_globals ≡ (out-Command command.entry).has_globals) }
{
    command.arg(option(alloc, name, value, help))
}

// A command with the flags for families and the kind of the session.
fn with_families<'a>(alloc: Global, command: Command<'a>) -> Result<Command<'a>, AllocError>
    ensures shape { IfOk result (λ c. app_of c ≡ with_families (app_of command.entry)) }
    ensures local { IfOk result (λ c. (out-Command c).has_globals ≡ (out-Command command.entry).has_globals) }
{
    let command = with_flag(
        alloc,
        command,
        "ip4",
        "IPv4 routes may stand in multiprotocol attributes",
    )?;
    let command = with_flag(
        alloc,
        command,
        "ip6",
        "IPv6 routes may stand in multiprotocol attributes",
    )?;
    with_flag(alloc, command, "internal", "Both speakers are of one AS")
}

// A command with the flag for ROUTE-REFRESH.
fn with_refresh<'a>(alloc: Global, command: Command<'a>) -> Result<Command<'a>, AllocError>
    ensures shape { IfOk result (λ c. app_of c ≡ with_refresh (app_of command.entry)) }
    ensures local { IfOk result (λ c. (out-Command c).has_globals ≡ (out-Command command.entry).has_globals) }
{
    with_flag(
        alloc,
        command,
        "refresh",
        "The receiver offers ROUTE-REFRESH (RFC 2918)",
    )
}

// A command with this flag, and the one for enhanced ROUTE-REFRESH.
fn with_refreshes<'a>(alloc: Global, command: Command<'a>) -> Result<Command<'a>, AllocError>
    ensures shape { IfOk result (λ c. app_of c ≡ with_refreshes (app_of command.entry)) }
    ensures local { IfOk result (λ c. (out-Command c).has_globals ≡ (out-Command command.entry).has_globals) }
{
    with_flag(
        alloc,
        with_refresh(alloc, command)?,
        "enhanced-refresh",
        "Both speakers offer enhanced ROUTE-REFRESH (RFC 7313)",
    )
}

// A command with the flag for path identifiers.
fn with_paths<'a>(alloc: Global, command: Command<'a>) -> Result<Command<'a>, AllocError>
    ensures shape { IfOk result (λ c. app_of c ≡ with_paths (app_of command.entry)) }
    ensures local { IfOk result (λ c. (out-Command c).has_globals ≡ (out-Command command.entry).has_globals) }
{
    with_option(
        alloc,
        command,
        PATHS,
        "FAMILIES",
        "Routes of FAMILIES have path identifiers (RFC 7911)",
    )
}

// A command with the flag for the OPENs of both directions.
fn with_opens<'a>(alloc: Global, command: Command<'a>) -> Result<Command<'a>, AllocError>
    ensures shape { IfOk result (λ c. app_of c ≡ with_opens (app_of command.entry)) }
    ensures local { IfOk result (λ c. (out-Command c).has_globals ≡ (out-Command command.entry).has_globals) }
{
    with_option(
        alloc,
        command,
        OPENS,
        "FILE",
        "Agree by both OPENs: FILE has the other direction",
    )
}

// A command with the flags that give the session.
fn with_session<'a>(alloc: Global, command: Command<'a>) -> Result<Command<'a>, AllocError>
    ensures shape { IfOk result (λ c. app_of c ≡ with_session (app_of command.entry)) }
    ensures local { IfOk result (λ c. (out-Command c).has_globals ≡ (out-Command command.entry).has_globals) }
{
    let command = with_refreshes(alloc, with_families(alloc, command)?)?;
    with_opens(alloc, command)
}

// A command with the flags for the form of input and for AS numbers.
fn with_input<'a>(alloc: Global, command: Command<'a>) -> Result<Command<'a>, AllocError>
    ensures shape { IfOk result (λ c. app_of c ≡ with_input (app_of command.entry)) }
    ensures local { IfOk result (λ c. (out-Command c).has_globals ≡ (out-Command command.entry).has_globals) }
{
    let command = with_flag(
        alloc,
        command,
        "hex",
        "Read hexadecimal text instead of octets",
    )?;
    with_flag(
        alloc,
        command,
        "as4",
        "Both speakers use AS numbers of four octets",
    )
}

// A command with the flags of one that judges messages.
fn with_judging<'a>(alloc: Global, command: Command<'a>) -> Result<Command<'a>, AllocError>
    ensures shape { IfOk result (λ c. app_of c ≡ with_judging (app_of command.entry)) }
    ensures local { IfOk result (λ c. (out-Command c).has_globals ≡ (out-Command command.entry).has_globals) }
{
    let command = with_input(alloc, command)?;
    with_session(alloc, command)
}

// A command with the flags that give the session, of one that reads path identifiers.
fn with_path_session<'a>(alloc: Global, command: Command<'a>) -> Result<Command<'a>, AllocError>
    ensures shape { IfOk result (λ c. app_of c ≡ with_path_session (app_of command.entry)) }
    ensures local { IfOk result (λ c. (out-Command c).has_globals ≡ (out-Command command.entry).has_globals) }
{
    let command = with_refreshes(alloc, with_families(alloc, command)?)?;
    let command = with_paths(alloc, command)?;
    with_opens(alloc, command)
}

// A command with the flags of one that prints messages, path identifiers too.
fn with_reading<'a>(alloc: Global, command: Command<'a>) -> Result<Command<'a>, AllocError>
    ensures shape { IfOk result (λ c. app_of c ≡ with_reading (app_of command.entry)) }
    ensures local { IfOk result (λ c. (out-Command c).has_globals ≡ (out-Command command.entry).has_globals) }
{
    let command = with_input(alloc, command)?;
    with_path_session(alloc, command)
}

// A command with the flags of one that leaves out attributes.
fn with_dropping<'a>(alloc: Global, command: Command<'a>) -> Result<Command<'a>, AllocError>
    ensures shape { IfOk result (λ c. app_of c ≡ with_dropping (app_of command.entry)) }
    ensures local { IfOk result (λ c. (out-Command c).has_globals ≡ (out-Command command.entry).has_globals) }
{
    let command = with_option(
        alloc,
        command,
        DROP,
        "LIST",
        "Leave out unrecognised attributes of these types",
    )?;
    let command = with_flag(
        alloc,
        command,
        DROP_UNKNOWN,
        "Leave out all unrecognised attributes",
    )?;
    with_option(
        alloc,
        command,
        PASS,
        "LIST",
        "Keep those of these types, with `--drop-unknown`",
    )
}

// A command of a name, with its help.
fn named<'a>(alloc: Global, name: &'a str, about: &'a str, more: &'a str) -> Command<'a>
    ensures shape { app_of result ≡ new_app name.now }
    ensures local { (out-Command result).has_globals ≡ false }
{
    Command::new(alloc, name).about(about).after_help(more)
}

// The command without its subcommands.
fn bare<'a>(alloc: Global) -> Result<Command<'a>, AllocError>
    ensures { IfOk result (λ c. app_of c ≡ bare_command) }
{
    Ok(
        named(
            alloc,
            "bgp",
            "Show, explain, check, clean and convert what a BGP-4 speaker sends",
            HELP,
        )
        .bin_name("bgp")?
        .version(VERSION)
        .no_binary_name(true)
        .subcommand_required(true),
    )
}

/// The version of the program.
const VERSION: &str = "0.4.0";

/// The name of the file that a command reads.
pub(crate) const FILE: &str = "SCRIPT";

// The file of a script.
fn file<'a>(alloc: Global) -> Arg<'a>
    ensures rule { rule_of result ≡ file_rule }
    ensures local { result.global ≡ false }
{
    Arg::new(alloc, FILE)
        .required(true)
        .help("The file of the script")
}

// The command that runs a script.
fn looping<'a>(alloc: Global) -> Result<Command<'a>, AllocError>
    ensures shape { IfOk result (λ c. app_of c ≡ loop_command) }
    ensures local { IfOk result (λ c. (out-Command c).has_globals ≡ false) }
{
    let command = named(
        alloc,
        "loop",
        "Run two speakers against each other by a script",
        LOOP_HELP,
    );
    let command = command.arg(file(alloc))?;
    let command = with_flag(
        alloc,
        command,
        "tcp",
        "Join the speakers over TCP on 127.0.0.1 in place of memory",
    )?;
    with_flag(
        alloc,
        command,
        "trace",
        "Print what comes of each move, before the report",
    )
}

// A command with one more subcommand.
fn with_command<'a>(command: Command<'a>, sub: Command<'a>) -> Result<Command<'a>, AllocError>
    requires { (out-Command sub).has_globals ≡ false }
    ensures { IfOk result (λ c. app_of c ≡ with_command (app_of command.entry) (app_of sub.entry)) }
{
    command.subcommand(sub)
}

// A command with the flags that choose messages and the form of what is printed.
fn with_printing<'a>(alloc: Global, command: Command<'a>) -> Result<Command<'a>, AllocError>
    ensures shape { IfOk result (λ c. app_of c ≡ with_printing (app_of command.entry)) }
    ensures local { IfOk result (λ c. (out-Command c).has_globals ≡ (out-Command command.entry).has_globals) }
{
    let command = with_flag(
        alloc,
        command,
        "only-faults",
        "Print messages with faults or notes, and NOTIFICATIONs",
    )?;
    with_flag(
        alloc,
        command,
        "json",
        "Print each message as an object of JSON",
    )
}

/// The command that shows.
pub(crate) fn show<'a>(alloc: Global) -> Result<Command<'a>, AllocError>
    ensures shape { IfOk result (λ c. app_of c ≡ show_command) }
    ensures local { IfOk result (λ c. (out-Command c).has_globals ≡ false) }
{
    let show = named(alloc, "show", "Print each message's outcome", SHOW_HELP);
    with_printing(alloc, with_reading(alloc, show)?)
}

/// The command that explains.
pub(crate) fn explain<'a>(alloc: Global) -> Result<Command<'a>, AllocError>
    ensures shape { IfOk result (λ c. app_of c ≡ explain_command) }
    ensures local { IfOk result (λ c. (out-Command c).has_globals ≡ false) }
{
    let explain = named(
        alloc,
        "explain",
        "Print each message's outcome and its fields",
        EXPLAIN_HELP,
    );
    with_printing(alloc, with_reading(alloc, explain)?)
}

/// The command that checks.
pub(crate) fn check<'a>(alloc: Global) -> Result<Command<'a>, AllocError>
    ensures shape { IfOk result (λ c. app_of c ≡ check_command) }
    ensures local { IfOk result (λ c. (out-Command c).has_globals ≡ false) }
{
    let check = named(alloc, "check", "Count the outcomes", CHECK_HELP);
    with_reading(alloc, check)
}

/// The command that narrows.
pub(crate) fn narrow<'a>(alloc: Global) -> Result<Command<'a>, AllocError>
    ensures shape { IfOk result (λ c. app_of c ≡ with_path_session (new_app (codes "narrow"))) }
    ensures local { IfOk result (λ c. (out-Command c).has_globals ≡ false) }
{
    let narrow = named(
        alloc,
        "narrow",
        "Rewrite a session for a speaker with two octets for an AS number",
        NARROW_HELP,
    );
    with_path_session(alloc, narrow)
}

/// The command that cleans.
pub(crate) fn clean<'a>(alloc: Global) -> Result<Command<'a>, AllocError>
    ensures shape { IfOk result (λ c. app_of c ≡ clean_command) }
    ensures local { IfOk result (λ c. (out-Command c).has_globals ≡ false) }
{
    let clean = named(
        alloc,
        "clean",
        "Write what may be handed on of each message",
        CLEAN_HELP,
    );
    with_dropping(alloc, with_judging(alloc, clean)?)
}

// A command with the one that shows. Each subcommand has a function of its own, since proofs pay for each command that `?` may drop.
fn with_show<'a>(alloc: Global, command: Command<'a>) -> Result<Command<'a>, AllocError>
    ensures { IfOk result (λ c. app_of c ≡ with_command (app_of command.entry) show_command) }
{
    with_command(command, show(alloc)?)
}

// A command with the one that explains.
fn with_explain<'a>(alloc: Global, command: Command<'a>) -> Result<Command<'a>, AllocError>
    ensures { IfOk result (λ c. app_of c ≡ with_command (app_of command.entry) explain_command) }
{
    with_command(command, explain(alloc)?)
}

// The commands that print messages.
fn printing<'a>(alloc: Global) -> Result<Command<'a>, AllocError>
    ensures { IfOk result (λ c. app_of c ≡ printing_commands) }
{
    with_explain(alloc, with_show(alloc, bare(alloc)?)?)
}

// A command with the one that checks.
fn with_check<'a>(alloc: Global, command: Command<'a>) -> Result<Command<'a>, AllocError>
    ensures { IfOk result (λ c. app_of c ≡ with_command (app_of command.entry) check_command) }
{
    with_command(command, check(alloc)?)
}

// A command with the one that narrows.
fn with_narrow<'a>(alloc: Global, command: Command<'a>) -> Result<Command<'a>, AllocError>
    ensures { IfOk result (λ c. app_of c ≡ with_command (app_of command.entry) (with_path_session (new_app (codes "narrow")))) }
{
    with_command(command, narrow(alloc)?)
}

// A command with the one that cleans.
fn with_clean<'a>(alloc: Global, command: Command<'a>) -> Result<Command<'a>, AllocError>
    ensures { IfOk result (λ c. app_of c ≡ with_command (app_of command.entry) clean_command) }
{
    with_command(command, clean(alloc)?)
}

// A command with the one that runs a script.
fn with_loop<'a>(alloc: Global, command: Command<'a>) -> Result<Command<'a>, AllocError>
    ensures { IfOk result (λ c. app_of c ≡ with_command (app_of command.entry) loop_command) }
{
    with_command(command, looping(alloc)?)
}

// The commands that judge messages.
fn judging<'a>(alloc: Global) -> Result<Command<'a>, AllocError>
    ensures { IfOk result (λ c. app_of c ≡ judging_commands) }
{
    with_check(alloc, printing(alloc)?)
}

// The command that prints digits.
fn to_hex<'a>(alloc: Global) -> Result<Command<'a>, AllocError>
    ensures shape { IfOk result (λ c. app_of c ≡ to_hex_command) }
    ensures local { IfOk result (λ c. (out-Command c).has_globals ≡ false) }
{
    let to_hex = named(
        alloc,
        "to-hex",
        "Print each message as one line of digits",
        TO_HEX_HELP,
    );
    with_refresh(alloc, to_hex)
}

// A command with the one that prints digits.
fn with_to_hex<'a>(alloc: Global, command: Command<'a>) -> Result<Command<'a>, AllocError>
    ensures { IfOk result (λ c. app_of c ≡ with_command (app_of command.entry) to_hex_command) }
{
    with_command(command, to_hex(alloc)?)
}

// A command with the one that reads digits.
fn with_from_hex<'a>(alloc: Global, command: Command<'a>) -> Result<Command<'a>, AllocError>
    ensures { IfOk result (λ c. app_of c ≡ with_command (app_of command.entry) (new_app (codes "from-hex"))) }
{
    let from_hex = named(
        alloc,
        "from-hex",
        "Write the octets of hexadecimal text",
        FROM_HEX_HELP,
    );
    with_command(command, from_hex)
}

// The commands that read a stream.
fn streaming<'a>(alloc: Global) -> Result<Command<'a>, AllocError>
    ensures { IfOk result (λ c. app_of c ≡ stream_commands) }
{
    let command = with_clean(alloc, with_narrow(alloc, judging(alloc)?)?)?;
    with_from_hex(alloc, with_to_hex(alloc, command)?)
}

/// The whole command line.
pub(crate) fn bgp<'a>(alloc: Global) -> Result<Command<'a>, AllocError>
    ensures { IfOk result (λ c. app_of c ≡ bgp_command) }
{
    with_loop(alloc, streaming(alloc)?)
}

/// The command of this name, one of those that judge messages.
pub(crate) fn judging_command<'a>(alloc: Global, name: &str) -> Result<Command<'a>, AllocError> {
    if name == "show" {
        return show(alloc)?.bin_name("bgp show");
    }
    if name == "explain" {
        return explain(alloc)?.bin_name("bgp explain");
    }
    if name == "check" {
        return check(alloc)?.bin_name("bgp check");
    }
    if name == "narrow" {
        return narrow(alloc)?.bin_name("bgp narrow");
    }
    clean(alloc)?.bin_name("bgp clean")
}
