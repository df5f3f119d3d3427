//! The matches of the words, by `clap`.
ghost use Rattle.std.specs.Prelude.{◌≡◌, ◌≢◌, IfOk, OnOk, map, [], false, option_map, IsUtf8};
ghost use Rattle.std.specs.List.{All};
ghost use Rattle.clap.specs.Words.{app_of, first_of, found_of, kind_of, rows_of, rule_of};
ghost use Rattle.oxt_flags.specs.Flags.{flags, given_by};
ghost use Rattle.oxt_flags.specs.Matching.{app_with, found_rows, rule_for};
ghost use Rattle.oxt_flags.specs.Views.{flag_view};

use crate::flags::{Flag, flags};
use clap::error::ErrorKind;
use clap::{Arg, ArgAction, ArgMatches, Command, Error};
use oxt_names::ids::OutOfMemory;
use std::alloc::Global;

// The argument of a flag.
fn arg_of<'a>(alloc: Global, flag: Flag) -> Arg<'a>
    ensures rule { rule_of result ≡ rule_for (flag_view flag) }
    ensures local { result.global ≡ false }
{
    let action = if flag.takes_value {
        ArgAction::Set
    } else {
        ArgAction::SetTrue
    };
    Arg::new(alloc, flag.name).long(flag.name).action(action)
}

// The command with no arguments.
fn bare_command<'a>(alloc: Global) -> Command<'a>
    ensures { app_of result ≡ app_with [] }
{
    Command::new(alloc, "oxt")
        .no_binary_name(true)
        .disable_help_flag(true)
}

// The command with the arguments of all flags.
fn command_of<'a>(alloc: Global) -> Result<Command<'a>, OutOfMemory>
    ensures { IfOk result (λ command. app_of command ≡ app_with flags) }
{
    let mut command = bare_command(alloc);
    for flag in flags() {
        command = command.arg(arg_of(alloc, *flag))?;
    }
    Ok(command)
}

// What `clap` matches; none where it does not take the words.
pub(crate) fn matched<'a>(
    alloc: Global,
    words: &'a [&'a str],
) -> Result<Option<ArgMatches<'a>>, OutOfMemory>
    requires { All (λ w. IsUtf8 w.now) words.now }
    ensures { IfOk result (λ matches. option_map (λ m. rows_of (found_of m)) matches
        ≡ option_map found_rows (given_by (map (λ w. w.now) words.now))) }
{
    let command = command_of(alloc)?;
    match command.try_get_matches_from(words) {
        Ok(matches) => Ok(Some(matches)),
        Err(error) => {
            unless_memory(error)?;
            Ok(None)
        }
    }
}

// Passes want of memory on.
fn unless_memory(error: Error) -> Result<(), OutOfMemory>
    ensures { OnOk result (kind_of error ≢ ErrorKind.OutOfMemory) }
{
    match error.kind() {
        ErrorKind::OutOfMemory => Err(OutOfMemory),
        _ => Ok(()),
    }
}

// The value of the flag in the words; none where it was not given.
pub(crate) fn value_of<'a>(matches: &'a ArgMatches<'_>, flag: &str) -> Option<&'a str>
    ensures { option_map (λ value. value.now) result
        ≡ first_of flag.now (rows_of (found_of matches.now)) }
{
    matches.get_str(flag)
}
