//! Parts of both command lines: help, arguments of a command, and the matches of `clap`.

ghost use Rattle.std.specs.Prelude.{◌≡◌, true, false, IfOk, [], map, option_map};
ghost use Rattle.clap.specs.Words.{app_of, first_of, is_simple_and_free, rule_of};
ghost use Rattle.tool_words.specs.Reading as reading;
ghost use Rattle.tool_words.specs.Texts.{text_of};

use crate::Words;
use clap::error::ErrorKind;
use clap::{Arg, ArgAction, ArgMatches, Command};
use std::alloc::{AllocError, Global};

/// Returns true if the only argument is `--help` or `-h`.
pub(crate) fn asks_for_help(words: &Words) -> bool
    ensures { result ≡ reading.is_help (map text_of words.now) }
{
    if words.len() != 1 {
        return false;
    }
    let word = words.get(0);
    word == "--help" || word == "-h"
}

/// Makes a command without arguments. It has no `--help`, and the program's name isn't an argument.
pub(crate) fn bare_command<'a>(alloc: Global, name: &'a str) -> Command<'a>
    ensures { app_of result ≡ reading.command_of name.entry.now [] }
{
    Command::new(alloc, name)
        .no_binary_name(true)
        .disable_help_flag(true)
}

/// Makes a flag `--NAME`.
pub(crate) fn flag<'a>(alloc: Global, name: &'a str) -> Arg<'a>
    ensures rule { rule_of result ≡ reading.flag name.entry.now }
    ensures local { result.global ≡ false }
{
    Arg::new(alloc, name).long(name).action(ArgAction::SetTrue)
}

/// Makes an option `--NAME VALUE`.
pub(crate) fn option<'a>(alloc: Global, name: &'a str) -> Arg<'a>
    ensures rule { rule_of result ≡ reading.option name.entry.now }
    ensures local { result.global ≡ false }
{
    Arg::new(alloc, name).long(name)
}

/// Makes a positional argument.
pub(crate) fn positional<'a>(alloc: Global, name: &'a str) -> Arg<'a>
    ensures rule { rule_of result ≡ reading.positional name.entry.now }
    ensures local { result.global ≡ false }
{
    Arg::new(alloc, name)
}

/// Returns the matches of `clap` for the arguments, or `None` if they are invalid.
pub(crate) fn matches_in<'a>(
    command: Command<'a>,
    words: &'a Words,
) -> Result<Option<ArgMatches<'a>>, AllocError>
    requires { is_simple_and_free (app_of command) ≡ true }
    ensures { IfOk result (λ found. option_map reading.rows found
        ≡ reading.parsed_rows (app_of command.entry) (map text_of words.now)) }
{
    match command.try_get_matches_from(words.as_slice()) {
        Ok(matches) => Ok(Some(matches)),
        Err(error) => match error.kind() {
            ErrorKind::OutOfMemory => Err(AllocError),
            _ => Ok(None),
        },
    }
}

/// Returns true if the flag is among the arguments.
pub(crate) fn is_set(matches: &ArgMatches<'_>, name: &str) -> bool
    ensures { result ≡ reading.is_set name.now (reading.rows matches.now) }
{
    match value_of(matches, name) {
        Some(value) => value == "true",
        None => false,
    }
}

/// Returns the value of an option or a positional argument, if it is among the arguments.
pub(crate) fn value_of<'a>(matches: &ArgMatches<'a>, name: &str) -> Option<&'a str>
    ensures { option_map (λ value. value.now) result
        ≡ first_of name.now (reading.rows matches.now) }
{
    matches.get_str(name)
}
