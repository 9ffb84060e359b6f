//! Requests of the arguments of `c2po`.

ghost use Rattle.std.specs.Prelude.{◌≡◌, false, IfOk};
ghost use Rattle.clap.specs.Words.{app_of, rule_of};
ghost use Rattle.tool_words.specs.C2poWords as c2po;
ghost use Rattle.tool_words.specs.Reading.{rows};

use crate::Words;
use crate::arguments::{
    asks_for_help, bare_command, flag, is_set, matches_in, option, positional, value_of,
};
use clap::{Arg, ArgMatches, Command};
use std::alloc::{AllocError, Global};

/// A request to compile a specification.
#[derive(Clone, Copy, Debug)]
pub struct Compile<'a> {
    /// The file whose first line names the columns.
    pub header: Option<&'a str>,
    /// The file that is written, or `None` for the standard output.
    pub out: Option<&'a str>,
    /// True if the instruction table is written instead of the image.
    pub table: bool,
    pub simplify: bool,
    pub spec: &'a str,
}

/// A request of the arguments of `c2po`.
#[derive(Clone, Copy, Debug)]
pub enum C2poAsk<'a> {
    Help,
    Compile(Compile<'a>),
    /// A program is upgraded into a file.
    Upgrade {
        out: &'a str,
        program: &'a str,
    },
    /// A program is shown as text, in a file or on the standard output.
    Show {
        out: Option<&'a str>,
        program: &'a str,
    },
    /// The arguments are invalid.
    Nothing,
}

/// The file that is written if none is named.
const DEFAULT_OUT: &str = "spec.bin";

/// Reads the arguments of `c2po`, without the program's name. It fails only if out of memory.
pub fn c2po_ask<'a>(alloc: Global, words: &'a Words) -> Result<C2poAsk<'a>, AllocError>
    ensures { IfOk result (λ asked. c2po.asked_of asked ≡ c2po.ask words.now) }
{
    if !words.are_texts() {
        return Ok(C2poAsk::Nothing);
    }
    if asks_for_help(words) {
        return Ok(C2poAsk::Help);
    }
    match matches_in(command(alloc)?, words)? {
        Some(matches) => Ok(asked_in(&matches)),
        None => Ok(C2poAsk::Nothing),
    }
}

fn command<'a>(alloc: Global) -> Result<Command<'a>, AllocError>
    ensures { IfOk result (λ made. app_of made ≡ c2po.command) }
{
    bare_command(alloc, "c2po")
        .arg(option(alloc, "header"))?
        .arg(output(alloc))?
        .arg(flag(alloc, "table"))?
        .arg(flag(alloc, "simplify"))?
        .arg(flag(alloc, "upgrade"))?
        .arg(flag(alloc, "show"))?
        .arg(positional(alloc, "file"))
}

/// Makes the option `-o FILE` or `--output FILE`.
fn output<'a>(alloc: Global) -> Arg<'a>
    ensures rule { rule_of result ≡ c2po.output }
    ensures local { result.global ≡ false }
{
    option(alloc, "output").short('o')
}

fn asked_in<'a>(matches: &ArgMatches<'a>) -> C2poAsk<'a>
    ensures { c2po.asked_of result ≡ c2po.c2po_request_in (rows matches.now) }
{
    let Some(file) = value_of(matches, "file") else {
        return C2poAsk::Nothing;
    };
    let upgrades = is_set(matches, "upgrade");
    let shows = is_set(matches, "show");
    let out = value_of(matches, "output");
    match (upgrades, shows, compiles(matches)) {
        (false, false, _) => C2poAsk::Compile(compilation(matches, file)),
        (true, false, false) => C2poAsk::Upgrade {
            out: out.unwrap_or(DEFAULT_OUT),
            program: file,
        },
        (false, true, false) => C2poAsk::Show { out, program: file },
        _ => C2poAsk::Nothing,
    }
}

/// Returns true if an option for compiling alone is among the arguments.
fn compiles(matches: &ArgMatches<'_>) -> bool
    ensures { result ≡ c2po.is_compiling (rows matches.now) }
{
    value_of(matches, "header").is_some() || is_set(matches, "table") || is_set(matches, "simplify")
}

fn compilation<'a>(matches: &ArgMatches<'a>, spec: &'a str) -> Compile<'a>
    ensures { c2po.compile_of result ≡ c2po.compile_in (rows matches.now) spec.entry.now }
{
    let table = is_set(matches, "table");
    let named = value_of(matches, "output");
    let out = if table {
        named
    } else {
        Some(named.unwrap_or(DEFAULT_OUT))
    };
    Compile {
        header: value_of(matches, "header"),
        out,
        table,
        simplify: is_set(matches, "simplify"),
        spec,
    }
}
