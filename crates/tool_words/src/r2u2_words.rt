//! Requests of the arguments of `r2u2`.

ghost use Rattle.std.specs.Prelude.{◌≡◌, ◌≤◌, ◌^◌, IfOk, IfSome, option_map};
ghost use Rattle.mltl_base.specs.declared.limits.TheConstants.{MAX_MISSION};
ghost use Rattle.clap.specs.Words.{app_of};
ghost use Rattle.tool_words.specs.R2u2Words as r2u2;
ghost use Rattle.tool_words.specs.Reading.{rows};

use crate::arguments::{
    asks_for_help, bare_command, flag, is_set, matches_in, option, positional, value_of,
};
use crate::numbers::Numbers;
use crate::{FileKind, Words};
use clap::{ArgMatches, Command};
use mltl_base::Style;
use mltl_base::limits::{MAX_MISSION, TIMED_MISSION};
use std::alloc::{AllocError, Global};

/// A run of the monitor over a trace.
#[derive(Clone, Copy, Debug)]
pub struct Run<'a> {
    /// The kind of the file.
    pub kind: FileKind,
    pub style: Style,
    /// True if the rows of the trace are stamped.
    pub timed: bool,
    /// The mission time: the most lines of the trace, and with stamps also the most times.
    pub mission: u64,
    pub file: &'a str,
    /// The trace, or `-` for the standard input.
    pub trace: &'a str,
}

/// A request of the arguments of `r2u2`.
#[derive(Clone, Copy, Debug)]
pub enum R2u2Ask<'a> {
    Help,
    Run(Run<'a>),
    /// A run over this many rows, which are generated from the seed.
    Demo { seed: u32, rows: u32 },
    /// The arguments are invalid.
    Nothing,
}

/// The numbers that `--mission-time` takes.
const MISSION_TIMES: Numbers = Numbers {
    digits: 13,
    least: 1,
    greatest: MAX_MISSION,
};

/// The numbers that `--demo` takes before its comma.
const SEEDS: Numbers = Numbers {
    digits: 10,
    least: 0,
    greatest: u32::MAX as u64,
};

/// The numbers that `--demo` takes after its comma.
const ROW_COUNTS: Numbers = Numbers {
    digits: 10,
    least: 1,
    greatest: 10_000_000,
};

/// Reads the arguments of `r2u2`, without the program's name. It fails only if out of memory.
pub fn r2u2_ask<'a>(alloc: Global, words: &'a Words) -> Result<R2u2Ask<'a>, AllocError>
    ensures asked { IfOk result (λ asked. r2u2.asked_of asked ≡ r2u2.ask words.now) }
    ensures bounds { IfOk result r2u2.IsInBounds }
{
    if !words.are_texts() {
        return Ok(R2u2Ask::Nothing);
    }
    if asks_for_help(words) {
        return Ok(R2u2Ask::Help);
    }
    match matches_in(command(alloc)?, words)? {
        Some(matches) => Ok(asked_in(&matches)),
        None => Ok(R2u2Ask::Nothing),
    }
}

fn command<'a>(alloc: Global) -> Result<Command<'a>, AllocError>
    ensures { IfOk result (λ made. app_of made ≡ r2u2.command) }
{
    bare_command(alloc, "r2u2")
        .arg(flag(alloc, "source"))?
        .arg(flag(alloc, "runs"))?
        .arg(flag(alloc, "timed"))?
        .arg(option(alloc, "mission-time"))?
        .arg(option(alloc, "demo"))?
        .arg(positional(alloc, "file"))?
        .arg(positional(alloc, "trace"))
}

fn asked_in<'a>(matches: &ArgMatches<'a>) -> R2u2Ask<'a>
    ensures asked { r2u2.asked_of result ≡ r2u2.r2u2_request_in (rows matches.now) }
    ensures bounds { r2u2.IsInBounds result }
{
    match value_of(matches, "demo") {
        Some(word) => {
            if is_alone(matches) {
                demo_in(word)
            } else {
                R2u2Ask::Nothing
            }
        }
        None => match run_in(matches) {
            Some(run) => R2u2Ask::Run(run),
            None => R2u2Ask::Nothing,
        },
    }
}

/// Returns true if no file is named, and there is no option but `--demo`.
fn is_alone(matches: &ArgMatches<'_>) -> bool
    ensures { result ≡ r2u2.is_demo_alone (rows matches.now) }
{
    !is_set(matches, "source")
        && !is_set(matches, "runs")
        && !is_set(matches, "timed")
        && value_of(matches, "mission-time").is_none()
        && value_of(matches, "file").is_none()
}

/// Returns the request of the word `SEED,ROWS`.
fn demo_in<'a>(word: &str) -> R2u2Ask<'a>
    ensures asked { r2u2.asked_of result ≡ r2u2.demo_in word.now }
    ensures bounds { r2u2.IsInBounds result }
{
    let Some((seed, rows)) = word.split_once(',') else {
        return R2u2Ask::Nothing;
    };
    match (SEEDS.read(seed), ROW_COUNTS.read(rows)) {
        (Some(seed), Some(rows)) => R2u2Ask::Demo {
            seed: seed as u32,
            rows: rows as u32,
        },
        _ => R2u2Ask::Nothing,
    }
}

/// Returns the run over a file, or `None` if no file is named or the mission time can't be read.
fn run_in<'a>(matches: &ArgMatches<'a>) -> Option<Run<'a>>
    ensures asked { option_map r2u2.run_of result ≡ r2u2.run_in (rows matches.now) }
    ensures bounds { IfSome result (λ run. (1 ≤ run.mission) × (run.mission ≤ MAX_MISSION)) }
{
    let file = value_of(matches, "file")?;
    let mission = mission_time(matches)?;
    Some(Run {
        kind: file_kind(matches),
        style: style(matches),
        timed: is_set(matches, "timed"),
        mission,
        file,
        trace: value_of(matches, "trace").unwrap_or("-"),
    })
}

fn file_kind(matches: &ArgMatches<'_>) -> FileKind
    ensures { result ≡ r2u2.kind_in (rows matches.now) }
{
    if is_set(matches, "source") {
        FileKind::Spec
    } else {
        FileKind::Program
    }
}

fn style(matches: &ArgMatches<'_>) -> Style
    ensures { result ≡ r2u2.style_in (rows matches.now) }
{
    if is_set(matches, "runs") {
        Style::Runs
    } else {
        Style::Each
    }
}

fn mission_time(matches: &ArgMatches<'_>) -> Option<u64>
    ensures read { result ≡ r2u2.mission_in (rows matches.now) }
    ensures bounds { IfSome result (λ n. (1 ≤ n) × (n ≤ MAX_MISSION)) }
{
    match value_of(matches, "mission-time") {
        Some(word) => MISSION_TIMES.read(word),
        None if is_set(matches, "timed") => Some(TIMED_MISSION),
        None => Some(MAX_MISSION),
    }
}
