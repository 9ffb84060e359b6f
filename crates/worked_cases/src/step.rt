//! One line of a script, as a step.

use crate::piece::Piece;
use anyhow::{Context, Result, bail};
use tool_io::Place;

/// The step of one line of a script.
#[derive(Clone, Copy)]
pub enum Step<'a> {
    /// A remark.
    Remark,
    /// The line is empty, and a case ends here.
    Blank,
    /// A case of this name begins.
    Case(&'a str),
    /// A file of this name begins, with these bytes or with none.
    File(&'a str, Option<Piece<'a>>),
    /// The file goes on with these bytes.
    Add(Piece<'a>),
    /// These bytes are appended to the file, this many times.
    Repeat(u32, Piece<'a>),
    /// The byte at this place of the file has another value.
    Set(usize, u8),
    /// The file is cut to this many bytes.
    Cut(usize),
    /// The next run is made for each length of the file from the second down to the first.
    Each(usize, usize),
    /// Each later run is made once for each of these numbers: the most bytes that one read returns.
    Block(&'a str),
    /// In the next run this call at this place fails, counted from 0.
    Fail(Place, u64),
    /// A run of these words is requested.
    Run(&'a str),
    /// The run before the line ends with this status.
    Status(u8),
    /// The run before the line writes these bytes to its output.
    Output(Piece<'a>),
    /// The run before the line writes this line to its output before it reads more of its trace
    /// than this many lines.
    OutputAfter(usize, &'a str),
    /// The run before the line writes these bytes to its error output.
    Errors(Piece<'a>),
    /// The run before the line differs from its expected outcome, in the part of this name.
    Differs(&'a str),
    /// The output of the run before the line is kept as the file of this name.
    Keep(&'a str),
    /// The script has at least this many cases.
    Least(u32),
}

impl Step<'_> {
    /// Returns true if the step is a part of the expected outcome of the run before it.
    pub fn is_wanted(&self) -> bool {
        matches!(
            self,
            Step::Status(_)
                | Step::Output(_)
                | Step::OutputAfter(..)
                | Step::Errors(_)
                | Step::Differs(_)
        )
    }
}

/// Returns the step of a line.
pub fn step_of(line: &str) -> Result<Step<'_>> {
    if line.is_empty() {
        return Ok(Step::Blank);
    }
    let (head, rest) = line.split_once(' ').unwrap_or((line, ""));
    if let Some(piece) = Piece::of(head, rest) {
        return Ok(Step::Add(piece));
    }
    match head {
        "#" => Ok(Step::Remark),
        "case" => Ok(Step::Case(rest)),
        "block" => Ok(Step::Block(rest)),
        "$" => Ok(Step::Run(rest)),
        "=" => Ok(Step::Status(number_of(rest)?)),
        "differs" => Ok(Step::Differs(rest)),
        "keep" => Ok(Step::Keep(rest)),
        "cut" => Ok(Step::Cut(length_of(rest)?)),
        "least" => Ok(Step::Least(rest.parse::<u32>().context("a number of cases")?)),
        _ => longer_step_of(head, rest),
    }
}

/// Returns the step of a line that has two parts after its first word, or a mark and a kind of
/// bytes in its first word.
fn longer_step_of<'a>(head: &'a str, rest: &'a str) -> Result<Step<'a>> {
    let (first, second) = rest.split_once(' ').unwrap_or((rest, ""));
    match head {
        "file" => begun(first, second),
        "repeat" => repeated(first, second),
        "set" => changed(first, second),
        "each" => Ok(Step::Each(length_of(first)?, length_of(second)?)),
        "fail" => failing(first, second),
        _ => given(head, rest),
    }
}

fn number_of(text: &str) -> Result<u8> {
    text.parse::<u8>().context("a number below 256")
}

fn length_of(text: &str) -> Result<usize> {
    text.parse::<usize>().context("a number")
}

/// Returns the bytes in a part of a line.
fn piece_of(part: &str) -> Result<Piece<'_>> {
    let (head, rest) = part.split_once(' ').unwrap_or((part, ""));
    match Piece::of(head, rest) {
        Some(piece) => Ok(piece),
        None => bail!("no bytes: {part}"),
    }
}

fn begun<'a>(name: &'a str, part: &'a str) -> Result<Step<'a>> {
    if part.is_empty() {
        return Ok(Step::File(name, None));
    }
    Ok(Step::File(name, Some(piece_of(part)?)))
}

fn repeated<'a>(times: &'a str, part: &'a str) -> Result<Step<'a>> {
    let times = times.parse::<u32>().context("a number")?;
    Ok(Step::Repeat(times, piece_of(part)?))
}

fn changed<'a>(place: &'a str, digits: &'a str) -> Result<Step<'a>> {
    let byte = u8::from_str_radix(digits, 16).context("two digits of a byte")?;
    Ok(Step::Set(length_of(place)?, byte))
}

fn failing<'a>(place: &'a str, call: &'a str) -> Result<Step<'a>> {
    let call = call.parse::<u64>().context("the number of a call")?;
    Ok(Step::Fail(place_of(place)?, call))
}

fn place_of(name: &str) -> Result<Place> {
    match name {
        "spec" => Ok(Place::Spec),
        "header" => Ok(Place::Header),
        "program" => Ok(Place::Program),
        "trace" => Ok(Place::Trace),
        "out" => Ok(Place::Out),
        "err" => Ok(Place::Err),
        _ => bail!("no such place: {name}"),
    }
}

/// Returns the step of a line with an expected output.
fn given<'a>(head: &'a str, rest: &'a str) -> Result<Step<'a>> {
    if let Some(kind) = head.strip_prefix('>')
        && let Some(piece) = Piece::of_kind(kind, rest)
    {
        return Ok(Step::Output(piece));
    }
    if let Some(lines) = head.strip_prefix('>')
        && let Ok(lines) = lines.parse::<usize>()
    {
        return Ok(Step::OutputAfter(lines, rest));
    }
    if let Some(kind) = head.strip_prefix('!')
        && let Some(piece) = Piece::of_kind(kind, rest)
    {
        return Ok(Step::Errors(piece));
    }
    bail!("no such step: {head} {rest}")
}
