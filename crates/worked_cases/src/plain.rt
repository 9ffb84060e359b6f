//! The definitions of meaning, computed by the plain program over the formula and the rows of a
//! run.
//!
//! Operators follow their operands, as in `a b U0,3`: `a` and `b` are the first two columns as
//! Booleans, `x` is the first one as an integer.

ghost use Rattle.std.specs.Prelude.{◌^◌, ◌≤◌, length};

use crate::operands::Operands;
use crate::outcome::Outcome;
use anyhow::{Context, Error, Result, anyhow, bail};
use mltl_base::{List, Style};
use mltl_oracle::{Fault, Output, meaning, reports, verdicts, words};
use std::alloc::Global;
use std::fmt::Write;

/// Returns the outputs of a text: each formula or contract that no operator takes.
fn outputs_of(alloc: Global, text: &str) -> Result<Vec<Output>> {
    let mut operands = Operands::new(alloc);
    for word in text.split_whitespace() {
        operands.take(word)?;
    }
    Ok(operands.into_outputs())
}

/// Returns the rows of a text. Commas separate the columns.
fn rows_of(alloc: Global, text: &str) -> Result<List<List<i64>>> {
    let mut rows = List::new(alloc);
    for word in text.split_whitespace() {
        let mut row = List::new(alloc);
        for field in word.split(',') {
            row.push(field.parse()?)?;
        }
        rows.push(row)?;
    }
    Ok(rows)
}

/// Returns the text that is printed after each row: its number, and the output, the time and the
/// word of each report.
fn told(alloc: Global, style: Style, outs: &[Output], rows: &[List<i64>]) -> Result<String>
    requires few { length outs.now ≤ 2 ^ 32 }
{
    let mut text = String::new(alloc);
    for n in 0..rows.len() {
        let row = n + 1;
        write!(text, "{row}:")?;
        let all = reports(alloc, style, outs, &rows[..row]).map_err(fault)?;
        for report in all.as_slice() {
            let (out, time, word) = (report.out, report.time, report.word.text());
            write!(text, " {out}:{time},{word}")?;
        }
        text.push_str("\n")?;
    }
    Ok(text)
}

/// Returns the words of each output that are known after all rows.
fn known(alloc: Global, outs: &[Output], rows: &[List<i64>]) -> Result<String> {
    let mut text = String::new(alloc);
    for output in outs {
        let all = words(alloc, rows, output).map_err(fault)?;
        for word in all.as_slice() {
            text.push_str(word.text())?;
        }
        text.push_str("\n")?;
    }
    Ok(text)
}

/// Returns the verdicts of a formula that are known after all rows, and its meaning at each of
/// their times.
fn decided(alloc: Global, outs: &[Output], rows: &[List<i64>]) -> Result<String> {
    let mut text = String::new(alloc);
    for output in outs {
        let Output::Formula(p) = output else {
            bail!("a contract has no verdicts");
        };
        let count = verdicts(alloc, rows, p).map_err(fault)?.len();
        write!(text, "{count}:")?;
        for t in 0..rows.len() {
            match meaning(alloc, rows, p, t).map_err(fault)? {
                Some(truth) => write!(text, " {truth}")?,
                None => text.push_str(" unknown")?,
            }
        }
        text.push_str("\n")?;
    }
    Ok(text)
}

fn fault(fault: Fault) -> Error {
    match fault {
        Fault::Memory => anyhow!("out of memory"),
        Fault::Number => anyhow!("a number leaves 64 bits, or a divisor is 0"),
    }
}

/// Returns the output of the plain program for `each`, `runs`, `words` or `meaning`, then the
/// formulas, `over`, and the rows.
pub fn shown(alloc: Global, text: &str) -> Result<String> {
    let (kind, rest) = text.split_once(' ').context("no formula")?;
    let (formulas, rows) = rest.split_once(" over ").context("no rows")?;
    let outs = outputs_of(alloc, formulas)?;
    let rows = rows_of(alloc, rows)?;
    if outs.len() > 9 {
        bail!("more than nine outputs");
    }
    match kind {
        "each" => told(alloc, Style::Each, outs.as_slice(), rows.as_slice()),
        "runs" => told(alloc, Style::Runs, outs.as_slice(), rows.as_slice()),
        "words" => known(alloc, outs.as_slice(), rows.as_slice()),
        "meaning" => decided(alloc, outs.as_slice(), rows.as_slice()),
        _ => bail!("no such answer: {kind}"),
    }
}

/// Runs the plain program. Its result is the output; if it fails, the error is the error output.
pub fn plain_outcome(alloc: Global, text: &str) -> Result<Outcome> {
    let mut outcome = Outcome::new(alloc);
    match shown(alloc, text) {
        Ok(answer) => outcome.output.extend_from_slice(answer.as_bytes())?,
        Err(error) => {
            outcome.status = 1;
            let reason = format!(in alloc; "{error}\n")?;
            outcome.errors.extend_from_slice(reason.as_bytes())?;
        }
    }
    Ok(outcome)
}
