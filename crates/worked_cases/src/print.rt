//! Messages for the differences between a run and its script.

use crate::outcome::{Outcome, Parts, parting};
use crate::request::Asked;
use crate::setting::Setting;
use anyhow::Result;
use std::alloc::{AllocError, Global};
use std::str;

/// Returns bytes as a text, or as hexadecimal digits if they aren't a text.
fn shown(alloc: Global, bytes: &[u8]) -> Result<String, AllocError> {
    let is_text = bytes.iter().all(|byte| *byte == b'\n' || *byte >= b' ');
    match str::from_utf8(bytes) {
        Ok(text) if is_text => String::from_str(alloc, text),
        _ => hex::encode(alloc, bytes),
    }
}

/// Prints the actual and the expected bytes.
fn print_both(
    rt: &impl Print,
    alloc: Global,
    name: &str,
    came: &[u8],
    wanted: &[u8],
) -> Result<()> {
    let (byte, line) = parting(came, wanted);
    let came = shown(alloc, came)?;
    let wanted = shown(alloc, wanted)?;
    println!(rt;
        "  {name}, which parts at byte {byte} in line {line}:\n{came}\n  wanted:\n{wanted}"
    )?;
    Ok(())
}

/// Prints the case and the run that differ.
fn print_head(rt: &impl Print, case: &str, asked: &Asked, setting: Setting) -> Result<()> {
    let line = asked.line;
    let words = asked.words.as_str();
    println!(rt; "{case}, line {line}: {words}\n  {setting}")?;
    Ok(())
}

/// Prints that the output after `lines` lines of the trace differs from what the script expects by
/// then.
pub fn print_untimely(
    rt: &impl Print,
    alloc: Global,
    case: &str,
    asked: &Asked,
    setting: Setting,
    came: &[u8],
    wanted: &[u8],
) -> Result<()> {
    print_head(rt, case, asked, setting)?;
    print_both(rt, alloc, "output before that call", came, wanted)
}

/// Prints the parts in which the outcome of a run differs from the expected one.
pub fn print_difference(
    rt: &impl Print,
    alloc: Global,
    case: &str,
    asked: &Asked,
    setting: Setting,
    found: &Outcome,
    parts: Parts,
) -> Result<()> {
    print_head(rt, case, asked, setting)?;
    if parts.status != asked.meant.status {
        let (came, wanted) = (found.status, asked.wanted.status);
        println!(rt; "  status {came}, wanted {wanted}")?;
    }
    if parts.output != asked.meant.output {
        print_both(rt, alloc, "output", &found.output, &asked.wanted.output)?;
    }
    if parts.errors != asked.meant.errors {
        print_both(
            rt,
            alloc,
            "error output",
            &found.errors,
            &asked.wanted.errors,
        )?;
    }
    Ok(())
}
