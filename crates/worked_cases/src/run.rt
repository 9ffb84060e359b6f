//! One run of a program over a host in memory.

use crate::host::host_of;
use crate::outcome::Outcome;
use crate::plain::plain_outcome;
use crate::scene::Scenes;
use crate::script::Run;
use crate::setting::Setting;
use anyhow::{Result, bail};
use mltl_tools::{Words, c2po_main, r2u2_main};
use std::alloc::{AllocError, Global};
use tool_io::{Host, MemHost};

/// The programs `r2u2`, `c2po` and `plain`, which computes the definitions.
pub struct Programs;

/// Returns the arguments after the program's name; `""` is an empty argument.
fn words_of(alloc: Global, text: &str) -> Result<Words, AllocError> {
    let mut words = Words::new(alloc);
    for word in text.split_whitespace() {
        words.push(if word == "\"\"" { "" } else { word })?;
    }
    Ok(words)
}

/// Returns the exit status of `r2u2` with these words.
fn r2u2_code<H: Host>(alloc: Global, words: &Words, host: &mut H) -> u8 {
    r2u2_main(alloc, words, host, &mut None).code()
}

/// Returns the exit status of `c2po` with these words.
fn c2po_code<H: Host>(alloc: Global, words: &Words, host: &mut H) -> u8 {
    c2po_main(alloc, words, host).code()
}

/// Returns the exit status of a program with these words.
fn status_of(alloc: Global, tool: &str, words: &Words, host: &mut MemHost) -> Result<u8> {
    match tool {
        "r2u2" => Ok(r2u2_code(alloc, words, host)),
        "c2po" => Ok(c2po_code(alloc, words, host)),
        _ => bail!("no such program: {tool}"),
    }
}

impl Run for Programs {
    fn outcome(
        &self,
        alloc: Global,
        scenes: &Scenes,
        text: &str,
        setting: Setting,
    ) -> Result<Outcome> {
        let (tool, rest) = text.split_once(' ').unwrap_or((text, ""));
        if tool == "plain" {
            return plain_outcome(alloc, rest);
        }
        let words = words_of(alloc, rest)?;
        let mut host = host_of(alloc, scenes, setting)?;
        let status = status_of(alloc, tool, &words, &mut host)?;
        Ok(Outcome {
            status,
            output: Vec::from_slice(alloc, host.out())?,
            errors: Vec::from_slice(alloc, host.err())?,
        })
    }
}
