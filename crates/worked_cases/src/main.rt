//! Worked cases of both programs, and of the plain program that computes the definitions. A script
//! on the standard input has the expected results of runs over files in memory.
//!
//! The script explains its form at its head. Each difference is printed with the name and the line
//! of its case, and at the end a line says if all cases agree. The numbers of cases and runs go to
//! the error output, so that a new case changes no stored output.
#![tactic(auto)]

mod files;
mod host;
mod moments;
mod operands;
mod outcome;
mod piece;
mod plain;
mod print;
mod request;
mod run;
mod scene;
mod script;
mod setting;
mod step;
mod tally;

use crate::script::play;
use crate::tally::Tally;
use anyhow::Result;
use run::Programs;
use std::io;
use std::process::ExitCode;

fn play_input(rt: &(impl Print + Eprint + Input + AllocGlobal)) -> Result<Tally> {
    let script = io::read_to_string(rt.alloc(), rt.reader())?;
    let tally = play(rt, &Programs, rt.alloc(), script.as_str())?;
    eprintln!(rt; "{tally}")?;
    if tally.is_whole() {
        println!(rt; "all cases agree")?;
    }
    Ok(tally)
}

fn main(rt: HostRuntime) -> ExitCode {
    match play_input(&rt) {
        Ok(tally) if tally.is_whole() => ExitCode::SUCCESS,
        Ok(_) => ExitCode::FAILURE,
        Err(error) => {
            let _ = eprintln!(rt; "worked_cases: {error:#}");
            ExitCode::FAILURE
        }
    }
}
