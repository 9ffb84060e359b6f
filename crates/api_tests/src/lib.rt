//! Tests of calls that no program makes: on hosts, on a cut into lines after a fault, on a queue,
//! on a compilation, on a core graph at its limit, on the greatest delay, and on the requests of
//! command-line arguments.
//!
//! They are separate from the crates that they test, since a crate with tests is proved twice.
//!
//! [`compile_and_watch`] runs both programs, one after the other, over hosts in memory: `c2po`
//! compiles a text, and `r2u2` runs its output over a trace. Its contract has the ending of each
//! run, and the law `compiled_and_watched` for their logs.
#![tactic(auto)]

mod compared;
mod joined;

pub use compared::Compared;
pub use joined::{Ended, compile_and_watch};

#[cfg(test)]
mod compiling;
#[cfg(test)]
mod delays;
#[cfg(test)]
mod graphs;
#[cfg(test)]
mod hosts;
#[cfg(test)]
mod lines;
#[cfg(test)]
mod rings;
#[cfg(test)]
mod words;
