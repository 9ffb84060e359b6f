//! A plain and slow program that computes the definitions of meaning: known verdicts, words and
//! reports.
//!
//! It keeps all rows and makes every list from scratch, so it serves to check the engines and for
//! nothing else.
#![tactic(auto)]

pub mod formula;
mod kleene;
mod operators;
pub mod report;
pub mod values;
pub mod verdict;

pub use formula::{Atom, Formula, Output, Term};
pub use report::{reports, words};
pub use values::{holds, value};
pub use verdict::{Fault, meaning, verdicts};
