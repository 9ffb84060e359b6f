//! The past-time engine: the values of all past-time instructions of a program, row by row.
//!
//! A Since keeps its past as boxes: stretches of times at which it will hold if its left operand
//! stays true.
#![tactic(auto)]

mod boxes;
pub mod bytes;
mod engine;
mod restart;
mod rows;
mod since;

pub use engine::Pt;
