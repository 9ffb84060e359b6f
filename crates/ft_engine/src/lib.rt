//! The future-time engine: the verdicts of all future-time instructions of a program, row by row.
//!
//! Each instruction has a queue. An operator decides a run of times at once: its strong Kleene
//! value over the known values of its operands, so its verdict comes as early as that value is
//! known.
#![tactic(auto)]

pub mod bytes;
mod conjunction;
mod engine;
pub mod laws;
mod negation;
mod operand;
mod queue;
mod restart;
mod rows;
mod until;

pub use conjunction::and_row;
pub use engine::Ft;
pub use negation::not_row;
pub use operand::Operand;
pub use until::{Until, until_row};
