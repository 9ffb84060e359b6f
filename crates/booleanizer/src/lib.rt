//! The Booleanizer: the integers and the Booleans of a program's instructions on one row of a
//! trace.
#![tactic(auto)]

mod bz;
mod evaluation;
mod row_fit;
mod soundness;

pub use bz::Bz;
pub use row_fit::is_fit;
pub use soundness::sound_instructions_compute;
