//! Reports of the outputs of a program: the reports that are open after some rows, one after
//! another, and their lines.
#![tactic(auto)]

mod cursor;
mod engines;
mod first_report;
pub mod laws;
mod line;
mod outs;

pub use cursor::Cursor;
pub use line::{line_of, write_line};
pub use outs::Outs;
