//! The columns of signals, by the header of a trace.
//!
//! A header begins with `#` and names the columns, as one record of CSV.
#![tactic(auto)]

pub mod blanks;
mod columns;
mod header_fault;
mod named;
mod names;

pub use columns::{bind_to_header, header, header_of, in_order};
pub use header_fault::HeaderFault;
