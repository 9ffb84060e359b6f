//! The rows of a trace.
//!
//! A row is cut only at its commas, and read without allocation, in the columns that instructions
//! of a checked program name.
#![tactic(auto)]

mod fields;
mod laws;
mod readings;
mod rows;
mod trace_why;
mod unread_fields;

pub use fields::{FieldFault, Reading};
pub use laws::rows_are_fit;
pub use readings::Readings;
pub use rows::{RowAnswer, row_fields, row_fields_by};
pub use trace_columns::{HeaderFault, bind_to_header, header, header_of, in_order};
pub use trace_why::TraceWhy;
