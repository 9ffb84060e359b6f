//! The monitor as a library for C. `embed/include/r2u2.h` declares its calls and the duties of a
//! caller in C.
//!
//! C keeps a struct [`R2u2`], all zero at first, and passes its address to each call. It passes
//! nothing for an allocator, which has no bytes. If a call returns a code of [`codes`] above 0, the
//! monitor is unchanged, and nothing but a fault is written. All memory is allocated when a program
//! is opened.
#![tactic(auto)]

mod batches;
mod boxes;
pub mod bytes;
mod c_monitor;
pub mod codes;
mod digests;
mod exports;
mod fault;
mod fault_text;
mod handle;
mod names;
mod opened;
mod queries;
mod report;
mod row_batches;
mod row_why;
pub mod version;

pub use batches::{Batch, r2u2_next_many};
pub use bytes::r2u2_bytes;
pub use c_monitor::R2u2;
pub use digests::{ProgramDigest, r2u2_open_checked};
pub use exports::{r2u2_close_struct, r2u2_next, r2u2_open, r2u2_open_under, r2u2_reset, r2u2_row};
pub use fault::Fault;
pub use opened::OpeningFault;
pub use queries::{
    r2u2_delay, r2u2_most_reports, r2u2_name, r2u2_output_kind, r2u2_outputs, r2u2_rows,
    r2u2_signal, r2u2_signals, r2u2_steps, r2u2_version, r2u2_width,
};
pub use report::Told;
pub use row_batches::r2u2_row_many;
pub use row_why::RowWhy;
