//! The monitor of a checked program: it takes rows one by one, and returns the reports that each
//! row brings.
//!
//! This crate exports all that a program that embeds a monitor uses: the [`Monitor`] with its rows,
//! faults and reports, the [`Checked`] program that it is loaded with, and the call that binds a
//! program to the columns of a header, [`bind_to_header`].
#![tactic(auto)]

mod bursts;
pub mod bytes;
mod last_row;
pub mod laws;
mod monitor;
mod queries;
mod row_buffer;
mod row_fault;
mod running;
mod state;
mod unfit;

pub use bursts::most_reports;
pub use bytes::monitor_bytes;
pub use mltl_base::steps::Steps;
pub use mltl_base::{Report, Style, Word};
pub use monitor::Monitor;
pub use obs_verify::Checked;
pub use queries::{delay_of, row_work};
pub use row_fault::RowFault;
pub use trace_feed::{HeaderFault, RowAnswer, bind_to_header};
